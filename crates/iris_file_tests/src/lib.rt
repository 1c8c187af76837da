//! Tests of plans on files over a cache and resident blocks, also beside the table of rows. No code but tests.
#![tactic(auto)]

#[cfg(test)]
mod asking;
#[cfg(test)]
mod beside;
#[cfg(test)]
mod blocks;
#[cfg(test)]
mod comparing;
#[cfg(test)]
mod cost;
#[cfg(test)]
mod filling;
#[cfg(test)]
mod limits;
#[cfg(test)]
mod planning;
#[cfg(test)]
mod rows;
