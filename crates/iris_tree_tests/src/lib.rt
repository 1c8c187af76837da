//! Tests of plans over a cache, also beside the table of rows. No code but tests.
#![tactic(auto)]

#[cfg(test)]
mod beside;
#[cfg(test)]
mod crowds;
#[cfg(test)]
mod directories;
#[cfg(test)]
mod filling;
#[cfg(test)]
mod versions;
