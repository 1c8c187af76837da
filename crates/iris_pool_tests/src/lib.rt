//! Tests of the pool with ample memory. No code but tests.
#![tactic(auto)]

#[cfg(test)]
mod beginnings;
#[cfg(test)]
mod landings;
#[cfg(test)]
mod names;
