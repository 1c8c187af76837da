//! Tests of caches of nodes, of who links to whom, and of what is written back. No code but tests.
#![tactic(auto)]

#[cfg(test)]
mod counting;
#[cfg(test)]
mod holding;
#[cfg(test)]
mod linking;
#[cfg(test)]
mod marking;
#[cfg(test)]
mod settling;
#[cfg(test)]
mod upkeep;
