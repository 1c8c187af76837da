//! What a core keeps agrees with its history, event by event: the laws of iris_invariant over the pool, and over requests planned whole.
//!
//! Each law is the contract of a function that does nothing.
#![tactic(auto)]

pub mod calls;
pub mod links;
pub mod quiet;
pub mod transfers;
