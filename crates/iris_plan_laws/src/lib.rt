//! What a request's step is in the words of the plans, and that what a plan leaves pictures the next table.
#![tactic(auto)]

pub mod laws;
