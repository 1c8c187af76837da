//! Laws of the table of rows and of what its names stand for. Only proofs cite them.
#![tactic(auto)]

pub mod law;
