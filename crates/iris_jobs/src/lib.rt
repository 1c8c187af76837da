//! What is out between two events of a portal: gets with the check of their answers, and puts and discards. Nothing here knows the cache.
#![tactic(auto)]

pub mod chore;
pub mod job;

pub use chore::{Away, Chore, Sealed, Unsealed};
pub use job::{Brought, Checked, Job};
