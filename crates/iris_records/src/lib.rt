//! What lies in the store for a table: the records of all live names, the root hash, and the walk over all blocks.
#![tactic(auto)]

pub mod challenge;
mod entries;
mod parts;
pub mod records;
pub mod shelf;

pub use challenge::probe;
pub use records::{records_of, root_of};
