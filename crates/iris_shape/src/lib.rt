//! The shapes of directories and of version trees, from scratch, and their laws.
#![tactic(auto)]

pub mod folding;
pub mod heaping;
pub mod laws;
pub mod rows;

pub use folding::{Folded, fold};
pub use heaping::{Shape, treap};
pub use rows::Row;
