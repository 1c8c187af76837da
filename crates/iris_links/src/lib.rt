//! How many links lead to each entry, and from which one.
#![tactic(auto)]

pub mod linked;
pub mod links;
pub mod nodes;

pub use linked::{Holders, Linked};
pub use links::Links;
pub use nodes::MOST_LINKS;
