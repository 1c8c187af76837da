//! The nodes of a directory's rows, paths down their treap, and the counts above them.
#![tactic(auto)]

pub mod counting;
pub mod hashes;
pub mod kinds;
pub mod laws;
pub mod nodes;
pub mod paths;

pub use counting::recount;
pub use kinds::is_directory;
pub use laws::{given_up, new_row_in_hand};
