//! The treap of a directory, changed in place over cache and draft.
#![tactic(auto)]

pub mod finding;
mod inserting;
pub mod listing;
pub mod placing;
mod removing;

pub use finding::plan_find;
pub use inserting::plan_insert;
pub use iris_treepaths::{given_up, is_directory, new_row_in_hand, recount};
pub use listing::plan_after;
pub use placing::plan_place;
pub use removing::plan_remove;
