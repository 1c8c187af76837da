//! The partly resident tree, and drafts over it.
#![tactic(auto)]

pub mod apply;
pub mod cache;
pub mod draft;
pub mod edits;
pub mod flags;
pub mod held;
pub mod holder;
pub(crate) mod idle;
pub mod index;
pub mod laws;
pub mod marks;
pub mod parents;
pub mod parts;
pub mod places;
pub mod rehash;
pub mod settle;
pub mod ties;

pub use cache::Cache;
pub use draft::{Change, Draft};
pub use held::{Held, Short, Stay};
pub use laws::{
    alike_keeps, apply_keeps, apply_marks, child_was_live, draft_begins, evict_keeps, insert_keeps,
    set_hash_keeps,
};
