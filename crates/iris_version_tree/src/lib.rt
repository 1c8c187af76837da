//! Version trees over cache and draft.
#![tactic(auto)]

pub mod parts;
pub mod reading;
pub mod setting;
pub mod walk;

pub use reading::{first_written, version_at};
pub use setting::plan_set;
pub use walk::{file_entry, is_file};
