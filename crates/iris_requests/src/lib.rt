//! What a request is answered, and what it changes, over cache and resident blocks.
#![tactic(auto)]

pub mod files;
pub mod looks;
pub mod planned;
pub mod planning;
pub mod rows;
mod values;

pub use planned::{Counters, Planned};
pub use planning::plan;
