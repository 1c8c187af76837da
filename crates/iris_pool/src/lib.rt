//! The pool: cached nodes, resident blocks, and what is asked, out, kept and doomed, with the ties between them.
#![tactic(auto)]

pub mod asking;
mod by_name;
pub mod chores;
pub mod counts;
pub mod gets;
pub mod going;
pub mod landing;
pub mod laws;
pub mod opening;
pub mod pool;
mod seats;
pub mod settling;

pub use laws::{cells_land, marks_are_counted};
pub use pool::Pool;
