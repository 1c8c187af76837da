//! The plain file system that clients see, as a slow program over a list of paths.
#![tactic(auto)]

pub mod bytes;
pub mod checks;
pub mod files;
pub mod step;

pub use checks::Seen;
pub use files::{Entry, Kind};
pub use step::Plain;
