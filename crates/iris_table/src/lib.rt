//! The table of rows that lies beneath the plain file system, as a slow program.
#![tactic(auto)]

pub mod moving;
pub mod rows;
mod runs;
pub mod state;
pub mod step;
pub mod trash;

pub use iris_records::{records_of, root_of};
pub use iris_rows::law::{steps_stay_sound, views_agree};
pub use step::Table;
