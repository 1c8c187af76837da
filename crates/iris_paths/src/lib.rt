//! Paths over cache and draft: resolving, new files and directories, renaming, and what is read of them.
#![tactic(auto)]

pub mod entering;
pub mod making;
pub mod moving;
pub mod reading;
pub mod resolving;

pub use making::plan_make;
pub use moving::plan_rename;
pub use reading::{look, plan_list, plan_stat};
pub use resolving::{Found, resolve};
