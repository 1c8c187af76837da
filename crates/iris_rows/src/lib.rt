//! The table of rows that lies beneath the plain file system, as definitions: its step, its view and what is sound; and a row
//! and its file as the program keeps them.
#![tactic(auto)]

pub mod digits;
pub mod file;
pub mod item;
pub mod law;
pub mod places;
