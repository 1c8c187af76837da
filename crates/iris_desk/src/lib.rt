//! What is out at each caller's desk, what is asked there, and which names are kept and doomed.
#![tactic(auto)]

pub mod desk;
pub mod desks;
pub mod laws;
pub mod out;

pub use desk::Desk;
pub use desks::{CALLERS, Desks};
pub use laws::{
    ask_looks_up, begin_looks_up, end_looks_up, enter_looks_up, listed_is_out, out_is_at_its_desk,
    touch_looks_up,
};
pub use out::{Doing, Out, Record, Task};
