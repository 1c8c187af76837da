//! What a core asks of a cache when it writes back: the lowest dirty node, and settling from the leaves up.
#![tactic(auto)]

pub mod children;
pub mod descent;
pub mod settling;

pub use children::{Children, children_of};
pub use descent::{What, lowest};
pub use settling::settle_all;
