//! What the tests of trees and of files share: choices from a fixed seed, nodes and blocks that are taken in as plans lack them, and
//! short ways to plan and to make the plan.
#![tactic(auto)]

pub mod blocks;
pub mod dice;
pub mod fetching;
pub mod keeping;
pub mod planning;
pub mod versions;
