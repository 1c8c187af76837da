//! The definitions of a portal's histories, for every table, and the laws that make them trustworthy.
//!
//! Each law is the contract of a function that does nothing: it holds for every portal and every history. Worked examples
//! of each definition stand in the proofs.
#![tactic(auto)]

pub mod law;
pub mod status_law;

ghost use Rattle.iris_history.specs.Kept.{Kept};
ghost use Rattle.iris_history.specs.Legal.{Rules};

/// A portal over some table: what is kept there, and what is asked of calls.
pub trait Portal {
    /// The table, and what of it stands in the store.
    ghost kept: { Kept };

    /// Which replies are right.
    ghost rules: { Rules };

    /// Does nothing. A trait states its members by its functions.
    fn stands();
}
