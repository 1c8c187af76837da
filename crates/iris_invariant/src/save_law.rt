//! Laws of what is saved, and of what is started from it.

ghost use Rattle.iris_invariant.specs.SaveLaws.{AgreedIsSaved, StartsAgree};

use iris_history::Portal;

/// A core just started agrees with each history that its state saves.
pub fn starts_agree<P: Portal>()
    ensures { StartsAgree P.kept P.rules }
{}

/// What is dirty, and what is listed as doomed, saves the history.
pub fn agreed_is_saved<P: Portal>()
    ensures { AgreedIsSaved P.kept P.rules }
{}
