//! Laws of what an agreeing core knows of its history.

ghost use Rattle.iris_invariant.specs.Knowledge.{FetchesTell, MarksCrowd, MarksTell, NeedsAreNew, UnmarkedIsSynced};

use iris_history::Portal;

/// What residency and mark tell of a name.
pub fn marks_tell<P: Portal>()
    ensures { MarksTell P.kept P.rules }
{}

/// Where no name is marked, none is dirty.
pub fn unmarked_is_synced<P: Portal>()
    ensures { UnmarkedIsSynced P.kept P.rules }
{}

/// So many marked names crowd the history.
pub fn marks_crowd<P: Portal>()
    ensures { MarksCrowd P.kept P.rules }
{}

/// What a get that is out, and no challenge's, tells of its name.
pub fn fetches_tell<P: Portal>()
    ensures { FetchesTell P.kept P.rules }
{}

/// A live name that is absent isn't kept for anybody.
pub fn needs_are_new<P: Portal>()
    ensures { NeedsAreNew P.kept P.rules }
{}
