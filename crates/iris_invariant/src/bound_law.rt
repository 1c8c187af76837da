//! Laws of how many names are marked at most.

ghost use Rattle.iris_invariant.specs.Bounds.{CallsKeepTheBound, CallsMarkAtMost, ListsCount, MendsMarkOne, OthersMarkNothing};

use iris_history::Portal;

/// A list with each marked name of a kind has as many names at least.
pub fn lists_count()
    ensures { ListsCount }
{}

/// After a call no more names are marked than before and than it changes.
pub fn calls_mark_at_most<P: Portal>()
    ensures { CallsMarkAtMost P.kept }
{}

/// Fewer than 448 marked blocks are at most 512 after a call that changes at most 65.
pub fn calls_keep_the_bound<P: Portal>()
    ensures { CallsKeepTheBound P.kept }
{}

/// A mend marks one name at most.
pub fn mends_mark_one<P: Portal>()
    ensures { MendsMarkOne P.kept }
{}

/// Every other event marks nothing.
pub fn others_mark_nothing()
    ensures { OthersMarkNothing }
{}
