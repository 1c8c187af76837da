//! Laws of one note more: how it changes whether a name is clean, doomed or unsure.

ghost use Rattle.iris_history.specs.StatusLaws.{OtherNotesKeepStatus, IdleCallsKeepStatus, ChangesMakeUnclean, RemovalsDoom, GetsBringDoubt, PutsMakeClean, PutsOfGoneKeepStatus, DiscardsMakeUnclean, DiscardsEndDoom};

use crate::Portal;

/// A note that is no transfer of a name, and leaves what it stands for, leaves whether it is clean, doomed or unsure.
pub fn other_notes_keep_status<P: Portal>()
    ensures { OtherNotesKeepStatus P.kept }
{}

/// So does a call that leaves the table.
pub fn idle_calls_keep_status<P: Portal>()
    ensures { IdleCallsKeepStatus P.kept }
{}

/// A name that a call changes, or makes live, is neither clean nor doomed; a doubt about a block stays.
pub fn changes_make_unclean<P: Portal>()
    ensures { ChangesMakeUnclean P.kept }
{}

/// A name that a call takes away is doomed.
pub fn removals_doom<P: Portal>()
    ensures { RemovalsDoom P.kept }
{}

/// A get leaves whether a name is clean or doomed. A live block is unsure after it if and only if it failed or was other.
pub fn gets_bring_doubt<P: Portal>()
    ensures { GetsBringDoubt P.kept }
{}

/// A live name is clean after a put if and only if that was answered ok and the name stood for the same since it began.
pub fn puts_make_clean<P: Portal>()
    ensures { PutsMakeClean P.kept }
{}

/// A put of a name that isn't live leaves its status.
pub fn puts_of_gone_keep_status<P: Portal>()
    ensures { PutsOfGoneKeepStatus P.kept }
{}

/// A live name is not clean after a discard.
pub fn discards_make_unclean<P: Portal>()
    ensures { DiscardsMakeUnclean P.kept }
{}

/// A doomed name stays doomed after a discard, unless that was answered ok and the name wasn't live since it began.
pub fn discards_end_doom<P: Portal>()
    ensures { DiscardsEndDoom P.kept }
{}
