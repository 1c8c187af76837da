//! Laws of caches that picture a table.

ghost use Rattle.iris_cache.specs.Laws.{AlikeKeeps, ApplyKeeps, ApplyMarks, ChildWasLive, DraftBegins, EvictKeeps, InsertKeeps, SetHashKeeps};

/// A draft without a change pictures what the cache pictures.
pub fn draft_begins()
    ensures { DraftBegins }
{}

/// A missing child was live before, with the hash that is held of it, and its parent is resident.
pub fn child_was_live()
    ensures { ChildWasLive }
{}

/// A cache goes on picturing a table where a settled node is evicted.
pub fn evict_keeps()
    ensures { EvictKeeps }
{}

/// A cache goes on picturing a table where a node of it is inserted, if its parent is resident.
pub fn insert_keeps()
    ensures { InsertKeeps }
{}

/// A cache goes on picturing a table where a node is settled with its true hash.
pub fn set_hash_keeps()
    ensures { SetHashKeeps }
{}

/// A draft over a cache makes of it a picture of the table after.
pub fn apply_keeps()
    ensures { ApplyKeeps }
{}

/// A draft marks exactly what stands for something else.
pub fn apply_marks()
    ensures { ApplyMarks }
{}

/// Pins, dirty marks and what is out are no part of what a cache pictures.
pub fn alike_keeps()
    ensures { AlikeKeeps }
{}
