//! Laws of records, and of the walk.

ghost use Rattle.iris_node.specs.Laws.{OneSpelling, Sizes, WalkCounts};

/// Two nodes of one spelling are one node.
pub fn one_spelling()
    ensures { OneSpelling }
{}

/// An entry's record has at most 413 bytes, and a part's at most 81.
pub fn sizes()
    ensures { Sizes }
{}

/// As many blocks are walked over at and below an entry as it counts.
pub fn walk_counts()
    ensures { WalkCounts }
{}
