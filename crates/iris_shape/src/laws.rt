//! Laws of folds and treaps. Each says what its definition in specs/FoldLaws.antt or specs/TreapLaws.antt does.

ghost use Rattle.iris_shape.specs.FoldLaws.{OneFold, FoldedHalves, FoldedAt, FoldedSame, FoldedOutside, FoldedInside};
ghost use Rattle.iris_shape.specs.Rows.{RowsInOrder};
ghost use Rattle.iris_shape.specs.TreapLaws.{TreapOver, OneTreap, TreapPut, TreapWithout, NodesAfterPut, NodesAfterRemoval, WayAfterRemoval, NodesAfterMerge, PrioritiesRank, NamesPart};

/// Each part has one fold.
pub fn one_fold()
    ensures { OneFold }
{}

/// A part above places is one version, or is made of its two halves.
pub fn folded_halves()
    ensures { FoldedHalves }
{}

/// A fold of one version holds at each place under it.
pub fn folded_at()
    ensures { FoldedAt }
{}

/// Versions that agree on a range fold alike there.
pub fn folded_same()
    ensures { FoldedSame }
{}

/// A part outside a changed range stays.
pub fn folded_outside()
    ensures { FoldedOutside }
{}

/// A part inside a changed range folds to the new version.
pub fn folded_inside()
    ensures { FoldedInside }
{}

/// The row that stands above all others stands above the treaps of the rows before it and after it.
pub fn treap_over<R>()
    ensures { TreapOver R }
{}

/// Each list has one treap.
pub fn one_treap<R>()
    ensures { OneTreap R }
{}

/// Putting a row into the list is putting it into the treap.
pub fn treap_put<R>()
    ensures { TreapPut R }
{}

/// Taking a row out of the list is taking it out of the treap.
pub fn treap_without<R>()
    ensures { TreapWithout R }
{}

/// An insertion changes nodes only on the way to the name.
pub fn nodes_after_put<R>()
    ensures { NodesAfterPut R }
{}

/// A removal changes nodes only near the row.
pub fn nodes_after_removal<R>()
    ensures { NodesAfterRemoval R }
{}

/// Going down without a row stays near that row.
pub fn way_after_removal<R>()
    ensures { WayAfterRemoval R }
{}

/// A merge changes nodes only on the two spines that it joins.
pub fn nodes_after_merge<R>()
    ensures { NodesAfterMerge R }
{}

/// Priorities and ids rank rows whose ids are distinct.
pub fn priorities_rank<R>()
    ensures { PrioritiesRank R }
{}

/// Rising names part the rows at each name.
pub fn names_part<R>()
    ensures { NamesPart R }
{}

/// The rows of a list in order of names are all of its rows.
pub fn rows_in_order()
    ensures { RowsInOrder }
{}
