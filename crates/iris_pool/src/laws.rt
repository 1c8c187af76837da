//! Laws of what the pool's calls do.

ghost use Rattle.iris_pool.specs.Counts.{MarksAreCounted};
ghost use Rattle.iris_pool.specs.Landing.{CellsLand};

/// Of each name the invariant sees, once drafts are made, what cache, blocks and desks make of it.
pub fn cells_land()
    ensures { CellsLand }
{}

/// As many blocks and nodes are marked, by what the invariant sees, as `marked_blocks` and `marked_nodes` answer.
pub fn marks_are_counted()
    ensures { MarksAreCounted }
{}
