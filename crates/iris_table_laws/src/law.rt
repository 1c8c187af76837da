//! Laws of the table: functions without a body, whose contracts hold for all tables.

ghost use Rattle.iris_table_laws.specs.Ages.{RequestsAge, StandsForOneBlock};
ghost use Rattle.iris_table_laws.specs.Parents.{OneParent, NodesHaveParents, RootsHaveNone};
ghost use Rattle.iris_table_laws.specs.Sameness.{SameWhereSaid};
ghost use Rattle.iris_table_laws.specs.Texts.{NodesFit};
ghost use Rattle.iris_table_laws.specs.TextsStay.{TextsBegin, TextsStay};

/// Requests make files later: ids are never given again, counters don't fall, and a place that has changed is a hole
/// or has a version above the old counter. So a file, a place and a version above 0 stand for one block for ever.
pub fn versions_stand_for_blocks()
    ensures ages { RequestsAge }
    ensures one_block { StandsForOneBlock }
{}

/// What a sound table shows is a tree: each entry or part stands under its own name, what stands below a live node is live,
/// and a node has one parent; of the live nodes exactly both roots have none.
pub fn one_parent()
    ensures tree { OneParent }
    ensures others { NodesHaveParents }
    ensures roots { RootsHaveNone }
{}

/// What a node's name stands for differs in two sound tables exactly where it, or a node below it, says something else by itself.
pub fn same_where_said()
    ensures { SameWhereSaid }
{}

/// Each node that a sound table shows is in the grammar of records under its name, where the names of the table are UTF-8.
pub fn nodes_fit()
    ensures { NodesFit }
{}

/// The names of a table are UTF-8 as long as the paths of all requests are: a path's pieces between slashes are.
pub fn texts_stay()
    ensures begins { TextsBegin }
    ensures stays { TextsStay }
{}
