//! Laws of the cells that cache, resident blocks and desks make together.

ghost use Rattle.iris_invariant.specs.CellLaws.{NodesAreHeld, NodesBring, NodesEnd, NodesMove, NodesStayTied, PagesAreHeld, PagesBring, PagesEnd, PagesMark, PagesMove, PagesStayTied, UnpinsTakeOne};

use iris_history::Portal;

/// A node is held as the tables show it, before and after a draft is made.
pub fn nodes_are_held()
    ensures { NodesAreHeld }
{}

/// And a block.
pub fn pages_are_held()
    ensures { PagesAreHeld }
{}

/// A draft moves the cell of each node as an entered call does.
pub fn nodes_move<P: Portal>()
    ensures { NodesMove P.kept }
{}

/// A draft of pages marks whatever stands for something else, and nothing more.
pub fn pages_mark()
    ensures { PagesMark }
{}

/// It moves the cell of each block as an entered call does.
pub fn pages_move<P: Portal>()
    ensures { PagesMove P.kept }
{}

/// An end unmarks a node exactly where it was told ok and is untouched.
pub fn nodes_end()
    ensures { NodesEnd }
{}

/// And a page.
pub fn pages_end()
    ensures { PagesEnd }
{}

/// Cache and desks stay tied.
pub fn nodes_stay_tied()
    ensures { NodesStayTied }
{}

/// Resident blocks and desks stay tied.
pub fn pages_stay_tied()
    ensures { PagesStayTied }
{}

/// What inserting and pinning make of a node is what a right answer asks.
pub fn nodes_bring()
    ensures { NodesBring }
{}

/// And of a page.
pub fn pages_bring()
    ensures { PagesBring }
{}

/// Unpinning takes one caller's pin.
pub fn unpins_take_one()
    ensures { UnpinsTakeOne }
{}
