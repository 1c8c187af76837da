//! Laws of events that add no note.

ghost use Rattle.iris_standing.specs.Quiet.{AsksGoOn, GetsGoOn, NodesLeave, PagesLeave, WithdrawalsGoOn};

/// A caller asks.
pub fn asks_go_on()
    ensures { AsksGoOn }
{}

/// A get begins.
pub fn gets_go_on()
    ensures { GetsGoOn }
{}

/// What is out is given up.
pub fn withdrawals_go_on()
    ensures { WithdrawalsGoOn }
{}

/// A node, or a block, leaves.
pub fn names_leave()
    ensures nodes { NodesLeave }
    ensures pages { PagesLeave }
{}
