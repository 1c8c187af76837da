//! Laws of answered calls.

ghost use Rattle.iris_standing.specs.Calls.{IdleCallsGoOn, PlannedCallsGoOn, UnmarkedSyncs};

/// A planned request is answered.
pub fn planned_calls_go_on()
    ensures { PlannedCallsGoOn }
{}

/// A call that leaves the table is entered.
pub fn idle_calls_go_on()
    ensures { IdleCallsGoOn }
{}

/// Where no name is marked, a sync is answered.
pub fn unmarked_syncs()
    ensures { UnmarkedSyncs }
{}
