//! Laws of the table: functions without a body, whose contracts hold for all tables.

ghost use Rattle.iris_rows.specs.Agree.{ViewsAgree};
ghost use Rattle.iris_rows.specs.Laws.{BeginsSound, StaysSound, FewRows};

/// The view of the table's step is the plain step of its view, by the same checks.
pub fn views_agree()
    ensures { ViewsAgree }
{}

/// Every table that requests make is sound, and has no more rows than ids were given.
pub fn steps_stay_sound()
    ensures begins { BeginsSound }
    ensures stays { StaysSound }
    ensures few { FewRows }
{}
