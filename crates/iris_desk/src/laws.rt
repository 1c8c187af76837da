//! What each call does, by look-up of a name or a caller.

ghost use Rattle.iris_desk.specs.Laws.{AskLooksUp, BeginLooksUp, EndLooksUp, EnterLooksUp, ListedIsOut, OutIsAtItsDesk, TouchLooksUp};

/// What is out for a name is out at the desk with that number, and at no other.
pub fn out_is_at_its_desk()
    ensures { OutIsAtItsDesk }
{}

/// What stands in a desk's list is what is out for its name, and the other way round.
pub fn listed_is_out()
    ensures { ListedIsOut }
{}

/// Where a desk changes as `ask` has it, its caller asks this, and all else looks as before.
pub fn ask_looks_up()
    ensures { AskLooksUp }
{}

/// Where a desk changes as `enter` has it, its caller asks nothing and no name is kept for it.
pub fn enter_looks_up()
    ensures { EnterLooksUp }
{}

/// Where a desk changes as `begin` has it, this is out for its name, and all else looks as before.
pub fn begin_looks_up()
    ensures { BeginLooksUp }
{}

/// Where a desk changes as `end` has it, nothing is out for the name, and with `keep` it is kept.
pub fn end_looks_up()
    ensures { EndLooksUp }
{}

/// Where all desks change as `touch` has it, what is out for the name is touched.
pub fn touch_looks_up()
    ensures { TouchLooksUp }
{}
