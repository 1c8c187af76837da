//! Laws of transfers: how puts and discards begin, and of the notes that end puts, discards and gets.

ghost use Rattle.iris_standing.specs.ChoresBegin.{DoomedDiscardsBegin, NodePutsBegin, PagePutsBegin};
ghost use Rattle.iris_standing.specs.GetsKept.{NodesAreKept, PagesAreKept};
ghost use Rattle.iris_standing.specs.Transfers.{DiscardsGoOn, FailedDiscardsLicense, DiscardsRefuseCalls, FailedPutsLicense, PutsRefuseCalls, FruitlessGetsGoOn, FruitlessGetsLicense, GetsRefuseCalls, NotesStand, PutsGoOn, RefusalsGoOn};

/// A put begins, of a node or of a block.
pub fn puts_begin()
    ensures nodes { NodePutsBegin }
    ensures pages { PagePutsBegin }
{}

/// A discard begins.
pub fn discards_begin()
    ensures { DoomedDiscardsBegin }
{}

/// A lawful note with which what is kept agrees keeps that a core stands.
pub fn notes_stand()
    ensures { NotesStand }
{}

/// A put is noted.
pub fn puts_go_on()
    ensures { PutsGoOn }
{}

/// A discard is noted.
pub fn discards_go_on()
    ensures { DiscardsGoOn }
{}

/// A get that brings nothing is noted.
pub fn fruitless_gets_go_on()
    ensures { FruitlessGetsGoOn }
{}

/// What licenses the refusal of a call: a get that brings nothing, a crowded put that failed, a crowded discard that failed.
pub fn failures_license()
    ensures gets { FruitlessGetsLicense }
    ensures puts { FailedPutsLicense }
    ensures discards { FailedDiscardsLicense }
{}

/// A licensed refusal is entered.
pub fn refusals_go_on()
    ensures { RefusalsGoOn }
{}

/// A transfer that licenses the refusal of its call is noted, and that call is refused.
pub fn failures_refuse()
    ensures gets { GetsRefuseCalls }
    ensures puts { PutsRefuseCalls }
    ensures discards { DiscardsRefuseCalls }
{}

/// A get is noted, and what it brings is kept: a node, or a page.
pub fn gets_are_kept()
    ensures nodes { NodesAreKept }
    ensures pages { PagesAreKept }
{}
