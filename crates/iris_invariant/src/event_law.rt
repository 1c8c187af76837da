//! Laws of events: what agreed with the history before agrees with it after.

ghost use Rattle.iris_invariant.specs.EventLaws.{AsksKeep, CallsKeep, DiscardsBegin, DiscardsKeep, EvictionsKeep, FruitfulGetsKeep, FruitlessGetsKeep, GetsBegin, GoingOnByStands, GoingOnStands, MendsKeep, PutsBegin, PutsKeep, SettlingsBegin, SettlingsKeep, WithdrawalsKeep};

use iris_history::Portal;

/// An event without a note that keeps what agrees keeps that the core stands.
pub fn going_on_stands<P: Portal>()
    ensures { GoingOnStands P.kept P.rules }
{}

/// So does an event with a lawful note.
pub fn going_on_by_stands<P: Portal>()
    ensures { GoingOnByStands P.kept P.rules }
{}

/// A get begins.
pub fn gets_begin<P: Portal>()
    ensures { GetsBegin P.kept P.rules }
{}

/// A put begins.
pub fn puts_begin<P: Portal>()
    ensures { PutsBegin P.kept P.rules }
{}

/// A discard begins.
pub fn discards_begin<P: Portal>()
    ensures { DiscardsBegin P.kept P.rules }
{}

/// A settling begins.
pub fn settlings_begin<P: Portal>()
    ensures { SettlingsBegin P.kept P.rules }
{}

/// Something is given up, and nothing is noted.
pub fn withdrawals_keep<P: Portal>()
    ensures { WithdrawalsKeep P.kept P.rules }
{}

/// A settling ends.
pub fn settlings_keep<P: Portal>()
    ensures { SettlingsKeep P.kept P.rules }
{}

/// A get is noted, and brings nothing.
pub fn fruitless_gets_keep<P: Portal>()
    ensures { FruitlessGetsKeep P.kept P.rules }
{}

/// A get is noted, and what it brings is kept.
pub fn fruitful_gets_keep<P: Portal>()
    ensures { FruitfulGetsKeep P.kept P.rules }
{}

/// A put is noted.
pub fn puts_keep<P: Portal>()
    ensures { PutsKeep P.kept P.rules }
{}

/// A discard is noted.
pub fn discards_keep<P: Portal>()
    ensures { DiscardsKeep P.kept P.rules }
{}

/// A request is asked.
pub fn asks_keep<P: Portal>()
    ensures { AsksKeep P.kept P.rules }
{}

/// A name is evicted.
pub fn evictions_keep<P: Portal>()
    ensures { EvictionsKeep P.kept P.rules }
{}

/// An unsure block is mended.
pub fn mends_keep<P: Portal>()
    ensures { MendsKeep P.kept P.rules }
{}

/// A call with a lawful reply is entered.
pub fn calls_keep<P: Portal>()
    ensures { CallsKeep P.kept P.rules }
{}
