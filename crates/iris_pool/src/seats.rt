//! Calls of the desks, with what they do by look-up.

ghost use Rattle.std.specs.Prelude.{ℕ, ◌≡◌, ◌≤◌, IsSome, None, Some, OnOk, OnErr, false, true, ◌&&◌, if◌then◌else◌};
ghost use Rattle.iris_desk.specs.AtDesks.{asked_by, is_doomed, keeps_for, out_for, out_of};
ghost use Rattle.iris_desk.specs.Laws.{AsksBy, BeginsFor, EndsFor, EntersBy};
ghost use Rattle.iris_desk.specs.Outs.{FitsDoing};
ghost use Rattle.iris_name.specs.declared.name.Name.{Name as SpecName};
ghost use Rattle.iris_name.specs.Names.{same_name};
ghost use Rattle.iris_pool.specs.Filing.{AsksAndBegins};

use iris_desk::{Desks, Out};
use iris_name::{Name, NoMemory, Request};

// A caller asks this, in place of what it asked.
pub(crate) fn ask(desks: &mut Desks, who: u32, request: Request)
    requires { who ≤ 16 }
    ensures asks { AsksBy who request desks.old desks.new }
    ensures doomed { desks.new.doomed ≡ desks.old.doomed }
{
    desks.sound();
    desks.ask(who, request);
}

// A caller's request is handed out, and nothing is kept for it any more.
pub(crate) fn enter(desks: &mut Desks, who: u32) -> Option<Request>
    requires { who ≤ 16 }
    ensures request { result ≡ asked_by desks.old who }
    ensures enters { EntersBy who desks.old desks.new }
    ensures callers { (w : ℕ) (n : SpecName) → keeps_for desks.old w n ≡ true → w ≤ 16 }
    ensures doomed { desks.new.doomed ≡ desks.old.doomed }
{
    desks.sound();
    desks.enter(who)
}

// Something begins for a caller.
pub(crate) fn begin(desks: &mut Desks, who: u32, out: Out) -> Result<(), NoMemory>
    requires caller { who ≤ 16 }
    requires free { out_of desks.old out.name ≡ None }
    requires fits { FitsDoing out }
    requires untouched { out.touched ≡ false }
    ensures begins { OnOk result (BeginsFor who out desks.old desks.new) }
    ensures doomed { desks.new.doomed ≡ desks.old.doomed }
    ensures err { OnErr result (desks.new ≡ desks.old) }
{
    desks.sound();
    desks.begin(who, out)
}

// A caller asks this, in place of what it asked, and something begins for it: both, or neither.
pub(crate) fn ask_for(
    desks: &mut Desks,
    who: u32,
    request: Request,
    out: Out,
) -> Result<(), NoMemory>
    requires caller { who ≤ 16 }
    requires free { out_of desks.old out.name ≡ None }
    requires fits { FitsDoing out }
    requires untouched { out.touched ≡ false }
    ensures both { OnOk result (AsksAndBegins who request out desks.old desks.new) }
    ensures doomed { desks.new.doomed ≡ desks.old.doomed }
    ensures err { OnErr result (desks.new ≡ desks.old) }
{
    desks.sound();
    begin(desks, who, out)?;
    ask(desks, who, request);
    Ok(())
}

// What is out for a name at a caller's desk ends; with `keep` the name is kept there.
pub(crate) fn end(desks: &mut Desks, who: u32, name: &Name, keep: bool) -> Out
    requires caller { who ≤ 16 }
    requires out { IsSome (out_for desks.old who name.now) }
    ensures out { out_of desks.old name.now ≡ Some (who, result) }
    ensures ends { EndsFor who keep name.now desks.old desks.new }
    ensures doomed { desks.new.doomed ≡ desks.old.doomed }
{
    desks.sound();
    match desks.end(who, name, keep) {
        Some(out) => out,
        None => unreachable!(),
    }
}

// Dooms a name no longer, if so wanted.
pub(crate) fn undoom_if(desks: &mut Desks, name: &Name, wanted: bool)
    ensures desks { desks.new.desks ≡ desks.old.desks }
    ensures doomed { (q : SpecName) → is_doomed desks.new q ≡
        (if wanted && same_name name.now q then false else is_doomed desks.old q) }
{
    if wanted {
        desks.undoom(name);
    }
}
