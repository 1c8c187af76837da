//! Puts and discards: they begin, and they end.

ghost use Rattle.std.specs.Prelude.{◌≡◌, ◌≤◌, ℕ, List, Some, None, IsSome, OnOk, OnErr, false, true, ◌&&◌, not};
ghost use Rattle.iris_desk.specs.AtDesks.{asked_by, out_for, out_of};
ghost use Rattle.iris_invariant.specs.Agrees.{Dropping, Out as SeenOut, Putting};
ghost use Rattle.iris_invariant.specs.Beginnings.{begun_out};
ghost use Rattle.iris_invariant.specs.Events.{Began, Discarded, Stored};
ghost use Rattle.iris_pool.specs.Changes.{HoldsAlike, IsDoing};
ghost use Rattle.iris_pool.specs.Pool.{IsAbsentIn, IsPresent};
ghost use Rattle.iris_jobs.specs.Chores.{record_bytes};
ghost use Rattle.iris_pool.specs.View.{out_seen, pool_view};

use crate::by_name::{begin_held, finish};
use crate::pool::Pool;
use crate::seats;
use iris_desk::{Doing, Out, Record};
use iris_name::{Name, NoMemory};

impl Pool {
    /// A put of what is held of a name begins for a caller, with this record.
    pub fn begin_put(
        &mut self,
        who: u32,
        name: &Name,
        since: u64,
        crowded: bool,
        record_: Record,
    ) -> Result<(), NoMemory>
        requires caller { who ≤ 16 }
        requires free { out_of self.old.desks name.now ≡ None }
        requires present { IsPresent self.old name.now }
        ensures began { OnOk result ((key : List ℕ) → Began name.now (begun_out who since
            (asked_by self.old.desks who) (Putting (record_bytes key name.now record_)) crowded)
            (pool_view key self.old) (pool_view key self.new)) }
        ensures alike { HoldsAlike self.old self.new }
        ensures err { OnErr result (self.new ≡ self.old) }
    {
        let out = Out {
            doing: Doing::Put,
            name: *name,
            since,
            expect: None,
            crowded,
            record: Some(record_),
            touched: false,
        };
        seats::begin(&mut self.desks, who, out)?;
        begin_held(&mut self.cache, &mut self.blocks, name, who);
        Ok(())
    }

    /// A put ends: the name is no more dirty if and only if it was answered ok and the name is untouched.
    pub fn end_put(&mut self, who: u32, name: &Name, ok: bool)
        requires caller { who ≤ 16 }
        requires out { IsDoing self.old.desks who name.now Doing.Put }
        ensures stored { (key : List ℕ) (o : SeenOut) →
            out_seen key self.old.desks name.now ≡ Some o →
            (o.touched ≡ false → ((pool_view key self.old).cell name.now).settled ≡ true) →
            Stored name.now o ok (pool_view key self.old) (pool_view key self.new) }
        ensures alike { HoldsAlike self.old self.new }
    {
        let out = seats::end(&mut self.desks, who, name, false);
        let clean = is_clean(ok, &out);
        finish(&mut self.cache, &mut self.blocks, name, clean);
    }

    /// A discard of an absent name begins for a caller.
    pub fn begin_discard(
        &mut self,
        who: u32,
        name: &Name,
        since: u64,
        crowded: bool,
    ) -> Result<(), NoMemory>
        requires caller { who ≤ 16 }
        requires free { out_of self.old.desks name.now ≡ None }
        requires absent { IsAbsentIn self.old name.now }
        ensures began { OnOk result ((key : List ℕ) → Began name.now (begun_out who since
            (asked_by self.old.desks who) Dropping crowded)
            (pool_view key self.old) (pool_view key self.new)) }
        ensures nodes { self.new.nodes ≡ self.old.nodes }
        ensures pages { self.new.pages ≡ self.old.pages }
        ensures err { OnErr result (self.new ≡ self.old) }
    {
        let out = Out {
            doing: Doing::Discard,
            name: *name,
            since,
            expect: None,
            crowded,
            record: None,
            touched: false,
        };
        seats::begin(&mut self.desks, who, out)
    }

    /// A discard ends: the name is no more doomed if and only if it was answered ok and the name is untouched.
    pub fn end_discard(&mut self, who: u32, name: &Name, ok: bool)
        requires caller { who ≤ 16 }
        requires out { IsDoing self.old.desks who name.now Doing.Discard }
        ensures discarded { (key : List ℕ) (o : SeenOut) →
            out_seen key self.old.desks name.now ≡ Some o →
            Discarded name.now o ok (pool_view key self.old) (pool_view key self.new) }
        ensures alike { HoldsAlike self.old self.new }
    {
        let out = seats::end(&mut self.desks, who, name, false);
        let clean = is_clean(ok, &out);
        finish(&mut self.cache, &mut self.blocks, name, false);
        seats::undoom_if(&mut self.desks, name, clean);
    }
}

// Whether what ended was answered ok, and its name is untouched.
fn is_clean(ok: bool, out: &Out) -> bool
    ensures { result ≡ (ok && not out.now.touched) }
{
    ok && !out.touched
}
