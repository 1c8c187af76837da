//! A store in whose place deeds answer.

ghost use Rattle.std.specs.Prelude.{◌≡◌, ◌≤◌, ◌+◌, ◌-◌, ◌^◌, min, map, None, Err, IfSome, IfNone, is_some, IsSomeAnd, filter, not, if◌then◌else◌};
ghost use Rattle.std.specs.Option.{option_copied};
ghost use Rattle.iris_store.specs.Traffic.{after_get, after_put, after_discard, IsCaused, IsWithinLimit};
ghost use Rattle.iris_store.specs.Tally.{counted};
ghost use Rattle.iris_store.specs.Script.{is_for as is_for_call, fits as fits_call, is_due as is_due_at, is_spent as is_spent_at, due as due_act, left_after, left_by, waiting, IsDone, counted_by};

use crate::{ANSWER_LEN, Store, StoreError};
use iris_name::{Bytes, Name};
use std::alloc::Global;
use std::marker::Model;

/// A call of a store.
#[derive(Clone, Copy)]
pub enum Kind {
    Get,
    Put,
    Discard,
}

/// What a deed does in the store's place. `Absent` and `Give` are for gets alone: a deed of another call with one of them
/// fits no call. Of more than `ANSWER_LEN` bytes `Give` gives the first ones.
#[derive(Drop)]
pub enum Act {
    Fail,
    Absent,
    Give(Bytes),
}

/// One answer in the store's place: to the `nth` of the calls of that kind and, where one is given, of that name, counted
/// from 1, or to each where `nth` is 0.
#[derive(Drop)]
pub struct Deed {
    pub call: Kind,
    pub name: Option<Name>,
    pub nth: u32,
    pub act: Act,
}

impl Act {
    // The answer to a get.
    #[tactic(auto, using(std::proofs::lemmas::List::take_min))]
    fn answer(&self, alloc: Global) -> Result<Option<Bytes>, StoreError>
        ensures done { IsDone self.now result }
        ensures short { IsWithinLimit result }
    {
        match self {
            Act::Fail => Err(StoreError::Failed),
            Act::Absent => Ok(None),
            Act::Give(bytes) => {
                let bytes = bytes.as_slice();
                let front = &bytes[..ANSWER_LEN.min(bytes.len())];
                Ok(Some(Bytes::of(front.to_vec(alloc)?)))
            }
        }
    }
}

impl Deed {
    // Whether its act is for this call.
    fn is_for(&self, call: Kind) -> bool
        ensures { result ≡ is_for_call self.now.call self.now.act call }
    {
        match (self.call, call) {
            (Kind::Get, Kind::Get) => true,
            (Kind::Put, Kind::Put) | (Kind::Discard, Kind::Discard) => {
                matches!(self.act, Act::Fail)
            }
            _ => false,
        }
    }

    // Whether this call fits.
    fn fits(&self, call: Kind, name: &Name) -> bool
        ensures { result ≡ fits_call call name.now self.now }
    {
        self.is_for(call) && self.name.is_none_or(|own| own == *name)
    }

    // Whether it is due at this call.
    fn is_due(&self, call: Kind, name: &Name) -> bool
        ensures { result ≡ is_due_at call name.now self.now }
    {
        self.fits(call, name) && self.nth <= 1
    }

    // Whether this call is the last that it counts.
    fn is_spent(&self, call: Kind, name: &Name) -> bool
        ensures { result ≡ is_spent_at call name.now self.now }
    {
        self.fits(call, name) && self.nth == 1
    }
}

// The act of the first deed that is due.
fn due<'a>(deeds: &'a [Deed], call: Kind, name: &Name) -> Option<&'a Act>
    ensures { option_copied result ≡ due_act call name.now deeds.now }
{
    deeds
        .iter()
        .find(|deed| deed.is_due(call, name))
        .map(|deed| &deed.act)
}

/// A store, and deeds that answer in its place. The first one that is due answers, and the store then isn't called. A deed
/// counts the calls that fit it, also those that another deed answered. Its failures are counted beside the store's own.
#[derive(Drop)]
pub struct ScriptStore<S: Store> {
    inner: S,
    deeds: Vec<Deed>,
    faults: u64,
}

impl<S: Store> Model for ScriptStore<S> {
    ghost use Rattle.iris_store.specs.Script.{Scripted};

    ghost Value = { Scripted S };

    ghost view = { λ a. record { inner = a.inner; deeds = a.deeds.items; faults = a.faults } };
}

impl<S: Store> ScriptStore<S> {
    /// The store, with these deeds, none of which has counted a call.
    pub fn new(inner: S, deeds: Vec<Deed>) -> ScriptStore<S>
        ensures { result ≡ record { inner = inner; deeds = deeds.items; faults = 0 } }
    {
        ScriptStore {
            inner,
            deeds,
            faults: 0,
        }
    }

    // Counts a call.
    fn count(&mut self, call: Kind, name: &Name)
        ensures { self.new ≡ record self.old { deeds = left_after call name.now self.old.deeds } }
    {
        drop_spent(&mut self.deeds, call, name);
        wait_on(self.deeds.as_mut_slice(), call, name);
    }

    // What the due act answers to a get, if one is due. A failure is counted.
    fn answer(&mut self, alloc: Global, name: &Name) -> Option<Result<Option<Bytes>, StoreError>>
        ensures none { IfNone result (due_act Kind.Get name.now self.old.deeds ≡ None) }
        ensures some { IfSome result (λ answer.
            IsSomeAnd (due_act Kind.Get name.now self.old.deeds) (λ act. IsDone act answer)) }
        ensures short { IfSome result IsWithinLimit }
        ensures cause { IfSome result (IsCaused self.old.faults self.new.faults) }
        ensures own { self.new ≡ record self.old
            { faults = counted_by (due_act Kind.Get name.now self.old.deeds) self.old.faults } }
    {
        let act = due(self.deeds.as_slice(), Kind::Get, name)?;
        if let Act::Fail = act {
            self.faults = self.faults.saturating_add(1);
        }
        Some(act.answer(alloc))
    }

    // Whether a call that isn't a get is to fail, which is counted.
    fn fails(&mut self, call: Kind, name: &Name) -> bool
        ensures fails { result ≡ is_some (due_act call name.now self.old.deeds) }
        ensures own { self.new ≡ record self.old {
          faults = (if result
              then counted self.old.faults else self.old.faults);
        } }
    {
        let fails = due(self.deeds.as_slice(), call, name).is_some();
        if fails {
            self.faults = self.faults.saturating_add(1);
        }
        fails
    }
}

// Takes away each deed for which this call is the last that it counts.
fn drop_spent(deeds: &mut Vec<Deed>, call: Kind, name: &Name)
    ensures { deeds.new.items ≡
        filter (λ deed. not (is_spent_at call name.now deed)) deeds.old.items }
{
    deeds.retain(|deed| !deed.is_spent(call, name));
}

// Each deed that this call fits waits for one call less, unless it is for each.
fn wait_on(deeds: &mut [Deed], call: Kind, name: &Name)
    ensures { deeds.new ≡ map (waiting call name.now) deeds.old }
{
    for deed in deeds.iter_mut() {
        if deed.fits(call, name) {
            deed.nth = deed.nth.saturating_sub(1);
        }
    }
}

impl<S: Store> Store for ScriptStore<S> {
    ghost faults = { λ s. min (s.faults + S.faults s.inner) (2 ^ 64 - 1) };

    ghost traffic = { λ s. None };

    fn get(&mut self, alloc: Global, name: &Name) -> Result<Option<Bytes>, StoreError>
        ensures traffic { None ≡ after_get None name.now result }
        ensures cause { IsCaused (min (self.old.faults + S.faults self.old.inner) (2 ^
            64 - 1)) (min (self.new.faults + S.faults self.new.inner) (2 ^ 64 - 1)) result }
        ensures short { IsWithinLimit result }
        ensures answer { IfSome (due_act Kind.Get name.now self.old.deeds) (λ act.
            IsDone act result × (self.new.inner ≡ self.old.inner)) }
        ensures passed { IfNone (due_act Kind.Get name.now self.old.deeds)
            ((S.traffic self.new.inner ≡ after_get (S.traffic self.old.inner) name.now result) ×
            IsCaused (S.faults self.old.inner) (S.faults self.new.inner) result) }
        ensures own { self.new.faults ≡
            counted_by (due_act Kind.Get name.now self.old.deeds) self.old.faults }
        ensures deeds { self.new.deeds ≡ left_by Kind.Get name.now self.old.deeds result }
    {
        let answer = match self.answer(alloc, name) {
            Some(answer) => answer,
            None => self.inner.get(alloc, name),
        };
        if !matches!(answer, Err(StoreError::NoMemory)) {
            self.count(Kind::Get, name);
        }
        answer
    }

    fn put(&mut self, alloc: Global, name: &Name, bytes: &[u8]) -> Result<(), StoreError>
        ensures traffic { None ≡ after_put None name.now bytes.now result }
        ensures cause { IsCaused (min (self.old.faults + S.faults self.old.inner) (2 ^
            64 - 1)) (min (self.new.faults + S.faults self.new.inner) (2 ^ 64 - 1)) result }
        ensures answer { IfSome (due_act Kind.Put name.now self.old.deeds) (λ act.
            (result ≡ Err StoreError.Failed) × (self.new.inner ≡ self.old.inner)) }
        ensures passed { IfNone (due_act Kind.Put name.now self.old.deeds) ((S.traffic
            self.new.inner ≡ after_put (S.traffic self.old.inner) name.now bytes.now result) ×
            IsCaused (S.faults self.old.inner) (S.faults self.new.inner) result) }
        ensures own { self.new.faults ≡ (if is_some (due_act Kind.Put name.now self.old.deeds)
            then counted self.old.faults else self.old.faults) }
        ensures deeds { self.new.deeds ≡ left_by Kind.Put name.now self.old.deeds result }
    {
        let answer = if self.fails(Kind::Put, name) {
            Err(StoreError::Failed)
        } else {
            self.inner.put(alloc, name, bytes)
        };
        if answer != Err(StoreError::NoMemory) {
            self.count(Kind::Put, name);
        }
        answer
    }

    fn discard(&mut self, alloc: Global, name: &Name) -> Result<(), StoreError>
        ensures traffic { None ≡ after_discard None name.now result }
        ensures cause { IsCaused (min (self.old.faults + S.faults self.old.inner) (2 ^
            64 - 1)) (min (self.new.faults + S.faults self.new.inner) (2 ^ 64 - 1)) result }
        ensures answer { IfSome (due_act Kind.Discard name.now self.old.deeds) (λ act.
            (result ≡ Err StoreError.Failed) × (self.new.inner ≡ self.old.inner)) }
        ensures passed { IfNone (due_act Kind.Discard name.now self.old.deeds)
            ((S.traffic self.new.inner ≡ after_discard (S.traffic self.old.inner) name.now result) ×
            IsCaused (S.faults self.old.inner) (S.faults self.new.inner) result) }
        ensures own { self.new.faults ≡ (if is_some (due_act Kind.Discard name.now self.old.deeds)
            then counted self.old.faults else self.old.faults) }
        ensures deeds { self.new.deeds ≡ left_by Kind.Discard name.now self.old.deeds result }
    {
        let answer = if self.fails(Kind::Discard, name) {
            Err(StoreError::Failed)
        } else {
            self.inner.discard(alloc, name)
        };
        if answer != Err(StoreError::NoMemory) {
            self.count(Kind::Discard, name);
        }
        answer
    }
}
