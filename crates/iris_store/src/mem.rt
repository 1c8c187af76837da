//! An honest store in memory, whose calls fail where a list says so.

ghost use Rattle.std.specs.Prelude.{◌≡◌, ◌≤◌, length, ◌&&◌, [], ◌∷◌, Option, Some, None, Bool, is_ok, take, if◌then◌else◌};
ghost use Rattle.std.specs.Option.{option_map};
ghost use Rattle.iris_name.specs.Names.{same_name};
ghost use Rattle.iris_name.specs.declared.name.Name.{Name as SpecName};
ghost use Rattle.iris_store.specs.Traffic.{after_get, after_put, after_discard, IsCaused, IsWithinLimit};
ghost use Rattle.iris_store.specs.Honest.{Shelf, stored_record, fails_next, failed_if, Counts, StoreAnswers};
ghost use Rattle.iris_store.specs.Tally.{counted};

use crate::{ANSWER_LEN, Store, StoreError};
use indexmap::IndexMap;
use iris_name::{Bytes, Name};
use std::alloc::Global;
use std::marker::Model;

/// A store in memory that keeps what is put. For tests and as a reference.
#[derive(Drop)]
pub struct MemStore {
    records: IndexMap<Name, Bytes>,
    failing: Vec<u64>,
    calls: u64,
    faults: u64,
}

impl Model for MemStore {
    ghost use Rattle.iris_store.specs.Honest.{Shelf};

    ghost Value = { Shelf };

    ghost view = { λ a. record {
      records = a.records.entries;
      failing = a.failing.items;
      calls = a.calls;
      faults = a.faults;
    } };
}

impl MemStore {
    /// An empty store, whose n-th call, counted from 1, fails where n is in the list.
    pub fn new(alloc: Global, fail: Vec<u64>) -> MemStore
        ensures { result ≡ record { records = []; failing = fail.items; calls = 0; faults = 0 } }
    {
        MemStore {
            records: IndexMap::new(alloc),
            failing: fail,
            calls: 0,
            faults: 0,
        }
    }

    // Counts a call, and tells whether it is to fail.
    fn fails(&mut self) -> bool
        ensures fails { result ≡ fails_next self.old }
        ensures counts { Counts self.old self.new }
        ensures records { self.new.records ≡ self.old.records }
        ensures cause { IsCaused self.old.faults self.new.faults (failed_if result) }
    {
        self.calls = self.calls.saturating_add(1);
        let fails = self.failing.contains(&self.calls);
        self.faults = counted_if(fails, self.faults);
        fails
    }
}

// One more where the call fails, up to the last value.
fn counted_if(fails: bool, faults: u64) -> u64
    ensures { result ≡ (if fails then counted faults else faults) }
{
    if fails {
        faults.saturating_add(1)
    } else {
        faults
    }
}

// The first bytes of a record, as many as an answer has at most.
#[tactic(auto, using(std::proofs::lemmas::List::take_min))]
fn front(bytes: &[u8]) -> &[u8]
    ensures front { result.now ≡ take ANSWER_LEN bytes.now }
    ensures short { length result.now ≤ ANSWER_LEN }
{
    let len = ANSWER_LEN.min(bytes.len());
    &bytes[..len]
}

impl Store for MemStore {
    ghost faults = { λ s. s.faults };

    ghost traffic = { λ s. None };

    fn get(&mut self, alloc: Global, name: &Name) -> Result<Option<Bytes>, StoreError>
        ensures traffic { None ≡ after_get None name.now result }
        ensures cause { IsCaused self.old.faults self.new.faults result }
        ensures short { IsWithinLimit result }
        ensures answer { StoreAnswers (fails_next self.old)
            (option_map (take ANSWER_LEN) (stored_record self.old name.now)) result }
        ensures counts { Counts self.old self.new }
        ensures records { self.new.records ≡ self.old.records }
    {
        if self.fails() {
            return Err(StoreError::Failed);
        }
        let Some(bytes) = self.records.get(name) else {
            return Ok(None);
        };
        let front = front(bytes.as_slice()).to_vec(alloc)?;
        Ok(Some(Bytes::of(front)))
    }

    fn put(&mut self, alloc: Global, name: &Name, bytes: &[u8]) -> Result<(), StoreError>
        ensures traffic { None ≡ after_put None name.now bytes.now result }
        ensures cause { IsCaused self.old.faults self.new.faults result }
        ensures answer { StoreAnswers (fails_next self.old) tt result }
        ensures counts { Counts self.old self.new }
        ensures stored { (q : SpecName) → stored_record self.new q ≡ (if is_ok result &&
            same_name name.now q then Some bytes.now else stored_record self.old q) }
    {
        if self.fails() {
            return Err(StoreError::Failed);
        }
        let copy = Bytes::of(bytes.to_vec(alloc)?);
        self.records.insert(*name, copy)?;
        Ok(())
    }

    fn discard(&mut self, _alloc: Global, name: &Name) -> Result<(), StoreError>
        ensures traffic { None ≡ after_discard None name.now result }
        ensures cause { IsCaused self.old.faults self.new.faults result }
        ensures answer { StoreAnswers (fails_next self.old) tt result }
        ensures counts { Counts self.old self.new }
        ensures stored { (q : SpecName) → stored_record self.new q ≡
            (if is_ok result && same_name name.now q then None else stored_record self.old q) }
    {
        if self.fails() {
            return Err(StoreError::Failed);
        }
        self.records.swap_remove(name);
        Ok(())
    }
}
