//! A store that keeps the traffic of another.

ghost use Rattle.std.specs.Prelude.{◌≡◌, ◌≢◌, [], Option, Some, None, Err, IfOk, IfErr};
ghost use Rattle.iris_store.specs.Traffic.{answer_in, taken_in, after_get, after_put, after_discard, IsCaused, IsWithinLimit};

use crate::{Store, StoreError, Transfer};
use iris_name::{Answer, Bytes, Name};
use std::alloc::Global;
use std::marker::Model;

/// A store, and the calls that it answered, in order. Its memory grows with them.
#[derive(Drop)]
pub struct Told<S: Store> {
    inner: S,
    told: Vec<Transfer>,
}

impl<S: Store> Model for Told<S> {
    ghost use Rattle.std.specs.Prelude.{List};
    ghost use Rattle.iris_store.specs.declared.Transfer.{Transfer};

    ghost Value = { S × List Transfer };

    ghost view = { λ a. (a.inner, a.told.items) };
}

impl<S: Store> Told<S> {
    /// The store, and no calls yet.
    pub fn new(alloc: Global, inner: S) -> Told<S>
        ensures { result ≡ (inner, []) }
    {
        Told {
            inner,
            told: Vec::new(alloc),
        }
    }

    /// The calls that were answered.
    pub fn traffic(&self) -> &[Transfer]
        ensures { result.now ≡ self.now.1 }
    {
        self.told.as_slice()
    }
}

// What a store's answer to a get is in its traffic. The bytes are copied.
fn answer_of(alloc: Global, given: &Result<Option<Bytes>, StoreError>) -> Result<Answer, StoreError>
    ensures ok { IfOk result (λ answer. answer_in given.now ≡ Some answer) }
    ensures err { IfErr result (λ e. e ≡ StoreError.NoMemory) }
{
    match given {
        Ok(None) => Ok(Answer::Absent),
        Ok(Some(bytes)) => Ok(Answer::Given(bytes.copy(alloc)?)),
        Err(StoreError::Failed) => Ok(Answer::Failed),
        Err(StoreError::NoMemory) => Err(StoreError::NoMemory),
    }
}

// Whether a store took what it was asked to take.
fn taken(given: &Result<(), StoreError>) -> Result<bool, StoreError>
    ensures ok { IfOk result (λ ok. taken_in given.now ≡ Some ok) }
    ensures err { IfErr result (λ e. e ≡ StoreError.NoMemory) }
{
    match given {
        Ok(()) => Ok(true),
        Err(StoreError::Failed) => Ok(false),
        Err(StoreError::NoMemory) => Err(StoreError::NoMemory),
    }
}

impl<S: Store> Store for Told<S> {
    ghost faults = { λ s. S.faults s.0 };

    ghost traffic = { λ s. Some s.1 };

    fn get(&mut self, alloc: Global, name: &Name) -> Result<Option<Bytes>, StoreError>
        ensures traffic { Some self.new.1 ≡ after_get (Some self.old.1) name.now result }
        ensures cause { IsCaused (S.faults self.old.0) (S.faults self.new.0) result }
        ensures short { IsWithinLimit result }
        ensures passed { result ≢ Err StoreError.NoMemory →
            S.traffic self.new.0 ≡ after_get (S.traffic self.old.0) name.now result }
    {
        self.told.reserve(1)?;
        let given = self.inner.get(alloc, name);
        let answer = answer_of(alloc, &given)?;
        self.told.push_reserved(Transfer::Got {
            name: *name,
            answer,
        });
        given
    }

    fn put(&mut self, alloc: Global, name: &Name, bytes: &[u8]) -> Result<(), StoreError>
        ensures traffic { Some self.new.1 ≡ after_put (Some self.old.1) name.now bytes.now result }
        ensures cause { IsCaused (S.faults self.old.0) (S.faults self.new.0) result }
        ensures passed { result ≢ Err StoreError.NoMemory →
            S.traffic self.new.0 ≡ after_put (S.traffic self.old.0) name.now bytes.now result }
    {
        self.told.reserve(1)?;
        let copy = Bytes::of(bytes.to_vec(alloc)?);
        let given = self.inner.put(alloc, name, bytes);
        let ok = taken(&given)?;
        self.told.push_reserved(Transfer::Put {
            name: *name,
            bytes: copy,
            ok,
        });
        given
    }

    fn discard(&mut self, alloc: Global, name: &Name) -> Result<(), StoreError>
        ensures traffic { Some self.new.1 ≡ after_discard (Some self.old.1) name.now result }
        ensures cause { IsCaused (S.faults self.old.0) (S.faults self.new.0) result }
        ensures passed { result ≢ Err StoreError.NoMemory →
            S.traffic self.new.0 ≡ after_discard (S.traffic self.old.0) name.now result }
    {
        self.told.reserve(1)?;
        let given = self.inner.discard(alloc, name);
        let ok = taken(&given)?;
        self.told
            .push_reserved(Transfer::Dropped { name: *name, ok });
        given
    }
}
