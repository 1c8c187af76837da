//! The store's calls, with their answers as the notes have them.

ghost use Rattle.std.specs.Prelude.{◌≡◌, ◌≤◌, IfOk, OnErr};
ghost use Rattle.iris_name.specs.Told.{appended};
ghost use Rattle.iris_history.specs.Answers.{IsFailure};
ghost use Rattle.iris_store.specs.declared.Transfer.TheVariants.{Got, Put};
ghost use Rattle.iris.specs.Outside.{IsFault};

use iris_name::{Answer, Name, NoMemory};
use iris_store::{Store, StoreError};
use std::alloc::Global;

/// Puts a record, and tells whether the store took it.
pub fn put<S: Store>(
    alloc: Global,
    link: &mut S,
    name: &Name,
    bytes: &[u8],
) -> Result<bool, NoMemory>
    ensures traffic { IfOk result (λ ok.
        S.traffic link.new ≡ appended (S.traffic link.old) (Put name.now bytes.now ok)) }
    ensures err { OnErr result (S.traffic link.new ≡ S.traffic link.old) }
    ensures later { S.faults link.old ≤ S.faults link.new }
{
    match link.put(alloc, name, bytes) {
        Ok(()) => Ok(true),
        Err(StoreError::Failed) => Ok(false),
        Err(StoreError::NoMemory) => Err(NoMemory),
    }
}

/// What the store answers to a get.
pub fn get<S: Store>(alloc: Global, link: &mut S, name: &Name) -> Result<Answer, NoMemory>
    ensures traffic { IfOk result (λ answer.
        S.traffic link.new ≡ appended (S.traffic link.old) (Got name.now answer)) }
    ensures err { OnErr result (S.traffic link.new ≡ S.traffic link.old) }
    ensures later { S.faults link.old ≤ S.faults link.new }
    ensures cause { IfOk result (λ answer. IsFailure answer →
        IsFault (S.faults link.old) (S.faults link.new)) }
{
    match link.get(alloc, name) {
        Ok(Some(bytes)) => Ok(Answer::Given(bytes)),
        Ok(None) => Ok(Answer::Absent),
        Err(StoreError::Failed) => Ok(Answer::Failed),
        Err(StoreError::NoMemory) => Err(NoMemory),
    }
}
