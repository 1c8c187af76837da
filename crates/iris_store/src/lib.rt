//! A store that may answer anything, an honest one in memory, and one that keeps what it was asked.
#![tactic(auto)]

pub mod mem;
pub mod script;
pub mod told;

ghost use Rattle.std.specs.Prelude.{◌≡◌, ◌≤◌, ℕ, List, Option, length};
ghost use Rattle.iris_store.specs.Traffic.{after_get, after_put, after_discard, IsCaused, IsWithinLimit};
ghost use Rattle.iris_store.specs.declared.Transfer.{Transfer as SpecTransfer};

use iris_name::{Answer, Bytes, Name, NoMemory};
pub use mem::MemStore;
pub use script::{Act, Deed, Kind, ScriptStore};
use std::alloc::{AllocError, AllocFailed, Global};
use thiserror::Error;
pub use told::Told;

/// How many bytes a `get` gives at most: of a longer record the first ones.
pub const ANSWER_LEN: usize = 8192;

/// Why a call of a store gives nothing.
#[derive(Clone, Copy, Debug, PartialEq, Eq, Error)]
pub enum StoreError {
    #[error("the store failed")]
    Failed,
    #[error("out of memory")]
    NoMemory,
}

impl From<AllocError> for StoreError {
    ghost use Rattle.std.specs.Prelude.{◌≡◌};
    ghost use Rattle.iris_store.specs.declared.StoreError.TheVariants.{NoMemory};

    ghost from_gives = { λ _ e. e ≡ NoMemory };

    fn from(_error: AllocError) -> StoreError {
        StoreError::NoMemory
    }
}

impl<T: Drop> From<AllocFailed<T>> for StoreError {
    ghost use Rattle.std.specs.Prelude.{◌≡◌};
    ghost use Rattle.iris_store.specs.declared.StoreError.TheVariants.{NoMemory};

    ghost from_gives = { λ _ e. e ≡ NoMemory };

    fn from(_error: AllocFailed<T>) -> StoreError {
        StoreError::NoMemory
    }
}

impl From<NoMemory> for StoreError {
    ghost use Rattle.std.specs.Prelude.{◌≡◌};
    ghost use Rattle.iris_store.specs.declared.StoreError.TheVariants.{NoMemory as NoRoom};

    ghost from_gives = { λ _ e. e ≡ NoRoom };

    fn from(_error: NoMemory) -> StoreError {
        StoreError::NoMemory
    }
}

/// A call of a store that it answered, other than by want of memory.
#[derive(PartialEq, Drop)]
pub enum Transfer {
    Got { name: Name, answer: Answer },
    Put { name: Name, bytes: Bytes, ok: bool },
    Dropped { name: Name, ok: bool },
}

/// A store of records under names. Nothing is said of its honesty: a `get` may answer anything.
pub trait Store {
    /// How often it has failed. The count never falls, and stands still at the last value of a u64.
    ghost faults: { Self → ℕ };

    /// The calls that it answered, in order, where they are told.
    ghost traffic: { Self → Option (List SpecTransfer) };

    /// The record under a name, or none.
    fn get(&mut self, alloc: Global, name: &Name) -> Result<Option<Bytes>, StoreError>
        ensures traffic { traffic self.new ≡ after_get (traffic self.old) name.now result }
        ensures cause { IsCaused (faults self.old) (faults self.new) result }
        ensures short { IsWithinLimit result };

    /// Stores a record. After `NoMemory` it isn't said whether the store took it.
    fn put(&mut self, alloc: Global, name: &Name, bytes: &[u8]) -> Result<(), StoreError>
        ensures traffic { traffic self.new ≡
            after_put (traffic self.old) name.now bytes.now result }
        ensures cause { IsCaused (faults self.old) (faults self.new) result };

    /// Takes the record under a name away. That none is there is no failure.
    fn discard(&mut self, alloc: Global, name: &Name) -> Result<(), StoreError>
        ensures traffic { traffic self.new ≡ after_discard (traffic self.old) name.now result }
        ensures cause { IsCaused (faults self.old) (faults self.new) result };
}
