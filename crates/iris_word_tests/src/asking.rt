//! Calls of a store, and what they are answered.

use iris_name::{Bytes, Name};
use iris_store::{Store, StoreError};
use std::alloc::Global;

#[derive(Clone, Copy)]
pub(crate) enum Ask {
    Put(&'static [u8]),
    Get,
    Discard,
}

#[derive(Clone, Copy)]
pub(crate) enum Want {
    Done,
    Failed,
    Absent,
    Given(&'static [u8]),
}

#[derive(Clone, Copy)]
pub(crate) struct Step {
    pub(crate) name: Name,
    pub(crate) ask: Ask,
    pub(crate) want: Want,
}

impl Step {
    pub(crate) fn of(name: Name, ask: Ask, want: Want) -> Step {
        Step { name, ask, want }
    }
}

fn is_given(answer: Result<Option<Bytes>, StoreError>, want: Want) -> bool {
    match answer {
        Ok(Some(bytes)) => match want {
            Want::Given(due) => bytes.as_slice() == due,
            _ => false,
        },
        Ok(None) => matches!(want, Want::Absent),
        Err(StoreError::Failed) => matches!(want, Want::Failed),
        Err(StoreError::NoMemory) => false,
    }
}

fn is_done(answer: Result<(), StoreError>, want: Want) -> bool {
    match answer {
        Ok(()) => matches!(want, Want::Done),
        Err(StoreError::Failed) => matches!(want, Want::Failed),
        Err(StoreError::NoMemory) => false,
    }
}

// Whether a step is answered as it wants.
fn answers<S: Store>(alloc: Global, store: &mut S, step: Step) -> bool {
    match step.ask {
        Ask::Put(bytes) => is_done(store.put(alloc, &step.name, bytes), step.want),
        Ask::Get => is_given(store.get(alloc, &step.name), step.want),
        Ask::Discard => is_done(store.discard(alloc, &step.name), step.want),
    }
}

// The first step that is answered otherwise.
pub(crate) fn run<S: Store>(alloc: Global, store: &mut S, steps: &[Step]) -> Option<usize> {
    for (i, step) in steps.iter().enumerate() {
        if !answers(alloc, store, *step) {
            return Some(i);
        }
    }
    None
}
