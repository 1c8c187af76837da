//! What a plan answers and leaves.

ghost use Rattle.std.specs.Prelude.{◌≡◌, ◌<◌, ◌+◌, ◌^◌, [], IfOk, IfErr};
ghost use Rattle.iris_name.specs.declared.request.Reply.TheVariants.{Plain};
ghost use Rattle.iris_name.specs.Paths.{names_of};

use iris_blocks::PageDraft;
use iris_cache::{Draft, Short};
use iris_name::{Path, PathError, PlainError, Reply, Text};
use std::alloc::Global;

/// What is kept of the table beside its names.
#[derive(Clone, Copy)]
pub struct Counters {
    /// The id that the next file or directory gets.
    pub next: u64,
    /// How many changes were taken.
    pub age: u64,
}

/// A request's reply, the drafts that lead to the table after it, and that table's counters.
#[derive(Drop)]
pub struct Planned {
    pub reply: Reply,
    pub draft: Draft,
    pub pages: PageDraft,
    pub counters: Counters,
}

impl Counters {
    // After one change more.
    pub(crate) fn aged(self) -> Counters
        ensures next { result.next ≡ self.next }
        ensures age { self.age < 2 ^ 63 → result.age ≡ self.age + 1 }
    {
        Counters {
            next: self.next,
            age: self.age.wrapping_add(1),
        }
    }

    // After something more was made.
    pub(crate) fn grown(self) -> Counters
        ensures next { self.next < 2 ^ 63 → result.next ≡ self.next + 1 }
        ensures age { self.age < 2 ^ 63 → result.age ≡ self.age + 1 }
    {
        Counters {
            next: self.next.wrapping_add(1),
            age: self.age.wrapping_add(1),
        }
    }
}

// A reply that changes nothing.
pub(crate) fn unchanged(alloc: Global, counters: Counters, reply: Reply) -> Planned
    ensures { result ≡ record {
      reply = reply;
      draft = record { changes = [] };
      pages = record { changes = [] };
      counters = counters;
    } }
{
    Planned {
        reply,
        draft: Draft::new(alloc),
        pages: PageDraft::new(alloc),
        counters,
    }
}

// A plain error changes nothing.
pub(crate) fn refused(alloc: Global, counters: Counters, error: PlainError) -> Planned
    ensures { result ≡ record {
      reply = Plain error;
      draft = record { changes = [] };
      pages = record { changes = [] };
      counters = counters;
    } }
{
    unchanged(alloc, counters, Reply::Plain(error))
}

// The path that a text spells, none if it spells none.
pub(crate) fn path_of(alloc: Global, text: &Text) -> Result<Option<Path>, Short>
    ensures path { IfOk result (λ path. path ≡ names_of text.now) }
    ensures short { IfErr result (λ e. e ≡ Short.NoMemory) }
{
    match Path::read(alloc, text) {
        Ok(path) => Ok(Some(path)),
        Err(PathError::BadPath) => Ok(None),
        Err(PathError::NoMemory) => Err(Short::NoMemory),
    }
}
