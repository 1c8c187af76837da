//! What is out: a transfer or settling that has begun and isn't noted yet.

ghost use Rattle.std.specs.Prelude.{◌≡◌};
ghost use Rattle.iris_desk.specs.Outs.{task_of, touched_where};

use iris_name::{Bytes, Expect, Name, Page};

/// What is done for a name.
#[derive(Clone, Copy, PartialEq, Eq)]
pub enum Doing {
    Get,
    Put,
    Discard,
    Settle,
}

/// What a put writes: the record of a node, or the page and version of which a block's record is made.
#[derive(PartialEq, Drop)]
pub enum Record {
    Node(Bytes),
    Page { version: u64, page: Page },
}

/// What is out for a name.
#[derive(Drop)]
pub struct Out {
    pub doing: Doing,
    pub name: Name,
    /// How many notes its session had when it began.
    pub since: u64,
    /// What the record that is fetched must show. A get has it, and nothing else.
    pub expect: Option<Expect>,
    /// Whether it was chosen in a crowded call.
    pub crowded: bool,
    /// What is written. A put has it, and nothing else.
    pub record: Option<Record>,
    /// Whether what the name stands for came, went or changed since it began.
    pub touched: bool,
}

/// What tells one thing that is out from another.
#[derive(Clone, Copy, PartialEq, Eq)]
pub struct Task {
    pub doing: Doing,
    pub name: Name,
    pub since: u64,
}

impl Out {
    /// What tells it from all else that is or was out.
    pub fn task(&self) -> Task
        ensures { result ≡ task_of self.now }
    {
        Task {
            doing: self.doing,
            name: self.name,
            since: self.since,
        }
    }

    // Touches it, where it is out for this name.
    pub(crate) fn touch(&mut self, name: &Name)
        ensures { self.new ≡ touched_where name.now self.old }
    {
        if *name == self.name {
            self.touched = true;
        }
    }
}
