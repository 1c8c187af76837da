//! The log of a session: the notes of what happened, in order.
#![tactic(auto)]

pub mod mem;
pub mod null;

ghost use Rattle.std.specs.Prelude.{◌≡◌, ◌+◌, ◌<◌, ◌≤◌, ℕ, List, Option, OnOk, OnErr};
ghost use Rattle.iris_name.specs.declared.note.Note.{Note as SpecNote};
ghost use Rattle.iris_name.specs.Told.{appended};
ghost use Rattle.iris_log.specs.Told.{HasCount, IsBounded};

use iris_name::{NoMemory, Note};
pub use mem::MemLog;
pub use null::NullLog;

/// A log of notes. It has no call that reads.
pub trait Log {
    /// Room for that many notes.
    ghost spare: { Self → ℕ };

    /// How many notes there are.
    ghost count: { Self → ℕ };

    /// The notes, oldest first, where they are told.
    ghost notes: { Self → Option (List SpecNote) };

    /// Makes room for at least n notes, and changes nothing else.
    fn ready(&mut self, n: u32) -> Result<(), NoMemory>
        ensures room { OnOk result (n ≤ spare self.new) }
        ensures kept { spare self.old ≤ spare self.new }
        ensures err { OnErr result (spare self.new ≡ spare self.old) }
        ensures count { count self.new ≡ count self.old }
        ensures notes { notes self.new ≡ notes self.old }
        ensures bound { OnOk result (IsBounded (notes self.new) (count self.new +
            spare self.new)) };

    /// Puts a note last. It takes no memory.
    fn note(&mut self, note: Note)
        requires { 0 < spare self.old }
        ensures room { spare self.new + 1 ≡ spare self.old }
        ensures notes { notes self.new ≡ appended (notes self.old) note };

    /// Where the notes are told, `count` is their number.
    ghost counted: { (log : Self) → HasCount (notes log) (count log) };
}
