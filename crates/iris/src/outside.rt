//! Where a script comes from, and where the replies go.

ghost use Rattle.std.specs.Prelude.{◌≡◌, ◌≤◌, ℕ, List, Option, IfOk, OnOk, OnErr, length, take};
ghost use Rattle.iris_name.specs.Told.{extended};
ghost use Rattle.iris.specs.Outside.{IsPiece, IsFault};

use iris_name::Failed;

/// Bytes to read.
pub trait Source {
    /// How often it has failed. The count never falls, and stands still at the last value of a u64.
    ghost faults: { Self → ℕ };

    /// The bytes left, where they are told.
    ghost left: { Self → Option (List ℕ) };

    /// Reads the next bytes into the front of a slice, and answers how many; 0 for a slice that isn't empty is the end.
    fn read(&mut self, into: &mut [u8]) -> Result<usize, Failed>
        ensures count { IfOk result (λ n. n ≤ length into.old) }
        ensures piece { IfOk result (λ n.
            IsPiece (left self.old) (left self.new) (length into.old) n (take n into.new)) }
        ensures later { faults self.old ≤ faults self.new }
        ensures cause { OnErr result (IsFault (faults self.old) (faults self.new)) };
}

/// Where bytes are written.
pub trait Sink {
    /// How often it has failed. The count never falls, and stands still at the last value of a u64.
    ghost faults: { Self → ℕ };

    /// The bytes written, where they are told.
    ghost written: { Self → Option (List ℕ) };

    /// Writes a piece. After a failure the first bytes of it were written, so many as isn't said.
    fn write(&mut self, piece: &[u8]) -> Result<(), Failed>
        ensures ok { OnOk result (written self.new ≡ extended (written self.old) piece.now) }
        ensures err { OnErr result ((n : ℕ) ×
            (written self.new ≡ extended (written self.old) (take n piece.now))) }
        ensures later { faults self.old ≤ faults self.new }
        ensures cause { OnErr result (IsFault (faults self.old) (faults self.new)) };
}
