//! A source and a sink in memory, whose calls fail where a list says so.

ghost use Rattle.std.specs.Prelude.{◌≡◌, ◌≤◌, ◌<◌, ◌||◌, ℕ, [], ◌++◌, Some, IfOk, OnOk, OnErr, length, take, drop};
ghost use Rattle.iris_name.specs.Told.{extended};
ghost use Rattle.iris.specs.Memory.{tally_fails_next, tallied, taken_next, after_read, write_fails, after_write, CallAnswers};
ghost use Rattle.iris.specs.Outside.{IsPiece, IsFault};

use crate::outside::{Sink, Source};
use iris_name::{Failed, NoMemory};
use std::alloc::Global;
use std::marker::Model;

// Which calls are to fail, counted from 1, and how many calls and faults there were.
#[derive(Drop)]
struct Tally {
    failing: Vec<u64>,
    calls: u64,
    faults: u64,
}

impl Model for Tally {
    ghost use Rattle.iris.specs.Memory.{Tally as SpecTally};

    ghost Value = { SpecTally };

    ghost view = { λ a. record { failing = a.failing.items; calls = a.calls; faults = a.faults } };
}

impl Tally {
    // No calls yet.
    fn new(failing: Vec<u64>) -> Tally
        ensures { result ≡ record { failing = failing.items; calls = 0; faults = 0 } }
    {
        Tally {
            failing,
            calls: 0,
            faults: 0,
        }
    }

    // Counts a call, which fails where the list says so or it must, and tells whether it fails.
    fn fails(&mut self, must: bool) -> bool
        ensures fails { result ≡ (tally_fails_next self.old || must) }
        ensures tally { self.new ≡ tallied result self.old }
        ensures later { self.old.faults ≤ self.new.faults }
    {
        self.calls = self.calls.saturating_add(1);
        let fails = self.failing.contains(&self.calls) || must;
        if fails {
            self.faults = self.faults.saturating_add(1);
        }
        fails
    }
}

/// Bytes in memory to read. For tests and as a reference.
#[derive(Drop)]
pub struct MemSource {
    bytes: Vec<u8>,
    at: usize,
    most: u32,
    tally: Tally,
}

impl Model for MemSource {
    ghost use Rattle.std.specs.Prelude.{◌<◌, ◌≤◌, length, drop};
    ghost use Rattle.iris.specs.Memory.{Tape};

    ghost Value = { Tape };

    ghost view = { λ a. record { left = drop a.at a.bytes.items; most = a.most; tally = a.tally } };

    ghost invariant = { λ a. (a.at ≤ length a.bytes.items) × (0 < a.most) };
}

impl MemSource {
    /// These bytes, of which a read gives at most so many. The n-th read, counted from 1, fails where n is in the list.
    pub fn new(bytes: Vec<u8>, most: u32, fail: Vec<u64>) -> MemSource
        requires { 0 < most }
        ensures { result ≡ record {
          left = bytes.items;
          most = most;
          tally = record { failing = fail.items; calls = 0; faults = 0 };
        } }
    {
        MemSource {
            bytes,
            at: 0,
            most,
            tally: Tally::new(fail),
        }
    }
}

impl Source for MemSource {
    ghost faults = { λ s. s.tally.faults };

    ghost left = { λ s. Some s.left };

    fn read(&mut self, into: &mut [u8]) -> Result<usize, Failed>
        ensures count { IfOk result (λ n. n ≤ length into.old) }
        ensures piece { IfOk result (λ n. IsPiece (Some self.old.left)
            (Some self.new.left) (length into.old) n (take n into.new)) }
        ensures later { self.old.tally.faults ≤ self.new.tally.faults }
        ensures cause { OnErr result (IsFault self.old.tally.faults self.new.tally.faults) }
        ensures answer { CallAnswers (tally_fails_next self.old.tally)
            (taken_next self.old (length into.old)) result }
        ensures tape { self.new ≡ after_read self.old (length into.old) }
        ensures into { let n = taken_next self.old (length into.old) in into.new ≡
            take n self.old.left ++ drop n into.old }
    {
        if self.tally.fails(false) {
            return Err(Failed);
        }
        let rest = &self.bytes[self.at..];
        let len = into.len().min(self.most as usize).min(rest.len());
        into[..len].copy_from_slice(&rest[..len]);
        self.at += len;
        Ok(len)
    }
}

/// Bytes written to memory, up to a room that was taken beforehand. For tests and as a reference.
#[derive(Drop)]
pub struct MemSink {
    bytes: Vec<u8>,
    room: u64,
    tally: Tally,
}

impl Model for MemSink {
    ghost use Rattle.std.specs.Prelude.{◌≤◌, length, vec_capacity};
    ghost use Rattle.iris.specs.Memory.{Sheet};

    ghost Value = { Sheet };

    ghost view = { λ a. record { written = a.bytes.items; room = a.room; tally = a.tally } };

    ghost invariant = { λ a. (length a.bytes.items ≤ a.room) × (a.room ≤ vec_capacity a.bytes) };
}

impl MemSink {
    /// Room for so many bytes. The n-th write, counted from 1, fails where n is in the list, or where it doesn't fit what is left.
    pub fn new(alloc: Global, room: u64, fail: Vec<u64>) -> Result<MemSink, NoMemory>
        ensures { IfOk result (λ sink. sink ≡ record {
          written = [];
          room = room;
          tally = record { failing = fail.items; calls = 0; faults = 0 };
        }) }
    {
        Ok(MemSink {
            bytes: Vec::with_capacity(alloc, room as usize)?,
            room,
            tally: Tally::new(fail),
        })
    }

    /// Lends the bytes that were written.
    pub fn bytes(&self) -> &[u8]
        ensures { result.now ≡ self.now.written }
    {
        self.bytes.as_slice()
    }
}

impl Sink for MemSink {
    ghost faults = { λ s. s.tally.faults };

    ghost written = { λ s. Some s.written };

    fn write(&mut self, piece: &[u8]) -> Result<(), Failed>
        ensures ok { OnOk result (Some self.new.written ≡
            extended (Some self.old.written) piece.now) }
        ensures err { OnErr result ((n : ℕ) ×
            (Some self.new.written ≡ extended (Some self.old.written) (take n piece.now))) }
        ensures later { self.old.tally.faults ≤ self.new.tally.faults }
        ensures cause { OnErr result (IsFault self.old.tally.faults self.new.tally.faults) }
        ensures answer { CallAnswers (write_fails self.old piece.now) tt result }
        ensures sheet { self.new ≡ after_write self.old piece.now }
    {
        let room = self.room as usize - self.bytes.len();
        if self.tally.fails(piece.len() > room) {
            return Err(Failed);
        }
        self.bytes.extend_from_slice(piece).map_err(|_| Failed)
    }
}

#[cfg(test)]
mod tests {
    use super::*;
    use std::test::Fail;

    // A read that isn't bounded, a failure that loses bytes.
    #[test]
    fn reads_in_pieces(rt: HostRuntime) -> Result<(), Fail> {
        let alloc = rt.alloc();
        let fail = vec![in alloc; 2u64]?;
        let mut source = MemSource::new(b"abcde".to_vec(alloc)?, 3, fail);
        let mut into = [0u8; 4];
        assert!(rt; source.read(&mut into) == Ok(3));
        assert_eq!(rt; into, [b'a', b'b', b'c', 0]);
        assert!(rt; source.read(&mut into) == Err(Failed));
        assert!(rt; source.read(&mut into) == Ok(2));
        assert_eq!(rt; into, [b'd', b'e', b'c', 0]);
        assert!(rt; source.read(&mut into) == Ok(0));
        Ok(())
    }

    // A write that fits in part.
    #[test]
    fn writes_what_fits(rt: HostRuntime) -> Result<(), Fail> {
        let alloc = rt.alloc();
        let fail = vec![in alloc; 3u64]?;
        let mut sink = MemSink::new(alloc, 4, fail)?;
        assert!(rt; sink.write(b"abc") == Ok(()));
        assert!(rt; sink.write(b"de") == Err(Failed));
        assert!(rt; sink.write(b"f") == Err(Failed));
        assert!(rt; sink.write(b"g") == Ok(()));
        assert_eq!(rt; sink.bytes(), b"abcg".as_slice());
        Ok(())
    }
}
