//! Room for one record.

ghost use Rattle.std.specs.Prelude.{◌≡◌, ◌≤◌, ◌+◌, [], ◌++◌, length};

use std::marker::Model;

/// How many bytes the largest record has: an entry whose name and links all have their full size.
pub const RECORD_MOST: usize = 413;

/// The front of a record.
#[derive(Drop)]
pub(crate) struct Sheet {
    room: [u8; 413],
    len: usize,
}

impl Model for Sheet {
    ghost use Rattle.std.specs.Prelude.{◌≤◌, List, ℕ, take};

    ghost Value = { List ℕ };

    ghost view = { λ s. take s.len s.room };

    ghost invariant = { λ s. s.len ≤ 413 };
}

impl Sheet {
    /// No bytes.
    pub(crate) fn new() -> Sheet
        ensures { result ≡ [] }
    {
        Sheet {
            room: [0; 413],
            len: 0,
        }
    }

    /// Puts bytes last.
    pub(crate) fn put(&mut self, piece: &[u8])
        requires { length self.old + length piece.now ≤ RECORD_MOST }
        ensures bytes { self.new ≡ self.old ++ piece.now }
        ensures len { length self.new ≡ length self.old + length piece.now }
    {
        let end = self.len + piece.len();
        self.room[self.len..end].copy_from_slice(piece);
        self.len = end;
    }

    /// Lends the bytes.
    pub(crate) fn as_slice(&self) -> &[u8]
        ensures bytes { result.now ≡ self.now }
        ensures most { length self.now ≤ RECORD_MOST }
    {
        &self.room[..self.len]
    }
}
