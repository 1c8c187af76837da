//! What is counted for an entry.

use iris_name::FileId;

/// How many links lead to an entry, and the sum of the ids of the entries that have them, modulo 2^64.
#[derive(Clone, Copy)]
pub struct Linked {
    pub count: u64,
    pub sum: u64,
}

/// Which entries have a link to an entry.
#[derive(Clone, Copy, Debug, PartialEq, Eq)]
pub enum Holders {
    /// A link may be missing from the index.
    Unknown,
    Nobody,
    /// One link leads to it, and this entry has it.
    One(FileId),
    More,
}
