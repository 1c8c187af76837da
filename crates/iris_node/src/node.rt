//! The nodes of the tree.

ghost use Rattle.std.specs.Prelude.{◌≡◌, ◌↔◌, IsTrue};
ghost use Rattle.iris_node.specs.Nodes.{name_of};

use iris_name::{FileId, Hash32, Name, Text};
use std::marker::Model;

/// The greatest length of a file in bytes.
pub const MOST_LENGTH: u64 = 268_435_456;

/// The level of the part that covers all places of a file.
pub const MOST_LEVEL: u8 = 16;

/// One half of a range of versions: all equal, or the hash of the part below.
#[derive(Clone, Copy, Debug, PartialEq, Eq)]
pub enum Side {
    Fold(u64),
    Below(Hash32),
}

/// What a node holds of an entry below it: its id, the hash of its record, and how many blocks its subtree has.
#[derive(Clone, Copy, Debug, PartialEq, Eq)]
pub struct Link {
    pub id: FileId,
    pub hash: Hash32,
    pub blocks: u64,
}

/// What an entry says of a directory, or of a file.
#[derive(Clone, Copy, Debug, PartialEq, Eq)]
pub enum Body {
    /// The topmost entry inside, if there is one.
    Dir {
        top: Option<Link>,
    },
    /// The length in bytes, the number of writes so far, and the side of all versions.
    File {
        length: u64,
        counter: u64,
        versions: Side,
    },
}

/// The entry of a directory or a file, with the entries beside it. It keeps the rules of entries.
#[derive(Debug, PartialEq, Drop)]
pub struct EntryNode {
    pub id: FileId,
    pub name: Text,
    pub left: Option<Link>,
    pub right: Option<Link>,
    pub body: Body,
}

impl Model for EntryNode {
    ghost use Rattle.iris_node.specs.Fields.{EntryFields};
    ghost use Rattle.iris_node.specs.Rules.{IsEntry};

    ghost Value = { EntryFields };

    ghost view = { λ e.
        record { id = e.id; name = e.name; left = e.left; right = e.right; body = e.body } };

    ghost invariant = { λ e. IsEntry
        (record { id = e.id; name = e.name; left = e.left; right = e.right; body = e.body }) };

    ghost inverse = { λ e.
        record { id = e.id; name = e.name; left = e.left; right = e.right; body = e.body } };
}

/// A part of a file's version tree: a range of places whose versions aren't all equal, as its two halves.
/// It keeps the rules of parts.
#[derive(Clone, Copy, Debug, PartialEq, Eq)]
pub struct PartNode {
    pub file: FileId,
    pub level: u8,
    pub index: u32,
    pub low: Side,
    pub high: Side,
}

impl Model for PartNode {
    ghost use Rattle.iris_node.specs.Fields.{PartFields};
    ghost use Rattle.iris_node.specs.Rules.{IsPart};

    ghost Value = { PartFields };

    ghost view = { λ p.
        record { file = p.file; level = p.level; index = p.index; low = p.low; high = p.high } };

    ghost invariant = { λ p. IsPart
        (record { file = p.file; level = p.level; index = p.index; low = p.low; high = p.high }) };

    ghost inverse = { λ p.
        record { file = p.file; level = p.level; index = p.index; low = p.low; high = p.high } };
}

/// A node of the tree.
#[derive(Debug, PartialEq, Drop)]
pub enum Node {
    Entry(EntryNode),
    Part(PartNode),
}

impl Node {
    /// The name under which its record lies in the store.
    pub fn name(&self) -> Name
        ensures { result ≡ name_of self.now }
    {
        match self {
            Node::Entry(entry) => Name::Entry { id: entry.id },
            Node::Part(part) => Name::Part {
                file: part.file,
                level: part.level,
                index: part.index,
            },
        }
    }
}

/// Whether two nodes are equal.
pub fn is_same_node(a: &Node, b: &Node) -> bool
    ensures { IsTrue result ↔ (a.now ≡ b.now) }
{
    a == b
}
