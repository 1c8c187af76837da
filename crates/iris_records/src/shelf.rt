//! Records in order of their names.

ghost use Rattle.std.specs.Prelude.{◌≡◌, [], Some, IfOk, OnOk, if◌then◌else◌};
ghost use Rattle.iris_name.specs.Names.{same_name};
ghost use Rattle.iris_node.specs.Nodes.{name_of};
ghost use Rattle.iris_node.specs.Spelling.{spelling};
ghost use Rattle.iris_node.specs.Unfolded.{hash};
ghost use Rattle.iris_records.specs.Records.{looked, comes_before, AreInOrder};
ghost use Rattle.iris_records.specs.Pieces.{lesser, is_next};

use iris_name::{Bytes, Hash32, Name, NoMemory};
use iris_node::{Node, encode, hash_of};
use std::alloc::Global;
use std::marker::Model;

/// Records by name, each name once.
#[derive(Drop)]
pub struct Shelf {
    records: Vec<(Name, Bytes)>,
}

impl Model for Shelf {
    ghost use Rattle.iris_records.specs.Records.{Records, AreInOrder};

    ghost Value = { Records };

    ghost view = { λ s. s.records.items };

    ghost invariant = { λ s. AreInOrder s.records.items };
}

fn comes_before(a: &Name, b: &Name) -> bool
    ensures { result ≡ comes_before a.now b.now }
{
    a < b
}

// How many records stand before a name.
fn count_before(records: &[(Name, Bytes)], name: &Name) -> usize
    ensures { result ≡ lesser name.now records.now }
{
    for (i, record) in records.iter().enumerate() {
        if !comes_before(&record.0, name) {
            return i;
        }
    }
    records.len()
}

// Whether the record at a place has this name.
fn is_at(records: &[(Name, Bytes)], at: usize, name: &Name) -> bool
    ensures { result ≡ is_next at name.now records.now }
{
    match records.get(at) {
        None => false,
        Some(record) => record.0 == *name,
    }
}

impl Shelf {
    pub(crate) fn new(alloc: Global) -> Shelf
        ensures { result ≡ [] }
    {
        Shelf {
            records: Vec::new(alloc),
        }
    }

    /// Puts a record in under its name, in place of one that stands there.
    pub(crate) fn put(&mut self, name: Name, bytes: Bytes) -> Result<(), NoMemory>
        ensures { OnOk result ((n : Name) →
            looked n self.new ≡ (if same_name n name then Some bytes else looked n self.old)) }
    {
        let at = count_before(self.records.as_slice(), &name);
        if is_at(self.records.as_slice(), at, &name) {
            self.records[at] = (name, bytes);
        } else {
            self.records.insert(at, (name, bytes))?;
        }
        Ok(())
    }

    /// Hands the records out.
    pub(crate) fn into_vec(self) -> Vec<(Name, Bytes)>
        ensures records { result.items ≡ self }
        ensures order { AreInOrder self }
    {
        self.records
    }
}

// Puts the record of a node, and answers its hash.
pub(crate) fn put_node(alloc: Global, shelf: &mut Shelf, node: &Node) -> Result<Hash32, NoMemory>
    ensures hash { IfOk result (λ h. h ≡ hash node.now) }
    ensures puts { OnOk result ((n : Name) → looked n shelf.new ≡ (if same_name n (name_of node.now)
        then Some (spelling node.now) else looked n shelf.old)) }
{
    let record = encode(alloc, node)?;
    let hash = hash_of(record.as_slice());
    shelf.put(node.name(), record)?;
    Ok(hash)
}
