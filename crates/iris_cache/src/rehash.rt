//! A settled hash goes into the parent.

ghost use Rattle.std.specs.Prelude.{◌≡◌, IsSome, IfSome, Some, length, true, false};
ghost use Rattle.iris_name.specs.Names.{same_name};
ghost use Rattle.iris_name.specs.declared.name.Name.{Name as SpecName};
ghost use Rattle.indexmap.specs.IndexMap.{IsUnique, spare, get};
ghost use Rattle.iris_cache.specs.declared.held.Held.{Held as HeldRecord};
ghost use Rattle.iris_cache.specs.Held.{points, settled_so};
ghost use Rattle.iris_cache.specs.Rehash.{relinked, resided, rebodied, reentered, reparted, rehashed, with_hash};
ghost use Rattle.iris_cache.specs.Resident.{held_node, map_if, resident_parent};

use crate::cache::Cache;
use crate::held::{Edit, Held};
use crate::parts::{high_part, low_part, top_part};
use indexmap::IndexMap;
use iris_name::{FileId, Hash32, Name};
use iris_node::{Body, EntryNode, Link, Node, PartNode, Side};

fn relink(link: Option<Link>, name: &Name, hash: Hash32) -> Option<Link>
    ensures { result ≡ relinked name.now hash link }
{
    let mut link = link?;
    if (Name::Entry { id: link.id }) == *name {
        link.hash = hash;
    }
    Some(link)
}

fn reside(side: Side, here: bool, hash: Hash32) -> Side
    ensures { result ≡ resided here hash side }
{
    match side {
        Side::Below(_) if here => Side::Below(hash),
        _ => side,
    }
}

fn rebody(body: Body, id: FileId, name: &Name, hash: Hash32) -> Body
    ensures { result ≡ rebodied name.now hash id body }
{
    match body {
        Body::Dir { top } => Body::Dir {
            top: relink(top, name, hash),
        },
        Body::File {
            length,
            counter,
            versions,
        } => Body::File {
            length,
            counter,
            versions: reside(versions, top_part(id) == *name, hash),
        },
    }
}

fn reenter(entry: &mut EntryNode, name: &Name, hash: Hash32)
    ensures { entry.new ≡ reentered name.now hash entry.old }
{
    entry.left = relink(entry.left, name, hash);
    entry.right = relink(entry.right, name, hash);
    entry.body = rebody(entry.body, entry.id, name, hash);
}

fn repart(part: &mut PartNode, name: &Name, hash: Hash32)
    ensures { part.new ≡ reparted name.now hash part.old }
{
    let low = low_part(part);
    let high = high_part(part);
    part.low = reside(part.low, low == *name, hash);
    part.high = reside(part.high, high == *name, hash);
}

fn rehash(node: &mut Node, name: &Name, hash: Hash32)
    ensures { node.new ≡ rehashed name.now hash node.old }
{
    match node {
        Node::Entry(entry) => reenter(entry, name, hash),
        Node::Part(part) => repart(part, name, hash),
    }
}

impl Held {
    // Puts the hash of a child into its node.
    fn rehash(&mut self, name: &Name, hash: Hash32)
        ensures { self.new ≡ with_hash name.now hash self.old }
    {
        rehash(&mut self.node, name, hash);
    }
}

// Puts the hash of a child into a node, where that is resident.
fn tell(nodes: &mut IndexMap<Name, Held>, at: &Name, name: &Name, hash: Hash32)
    ensures nodes { (q : SpecName) → get same_name nodes.new q ≡
        map_if (same_name at.now q) (with_hash name.now hash) (get same_name nodes.old q) }
    ensures count { length nodes.new.entries ≡ length nodes.old.entries }
    ensures spare { spare nodes.new ≡ spare nodes.old }
    ensures unique { IsUnique same_name nodes.old → IsUnique same_name nodes.new }
{
    if let Some(held) = nodes.get_mut(at) {
        held.rehash(name, hash);
    }
}

impl Cache {
    /// Settles a node: its parent, where it is resident, holds its hash.
    pub fn set_hash(&mut self, name: &Name, hash: Hash32)
        requires resident { IsSome (held_node self.old name.now) }
        requires unsettled { IfSome (held_node self.old name.now) (λ h. h.settled ≡ false) }
        ensures nodes { (q : SpecName) → held_node self.new q ≡
            map_if (points (resident_parent self.old name.now) q) (with_hash name.now hash)
            (map_if (same_name name.now q) settled_so (held_node self.old q)) }
        ensures room { self.new.room ≡ self.old.room }
        ensures count { length self.new.nodes ≡ length self.old.nodes }
    {
        let parent = self.parent_of(name);
        self.flag(name, Edit::Settled);
        if let Some(parent) = parent {
            self.retell(&parent, name, hash);
        }
    }

    // Puts the hash of a child into a node, where that is resident.
    fn retell(&mut self, at: &Name, name: &Name, hash: Hash32)
        ensures nodes { (q : SpecName) → held_node self.new q ≡
            map_if (same_name at.now q) (with_hash name.now hash) (held_node self.old q) }
        ensures room { self.new.room ≡ self.old.room }
        ensures count { length self.new.nodes ≡ length self.old.nodes }
    {
        tell(&mut self.nodes, at, name, hash);
    }
}
