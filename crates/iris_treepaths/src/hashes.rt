//! The hash that the cache holds of an entry.

ghost use Rattle.std.specs.Prelude.{◌≡◌, ◌≤◌, Some, None, IsSome, IfSome};
ghost use Rattle.iris_name.specs.declared.name.Name.{Name as SpecName};
ghost use Rattle.iris_name.specs.declared.name.Hash32.{Hash32 as SpecHash};
ghost use Rattle.iris_node.specs.Trees.{Shown};
ghost use Rattle.iris_cache.specs.declared.held.Held.{Held as HeldRecord};
ghost use Rattle.iris_cache.specs.Laws.{AreFormed};
ghost use Rattle.iris_cache.specs.Resident.{held_node};
ghost use Rattle.iris_cache.specs.Pictures.{Pictures, LinkHolds, BodyHolds, WasHash};
ghost use Rattle.iris_treepaths.specs.Rows.{IsRooted};
ghost use Rattle.iris_treepaths.specs.Nodes.{IsLinkIn, IsLinkOf};

use iris_cache::Cache;
use iris_name::{FileId, Hash32, Name};
use iris_node::{Body, EntryNode, Link, Node};

// The link, if it leads to an entry.
fn link_of(link: Option<Link>, id: FileId) -> Option<Link>
    ensures { IsLinkOf (LinkHolds link (Name.Entry id)) result }
{
    match link {
        Some(link) if link.id == id => Some(link),
        _ => None,
    }
}

// The link inside a directory, if it leads to an entry.
fn inner_link(entry: &EntryNode, id: FileId) -> Option<Link>
    ensures { IsLinkOf (BodyHolds entry.now.id entry.now.body (Name.Entry id)) result }
{
    match entry.body {
        Body::Dir { top } => link_of(top, id),
        Body::File { .. } => None,
    }
}

// The link to an entry that another entry's node has.
fn link_in_entry(entry: &EntryNode, id: FileId) -> Option<Link>
    ensures { IsLinkIn (Node.Entry entry.now) id result }
{
    match link_of(entry.left, id) {
        Some(link) => Some(link),
        None => match link_of(entry.right, id) {
            Some(link) => Some(link),
            None => inner_link(entry, id),
        },
    }
}

// The link to an entry that a node has.
fn link_in(node: &Node, id: FileId) -> Option<Link>
    ensures { IsLinkIn node.now id result }
{
    match node {
        Node::Entry(entry) => link_in_entry(entry, id),
        Node::Part(_) => None,
    }
}

// The link to an entry that its parent in the cache has.
fn link_held(cache: &Cache, id: FileId) -> Option<Link>
    ensures { (h g : HeldRecord) → (p : SpecName) → held_node cache.now (Name.Entry id) ≡ Some h →
        h.parent ≡ Some p → held_node cache.now p ≡ Some g → IsLinkIn g.node id result }
{
    let parent = cache.find(&Name::Entry { id })?.parent?;
    link_in(&cache.find(&parent)?.node, id)
}

/// The hash that the cache holds of an entry, or any.
pub fn hash_held(cache: &Cache, id: FileId) -> Hash32
    requires { 2 ≤ id.0 }
    ensures { (old : Shown) → IsRooted old →
        AreFormed old → Pictures old cache.now → IsSome (held_node cache.now (Name.Entry id)) →
        WasHash old cache.now (Name.Entry id) result }
{
    match link_held(cache, id) {
        Some(link) => link.hash,
        None => Hash32([0; 32]),
    }
}
