//! The counts above a node.

ghost use Rattle.std.specs.Prelude.{IsSome, IfOk, IfSome, OnOk, Option, Some, None, false, ◌≡◌, ◌<◌, ◌^◌};
ghost use Rattle.iris_name.specs.declared.name.Name.{Name as SpecName};
ghost use Rattle.iris_node.specs.Local.{local_of};
ghost use Rattle.iris_node.specs.Trees.{IsTree, Shown};
ghost use Rattle.iris_cache.specs.Drafted.{drafted, seen};
ghost use Rattle.iris_cache.specs.Pictures.{parent_after};
ghost use Rattle.iris_treepaths.specs.Counts.{counted_body, counted_entry, counted_link, said_count, HasChildCount, IsEntryName, Recounts};
ghost use Rattle.iris_treepaths.specs.Hands.{Holding};
ghost use Rattle.iris_treepaths.specs.Lags.{Lags};
ghost use Rattle.iris_treepaths.specs.Rows.{IsCountable, Row};

use crate::nodes::{copy_entry, node_blocks};
use iris_cache::{Cache, Draft};
use iris_name::{FileId, Name, NoMemory};
use iris_node::{Body, EntryNode, Link, Node};
use std::alloc::Global;

// The blocks at and below a node. Where they have more than 64 bits, any number.
fn count_at(node: &Node) -> u64
    ensures { said_count (local_of node.now) < 2 ^ 64 → result ≡ said_count (local_of node.now) }
{
    match node {
        Node::Entry(entry) => node_blocks(entry),
        Node::Part(_) => 0,
    }
}

// A link, with a count where it leads to the child.
fn counted_link(link: Option<Link>, child: &Name, blocks: u64) -> Option<Link>
    ensures { result ≡ counted_link child.now blocks link }
{
    match link {
        Some(link) => Some(Link {
            id: link.id,
            hash: link.hash,
            blocks: if (Name::Entry { id: link.id }) == *child {
                blocks
            } else {
                link.blocks
            },
        }),
        None => None,
    }
}

fn counted_body(body: Body, child: &Name, blocks: u64) -> Body
    ensures { result ≡ counted_body child.now blocks body }
{
    match body {
        Body::Dir { top } => Body::Dir {
            top: counted_link(top, child, blocks),
        },
        Body::File { .. } => body,
    }
}

// An entry, with a count in its links to the child.
fn counted_entry(entry: EntryNode, child: &Name, blocks: u64) -> EntryNode
    ensures { result ≡ counted_entry child.now blocks entry }
{
    EntryNode {
        id: entry.id,
        name: entry.name,
        left: counted_link(entry.left, child, blocks),
        right: counted_link(entry.right, child, blocks),
        body: counted_body(entry.body, child, blocks),
    }
}

// The parent of a node, where it is in draft or cache.
fn parent_seen(draft: &Draft, cache: &Cache, name: &Name) -> Option<Name>
    ensures parent { IfSome result (λ p. parent_after draft.now cache.now name.now ≡ Some p) }
    ensures there { IfSome result (λ p. IsSome (seen draft.now cache.now p)) }
    ensures none { result ≡ None →
        (p : SpecName) → parent_after draft.now cache.now name.now ≡ Some p →
        IsSome (seen draft.now cache.now p) → ⊥ }
{
    let parent = draft.parent(cache, name)?;
    match draft.view(cache, &parent) {
        Some(_) => Some(parent),
        None => None,
    }
}

// Sets the count of a child right in its parent's node, and answers false where it was so.
fn recount_one(
    alloc: Global,
    draft: &mut Draft,
    cache: &Cache,
    child: &Name,
    parent: &Name,
) -> Result<bool, NoMemory>
    ensures counts { OnOk result (Recounts child.now parent.now draft.old draft.new cache.now) }
    ensures right { IfOk result (λ wrong. wrong ≡ false →
        HasChildCount child.now parent.now draft.old cache.now) }
{
    draft.sound();
    cache.sound();
    let Some(node) = draft.view(cache, child) else {
        return Ok(false);
    };
    let blocks = count_at(node);
    let Some(Node::Entry(entry)) = draft.view(cache, parent) else {
        return Ok(false);
    };
    let counted = counted_entry(copy_entry(alloc, entry)?, child, blocks);
    if counted == *entry {
        return Ok(false);
    }
    let above = draft.parent(cache, parent);
    draft.set(above, Node::Entry(counted))?;
    Ok(true)
}

/// Sets the counts right in the links on the way up from a child whose count may have changed. It goes up over nodes that are in
/// draft or cache, and no further than to a link whose count is right.
pub fn recount(
    alloc: Global,
    draft: &mut Draft,
    cache: &Cache,
    child: FileId,
) -> Result<(), NoMemory>
    ensures counted { OnOk result ((old new made : Shown) →
        (hand : Option Row) → IsTree new → IsTree made →
        IsCountable made → Lags old new made hand (Name.Entry child) draft.old cache.now →
        Holding old made hand draft.new cache.now) }
    ensures stays { OnOk result ((n : SpecName) →
        IsSome (seen draft.old cache.now n) → IsSome (seen draft.new cache.now n)) }
    ensures others { OnOk result ((n : SpecName) →
        (IsEntryName n → ⊥) → drafted draft.new n ≡ drafted draft.old n) }
{
    let most = u64::from(draft.count()) + u64::from(cache.count()) + 1;
    let mut at = Name::Entry { id: child };
    for step in 0..most {
        let Some(parent) = parent_seen(draft, cache, &at) else {
            return Ok(());
        };
        if !recount_one(alloc, draft, cache, &at, &parent)? {
            return Ok(());
        }
        at = parent;
    }
    Ok(())
}
