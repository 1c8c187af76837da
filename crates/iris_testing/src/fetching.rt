//! Nodes are taken into a cache from the records of a table, as plans lack them.

use iris_cache::Cache;
use iris_name::{Bytes, FileId, Hash32, Name};
use iris_node::{Body, EntryNode, Link, Node, decode, hash_of};
use std::alloc::Global;
use std::test::Fail;

pub fn record_of<'a>(records: &'a [(Name, Bytes)], name: &Name) -> Option<&'a [u8]> {
    for (own, record) in records {
        if *own == *name {
            return Some(record.as_slice());
        }
    }
    None
}

/// Takes in a node that isn't resident, with a pin of caller 0.
pub fn put_in(cache: &mut Cache, parent: Option<Name>, node: Node) -> Result<(), Fail> {
    let name = node.name();
    if cache.find(&name).is_some() {
        return Err("it is resident".into());
    }
    cache.room(&name)?;
    cache.insert(parent, node, 0);
    Ok(())
}

/// Takes in the node of a record, with a pin of caller 0.
pub fn take_in(
    alloc: Global,
    cache: &mut Cache,
    parent: Option<Name>,
    record: &[u8],
) -> Result<(), Fail> {
    let node = decode(alloc, record)?.ok_or("a node")?;
    put_in(cache, parent, node)
}

fn leads_to(link: Option<Link>, name: &Name) -> bool {
    match link {
        Some(link) => (Name::Entry { id: link.id }) == *name,
        None => false,
    }
}

// Whether an entry has a link to a name.
fn is_over(entry: &EntryNode, name: &Name) -> bool {
    let inside = match entry.body {
        Body::Dir { top } => top,
        Body::File { .. } => None,
    };
    leads_to(entry.left, name) || leads_to(entry.right, name) || leads_to(inside, name)
}

/// The resident entry that has a link to a name, by a pass over all that is resident.
pub fn resident_over(cache: &Cache, name: &Name) -> Option<Name> {
    for i in 0..cache.count() {
        let (own, held) = cache.at(i);
        match &held.node {
            Node::Entry(entry) if is_over(entry, name) => return Some(*own),
            _ => {}
        }
    }
    None
}

// The parent of a node: that of a part is told by its name, that of an entry by the link to it.
fn parent_of(cache: &Cache, name: &Name) -> Option<Name> {
    match *name {
        Name::Part { file, level, .. } if level >= 16 => Some(Name::Entry { id: file }),
        Name::Part { file, level, index } => Some(Name::Part {
            file,
            level: level + 1,
            index: index / 2,
        }),
        _ => resident_over(cache, name),
    }
}

fn is_root(name: &Name) -> bool {
    match name {
        Name::Entry { id } => id.0 < 2,
        _ => false,
    }
}

// The resident parent of a node that isn't resident. The cache has to name the same.
fn holder_of(cache: &Cache, name: &Name) -> Result<Name, Fail> {
    let parent = parent_of(cache, name).ok_or("no resident node leads to it")?;
    if cache.find(&parent).is_none() {
        return Err("its parent isn't resident".into());
    }
    if cache.holder(name) != Some(parent) {
        return Err("the cache names another holder".into());
    }
    Ok(parent)
}

/// Takes in what a plan lacks: a record with the hash that it expects, whose parent is resident. A root has neither.
pub fn fetch(
    alloc: Global,
    cache: &mut Cache,
    records: &[(Name, Bytes)],
    name: &Name,
    hash: Hash32,
) -> Result<(), Fail> {
    let record = record_of(records, name).ok_or("a name that isn't live")?;
    if is_root(name) {
        return take_in(alloc, cache, None, record);
    }
    if hash_of(record) != hash {
        return Err("another hash".into());
    }
    let parent = holder_of(cache, name)?;
    take_in(alloc, cache, Some(parent), record)
}
