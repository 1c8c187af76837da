//! Nodes are settled and cleaned from the leaves up, compared with their records, and let go.

use crate::dice::Dice;
use crate::fetching::record_of;
use iris_cache::Cache;
use iris_name::{Bytes, Name};
use iris_node::{Node, encode};
use iris_upkeep::{What, lowest, settle_all};
use std::alloc::Global;
use std::test::Fail;

/// A transfer of a node begins.
pub fn send_out(cache: &mut Cache, name: &Name) -> Result<(), Fail> {
    match cache.find(name) {
        Some(held) if held.out.is_none() => cache.begin(name, 0),
        _ => return Err("something is out for it".into()),
    }
    Ok(())
}

/// The transfer of a node ends well.
pub fn take_back(cache: &mut Cache, name: &Name) -> Result<(), Fail> {
    match cache.find(name) {
        Some(held) if held.out.is_some() => cache.finish(name, true),
        _ => return Err("nothing is out for it".into()),
    }
    Ok(())
}

/// Settles all nodes from the leaves up, and then writes them back, the lowest first, so that all are clean.
pub fn settle_and_clean(cache: &mut Cache, root: &Name) -> Result<(), Fail> {
    settle_all(cache, root);
    for _ in 0..1_000_000 {
        match lowest(cache, root, What::Dirty) {
            Some(name) => {
                send_out(cache, &name)?;
                take_back(cache, &name)?;
            }
            None => return Ok(()),
        }
    }
    Err("it goes on cleaning".into())
}

// Whether a node's record stands among these.
fn is_recorded(
    alloc: Global,
    records: &[(Name, Bytes)],
    name: &Name,
    node: &Node,
) -> Result<bool, Fail> {
    let own = encode(alloc, node)?;
    match record_of(records, name) {
        Some(record) => Ok(record == own.as_slice()),
        None => Ok(false),
    }
}

/// Whether each resident node but one has its record among these.
pub fn are_recorded(
    alloc: Global,
    cache: &Cache,
    records: &[(Name, Bytes)],
    but: Option<Name>,
) -> Result<bool, Fail> {
    for i in 0..cache.count() {
        let (name, held) = cache.at(i);
        if Some(*name) != but && !is_recorded(alloc, records, name, &held.node)? {
            return Ok(false);
        }
    }
    Ok(true)
}

// The names of all that is resident.
fn names_in(alloc: Global, cache: &Cache) -> Result<Vec<Name>, Fail> {
    let mut names = Vec::new(alloc);
    for i in 0..cache.count() {
        let (name, _) = cache.at(i);
        names.push(*name)?;
    }
    Ok(names)
}

/// Lets about a half of the nodes go that nothing keeps. Tells how many went.
pub fn let_some_go(alloc: Global, cache: &mut Cache, dice: &mut Dice) -> Result<u32, Fail> {
    let mut gone = 0u32;
    let names = names_in(alloc, cache)?;
    for name in names.as_slice() {
        if dice.roll(2) == 0 && cache.find(name).is_some() && cache.evict(name).is_ok() {
            gone = gone.saturating_add(1);
        }
    }
    Ok(gone)
}
