//! The lowest node that has a mark, and settling from the leaves up, beside passes over all that is resident.

ghost use Rattle.std.specs.Prelude.{◌<◌};
ghost use Rattle.iris_version_tree.specs.Versions.{places};

use crate::settling::settle_each;
use iris_cache::{Cache, Held};
use iris_name::{Bytes, FileId, Name};
use iris_node::encode;
use iris_testing::keeping::{are_recorded, settle_and_clean};
use iris_testing::planning::{ROOT, fresh, make};
use iris_testing::versions::set_versions;
use iris_upkeep::{What, lowest, settle_all};
use std::alloc::Global;
use std::test::Fail;

// A directory, and the first file.
const DIR: Name = Name::Entry { id: FileId(2) };

const FILE: FileId = FileId(3);

// Makes a file or a directory.
fn make_one(alloc: Global, cache: &mut Cache, path: &str, id: u64, dir: bool) -> Result<(), Fail> {
    match make(alloc, cache, path, id, dir)? {
        None => Ok(()),
        Some(_) => Err("it isn't made".into()),
    }
}

// Makes so many files, with ids from one on.
fn fill(alloc: Global, cache: &mut Cache, front: &str, first: u64, count: u64) -> Result<(), Fail> {
    for i in 0..count {
        let id = first.saturating_add(i);
        let path = format!(in alloc; "{front}{id}")?;
        make_one(alloc, cache, path.as_str(), id, false)?;
    }
    Ok(())
}

// Gives a place of the file a version of its own.
fn write(alloc: Global, cache: &mut Cache, place: u32) -> Result<(), Fail>
    requires { place < places }
{
    set_versions(alloc, cache, FILE, place, place + 1, place as u64 + 1)
}

// A root with an empty directory and so many files.
fn begun(alloc: Global, count: u64) -> Result<Cache, Fail> {
    let mut cache = fresh(alloc)?;
    make_one(alloc, &mut cache, "/d", 2, true)?;
    fill(alloc, &mut cache, "/f", 3, count)?;
    Ok(cache)
}

// Gives 12 places of the file a version each.
fn write_some(alloc: Global, cache: &mut Cache) -> Result<(), Fail> {
    for i in 0..12u32 {
        write(alloc, cache, 5 * i)?;
    }
    Ok(())
}

// Files in the root and in the directory, one of them with versions.
fn grown(alloc: Global) -> Result<Cache, Fail> {
    let mut cache = begun(alloc, 20)?;
    fill(alloc, &mut cache, "/d/f", 30, 20)?;
    write_some(alloc, &mut cache)?;
    Ok(cache)
}

// The same, settled and clean but for some files that were made afterwards.
fn half_clean(alloc: Global) -> Result<Cache, Fail> {
    let mut cache = grown(alloc)?;
    settle_and_clean(&mut cache, &ROOT)?;
    fill(alloc, &mut cache, "/d/g", 60, 5)?;
    Ok(cache)
}

fn has_mark(held: &Held, what: What) -> bool {
    match what {
        What::Dirty => held.dirty,
        What::Unsettled => !held.settled,
    }
}

// How many have a mark.
fn marked_in(cache: &Cache, what: What) -> u32 {
    let mut count = 0u32;
    for i in 0..cache.count() {
        let (_, held) = cache.at(i);
        if has_mark(held, what) {
            count = count.saturating_add(1);
        }
    }
    count
}

// Whether a node has a mark, and no node of which it is the parent.
fn is_lowest(cache: &Cache, name: &Name, what: What) -> bool {
    for i in 0..cache.count() {
        let (_, held) = cache.at(i);
        if held.parent == Some(*name) && has_mark(held, what) {
            return false;
        }
    }
    match cache.find(name) {
        Some(held) => has_mark(held, what),
        None => false,
    }
}

// Whether each node that has a mark has a lowest one below it, and no other node has one.
fn agrees(cache: &Cache, what: What) -> bool {
    for i in 0..cache.count() {
        let (name, held) = cache.at(i);
        let right = match lowest(cache, name, what) {
            Some(low) => has_mark(held, what) && is_lowest(cache, &low, what),
            None => !has_mark(held, what),
        };
        if !right {
            return false;
        }
    }
    true
}

// A walk that gives up, or that stops above a marked node.
#[test]
fn finds_the_lowest(rt: HostRuntime) -> Result<(), Fail> {
    let grown = grown(rt.alloc())?;
    assert_eq!(rt; marked_in(&grown, What::Dirty), grown.count());
    assert!(rt; agrees(&grown, What::Dirty) && agrees(&grown, What::Unsettled));
    let half = half_clean(rt.alloc())?;
    let some = marked_in(&half, What::Dirty);
    assert!(rt; 5 < some && some < 40);
    assert!(rt; agrees(&half, What::Dirty) && agrees(&half, What::Unsettled));
    Ok(())
}

fn records_in(alloc: Global, cache: &Cache) -> Result<Vec<(Name, Bytes)>, Fail> {
    let mut records = Vec::new(alloc);
    for i in 0..cache.count() {
        let (name, held) = cache.at(i);
        let record = encode(alloc, &held.node)?;
        records.push((*name, record))?;
    }
    Ok(records)
}

// The records once each node was settled by a call of its own.
fn settled_alone(alloc: Global) -> Result<Vec<(Name, Bytes)>, Fail> {
    let mut cache = grown(alloc)?;
    settle_each(alloc, &mut cache)?;
    records_in(alloc, &cache)
}

fn settles_alike(alloc: Global) -> Result<bool, Fail> {
    let mut cache = grown(alloc)?;
    let records = settled_alone(alloc)?;
    let told = settle_all(&mut cache, &ROOT);
    Ok(
        told.is_some()
            && are_recorded(alloc, &cache, records.as_slice(), None)?
            && marked_in(&cache, What::Unsettled) == 0
            && marked_in(&cache, What::Dirty) == cache.count(),
    )
}

// Another hash than that of the record, or a node that stays unsettled.
#[test]
fn settles_as_each_alone(rt: HostRuntime) -> Result<(), Fail> {
    assert!(rt; settles_alike(rt.alloc())?);
    Ok(())
}

// Whether one comes to a node on the way up from another.
fn is_below(cache: &Cache, name: &Name, top: &Name) -> bool {
    let mut at = *name;
    for _ in 0..1000 {
        if at == *top {
            return true;
        }
        match cache.find(&at) {
            Some(held) => match held.parent {
                Some(parent) => at = parent,
                None => return false,
            },
            None => return false,
        }
    }
    false
}

fn settles_below(alloc: Global) -> Result<bool, Fail> {
    let mut cache = grown(alloc)?;
    settle_all(&mut cache, &DIR);
    for i in 0..cache.count() {
        let (name, held) = cache.at(i);
        if held.settled != is_below(&cache, name, &DIR) {
            return Ok(false);
        }
    }
    Ok(true)
}

// A node beside the directory that is settled, or one below it that isn't.
#[test]
fn settles_what_is_below(rt: HostRuntime) -> Result<(), Fail> {
    assert!(rt; settles_below(rt.alloc())?);
    Ok(())
}

// A file of 4,096 places with a version each: 4,099 parts below its entry and the root.
fn row(alloc: Global) -> Result<Cache, Fail> {
    let mut cache = begun(alloc, 1)?;
    for place in 0..4_096u32 {
        write(alloc, &mut cache, place)?;
    }
    Ok(cache)
}

#[inline(never)]
fn settle_row(cache: &mut Cache) {
    settle_all(cache, &ROOT);
}

// A walk that runs out of steps.
#[test]
fn settles_a_row(rt: HostRuntime) -> Result<(), Fail> {
    let mut cache = row(rt.alloc())?;
    assert_eq!(rt; marked_in(&cache, What::Unsettled), 4_102);
    settle_row(&mut cache);
    assert_eq!(rt; marked_in(&cache, What::Unsettled), 0);
    Ok(())
}
