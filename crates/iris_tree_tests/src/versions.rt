//! Plans that are made one after another, with ample memory.

ghost use Rattle.std.specs.Prelude.{◌<◌, ◌≤◌};
ghost use Rattle.iris_version_tree.specs.Versions.{places};

use crate::filling::side_in;
use iris_cache::{Cache, Draft};
use iris_name::Name;
use iris_node::Side;
use iris_testing::versions::{FILE, cache_of_a_file, set_versions};
use iris_version_tree::{first_written, is_file, version_at};
use std::alloc::Global;
use std::test::Fail;

// Gives the places from a low one to before a high one a version.
#[inline(never)]
fn set(alloc: Global, cache: &mut Cache, low: u32, high: u32, version: u64) -> Result<(), Fail>
    requires some { low < high }
    requires within { high ≤ places }
{
    set_versions(alloc, cache, FILE, low, high, version)
}

// The version of a place, and the least place from it on that isn't a hole.
#[inline(never)]
fn look(alloc: Global, cache: &Cache, place: u32) -> Result<(u64, Option<u32>), Fail>
    requires { place < places }
{
    let draft = Draft::new(alloc);
    if !is_file(&draft, cache, FILE) {
        return Err("the file's entry is missing".into());
    }
    let version = version_at(&draft, cache, FILE, place)?;
    Ok((version, first_written(&draft, cache, FILE, place)?))
}

fn has_part(cache: &Cache, level: u8, index: u32) -> bool {
    let name = Name::Part {
        file: FILE,
        level,
        index,
    };
    cache.find(&name).is_some()
}

// Whether a place has that version, and that place is the least from it on that isn't a hole.
fn reads(alloc: Global, cache: &Cache, place: u32, want: (u64, Option<u32>)) -> Result<bool, Fail>
    requires { place < places }
{
    Ok(look(alloc, cache, place)? == want)
}

// Whether the parts on the way to place 2 are resident.
fn has_way(cache: &Cache) -> bool {
    for level in 2..17u8 {
        if !has_part(cache, level, 0) {
            return false;
        }
    }
    has_part(cache, 1, 1)
}

// A file whose first three places were written at once.
fn three(alloc: Global) -> Result<Cache, Fail> {
    let mut cache = cache_of_a_file(alloc)?;
    set(alloc, &mut cache, 0, 3, 1)?;
    Ok(cache)
}

fn begins_empty(alloc: Global) -> Result<bool, Fail> {
    let cache = cache_of_a_file(alloc)?;
    reads(alloc, &cache, 0, (0, None))
}

fn has_three(alloc: Global) -> Result<bool, Fail> {
    let cache = three(alloc)?;
    let written = reads(alloc, &cache, 2, (1, Some(2)))?;
    let rest = reads(alloc, &cache, 3, (0, None))?;
    Ok(cache.count() == 17 && has_way(&cache) && written && rest)
}

fn loses_two(alloc: Global) -> Result<bool, Fail> {
    let mut cache = three(alloc)?;
    set(alloc, &mut cache, 0, 2, 0)?;
    reads(alloc, &cache, 0, (0, Some(2)))
}

// A file of 10,000 bytes that was written at once.
#[test]
fn writes_three_places(rt: HostRuntime) -> Result<(), Fail> {
    assert!(rt; begins_empty(rt.alloc())?);
    assert!(rt; has_three(rt.alloc())?);
    assert!(rt; loses_two(rt.alloc())?);
    Ok(())
}

// The first place that has another version than its own.
fn other(alloc: Global, cache: &Cache) -> Result<Option<u32>, Fail> {
    for place in 0..65_536u32 {
        if !reads(alloc, cache, place, (place as u64 + 1, Some(place)))? {
            return Ok(Some(place));
        }
    }
    Ok(None)
}

fn row(alloc: Global) -> Result<Cache, Fail> {
    let mut cache = cache_of_a_file(alloc)?;
    for place in 0..65_536u32 {
        set(alloc, &mut cache, place, place + 1, place as u64 + 1)?;
    }
    Ok(cache)
}

fn has_row(alloc: Global, cache: &Cache) -> Result<bool, Fail> {
    Ok(cache.count() == 65_536 && other(alloc, cache)?.is_none())
}

fn ends_in_one(alloc: Global, cache: &mut Cache) -> Result<bool, Fail> {
    set(alloc, cache, 0, 65_536, 70_000)?;
    Ok(cache.count() == 1 && side_in(cache) == Some(Side::Fold(70_000)))
}

// Each place of a file gets a version of its own, then all of them one.
#[test]
fn writes_a_row_of_places(rt: HostRuntime) -> Result<(), Fail> {
    let mut cache = row(rt.alloc())?;
    assert!(rt; has_row(rt.alloc(), &cache)?);
    assert!(rt; ends_in_one(rt.alloc(), &mut cache)?);
    Ok(())
}
