//! What a write and a read of one block cost in a short file and in a long one: bench/files counts it.

ghost use Rattle.std.specs.Prelude.{◌<◌, ◌≤◌};

use crate::filling::{Filled, empty_file, land, read, some_bytes, write};
use iris_blocks::PageDraft;
use iris_cache::Draft;
use iris_files::plan_length;
use iris_name::{Bytes, Page};
use iris_testing::blocks::put_block;
use iris_testing::versions::{FILE, set_versions};
use iris_version_tree::is_file;
use std::alloc::Global;
use std::test::Fail;

// How many blocks the files have, all written, each in a version of its own.
const FEW: u32 = 16;

const MANY: u32 = 60_000;

// Gives a place a version of its own.
fn written_once(alloc: Global, filled: &mut Filled, place: u32) -> Result<(), Fail>
    requires { place < 60000 }
{
    let version = u64::from(place) + 1;
    set_versions(alloc, &mut filled.cache, FILE, place, place + 1, version)
}

// Gives the file its length and its counter.
fn sized(alloc: Global, filled: &mut Filled, count: u32) -> Result<(), Fail>
    requires { count ≤ 60000 }
{
    let mut draft = Draft::new(alloc);
    if !is_file(&draft, &filled.cache, FILE) {
        return Err("the file's entry is missing".into());
    }
    let count = u64::from(count);
    plan_length(alloc, &mut draft, &filled.cache, FILE, count * 4096, count)?;
    land(filled, draft, PageDraft::new(alloc))
}

// A file of so many written blocks, none of them resident.
fn written(alloc: Global, count: u32) -> Result<Filled, Fail>
    requires { count ≤ 60000 }
{
    let mut filled = empty_file(alloc)?;
    for place in 0..count {
        written_once(alloc, &mut filled, place)?;
    }
    sized(alloc, &mut filled, count)?;
    Ok(filled)
}

// The place of the i-th of 16, of so many places.
fn place_of(i: u32, count: u32) -> u32
    requires few { i < 16 }
    requires most { count ≤ 60000 }
    ensures { result ≤ 60000 }
{
    i * (count / 16)
}

// Takes the 16 blocks in.
fn take_in(alloc: Global, filled: &mut Filled, count: u32) -> Result<(), Fail>
    requires { count ≤ 60000 }
{
    for i in 0..16u32 {
        let place = place_of(i, count);
        take_in_one(alloc, filled, place)?;
    }
    Ok(())
}

fn take_in_one(alloc: Global, filled: &mut Filled, place: u32) -> Result<(), Fail> {
    let page = Page::zero(alloc)?;
    let version = u64::from(place) + 1;
    put_block(&mut filled.blocks, FILE, place, version, page, 0)
}

// Writes the 16 blocks over, one by one. Tells how many places changed.
fn write_each(alloc: Global, filled: &mut Filled, bytes: &Bytes, count: u32) -> Result<u32, Fail>
    requires { count ≤ 60000 }
{
    let mut changed = 0u32;
    for i in 0..16u32 {
        let offset = u64::from(place_of(i, count)) * 4096;
        changed = changed.saturating_add(write(alloc, filled, offset, bytes)?);
    }
    Ok(changed)
}

// Reads the 16 blocks, one by one. Tells how many bytes.
fn read_each(alloc: Global, filled: &Filled, count: u32) -> Result<usize, Fail>
    requires { count ≤ 60000 }
{
    let mut bytes = 0usize;
    for i in 0..16u32 {
        let offset = u64::from(place_of(i, count)) * 4096;
        let own = read(alloc, filled, offset, 4096)?;
        bytes = bytes.saturating_add(own.as_slice().len());
    }
    Ok(bytes)
}

#[inline(never)]
fn write_few(alloc: Global, filled: &mut Filled, bytes: &Bytes) -> Result<u32, Fail> {
    write_each(alloc, filled, bytes, FEW)
}

#[inline(never)]
fn write_many(alloc: Global, filled: &mut Filled, bytes: &Bytes) -> Result<u32, Fail> {
    write_each(alloc, filled, bytes, MANY)
}

#[inline(never)]
fn read_few(alloc: Global, filled: &Filled) -> Result<usize, Fail> {
    read_each(alloc, filled, FEW)
}

#[inline(never)]
fn read_many(alloc: Global, filled: &Filled) -> Result<usize, Fail> {
    read_each(alloc, filled, MANY)
}

fn file_of_few(alloc: Global) -> Result<Filled, Fail> {
    let mut filled = written(alloc, FEW)?;
    take_in(alloc, &mut filled, FEW)?;
    Ok(filled)
}

fn file_of_many(alloc: Global) -> Result<Filled, Fail> {
    let mut filled = written(alloc, MANY)?;
    take_in(alloc, &mut filled, MANY)?;
    Ok(filled)
}

fn costs_in_few(alloc: Global, bytes: &Bytes) -> Result<bool, Fail> {
    let mut filled = file_of_few(alloc)?;
    let written = write_few(alloc, &mut filled, bytes)?;
    Ok(written == 16 && read_few(alloc, &filled)? == 65_536)
}

fn costs_in_many(alloc: Global, bytes: &Bytes) -> Result<bool, Fail> {
    let mut filled = file_of_many(alloc)?;
    let written = write_many(alloc, &mut filled, bytes)?;
    Ok(written == 16 && read_many(alloc, &filled)? == 65_536)
}

// 16 blocks written over and read, in a file of 16 blocks and in one of 60,000.
#[test]
fn costs_of_one_block(rt: HostRuntime) -> Result<(), Fail> {
    let bytes = some_bytes(rt.alloc(), 7, 4096)?;
    assert!(rt; costs_in_few(rt.alloc(), &bytes)?);
    assert!(rt; costs_in_many(rt.alloc(), &bytes)?);
    Ok(())
}
