//! One file, with its entry alone in a cache, that is written, read and cut plan by plan.

ghost use Rattle.std.specs.Prelude.{◌<◌, ◌≤◌, ◌+◌, length};

use iris_blocks::{Blocks, PageDraft};
use iris_cache::{Cache, Draft};
use iris_files::{plan_read, plan_resize, plan_write};
use iris_name::Bytes;
use iris_testing::versions::{FILE, cache_of_a_file};
use iris_version_tree::is_file;
use std::alloc::Global;
use std::test::Fail;

// A cache with the file's entry, and the blocks of it that are resident.
#[derive(Drop)]
pub(crate) struct Filled {
    pub cache: Cache,
    pub blocks: Blocks,
}

// The empty file.
pub(crate) fn empty_file(alloc: Global) -> Result<Filled, Fail> {
    let cache = cache_of_a_file(alloc)?;
    Ok(Filled {
        cache,
        blocks: Blocks::new(alloc),
    })
}

// Makes both drafts.
pub(crate) fn land(filled: &mut Filled, draft: Draft, pages: PageDraft) -> Result<(), Fail> {
    filled.cache.room_for(&draft)?;
    filled.blocks.room_for(&pages)?;
    filled.cache.apply(draft);
    filled.blocks.apply(pages);
    Ok(())
}

// So many bytes, each of them this one.
pub(crate) fn some_bytes(alloc: Global, byte: u8, count: usize) -> Result<Bytes, Fail> {
    let mut bytes = Vec::new(alloc);
    bytes.resize(count, byte)?;
    Ok(Bytes::of(bytes))
}

// Writes bytes from an offset on. Tells how many places changed.
#[inline(never)]
pub(crate) fn write(
    alloc: Global,
    filled: &mut Filled,
    offset: u64,
    bytes: &Bytes,
) -> Result<u32, Fail> {
    let mut draft = Draft::new(alloc);
    let mut pages = PageDraft::new(alloc);
    let count = bytes.as_slice().len();
    if count == 0 || count > 262_144 || offset > 268_435_456 - count as u64 {
        return Err("a write past a limit".into());
    }
    if !is_file(&draft, &filled.cache, FILE) {
        return Err("the file's entry is missing".into());
    }
    plan_write(
        alloc,
        &mut draft,
        &mut pages,
        &filled.cache,
        &filled.blocks,
        FILE,
        offset,
        bytes,
    )?;
    let count = pages.count();
    land(filled, draft, pages)?;
    Ok(count)
}

// Gives the file a length. Tells how many places changed.
pub(crate) fn resize(alloc: Global, filled: &mut Filled, size: u64) -> Result<u32, Fail>
    requires { size ≤ 268435456 }
{
    let mut draft = Draft::new(alloc);
    let mut pages = PageDraft::new(alloc);
    if !is_file(&draft, &filled.cache, FILE) {
        return Err("the file's entry is missing".into());
    }
    plan_resize(
        alloc,
        &mut draft,
        &mut pages,
        &filled.cache,
        &filled.blocks,
        FILE,
        size,
    )?;
    let count = pages.count();
    land(filled, draft, pages)?;
    Ok(count)
}

// Bytes of the file.
#[inline(never)]
pub(crate) fn read(alloc: Global, filled: &Filled, offset: u64, count: u64) -> Result<Bytes, Fail> {
    let draft = Draft::new(alloc);
    if !is_file(&draft, &filled.cache, FILE) {
        return Err("the file's entry is missing".into());
    }
    let bytes = plan_read(
        alloc,
        &draft,
        &filled.cache,
        &filled.blocks,
        FILE,
        offset,
        count,
    )?;
    Ok(bytes)
}

// Whether a read gives these bytes.
pub(crate) fn reads(
    alloc: Global,
    filled: &Filled,
    offset: u64,
    count: u64,
    expected: &[u8],
) -> Result<bool, Fail> {
    Ok(read(alloc, filled, offset, count)?.as_slice() == expected)
}
