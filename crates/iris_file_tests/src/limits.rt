//! The largest writes, cuts and drafts, with ample memory.

use crate::filling::{Filled, empty_file, read, reads, resize, some_bytes, write};
use iris_blocks::{Blocks, PageDraft};
use iris_name::{FileId, Page};
use std::alloc::Global;
use std::test::Fail;

// As many bytes as one request may write.
const MOST: usize = 262_144;

// Whether all these bytes are this one.
fn are_all(bytes: &[u8], byte: u8) -> bool {
    bytes.iter().all(|own| *own == byte)
}

// Writes as many as there may be of one byte. Tells how many places changed.
fn write_most(alloc: Global, filled: &mut Filled, offset: u64, byte: u8) -> Result<u32, Fail> {
    let bytes = some_bytes(alloc, byte, MOST)?;
    write(alloc, filled, offset, &bytes)
}

// A file of 64 blocks, written over from its second byte on: 65 places change.
fn written_over(alloc: Global) -> Result<(Filled, u32, u32), Fail> {
    let mut filled = empty_file(alloc)?;
    let first = write_most(alloc, &mut filled, 0, 170)?;
    let second = write_most(alloc, &mut filled, 1, 187)?;
    Ok((filled, first, second))
}

// Whether the first byte is that of the first write, and the rest those of the second.
fn shows_both(alloc: Global, filled: &Filled) -> Result<bool, Fail> {
    let most = read(alloc, filled, 1, MOST as u64)?;
    let rest = are_all(most.as_slice(), 187);
    let ends = reads(alloc, filled, MOST as u64, 9, &[187])?;
    Ok(most.as_slice().len() == MOST && rest && ends && reads(alloc, filled, 0, 2, &[170, 187])?)
}

#[test]
fn writes_the_most_inside_a_block(rt: HostRuntime) -> Result<(), Fail> {
    let (filled, first, second) = written_over(rt.alloc())?;
    assert_eq!(rt; (first, second), (64, 65));
    assert!(rt; shows_both(rt.alloc(), &filled)?);
    assert_eq!(rt; filled.blocks.dirty(), 65);
    Ok(())
}

// A file of 65 blocks cut inside its first: 64 go, and that one changes.
fn cut_to_one(alloc: Global) -> Result<(Filled, u32), Fail> {
    let (mut filled, _, _) = written_over(alloc)?;
    let count = resize(alloc, &mut filled, 100)?;
    Ok((filled, count))
}

#[test]
fn cuts_sixty_four_blocks(rt: HostRuntime) -> Result<(), Fail> {
    let (filled, count) = cut_to_one(rt.alloc())?;
    assert_eq!(rt;
        (count, filled.blocks.count(), filled.blocks.dirty()),
        (65, 1, 1)
    );
    assert!(rt; reads(rt.alloc(), &filled, 98, 100, &[187, 187])?);
    Ok(())
}

// A hole of 60,000 places, and as long a file without one: nothing is asked for.
#[test]
fn grows_without_a_block(rt: HostRuntime) -> Result<(), Fail> {
    let mut filled = empty_file(rt.alloc())?;
    assert_eq!(rt; resize(rt.alloc(), &mut filled, 245_760_000)?, 0);
    assert!(rt;
        are_all(
            read(rt.alloc(), &filled, 200_000_001, MOST as u64)?.as_slice(),
            0
        )
    );
    assert_eq!(rt; (filled.cache.count(), filled.blocks.count()), (1, 0));
    Ok(())
}

// Gives a place another page.
fn change(alloc: Global, pages: &mut PageDraft, place: u32) -> Result<(), Fail> {
    let old = Page::zero(alloc)?;
    let new = Page::zero(alloc)?;
    pages.set(FileId(7), place, Some(old), Some((1, new)))?;
    Ok(())
}

// A draft that gives so many places pages.
fn many_changes(alloc: Global, count: u32) -> Result<PageDraft, Fail> {
    let mut pages = PageDraft::new(alloc);
    for place in 0..count {
        change(alloc, &mut pages, place)?;
    }
    Ok(pages)
}

fn draft_of_many(alloc: Global, blocks: &mut Blocks, count: u32) -> Result<u32, Fail> {
    let pages = many_changes(alloc, count)?;
    blocks.room_for(&pages)?;
    let own = pages.count();
    blocks.apply(pages);
    Ok(own)
}

#[test]
fn drafts_sixty_five_places(rt: HostRuntime) -> Result<(), Fail> {
    let mut blocks = Blocks::new(rt.alloc());
    assert_eq!(rt; draft_of_many(rt.alloc(), &mut blocks, 65)?, 65);
    assert_eq!(rt; draft_of_many(rt.alloc(), &mut blocks, 65)?, 65);
    assert_eq!(rt; (blocks.count(), blocks.dirty()), (65, 65));
    Ok(())
}
