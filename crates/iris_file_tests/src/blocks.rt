//! Many resident blocks: which of them are dirty, and which can go.

use iris_blocks::{Blocks, PageDraft};
use iris_cache::Stay;
use iris_name::{FileId, Page};
use iris_testing::blocks::{put_block, send_block, take_block_back};
use std::alloc::Global;
use std::test::Fail;

const FILE: FileId = FileId(2);

// Takes a page of zeros in, where there is room for it already. A caller pins it.
fn take_in(alloc: Global, blocks: &mut Blocks, place: u32) -> Result<(), Fail> {
    let page = Page::zero(alloc)?;
    blocks.room(FILE, place)?;
    put_block(blocks, FILE, place, 1, page, 5)
}

// So many blocks of one file, clean.
fn many(alloc: Global, count: u32) -> Result<Blocks, Fail> {
    let mut blocks = Blocks::new(alloc);
    for place in 0..count {
        take_in(alloc, &mut blocks, place)?;
    }
    Ok(blocks)
}

// Makes every third of so many blocks dirty.
fn mark_some(blocks: &mut Blocks, count: u32) {
    for place in 0..count {
        if place % 3 == 0 && blocks.held(FILE, place).is_some() {
            blocks.mark(FILE, place);
        }
    }
}

fn send_out(blocks: &mut Blocks, place: u32) -> Result<(), Fail> {
    send_block(blocks, FILE, place, 4)
}

fn take_back(blocks: &mut Blocks, place: u32) -> Result<(), Fail> {
    take_block_back(blocks, FILE, place)
}

// Sends every block out that waits. Tells how many.
fn send_all(blocks: &mut Blocks) -> Result<u32, Fail> {
    for sent in 0..10_000u32 {
        match blocks.dirty_block() {
            Some((_, place)) => send_out(blocks, place)?,
            None => return Ok(sent),
        }
    }
    Err("it goes on sending".into())
}

// Lets every block go that can. Tells how many.
fn empty(blocks: &mut Blocks) -> Result<u32, Fail> {
    for gone in 0..10_000u32 {
        match blocks.can_go() {
            Some((_, place)) if blocks.held(FILE, place).is_some() => {
                if blocks.evict(FILE, place).is_err() {
                    return Err("it stays".into());
                }
            }
            _ => return Ok(gone),
        }
    }
    Err("it goes on evicting".into())
}

// Takes the sent ones of so many blocks back, and lets them go.
fn take_back_and_empty(blocks: &mut Blocks, count: u32) -> Result<u32, Fail> {
    for place in 0..count {
        if place % 3 == 0 {
            take_back(blocks, place)?;
        }
    }
    empty(blocks)
}

// 3,000 blocks, a third of them dirty: these are sent out, the others go, and then the sent ones, once they are back.
fn sends_and_empties(blocks: &mut Blocks) -> Result<(u32, u32, u32), Fail> {
    let sent = send_all(blocks)?;
    blocks.release(5);
    let gone = empty(blocks)?;
    let last = take_back_and_empty(blocks, 3000)?;
    Ok((sent, gone, last))
}

#[test]
fn holds_three_thousand(rt: HostRuntime) -> Result<(), Fail> {
    let mut blocks = many(rt.alloc(), 3000)?;
    assert_eq!(rt; (blocks.count(), blocks.dirty()), (3000, 0));
    assert!(rt; blocks.can_go().is_none(), "all are pinned");
    mark_some(&mut blocks, 3000);
    assert_eq!(rt; blocks.dirty(), 1000);
    assert_eq!(rt; sends_and_empties(&mut blocks)?, (1000, 2000, 1000));
    assert_eq!(rt; (blocks.count(), blocks.dirty()), (0, 0));
    Ok(())
}

// Gives a block another page.
fn change(alloc: Global, blocks: &mut Blocks, place: u32) -> Result<(), Fail> {
    let mut pages = PageDraft::new(alloc);
    let page = Page::zero(alloc)?;
    pages.set(FILE, place, None, Some((2, page)))?;
    blocks.room_for(&pages)?;
    blocks.apply(pages);
    Ok(())
}

// A dirty block whose put is out.
fn dirty_and_out(alloc: Global) -> Result<Blocks, Fail> {
    let mut blocks = many(alloc, 1)?;
    change(alloc, &mut blocks, 0)?;
    send_out(&mut blocks, 0)?;
    Ok(blocks)
}

// A block that changes while its put is out is dirty afterwards, and then waits again.
fn stays_dirty(alloc: Global) -> Result<bool, Fail> {
    let mut blocks = dirty_and_out(alloc)?;
    let waits = blocks.dirty_block().is_some();
    change(alloc, &mut blocks, 0)?;
    take_back(&mut blocks, 0)?;
    Ok(!waits && blocks.dirty() == 1 && blocks.dirty_block() == Some((FILE, 0)))
}

#[test]
fn stays_dirty_where_it_changed_meanwhile(rt: HostRuntime) -> Result<(), Fail> {
    assert!(rt; stays_dirty(rt.alloc())?);
    Ok(())
}

// Why the one block stays.
fn stay_of(blocks: &mut Blocks) -> Option<Stay> {
    if blocks.held(FILE, 0).is_none() {
        return None;
    }
    blocks.evict(FILE, 0).err()
}

// A clean block that is out, with room for it kept once more.
fn clean_and_out(alloc: Global) -> Result<Blocks, Fail> {
    let mut blocks = many(alloc, 1)?;
    blocks.room(FILE, 0)?;
    send_out(&mut blocks, 0)?;
    Ok(blocks)
}

// Out, then pinned, then free to go.
fn goes_at_last(alloc: Global) -> Result<bool, Fail> {
    let mut blocks = clean_and_out(alloc)?;
    let out = stay_of(&mut blocks);
    take_back(&mut blocks, 0)?;
    let pinned = stay_of(&mut blocks);
    blocks.release(5);
    let free = stay_of(&mut blocks);
    Ok(out == Some(Stay::Out) && pinned == Some(Stay::Pinned) && free.is_none())
}

#[test]
fn goes_once_nothing_keeps_it(rt: HostRuntime) -> Result<(), Fail> {
    assert!(rt; goes_at_last(rt.alloc())?);
    Ok(())
}
