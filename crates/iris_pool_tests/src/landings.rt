//! Drafts of many names land.

use crate::names::{part, part_node};
use iris_blocks::PageDraft;
use iris_cache::Draft;
use iris_name::{FileId, Page};
use iris_pool::Pool;
use std::alloc::Global;
use std::test::Fail;

const NODES: u32 = 300;

const BLOCKS: u32 = 65;

// A draft that sets all parts, or takes them away.
fn nodes(alloc: Global, set: bool) -> Result<Draft, Fail> {
    let mut draft = Draft::new(alloc);
    for number in 0..NODES {
        if set {
            draft.set(None, part_node(number))?;
        } else {
            draft.remove(&part(number))?;
        }
    }
    Ok(draft)
}

// A draft of pages of as many blocks as one request changes at most, or of their loss.
fn pages(alloc: Global, set: bool) -> Result<PageDraft, Fail> {
    let mut draft = PageDraft::new(alloc);
    for place in 0..BLOCKS {
        let page = Page::zero(alloc)?;
        let new = if set { Some((1, page)) } else { None };
        draft.set(FileId(2), place, None, new)?;
    }
    Ok(draft)
}

// Makes both drafts.
fn land(pool: &mut Pool, draft: Draft, pages: PageDraft) -> Result<(), Fail> {
    pool.prepare(&draft, &pages)?;
    pool.apply(draft, pages);
    Ok(())
}

fn land_all(alloc: Global, pool: &mut Pool, set: bool) -> Result<(), Fail> {
    let draft = nodes(alloc, set)?;
    let pages = pages(alloc, set)?;
    land(pool, draft, pages)
}

// Room that isn't made, a name that goes and isn't doomed, or one that is doomed and lives again.
#[test]
fn dooms_what_goes(rt: HostRuntime) -> Result<(), Fail> {
    let mut pool = Pool::new(rt.alloc())?;
    for (set, nodes, blocks, doomed) in [
        (true, 300, 65, 0),
        (false, 0, 0, 365),
        (true, 300, 65, 0),
    ] {
        land_all(rt.alloc(), &mut pool, set)?;
        assert_eq!(rt; pool.cache().count(), nodes);
        assert_eq!(rt; pool.blocks().count(), blocks);
        assert_eq!(rt; pool.desks().doomed().len(), doomed);
    }
    Ok(())
}
