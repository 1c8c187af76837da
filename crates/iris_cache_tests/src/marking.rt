//! What a draft sets in a cache, what is out meanwhile, and many names at once.

use iris_cache::{Cache, Draft};
use iris_name::{FileId, Hash32, Name};
use iris_node::{Node, PartNode, Side};
use iris_testing::fetching::put_in;
use iris_testing::keeping::{send_out, take_back};
use iris_testing::planning::land;
use std::alloc::Global;
use std::test::Fail;

const TOP: Name = Name::Part {
    file: FileId(2),
    level: 2,
    index: 0,
};

const LOW: Name = Name::Part {
    file: FileId(2),
    level: 1,
    index: 0,
};

// The part of four places whose first two have several versions.
fn top(high: u64) -> Node {
    Node::Part(PartNode {
        file: FileId(2),
        level: 2,
        index: 0,
        low: Side::Below(Hash32([7; 32])),
        high: Side::Fold(high),
    })
}

// The part of the first two places of a file, by the file's number.
fn low(number: u32) -> Node {
    Node::Part(PartNode {
        file: FileId(2 + u64::from(number)),
        level: 1,
        index: 0,
        low: Side::Fold(1),
        high: Side::Fold(2),
    })
}

// A part and the one below it.
fn both_parts(alloc: Global) -> Result<Draft, Fail> {
    let mut draft = Draft::new(alloc);
    draft.set(None, top(3))?;
    draft.set(Some(TOP), low(0))?;
    Ok(draft)
}

// The same, with the upper one taken away and set again.
fn two_parts(alloc: Global) -> Result<Draft, Fail> {
    let mut draft = both_parts(alloc)?;
    draft.remove(&TOP)?;
    draft.set(None, top(3))?;
    Ok(draft)
}

// A cache that had room for one part already, and in which a draft is made.
fn landed(alloc: Global, draft: Draft) -> Result<Cache, Fail> {
    let mut cache = Cache::new(alloc);
    cache.room(&LOW)?;
    land(&mut cache, draft)?;
    Ok(cache)
}

// Whether the upper part is dirty and unsettled, and has one child.
fn is_top_marked(cache: &Cache) -> bool {
    match cache.find(&TOP) {
        Some(found) => found.dirty && !found.settled && found.kids == 1,
        None => false,
    }
}

fn marks(alloc: Global) -> Result<bool, Fail> {
    let draft = two_parts(alloc)?;
    let count = draft.count();
    let cache = landed(alloc, draft)?;
    Ok(count == 2 && is_top_marked(&cache))
}

// What a draft sets is dirty with all above it, and has the parent that the draft gives.
#[test]
fn marks_what_a_draft_sets(rt: HostRuntime) -> Result<(), Fail> {
    assert!(rt; marks(rt.alloc())?);
    Ok(())
}

// Gives the part another version.
fn change(alloc: Global, cache: &mut Cache, high: u64) -> Result<(), Fail> {
    let mut draft = Draft::new(alloc);
    draft.set(None, top(high))?;
    land(cache, draft)
}

// Gives the part another version, and settles it.
fn change_settled(alloc: Global, cache: &mut Cache, high: u64) -> Result<(), Fail> {
    change(alloc, cache, high)?;
    if !cache.settle(&TOP) {
        return Err("it can't be settled".into());
    }
    Ok(())
}

// A part whose transfer begins.
fn begun(alloc: Global) -> Result<Cache, Fail> {
    let mut cache = Cache::new(alloc);
    change_settled(alloc, &mut cache, 3)?;
    send_out(&mut cache, &TOP)?;
    Ok(cache)
}

fn change_if(alloc: Global, cache: &mut Cache, changes: bool) -> Result<(), Fail> {
    if !changes {
        return Ok(());
    }
    change_settled(alloc, cache, 4)
}

// A part whose transfer begins, which may be changed meanwhile, and whose transfer then ends well.
fn sent(alloc: Global, changes: bool) -> Result<Cache, Fail> {
    let mut cache = begun(alloc)?;
    change_if(alloc, &mut cache, changes)?;
    take_back(&mut cache, &TOP)?;
    Ok(cache)
}

fn is_dirty(cache: &Cache, name: &Name) -> Result<bool, Fail> {
    Ok(cache.find(name).ok_or("the top")?.dirty)
}

// A change that is lost, since what was written back is older.
#[test]
fn stays_dirty_where_it_changed_meanwhile(rt: HostRuntime) -> Result<(), Fail> {
    for changed in [true, false] {
        let cache = sent(rt.alloc(), changed)?;
        assert_eq!(rt; is_dirty(&cache, &TOP)?, changed);
    }
    Ok(())
}

// A cache of so many parts, taken in one by one.
fn many(alloc: Global, count: u32) -> Result<Cache, Fail> {
    let mut cache = Cache::new(alloc);
    for number in 0..count {
        put_in(&mut cache, None, low(number))?;
    }
    Ok(cache)
}

// A draft that sets so many parts.
fn long_draft(alloc: Global, count: u32) -> Result<Draft, Fail> {
    let mut draft = Draft::new(alloc);
    for number in 0..count {
        draft.set(None, low(number))?;
    }
    Ok(draft)
}

// A cache that gives up at a number of names, or a draft at a number of changes.
#[test]
fn holds_many_names(rt: HostRuntime) -> Result<(), Fail> {
    let mut cache = many(rt.alloc(), 70_000)?;
    assert_eq!(rt; cache.count(), 70_000);
    land(&mut cache, long_draft(rt.alloc(), 80_000)?)?;
    assert_eq!(rt; cache.count(), 80_000);
    Ok(())
}
