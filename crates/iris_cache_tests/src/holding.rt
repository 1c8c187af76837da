//! Who holds a hash of a name, and who can go, beside passes over all that is resident.

use iris_cache::{Cache, Draft, Held};
use iris_links::{Holders, Links};
use iris_name::{FileId, Hash32, Name, PlainError, Text};
use iris_node::{Body, EntryNode, Link, Node};
use iris_testing::dice::Dice;
use iris_testing::fetching::{put_in, resident_over};
use iris_testing::keeping::settle_and_clean;
use iris_testing::planning::{ROOT, fresh, land, make, rename};
use std::alloc::Global;
use std::test::Fail;

// How many names the files take turns at.
const NAMES: u32 = 30;

// The most entries that are made.
const MOST: u64 = 200;

fn some_path(alloc: Global, dice: &mut Dice) -> Result<String, Fail> {
    Ok(format!(in alloc; "/f{}", dice.roll(NAMES))?)
}

// Makes a file, or renames one.
fn change(
    alloc: Global,
    cache: &mut Cache,
    dice: &mut Dice,
    id: u64,
) -> Result<Option<PlainError>, Fail> {
    let path = some_path(alloc, dice)?;
    if dice.roll(3) > 0 {
        return make(alloc, cache, path.as_str(), id, false);
    }
    let other = some_path(alloc, dice)?;
    rename(alloc, cache, path.as_str(), other.as_str())
}

// One change, after which all is settled and clean, and nothing pinned.
fn change_and_clean(
    alloc: Global,
    cache: &mut Cache,
    dice: &mut Dice,
    id: u64,
) -> Result<(), Fail> {
    change(alloc, cache, dice, id)?;
    settle_and_clean(cache, &ROOT)?;
    cache.release(0);
    Ok(())
}

// Whether the cache names of each entry the one that a pass finds.
fn holds_as_passed(cache: &Cache) -> bool {
    for id in 0..MOST {
        let name = Name::Entry { id: FileId(id) };
        if cache.holder(&name) != resident_over(cache, &name) {
            return false;
        }
    }
    true
}

fn is_kept(held: &Held) -> bool {
    held.out.is_some() || held.dirty || held.kids > 0 || held.pins > 0
}

// Whether the cache finds somebody who can go, if and only if a pass does.
fn goes_as_passed(cache: &Cache) -> bool {
    let mut any = false;
    for i in 0..cache.count() {
        let (_, held) = cache.at(i);
        any = any || !is_kept(held);
    }
    cache.can_go().is_some() == any
}

fn agrees(cache: &Cache) -> bool {
    holds_as_passed(cache) && goes_as_passed(cache)
}

// Lets one go that can.
fn let_one_go(cache: &mut Cache) -> Option<Node> {
    let name = *cache.can_go()?;
    if cache.find(&name).is_some() {
        return cache.evict(&name).ok();
    }
    None
}

// Lets some go that can.
fn let_few_go(alloc: Global, cache: &mut Cache, count: u32) -> Result<Vec<Node>, Fail> {
    let mut gone = Vec::new(alloc);
    for _ in 0..count {
        if let Some(node) = let_one_go(cache) {
            gone.push(node)?;
        }
    }
    Ok(gone)
}

// Takes a node in again, under the parent that the cache names. Tells whether a pass finds the same one.
fn take_one_again(cache: &mut Cache, node: Node) -> Result<bool, Fail> {
    let name = node.name();
    let parent = cache.holder(&name);
    if parent != resident_over(cache, &name) {
        return Ok(false);
    }
    put_in(cache, parent, node)?;
    Ok(true)
}

// Takes those in again, the last that went first.
fn take_again(cache: &mut Cache, mut gone: Vec<Node>) -> Result<bool, Fail> {
    for _ in 0..gone.len() {
        let node = gone.pop().ok_or("a node")?;
        if !take_one_again(cache, node)? {
            return Ok(false);
        }
    }
    Ok(goes_as_passed(cache))
}

// Some go and come again. Tells how many, or nothing where the cache and a pass differ.
fn go_and_come(alloc: Global, cache: &mut Cache, most: u32) -> Result<Option<usize>, Fail> {
    let gone = let_few_go(alloc, cache, most)?;
    let count = gone.len();
    let fine = agrees(cache);
    if take_again(cache, gone)? && fine {
        return Ok(Some(count));
    }
    Ok(None)
}

// One change; then some go and come again. Tells how many, or nothing where the cache and a pass differ.
fn round(
    alloc: Global,
    cache: &mut Cache,
    dice: &mut Dice,
    id: u64,
) -> Result<Option<usize>, Fail> {
    change_and_clean(alloc, cache, dice, id)?;
    if !agrees(cache) {
        return Ok(None);
    }
    go_and_come(alloc, cache, 1 + dice.roll(20))
}

// A link that isn't counted, or stays counted; a name that can go and isn't named, or can't and is.
#[test]
fn agrees_with_passes(rt: HostRuntime) -> Result<(), Fail> {
    let mut cache = fresh(rt.alloc())?;
    let mut dice = Dice::of(7);
    let mut went = 0usize;
    for id in 2..MOST {
        let count = round(rt.alloc(), &mut cache, &mut dice, id)?;
        assert!(rt; count.is_some(), "at {id}");
        went = went.saturating_add(count.unwrap_or(0));
    }
    assert!(rt; went > 500, "{went} went");
    Ok(())
}

// The visible root or the trash, with entry 5 or 6 inside.
fn root(alloc: Global, trash: bool, five: bool) -> Node {
    let inside = Link {
        id: FileId(if five { 5 } else { 6 }),
        hash: Hash32([1; 32]),
        blocks: 0,
    };
    Node::Entry(EntryNode {
        id: FileId(if trash { 1 } else { 0 }),
        name: Text::of(String::new(alloc)),
        left: None,
        right: None,
        body: Body::Dir { top: Some(inside) },
    })
}

fn set_root(alloc: Global, cache: &mut Cache, trash: bool, five: bool) -> Result<(), Fail> {
    let mut draft = Draft::new(alloc);
    draft.set(None, root(alloc, trash, five))?;
    land(cache, draft)
}

// Whether the holder of entry 5 is one of the roots that may be.
fn is_among(holder: Option<Name>, root: bool, trash: bool) -> bool {
    match holder {
        Some(Name::Entry { id }) => (id.0 == 0 && root) || (id.0 == 1 && trash),
        Some(_) => false,
        None => !root && !trash,
    }
}

// One of two holders, where one lets go: the other is left. What is set, and which roots may hold entry 5 then.
#[test]
fn knows_both_holders(rt: HostRuntime) -> Result<(), Fail> {
    let mut cache = Cache::new(rt.alloc());
    let five = Name::Entry { id: FileId(5) };
    for (trash, inside, root, other) in [
        (false, true, true, false),
        (true, true, true, true),
        (false, false, false, true),
        (false, true, true, true),
        (true, false, true, false),
        (false, false, false, false),
    ] {
        set_root(rt.alloc(), &mut cache, trash, inside)?;
        assert!(rt; is_among(cache.holder(&five), root, other));
        assert_eq!(rt; cache.holder(&Name::Entry { id: FileId(0) }), None);
    }
    Ok(())
}

// Counts a link to each of so many entries, from the entry whose id is one less.
fn links_to_each(alloc: Global, count: u64) -> Links {
    let mut links = Links::new(alloc);
    for id in 0..count {
        links.add(FileId(id + 1), FileId(id));
    }
    links
}

// An index that gives up at a number of links, or forgets one of two.
#[test]
fn counts_many_links(rt: HostRuntime) -> Result<(), Fail> {
    let mut links = links_to_each(rt.alloc(), 50_000);
    for id in [1, 2, 49_999, 50_000u64] {
        assert_eq!(rt; links.holders(FileId(id)), Holders::One(FileId(id - 1)));
        links.add(FileId(id), FileId(70_000));
        assert_eq!(rt; links.holders(FileId(id)), Holders::More);
        links.remove(FileId(id), FileId(id - 1));
        assert_eq!(rt; links.holders(FileId(id)), Holders::One(FileId(70_000)));
    }
    assert_eq!(rt; links.holders(FileId(0)), Holders::Nobody);
    Ok(())
}
