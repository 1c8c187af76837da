//! How many nodes are dirty, beside a pass over all that is resident.

ghost use Rattle.std.specs.Prelude.{◌≤◌};

use iris_cache::{Cache, Draft};
use iris_name::{FileId, Name};
use iris_node::{Node, PartNode, Side};
use iris_testing::dice::Dice;
use iris_testing::fetching::put_in;
use iris_testing::planning::land;
use std::alloc::Global;
use std::test::Fail;

// How many files the edits take turns at.
const FILES: u32 = 40;

fn any_file(dice: &mut Dice) -> FileId
    ensures { 2 ≤ result.0 }
{
    FileId(2 + u64::from(dice.roll(FILES)))
}

// The part of the first two places of a file.
fn part(file: FileId) -> Name {
    Name::Part {
        file,
        level: 1,
        index: 0,
    }
}

// Some part, or none.
fn any_parent(dice: &mut Dice) -> Option<Name> {
    let file = any_file(dice);
    if dice.roll(2) == 0 {
        return None;
    }
    Some(part(file))
}

// The part's node, with one of two versions in its second place.
fn part_node(file: FileId, later: bool) -> Node
    requires { 2 ≤ file.0 }
{
    if later {
        return Node::Part(PartNode {
            file,
            level: 1,
            index: 0,
            low: Side::Fold(1),
            high: Side::Fold(3),
        });
    }
    Node::Part(PartNode {
        file,
        level: 1,
        index: 0,
        low: Side::Fold(1),
        high: Side::Fold(2),
    })
}

fn any_node(dice: &mut Dice) -> Node {
    let later = dice.roll(2) == 0;
    part_node(any_file(dice), later)
}

// Sets two parts and takes one away.
fn change(alloc: Global, cache: &mut Cache, dice: &mut Dice) -> Result<(), Fail> {
    let mut draft = Draft::new(alloc);
    for _ in 0..2 {
        let node = any_node(dice);
        draft.set(any_parent(dice), node)?;
    }
    draft.remove(&part(any_file(dice)))?;
    land(cache, draft)
}

// Takes a part in, where it isn't resident.
fn arrive(cache: &mut Cache, dice: &mut Dice) -> Result<(), Fail> {
    let node = any_node(dice);
    if cache.find(&node.name()).is_some() {
        return Ok(());
    }
    put_in(cache, any_parent(dice), node)
}

fn mark(cache: &mut Cache, name: &Name) {
    if cache.find(name).is_some() {
        cache.mark(name);
    }
}

// A transfer of a node begins, or ends.
fn turn(cache: &mut Cache, name: &Name, clean: bool) {
    match cache.find(name) {
        Some(held) if held.out.is_none() => cache.begin(name, 0),
        Some(held) if held.out.is_some() => cache.finish(name, clean),
        _ => {}
    }
}

fn go(cache: &mut Cache, name: &Name) -> bool {
    cache.find(name).is_some() && cache.evict(name).is_ok()
}

// An edit of one node, if it is resident. Whether it went.
fn flag(cache: &mut Cache, dice: &mut Dice) -> bool {
    let name = part(any_file(dice));
    match dice.roll(8) {
        0 => mark(cache, &name),
        1 | 2 => {
            cache.settle(&name);
        }
        3 => return go(cache, &name),
        _ => turn(cache, &name, dice.roll(4) > 0),
    }
    false
}

// An edit of any kind. Whether a node was let go.
fn edit(alloc: Global, cache: &mut Cache, dice: &mut Dice) -> Result<bool, Fail> {
    match dice.roll(20) {
        0 => change(alloc, cache, dice)?,
        1 | 2 => arrive(cache, dice)?,
        3 => cache.release(0),
        _ => return Ok(flag(cache, dice)),
    }
    Ok(false)
}

fn dirty_by_a_pass(cache: &Cache) -> u32 {
    let mut dirty = 0u32;
    for i in 0..cache.count() {
        let (_, held) = cache.at(i);
        dirty = dirty.saturating_add(u32::from(held.dirty));
    }
    dirty
}

// A node that is counted twice or not at all; one that is counted though it got clean, or went.
#[test]
fn counts_as_a_pass(rt: HostRuntime) -> Result<(), Fail> {
    let mut cache = Cache::new(rt.alloc());
    let mut dice = Dice::of(11);
    let mut gone = 0u32;
    let mut mixed = 0u32;
    for round in 0..4000u32 {
        let went = edit(rt.alloc(), &mut cache, &mut dice)?;
        let dirty = cache.dirty();
        assert_eq!(rt; dirty, dirty_by_a_pass(&cache), "at {round}");
        gone = gone.saturating_add(u32::from(went));
        mixed = mixed.saturating_add(u32::from(0 < dirty && dirty < cache.count()));
    }
    assert!(rt;
        gone > 20 && mixed > 3000,
        "{gone} went, {mixed} were mixed"
    );
    Ok(())
}
