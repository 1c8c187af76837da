//! Desks with enough memory.

ghost use Rattle.std.specs.Prelude.{◌≤◌};

use iris_desk::{Desks, Doing, Out};
use iris_name::{Expect, FileId, Name, Request};
use std::alloc::Global;
use std::test::Fail;

// So many names, one after another.
const MANY: u64 = 3000;

fn entry(id: u64) -> Name {
    Name::Entry { id: FileId(id) }
}

// Fetches a name for a caller and keeps it. Whether it was out meanwhile, and there alone.
fn fetch(desks: &mut Desks, who: u32, name: Name) -> Result<bool, Fail>
    requires { who ≤ 16 }
{
    if desks.holder(&name).is_some() {
        return Ok(false);
    }
    desks.begin(
        who,
        Out {
            doing: Doing::Get,
            name,
            since: 5,
            expect: Some(Expect::Version(1)),
            crowded: false,
            record: None,
            touched: false,
        },
    )?;
    let there = desks.holder(&name) == Some(who);
    Ok(there && desks.end(who, &name, true).is_some())
}

fn fetch_many(alloc: Global) -> Result<bool, Fail> {
    let mut desks = Desks::new(alloc)?;
    desks.ask(3, Request::Sync);
    for id in 0..MANY {
        if !fetch(&mut desks, 3, entry(id))? {
            return Ok(false);
        }
    }
    let desk = desks.desk(3);
    let kept = desk.kept().len() == 3000;
    Ok(kept && desk.is_idle() && desk.asks(&Request::Sync) && desk.keeps_name(&entry(2999)))
}

// A desk that gives up, or that has no room for a name that it promised to keep.
#[test]
fn begins_and_keeps_many(rt: HostRuntime) -> Result<(), Fail> {
    assert!(rt; fetch_many(rt.alloc())?);
    Ok(())
}

// Each even name is an entry, each odd one a block.
fn named(id: u64) -> Name {
    if id % 2 == 0 {
        return entry(id);
    }
    Name::Block {
        file: FileId(id),
        place: 7,
    }
}

fn doom_many(alloc: Global) -> Result<bool, Fail> {
    let mut desks = Desks::new(alloc)?;
    for id in 0..MANY {
        desks.doom(&named(id))?;
    }
    for id in 0..MANY {
        if id % 4 < 2 {
            desks.undoom(&named(id));
        }
    }
    let half = desks.doomed().len() == 1500 && desks.doomed_blocks() == 750;
    Ok(half && desks.is_doomed(&named(2999)) && !desks.is_doomed(&named(2997)))
}

// Doomed names that are lost, or that stay, and blocks that are miscounted.
#[test]
fn dooms_many(rt: HostRuntime) -> Result<(), Fail> {
    assert!(rt; doom_many(rt.alloc())?);
    Ok(())
}

// Makes room for two names at a time, and dooms them there.
fn doom_in_room(alloc: Global) -> Result<bool, Fail> {
    let mut desks = Desks::new(alloc)?;
    for id in 0..MANY {
        desks.room_to_doom(2)?;
        desks.doom_in_room(&entry(id));
        desks.doom_in_room(&entry(id + MANY));
    }
    let all = desks.doomed().len() == 6000;
    Ok(all && desks.is_doomed(&entry(0)) && desks.is_doomed(&entry(5999)))
}

// Room that is refused though there is memory, or that is promised and isn't there.
#[test]
fn dooms_many_in_room(rt: HostRuntime) -> Result<(), Fail> {
    assert!(rt; doom_in_room(rt.alloc())?);
    Ok(())
}
