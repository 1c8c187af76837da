//! A cache beside a table, with names evicted at will.

ghost use Rattle.std.specs.Prelude.{◌≤◌, ◌<◌};

use crate::filling::{ENTRY, cache_of, file_in, set, side_in};
use iris_cache::Cache;
use iris_mac::Keys;
use iris_name::{Bytes, Name, Reply, Request};
use iris_node::{Side, decode};
use iris_table::Table;
use iris_testing::dice::Dice;
use iris_testing::fetching::record_of;
use iris_testing::keeping::{are_recorded, let_some_go, settle_and_clean};
use iris_testing::planning::text;
use std::alloc::Global;
use std::test::Fail;

// How many places the file has.
const LENGTH: u32 = 6000;

// A table, its records, and a cache in which the same is planned; and how many parts were let go.
#[derive(Drop)]
struct Beside {
    keys: Keys,
    table: Table,
    records: Vec<(Name, Bytes)>,
    cache: Cache,
    gone: u32,
}

// A range of places that is written, or that becomes a hole: it is cut off, and the file then as long as before.
#[derive(Clone, Copy)]
struct Change {
    low: u32,
    high: u32,
    cuts: bool,
}

// Asks a table for something that it does.
fn step(alloc: Global, table: &mut Table, request: &Request) -> Result<(), Fail> {
    match table.step(alloc, request)? {
        Reply::Done => Ok(()),
        _ => Err("a request is refused".into()),
    }
}

// Writes so many places from one on.
fn write(alloc: Global, table: &mut Table, place: u32, count: u32) -> Result<(), Fail> {
    let mut bytes = Vec::new(alloc);
    bytes.resize(count as usize * 4096, 7)?;
    let request = Request::Write {
        path: text(alloc, "/a")?,
        offset: place as u64 * 4096,
        bytes: Bytes::of(bytes),
    };
    step(alloc, table, &request)
}

fn resize(alloc: Global, table: &mut Table, places: u32) -> Result<(), Fail> {
    let request = Request::Resize {
        path: text(alloc, "/a")?,
        length: places as u64 * 4096,
    };
    step(alloc, table, &request)
}

fn create(alloc: Global, table: &mut Table) -> Result<(), Fail> {
    let request = Request::Create {
        path: text(alloc, "/a")?,
    };
    step(alloc, table, &request)
}

// A table that has one file, which is a hole.
fn table_of_a_file(alloc: Global, keys: &Keys) -> Result<Table, Fail> {
    let mut table = Table::new(alloc, keys)?;
    create(alloc, &mut table)?;
    resize(alloc, &mut table, LENGTH)?;
    Ok(table)
}

fn set_up(alloc: Global) -> Result<Beside, Fail> {
    let keys = Keys::of(&[0; 32]);
    let table = table_of_a_file(alloc, &keys)?;
    let records = table.records_of(alloc, &keys)?;
    let cache = cache_of(alloc, records.as_slice())?;
    Ok(Beside {
        keys,
        table,
        records,
        cache,
        gone: 0,
    })
}

// The counter of writes, and the side of all versions, in the file's record.
fn recorded_file(alloc: Global, records: &[(Name, Bytes)]) -> Result<(u64, Side), Fail> {
    let record = record_of(records, &ENTRY).ok_or("the entry")?;
    let node = decode(alloc, record)?.ok_or("a node")?;
    Ok(file_in(&node).ok_or("a file")?)
}

// Whether each resident part has the record that the table has, and the entry the side.
fn agrees(alloc: Global, cache: &Cache, records: &[(Name, Bytes)]) -> Result<bool, Fail> {
    let (_, side) = recorded_file(alloc, records)?;
    Ok(side_in(cache) == Some(side) && are_recorded(alloc, cache, records, Some(ENTRY))?)
}

// Lets parts go, and some of those above them.
fn forget(alloc: Global, beside: &mut Beside, dice: &mut Dice) -> Result<(), Fail> {
    for _ in 0..3 {
        let gone = let_some_go(alloc, &mut beside.cache, dice)?;
        beside.gone = beside.gone.saturating_add(gone);
    }
    Ok(())
}

// A range near one of a few places, or, one time in eight, one near the end that is cut off.
fn some_change(dice: &mut Dice) -> Change
    ensures some { result.low < result.high }
    ensures within { result.high ≤ 6000 }
{
    let low = dice.roll(3) * 2950 + dice.roll(50);
    let high = low + 1 + dice.roll(12);
    if dice.roll(8) == 0 {
        return Change {
            low: LENGTH - 1 - dice.roll(64),
            high: LENGTH,
            cuts: true,
        };
    }
    Change {
        low,
        high,
        cuts: false,
    }
}

fn change_table(alloc: Global, table: &mut Table, change: Change) -> Result<(), Fail>
    requires { change.low < change.high }
{
    if !change.cuts {
        return write(alloc, table, change.low, change.high - change.low);
    }
    resize(alloc, table, change.low)?;
    resize(alloc, table, LENGTH)
}

// Plans the same over the cache: the written places have the counter of the file's record afterwards.
fn change_cache(
    alloc: Global,
    cache: &mut Cache,
    change: Change,
    before: &[(Name, Bytes)],
    after: &[(Name, Bytes)],
) -> Result<(), Fail>
    requires some { change.low < change.high }
    requires within { change.high ≤ 6000 }
{
    let (counter, _) = recorded_file(alloc, after)?;
    let version = if change.cuts { 0 } else { counter };
    set(alloc, cache, before, change.low, change.high, version)
}

fn change_both(alloc: Global, beside: &mut Beside, change: Change) -> Result<(), Fail>
    requires some { change.low < change.high }
    requires within { change.high ≤ 6000 }
{
    change_table(alloc, &mut beside.table, change)?;
    let records = beside.table.records_of(alloc, &beside.keys)?;
    let before = beside.records.as_slice();
    change_cache(alloc, &mut beside.cache, change, before, records.as_slice())?;
    beside.records = records;
    Ok(())
}

// One change of both, settled and cleaned. Tells whether they agree.
fn round(alloc: Global, beside: &mut Beside, dice: &mut Dice) -> Result<bool, Fail> {
    let change = some_change(dice);
    change_both(alloc, beside, change)?;
    settle_and_clean(&mut beside.cache, &ENTRY)?;
    agrees(alloc, &beside.cache, beside.records.as_slice())
}

// Plans that lack parts, with the hashes that they expect; what they make, settled, is the table's.
#[test]
fn plans_as_the_table_writes(rt: HostRuntime) -> Result<(), Fail> {
    let mut beside = set_up(rt.alloc())?;
    let mut dice = Dice::of(1);
    for number in 0..60u32 {
        assert!(rt;
            round(rt.alloc(), &mut beside, &mut dice)?,
            "round {number}"
        );
        forget(rt.alloc(), &mut beside, &mut dice)?;
    }
    assert!(rt; beside.gone > 300, "{} went", beside.gone);
    Ok(())
}
