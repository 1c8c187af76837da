//! All plans over a cache and blocks beside a table, with names and blocks evicted at will.

use crate::asking::{keep, some_filling, some_request};
use crate::comparing::{are_blocks_recorded, are_changes, block_in, holds};
use crate::planning::planned;
use iris_blocks::Blocks;
use iris_cache::{Cache, Short};
use iris_mac::{Keys, passes};
use iris_name::{Bytes, Expect, FileId, Name, PAGE_LEN, Page, Reply, Request, Text};
use iris_requests::{Counters, Planned};
use iris_table::Table;
use iris_testing::blocks::put_block;
use iris_testing::dice::Dice;
use iris_testing::fetching::{fetch, record_of};
use iris_testing::keeping::{are_recorded, let_some_go, settle_and_clean};
use iris_testing::planning::ROOT;
use std::alloc::Global;
use std::test::Fail;

// A table, its records, and a cache and blocks in which the same is planned; the paths that were made or moved to; and how many names
// were taken in and let go, and how many requests changed something.
#[derive(Drop)]
struct Beside {
    keys: Keys,
    table: Table,
    records: Vec<(Name, Bytes)>,
    cache: Cache,
    blocks: Blocks,
    counters: Counters,
    met: Vec<Text>,
    fetched: u32,
    gone: u32,
    done: u32,
}

// What a plan comes to.
#[derive(Drop)]
enum Tried {
    Made(Planned),
    Lacks(Name, Expect),
}

// Asks a table for something, and keeps the path that it made.
fn fill_once(
    alloc: Global,
    table: &mut Table,
    met: &mut Vec<Text>,
    dice: &mut Dice,
) -> Result<(), Fail> {
    let request = some_filling(alloc, dice, met.as_slice())?;
    match table.step(alloc, &request)? {
        Reply::Done => keep(alloc, met, &request),
        _ => Ok(()),
    }
}

fn fill(
    alloc: Global,
    table: &mut Table,
    met: &mut Vec<Text>,
    dice: &mut Dice,
) -> Result<(), Fail> {
    for _ in 0..60 {
        fill_once(alloc, table, met, dice)?;
    }
    Ok(())
}

fn set_up(alloc: Global, dice: &mut Dice) -> Result<Beside, Fail> {
    let keys = Keys::of(&[0; 32]);
    let mut table = Table::new(alloc, &keys)?;
    let mut met = Vec::new(alloc);
    fill(alloc, &mut table, &mut met, dice)?;
    let records = table.records_of(alloc, &keys)?;
    let counters = Counters {
        next: next_id(records.as_slice()),
        age: 0,
    };
    Ok(Beside {
        keys,
        table,
        records,
        cache: Cache::new(alloc),
        blocks: Blocks::new(alloc),
        counters,
        met,
        fetched: 0,
        gone: 0,
        done: 0,
    })
}

// The id after all that are live. Nothing is reclaimed here.
fn next_id(records: &[(Name, Bytes)]) -> u64 {
    let mut most = 1u64;
    for (name, _) in records {
        if let Name::Entry { id } = name {
            most = most.max(id.0);
        }
    }
    most.saturating_add(1)
}

// Plans a request once.
fn attempt(alloc: Global, beside: &Beside, request: &Request) -> Result<Tried, Fail> {
    match planned(
        alloc,
        &beside.keys,
        &beside.cache,
        &beside.blocks,
        beside.counters,
        request,
    ) {
        Ok(planned) => Ok(Tried::Made(planned)),
        Err(Short::Need { name, expect }) => Ok(Tried::Lacks(name, expect)),
        Err(Short::NoMemory) => Err("there is no memory".into()),
    }
}

// A block of these bytes.
fn page_of(alloc: Global, block: &[u8]) -> Result<Page, Fail> {
    if block.len() != PAGE_LEN {
        return Err("another length".into());
    }
    Ok(Page::of(alloc, block)?)
}

// The block of a record that passes in the version that a plan expects.
fn recorded_block(
    alloc: Global,
    beside: &Beside,
    file: FileId,
    place: u32,
    version: u64,
) -> Result<Page, Fail> {
    let name = Name::Block { file, place };
    let record = record_of(beside.records.as_slice(), &name).ok_or("a block that isn't live")?;
    if !passes(&beside.keys, file, place, version, record) {
        return Err("another version".into());
    }
    let block = block_in(record).ok_or("a record of a block")?;
    page_of(alloc, block)
}

// Takes a block in that a plan lacks.
fn fetch_block(
    alloc: Global,
    beside: &mut Beside,
    file: FileId,
    place: u32,
    version: u64,
) -> Result<(), Fail> {
    let page = recorded_block(alloc, beside, file, place, version)?;
    put_block(&mut beside.blocks, file, place, version, page, 0)
}

// Takes in what a plan lacks, from the records before it.
fn supply(alloc: Global, beside: &mut Beside, name: &Name, expect: &Expect) -> Result<(), Fail> {
    beside.fetched = beside.fetched.saturating_add(1);
    match (name, expect) {
        (Name::Block { file, place }, Expect::Version(version)) => {
            fetch_block(alloc, beside, *file, *place, *version)
        }
        (name, Expect::Hash(hash)) => {
            let records = beside.records.as_slice();
            fetch(alloc, &mut beside.cache, records, name, *hash)
        }
        _ => Err("a node by its version".into()),
    }
}

// What a request is planned to, once it lacks nothing.
fn made(alloc: Global, beside: &mut Beside, request: &Request) -> Result<Planned, Fail> {
    for _ in 0..1000 {
        match attempt(alloc, beside, request)? {
            Tried::Made(planned) => return Ok(planned),
            Tried::Lacks(name, expect) => supply(alloc, beside, &name, &expect)?,
        }
    }
    Err("it goes on lacking names".into())
}

// Makes both drafts, and takes the pins off.
fn land(beside: &mut Beside, plan: Planned) -> Result<(), Fail> {
    let Planned {
        draft,
        pages,
        counters,
        ..
    } = plan;
    beside.cache.room_for(&draft)?;
    beside.blocks.room_for(&pages)?;
    beside.cache.apply(draft);
    beside.blocks.apply(pages);
    beside.cache.release(0);
    beside.blocks.release(0);
    beside.counters = counters;
    Ok(())
}

// Sends the dirty blocks out one by one, and takes them back clean: each time one less is dirty.
fn clean_blocks(blocks: &mut Blocks) -> Result<(), Fail> {
    let dirty = blocks.dirty();
    for left in 0..dirty {
        clean_one(blocks)?;
        if blocks.dirty() != dirty - 1 - left {
            return Err("another count of dirty blocks".into());
        }
    }
    holds(blocks.dirty_block().is_none(), "a block is left dirty")
}

fn clean_one(blocks: &mut Blocks) -> Result<(), Fail> {
    let (file, place) = blocks.dirty_block().ok_or("a dirty block")?;
    clean_block(blocks, file, place)
}

fn clean_block(blocks: &mut Blocks, file: FileId, place: u32) -> Result<(), Fail> {
    match blocks.held(file, place) {
        Some(held) if held.out.is_none() && held.dirty => {
            blocks.begin(file, place, 0);
            blocks.finish(file, place, true);
            Ok(())
        }
        _ => Err("it isn't dirty, or something is out".into()),
    }
}

// Lets some blocks go, of those that can. Tells how many.
fn let_blocks_go(blocks: &mut Blocks, dice: &mut Dice) -> Result<u32, Fail> {
    for gone in 0..1000u32 {
        if dice.roll(16) == 0 {
            return Ok(gone);
        }
        match blocks.can_go() {
            Some((file, place)) if blocks.held(file, place).is_some() => {
                holds(
                    blocks.evict(file, place).is_ok(),
                    "a block stays that can go",
                )?;
            }
            _ => return Ok(gone),
        }
    }
    Ok(1000)
}

// Compares what was planned of blocks, makes it, settles and cleans all, and compares records.
fn compare(alloc: Global, beside: &mut Beside, plan: Planned) -> Result<(), Fail> {
    let records = beside.table.records_of(alloc, &beside.keys)?;
    let before = beside.records.as_slice();
    let changes = are_changes(&beside.keys, &plan.pages, before, records.as_slice());
    beside.records = records;
    holds(changes && counts(beside, &plan), "other pages or counters")?;
    land(beside, plan)?;
    compare_resident(alloc, beside)
}

fn compare_resident(alloc: Global, beside: &mut Beside) -> Result<(), Fail> {
    settle_and_clean(&mut beside.cache, &ROOT)?;
    let records = beside.records.as_slice();
    let nodes = are_recorded(alloc, &beside.cache, records, None)?;
    let blocks = are_blocks_recorded(&beside.keys, &beside.blocks, records);
    holds(nodes && blocks, "another record")?;
    clean_blocks(&mut beside.blocks)
}

// Whether a plan tells the next id, and an age one higher if and only if it changes something.
fn counts(beside: &Beside, plan: &Planned) -> bool {
    let changes = u64::from(plan.draft.count() > 0);
    plan.counters.next == next_id(beside.records.as_slice())
        && plan.counters.age == beside.counters.age.wrapping_add(changes)
}

// A request that changed something: compares the pages and the records.
fn follow(
    alloc: Global,
    beside: &mut Beside,
    request: &Request,
    plan: Planned,
) -> Result<(), Fail> {
    beside.done = beside.done.saturating_add(1);
    keep(alloc, &mut beside.met, request)?;
    compare(alloc, beside, plan)
}

// A request that changed nothing: its plan may only have pinned.
fn pass_over(beside: &mut Beside, plan: Planned) -> Result<(), Fail> {
    if plan.draft.count() != 0 || plan.pages.count() != 0 {
        return Err("a change without a reason".into());
    }
    land(beside, plan)
}

// Asks both, and compares replies, and after a change the pages and the records.
fn ask(alloc: Global, beside: &mut Beside, request: &Request) -> Result<(), Fail> {
    let want = beside.table.step(alloc, request)?;
    let plan = made(alloc, beside, request)?;
    holds(plan.reply == want, "another reply")?;
    if want == Reply::Done {
        return follow(alloc, beside, request, plan);
    }
    pass_over(beside, plan)
}

fn ask_some(alloc: Global, beside: &mut Beside, dice: &mut Dice) -> Result<(), Fail> {
    let request = some_request(alloc, dice, beside.met.as_slice())?;
    ask(alloc, beside, &request)
}

fn round(alloc: Global, beside: &mut Beside, dice: &mut Dice) -> Result<(), Fail> {
    ask_some(alloc, beside, dice)?;
    let blocks = let_blocks_go(&mut beside.blocks, dice)?;
    let nodes = let_some_go(alloc, &mut beside.cache, dice)?;
    beside.gone = beside.gone.saturating_add(blocks).saturating_add(nodes);
    Ok(())
}

// How many names were taken in and let go, and how many changes done.
fn run(alloc: Global, rounds: u32) -> Result<(u32, u32, u32), Fail> {
    let mut dice = Dice::of(1);
    let mut beside = set_up(alloc, &mut dice)?;
    for _ in 0..rounds {
        round(alloc, &mut beside, &mut dice)?;
    }
    Ok((beside.fetched, beside.gone, beside.done))
}

// Replies, pages and records of random requests of each kind that a plan serves.
#[test]
fn plans_as_the_table_answers(rt: HostRuntime) -> Result<(), Fail> {
    let (fetched, gone, done) = run(rt.alloc(), 300)?;
    assert!(rt;
        fetched > 500 && gone > 500 && done > 50,
        "{fetched} {gone} {done}"
    );
    Ok(())
}
