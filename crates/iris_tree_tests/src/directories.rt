//! Paths are made and moved over a cache, with ample memory.

use iris_cache::Cache;
use iris_name::{Bytes, PlainError, Reply};
use iris_node::encode;
use iris_testing::planning::{ROOT, fresh, listed, make, rename, told};
use iris_upkeep::settle_all;
use std::alloc::Global;
use std::test::Fail;

// One request of a test: a path to make, or to move where a second one is named; a new id; and the answer.
#[derive(Clone, Copy)]
struct Step {
    path: &'static str,
    to: &'static str,
    id: u64,
    dir: bool,
    answer: Option<PlainError>,
}

fn made(path: &'static str, id: u64, dir: bool, answer: Option<PlainError>) -> Step {
    Step {
        path,
        to: "",
        id,
        dir,
        answer,
    }
}

fn moved(path: &'static str, to: &'static str, answer: Option<PlainError>) -> Step {
    Step {
        path,
        to,
        id: 0,
        dir: false,
        answer,
    }
}

fn answers(alloc: Global, cache: &mut Cache, step: Step) -> Result<bool, Fail> {
    let answer = if step.to.is_empty() {
        make(alloc, cache, step.path, step.id, step.dir)?
    } else {
        rename(alloc, cache, step.path, step.to)?
    };
    Ok(answer == step.answer)
}

// The first step that is answered otherwise.
fn run(alloc: Global, cache: &mut Cache, steps: &[Step]) -> Result<Option<usize>, Fail> {
    for (i, step) in steps.iter().enumerate() {
        if !answers(alloc, cache, *step)? {
            return Ok(Some(i));
        }
    }
    Ok(None)
}

// The first step that is answered otherwise, on a cache with an empty root.
fn run_fresh(alloc: Global, steps: &[Step]) -> Result<Option<usize>, Fail> {
    let mut cache = fresh(alloc)?;
    run(alloc, &mut cache, steps)
}

// Checks in another order than the table of requests has them.
#[test]
fn tells_the_first_error(rt: HostRuntime) -> Result<(), Fail> {
    let steps = [
        made("/", 2, true, Some(PlainError::Exists)),
        made("/a", 2, true, None),
        made("/b", 3, true, None),
        moved("/a", "/a/c", Some(PlainError::IntoSelf)),
        moved("/a", "/b", Some(PlainError::Exists)),
        moved("/a", "/a", Some(PlainError::Exists)),
        moved("/", "/c", Some(PlainError::BadPath)),
        moved("/x", "/x/y", Some(PlainError::NotFound)),
        made("/f", 4, false, None),
        made("/f/g", 5, false, Some(PlainError::NotDir)),
    ];
    assert_eq!(rt; run_fresh(rt.alloc(), &steps)?, None);
    Ok(())
}

// A file in one of two directories.
fn one_file(alloc: Global) -> Result<Cache, Fail> {
    let mut cache = fresh(alloc)?;
    let steps = [
        made("/a", 2, true, None),
        made("/a/f", 3, false, None),
        made("/b", 4, true, None),
    ];
    match run(alloc, &mut cache, &steps)? {
        None => Ok(cache),
        Some(_) => Err("another answer".into()),
    }
}

// Whether a file that is moved is told where it is, and no more where it was.
fn moves(alloc: Global) -> Result<bool, Fail> {
    let mut cache = one_file(alloc)?;
    let done = run(alloc, &mut cache, &[moved("/a/f", "/b/g", None)])?;
    Ok(done.is_none() && has_moved(alloc, &cache)?)
}

fn has_moved(alloc: Global, cache: &Cache) -> Result<bool, Fail> {
    let gone = told(alloc, cache, "/a/f")?;
    let there = told(alloc, cache, "/b/g")?;
    let names = listed(alloc, cache, "/b/g", "")?;
    let file = Reply::Stat {
        dir: false,
        length: 0,
    };
    let moved = gone == Reply::Plain(PlainError::NotFound) && there == file;
    Ok(moved && names == Reply::Plain(PlainError::NotDir))
}

// A row that is lost on its way into another directory.
#[test]
fn moves_a_row(rt: HostRuntime) -> Result<(), Fail> {
    assert!(rt; moves(rt.alloc())?);
    Ok(())
}

// The record of the root once all nodes are settled.
fn root_record(alloc: Global, cache: &mut Cache) -> Result<Bytes, Fail> {
    settle_all(cache, &ROOT);
    let root = cache.find(&ROOT).ok_or("the root")?;
    Ok(encode(alloc, &root.node)?)
}

// The record of the root after a renaming.
fn record_after(alloc: Global, cache: &mut Cache, from: &str, to: &str) -> Result<Bytes, Fail> {
    if rename(alloc, cache, from, to)?.is_some() {
        return Err("it isn't renamed".into());
    }
    root_record(alloc, cache)
}

// The records of the root once a file is moved away, and once it is back.
fn records_away_and_back(alloc: Global, cache: &mut Cache) -> Result<(Bytes, Bytes), Fail> {
    let away = record_after(alloc, cache, "/a/f", "/b/g")?;
    let back = record_after(alloc, cache, "/b/g", "/a/f")?;
    Ok((away, back))
}

fn comes_back(alloc: Global) -> Result<bool, Fail> {
    let mut cache = one_file(alloc)?;
    let first = root_record(alloc, &mut cache)?;
    let (away, back) = records_away_and_back(alloc, &mut cache)?;
    Ok(first.as_slice() != away.as_slice() && first.as_slice() == back.as_slice())
}

// A root whose record shows by which way its tree came about.
#[test]
fn has_the_same_root_once_renamed_back(rt: HostRuntime) -> Result<(), Fail> {
    assert!(rt; comes_back(rt.alloc())?);
    Ok(())
}
