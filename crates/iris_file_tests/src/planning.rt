//! Requests are planned over a cache and resident blocks, and so are challenges.

use iris_blocks::{Blocks, PageDraft};
use iris_cache::{Cache, Draft, Short};
use iris_dirtree::plan_place;
use iris_mac::Keys;
use iris_name::{FileId, PlainError, Reply, Request};
use iris_requests::{Counters, Planned, plan};
use iris_version_tree::{is_file, version_at};
use std::alloc::Global;

// The version of a block of a file.
fn version(draft: &Draft, cache: &Cache, file: FileId, place: u32) -> Result<u64, Short> {
    if place >= 65_536 || !is_file(draft, cache, file) {
        return Err(Short::NoMemory);
    }
    version_at(draft, cache, file, place)
}

// The block of a challenge.
fn probe(draft: &Draft, cache: &Cache, at: u64) -> Result<Reply, Short> {
    match plan_place(draft, cache, at)? {
        Some((file, place)) => Ok(Reply::Probed {
            file,
            place,
            version: version(draft, cache, file, place)?,
        }),
        None => Ok(Reply::Plain(PlainError::NotFound)),
    }
}

// A challenge changes nothing.
fn challenge(alloc: Global, cache: &Cache, counters: Counters, at: u64) -> Result<Planned, Short> {
    let draft = Draft::new(alloc);
    let reply = probe(&draft, cache, at)?;
    Ok(Planned {
        reply,
        draft,
        pages: PageDraft::new(alloc),
        counters,
    })
}

// Plans a request of those that the random ones are.
pub(crate) fn planned(
    alloc: Global,
    keys: &Keys,
    cache: &Cache,
    blocks: &Blocks,
    counters: Counters,
    request: &Request,
) -> Result<Planned, Short> {
    match request {
        Request::Probe { at } => challenge(alloc, cache, counters, *at),
        Request::Resize { length: 0, .. }
        | Request::Remove { .. }
        | Request::Sync
        | Request::Root
        | Request::Reclaim => Err(Short::NoMemory),
        _ => plan(alloc, keys, cache, blocks, counters, request),
    }
}
