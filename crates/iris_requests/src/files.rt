//! Requests that write and cut files.

ghost use Rattle.std.specs.Prelude.{◌≡◌, ◌≤◌, ◌<◌, ℕ, List, Some, IfOk, IfErr, length};
ghost use Rattle.iris_mac.specs.declared.keys.Keys.{Keys as KeysMade};
ghost use Rattle.iris_name.specs.Paths.{names_of};
ghost use Rattle.iris_name.specs.declared.request.Request.TheVariants.{Write, Resize};
ghost use Rattle.iris_requests.specs.Planned.{PlansFor};
ghost use Rattle.iris_requests.specs.Needed.{IsPlanShort};

use crate::planned::{Counters, Planned, path_of, refused, unchanged};
use iris_blocks::{Blocks, PageDraft};
use iris_cache::{Cache, Draft, Short};
use iris_files::{plan_resize, plan_write};
use iris_mac::Keys;
use iris_name::{Bytes, Path, PlainError, Reply, Text};
use iris_paths::{Found, look};
use iris_plain::checks::{MOST_BYTES, is_full, resize_checks, size_of, write_checks};
use std::alloc::Global;

// Bytes over what stands at a path, or why there are none.
fn write_at(
    alloc: Global,
    cache: &Cache,
    blocks: &Blocks,
    counters: Counters,
    path: &Path,
    offset: u64,
    bytes: &Bytes,
) -> Result<Planned, Short>
    requires few { length bytes.now ≤ 262144 }
    ensures leads { IfOk result (λ p. (order : List ℕ) → (text : List ℕ) →
        names_of text ≡ Some path.now →
        PlansFor order (Write text offset bytes.now) cache.now blocks.now counters p) }
    ensures short { IfErr result (λ e. (keys : KeysMade) → (text : List ℕ) →
        names_of text ≡ Some path.now →
        IsPlanShort keys (Write text offset bytes.now) cache.now blocks.now counters e) }
{
    blocks.sound();
    let mut draft = Draft::new(alloc);
    let (found, seen) = look(&draft, cache, path)?;
    let count = bytes.as_slice().len() as u64;
    if let Some(error) = write_checks(seen, offset, count, is_full(counters.age)) {
        return Ok(refused(alloc, counters, error));
    }
    if count == 0 {
        return Ok(unchanged(alloc, counters, Reply::Done));
    }
    match found {
        Found::At { id, .. } => {
            let mut pages = PageDraft::new(alloc);
            plan_write(
                alloc, &mut draft, &mut pages, cache, blocks, id, offset, bytes,
            )?;
            Ok(Planned {
                reply: Reply::Done,
                draft,
                pages,
                counters: counters.aged(),
            })
        }
        Found::Missing | Found::ThroughFile => unreachable!(),
    }
}

/// Bytes written over a file. The block of each place that is no hole is needed, also where it is overwritten whole.
pub fn plan_write_at(
    alloc: Global,
    keys: &Keys,
    cache: &Cache,
    blocks: &Blocks,
    counters: Counters,
    path: &Text,
    offset: u64,
    bytes: &Bytes,
) -> Result<Planned, Short>
    ensures leads { IfOk result (PlansFor keys.now.order (Write path.now offset bytes.now)
        cache.now blocks.now counters) }
    ensures short { IfErr result (IsPlanShort keys.now (Write path.now offset bytes.now)
        cache.now blocks.now counters) }
{
    match path_of(alloc, path)? {
        None => Ok(refused(alloc, counters, PlainError::BadPath)),
        Some(path) => {
            if bytes.as_slice().len() as u64 > MOST_BYTES {
                return Ok(refused(alloc, counters, PlainError::TooMuch));
            }
            write_at(alloc, cache, blocks, counters, &path, offset, bytes)
        }
    }
}

// A new length of what stands at a path, or why there is none.
fn resize_at(
    alloc: Global,
    cache: &Cache,
    blocks: &Blocks,
    counters: Counters,
    path: &Path,
    length: u64,
) -> Result<Planned, Short>
    requires { 0 < length }
    ensures leads { IfOk result (λ p. (order : List ℕ) → (text : List ℕ) →
        names_of text ≡ Some path.now →
        PlansFor order (Resize text length) cache.now blocks.now counters p) }
    ensures short { IfErr result (λ e. (keys : KeysMade) → (text : List ℕ) →
        names_of text ≡ Some path.now →
        IsPlanShort keys (Resize text length) cache.now blocks.now counters e) }
{
    blocks.sound();
    let mut draft = Draft::new(alloc);
    let (found, seen) = look(&draft, cache, path)?;
    if let Some(error) = resize_checks(seen, length, is_full(counters.age)) {
        return Ok(refused(alloc, counters, error));
    }
    if length == size_of(seen) {
        return Ok(unchanged(alloc, counters, Reply::Done));
    }
    match found {
        Found::At { id, .. } => {
            let mut pages = PageDraft::new(alloc);
            plan_resize(alloc, &mut draft, &mut pages, cache, blocks, id, length)?;
            Ok(Planned {
                reply: Reply::Done,
                draft,
                pages,
                counters: counters.aged(),
            })
        }
        Found::Missing | Found::ThroughFile => unreachable!(),
    }
}

/// A new length of a file, above 0. Its checks come before any block is needed.
pub fn plan_resize_at(
    alloc: Global,
    keys: &Keys,
    cache: &Cache,
    blocks: &Blocks,
    counters: Counters,
    path: &Text,
    length: u64,
) -> Result<Planned, Short>
    requires { 0 < length }
    ensures leads { IfOk result (PlansFor keys.now.order (Resize path.now length)
        cache.now blocks.now counters) }
    ensures short { IfErr result (IsPlanShort keys.now (Resize path.now length)
        cache.now blocks.now counters) }
{
    match path_of(alloc, path)? {
        None => Ok(refused(alloc, counters, PlainError::BadPath)),
        Some(path) => resize_at(alloc, cache, blocks, counters, &path, length),
    }
}
