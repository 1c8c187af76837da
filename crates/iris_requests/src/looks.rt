//! Requests that change nothing.

ghost use Rattle.std.specs.Prelude.{◌≡◌, ◌≤◌, ℕ, List, Some, IfOk, IfErr};
ghost use Rattle.iris_blocks.specs.Paged.{Paged};
ghost use Rattle.iris_mac.specs.declared.keys.Keys.{Keys as KeysMade};
ghost use Rattle.iris_name.specs.Paths.{names_of};
ghost use Rattle.iris_name.specs.declared.request.Request.TheVariants.{Read, Stat, List as ListNames};
ghost use Rattle.iris_rows.specs.Rows.{Table};
ghost use Rattle.iris_table.specs.Replies.{TableReplies};
ghost use Rattle.iris_requests.specs.declared.planned.Counters.{Counters as CountersKept};
ghost use Rattle.iris_requests.specs.Planned.{IsShownBy, PlansFor};
ghost use Rattle.iris_requests.specs.Needed.{IsPlanShort};

use crate::planned::{Counters, Planned, path_of, refused, unchanged};
use iris_blocks::Blocks;
use iris_cache::{Cache, Draft, Short};
use iris_files::plan_read;
use iris_mac::Keys;
use iris_name::{Path, PlainError, Reply, Text};
use iris_paths::{Found, look, plan_list, plan_stat};
use iris_plain::checks::{MOST_BYTES, read_checks};
use std::alloc::Global;

/// Bytes of a file, from an offset on.
pub fn plan_read_at(
    alloc: Global,
    keys: &Keys,
    cache: &Cache,
    blocks: &Blocks,
    counters: Counters,
    path: &Text,
    offset: u64,
    count: u64,
) -> Result<Planned, Short>
    ensures leads { IfOk result (PlansFor keys.now.order (Read path.now offset count)
        cache.now blocks.now counters) }
    ensures short { IfErr result (IsPlanShort keys.now (Read path.now offset count)
        cache.now blocks.now counters) }
{
    match path_of(alloc, path)? {
        None => Ok(refused(alloc, counters, PlainError::BadPath)),
        Some(path) => {
            if count > MOST_BYTES {
                return Ok(refused(alloc, counters, PlainError::TooMuch));
            }
            let reply = read_at(alloc, cache, blocks, &path, offset, count)?;
            Ok(unchanged(alloc, counters, reply))
        }
    }
}

// Bytes of what stands at a path, or why there are none.
fn read_at(
    alloc: Global,
    cache: &Cache,
    blocks: &Blocks,
    path: &Path,
    offset: u64,
    count: u64,
) -> Result<Reply, Short>
    requires { count ≤ 262144 }
    ensures replies { IfOk result (λ reply.
        (order : List ℕ) (t : Table) (k : CountersKept) (text : List ℕ) →
        IsShownBy order t cache.now blocks.now k → names_of text ≡ Some path.now →
        TableReplies order t (Read text offset count) reply) }
    ensures short { IfErr result (λ e. (keys : KeysMade) (k : CountersKept) (text : List ℕ) →
        names_of text ≡ Some path.now →
        IsPlanShort keys (Read text offset count) cache.now blocks.now k e) }
{
    let draft = Draft::new(alloc);
    let (found, seen) = look(&draft, cache, path)?;
    if let Some(error) = read_checks(seen, count) {
        return Ok(Reply::Plain(error));
    }
    match found {
        Found::At { id, .. } => {
            let bytes = plan_read(alloc, &draft, cache, blocks, id, offset, count)?;
            Ok(Reply::Bytes(bytes))
        }
        Found::Missing | Found::ThroughFile => unreachable!(),
    }
}

/// What stands at a path.
pub fn plan_stat_at(
    alloc: Global,
    keys: &Keys,
    cache: &Cache,
    counters: Counters,
    path: &Text,
) -> Result<Planned, Short>
    ensures leads { IfOk result (λ p. (b : Paged) →
        PlansFor keys.now.order (Stat path.now) cache.now b counters p) }
    ensures short { IfErr result (λ e. (b : Paged) →
        IsPlanShort keys.now (Stat path.now) cache.now b counters e) }
{
    match path_of(alloc, path)? {
        None => Ok(refused(alloc, counters, PlainError::BadPath)),
        Some(path) => {
            let reply = plan_stat(&Draft::new(alloc), cache, &path)?;
            Ok(unchanged(alloc, counters, reply))
        }
    }
}

/// A page of a directory's names.
pub fn plan_list_at(
    alloc: Global,
    keys: &Keys,
    cache: &Cache,
    counters: Counters,
    path: &Text,
    after: &Text,
) -> Result<Planned, Short>
    ensures leads { IfOk result (λ p. (b : Paged) →
        PlansFor keys.now.order (ListNames path.now after.now) cache.now b counters p) }
    ensures short { IfErr result (λ e. (b : Paged) →
        IsPlanShort keys.now (ListNames path.now after.now) cache.now b counters e) }
{
    match path_of(alloc, path)? {
        None => Ok(refused(alloc, counters, PlainError::BadPath)),
        Some(path) => {
            let reply = plan_list(alloc, &Draft::new(alloc), cache, &path, after)?;
            Ok(unchanged(alloc, counters, reply))
        }
    }
}
