//! A request of any kind.

ghost use Rattle.std.specs.Prelude.{◌≡◌, IfOk, IfErr};
ghost use Rattle.iris_history.specs.Values.{IsReply};
ghost use Rattle.iris_requests.specs.Served.{IsPlannable};
ghost use Rattle.iris_requests.specs.Planned.{PlansFor};
ghost use Rattle.iris_requests.specs.Needed.{IsPlanShort};

use crate::files::{plan_resize_at, plan_write_at};
use crate::looks::{plan_list_at, plan_read_at, plan_stat_at};
use crate::planned::{Counters, Planned};
use crate::rows::{plan_move, plan_new};
use crate::values::is_reply;
use iris_blocks::Blocks;
use iris_cache::{Cache, Short};
use iris_mac::Keys;
use iris_name::Request;
use std::alloc::Global;

// Plans a request by its kind.
fn plan_of(
    alloc: Global,
    keys: &Keys,
    cache: &Cache,
    blocks: &Blocks,
    counters: Counters,
    request: &Request,
) -> Result<Planned, Short>
    requires { IsPlannable request.now }
    ensures leads { IfOk result (PlansFor keys.now.order request.now
        cache.now blocks.now counters) }
    ensures short { IfErr result (IsPlanShort keys.now request.now cache.now blocks.now counters) }
{
    match request {
        Request::Mkdir { path } => plan_new(alloc, keys, cache, counters, path, true),
        Request::Create { path } => plan_new(alloc, keys, cache, counters, path, false),
        Request::Write {
            path,
            offset,
            bytes,
        } => plan_write_at(alloc, keys, cache, blocks, counters, path, *offset, bytes),
        Request::Read {
            path,
            offset,
            length,
        } => plan_read_at(alloc, keys, cache, blocks, counters, path, *offset, *length),
        Request::Resize { path, length } => {
            plan_resize_at(alloc, keys, cache, blocks, counters, path, *length)
        }
        Request::Stat { path } => plan_stat_at(alloc, keys, cache, counters, path),
        Request::List { path, after } => plan_list_at(alloc, keys, cache, counters, path, after),
        Request::Rename { from, to } => plan_move(alloc, keys, cache, counters, from, to),
        Request::Remove { .. }
        | Request::Sync
        | Request::Root
        | Request::Reclaim
        | Request::Probe { .. } => unreachable!(),
    }
}

/// Plans a request over cache and resident blocks: its reply, and the drafts that lead to the table after it. It stops at the first
/// name that it lacks.
pub fn plan(
    alloc: Global,
    keys: &Keys,
    cache: &Cache,
    blocks: &Blocks,
    counters: Counters,
    request: &Request,
) -> Result<Planned, Short>
    requires { IsPlannable request.now }
    ensures leads { IfOk result (PlansFor keys.now.order request.now
        cache.now blocks.now counters) }
    ensures values { IfOk result (λ p. IsReply p.reply) }
    ensures short { IfErr result (IsPlanShort keys.now request.now cache.now blocks.now counters) }
{
    let planned = plan_of(alloc, keys, cache, blocks, counters, request)?;
    is_reply(&planned.reply);
    Ok(planned)
}
