//! Requests that make and move files and directories.

ghost use Rattle.std.specs.Prelude.{◌≡◌, ◌<◌, ℕ, List, Some, IfOk, IfErr, length};
ghost use Rattle.iris_blocks.specs.Paged.{Paged};
ghost use Rattle.iris_name.specs.declared.request.PlainError.TheVariants.{Full};
ghost use Rattle.iris_name.specs.declared.request.Request.TheVariants.{Rename};
ghost use Rattle.iris_name.specs.Paths.{names_of};
ghost use Rattle.iris_plain.specs.Checks.{error_if, is_full, then_error};
ghost use Rattle.iris_requests.specs.Served.{new_at};
ghost use Rattle.iris_requests.specs.Outcomes.{checked_plan};
ghost use Rattle.iris_requests.specs.Planned.{PlansFor};
ghost use Rattle.iris_requests.specs.Needed.{IsPlanShort};

use crate::planned::{Counters, Planned, path_of, refused};
use iris_blocks::PageDraft;
use iris_cache::{Cache, Draft, Short};
use iris_mac::Keys;
use iris_name::{FileId, Path, PlainError, Reply, Text};
use iris_paths::{plan_make, plan_rename};
use iris_plain::checks::is_full;
use std::alloc::Global;

// The draft of a change of rows, unless a check stands against it.
fn changed(
    alloc: Global,
    error: Option<PlainError>,
    draft: Draft,
    before: Counters,
    after: Counters,
) -> Planned
    ensures { result ≡ checked_plan
        (then_error error (error_if (is_full before.age) Full)) draft before after }
{
    if let Some(error) = error {
        return refused(alloc, before, error);
    }
    if is_full(before.age) {
        return refused(alloc, before, PlainError::Full);
    }
    Planned {
        reply: Reply::Done,
        draft,
        pages: PageDraft::new(alloc),
        counters: after,
    }
}

// A new file or directory at a path with names.
fn plan_row(
    alloc: Global,
    keys: &Keys,
    cache: &Cache,
    counters: Counters,
    path: &Path,
    dir: bool,
) -> Result<Planned, Short>
    requires some { 0 < length path.now }
    ensures leads { IfOk result (λ p. (b : Paged) → (text : List ℕ) →
        names_of text ≡ Some path.now →
        PlansFor keys.now.order (new_at dir text) cache.now b counters p) }
    ensures short { IfErr result (λ e. (b : Paged) → (text : List ℕ) →
        names_of text ≡ Some path.now →
        IsPlanShort keys.now (new_at dir text) cache.now b counters e) }
{
    let mut draft = Draft::new(alloc);
    let error = plan_make(
        alloc,
        &mut draft,
        cache,
        keys,
        path,
        FileId(counters.next),
        dir,
    )?;
    Ok(changed(alloc, error, draft, counters, counters.grown()))
}

/// A new file or directory.
pub fn plan_new(
    alloc: Global,
    keys: &Keys,
    cache: &Cache,
    counters: Counters,
    path: &Text,
    dir: bool,
) -> Result<Planned, Short>
    ensures leads { IfOk result (λ p. (b : Paged) →
        PlansFor keys.now.order (new_at dir path.now) cache.now b counters p) }
    ensures short { IfErr result (λ e. (b : Paged) →
        IsPlanShort keys.now (new_at dir path.now) cache.now b counters e) }
{
    let Some(path) = path_of(alloc, path)? else {
        return Ok(refused(alloc, counters, PlainError::BadPath));
    };
    if path.names().is_empty() {
        return Ok(refused(alloc, counters, PlainError::Exists));
    }
    plan_row(alloc, keys, cache, counters, &path, dir)
}

// A row moved between paths.
fn plan_row_move(
    alloc: Global,
    keys: &Keys,
    cache: &Cache,
    counters: Counters,
    from: &Path,
    to: &Path,
) -> Result<Planned, Short>
    requires some { 0 < length from.now }
    ensures leads { IfOk result (λ p. (b : Paged) → (old new : List ℕ) →
        names_of old ≡ Some from.now → names_of new ≡ Some to.now →
        PlansFor keys.now.order (Rename old new) cache.now b counters p) }
    ensures short { IfErr result (λ e. (b : Paged) → (old new : List ℕ) →
        names_of old ≡ Some from.now → names_of new ≡ Some to.now →
        IsPlanShort keys.now (Rename old new) cache.now b counters e) }
{
    let mut draft = Draft::new(alloc);
    let error = plan_rename(alloc, &mut draft, cache, keys, from, to)?;
    Ok(changed(alloc, error, draft, counters, counters.aged()))
}

/// A file or directory under another path.
pub fn plan_move(
    alloc: Global,
    keys: &Keys,
    cache: &Cache,
    counters: Counters,
    from: &Text,
    to: &Text,
) -> Result<Planned, Short>
    ensures leads { IfOk result (λ p. (b : Paged) →
        PlansFor keys.now.order (Rename from.now to.now) cache.now b counters p) }
    ensures short { IfErr result (λ e. (b : Paged) →
        IsPlanShort keys.now (Rename from.now to.now) cache.now b counters e) }
{
    let Some(from) = path_of(alloc, from)? else {
        return Ok(refused(alloc, counters, PlainError::BadPath));
    };
    let Some(to) = path_of(alloc, to)? else {
        return Ok(refused(alloc, counters, PlainError::BadPath));
    };
    if from.names().is_empty() {
        return Ok(refused(alloc, counters, PlainError::BadPath));
    }
    plan_row_move(alloc, keys, cache, counters, &from, &to)
}
