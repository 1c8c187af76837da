//! Renaming.

ghost use Rattle.std.specs.Prelude.{◌≡◌, ◌<◌, ℕ, List, Option, Some, None, IfOk, IfErr, OnOk, IsSome, length, false};
ghost use Rattle.iris_name.specs.declared.name.FileId.{FileId as SpecId};
ghost use Rattle.iris_node.specs.Rules.{IsEntry};
ghost use Rattle.iris_node.specs.Trees.{Shown, IsTree};
ghost use Rattle.iris_cache.specs.Pictures.{Drafts};
ghost use Rattle.iris_plain.specs.declared.checks.Seen.{Seen as MetSeen};
ghost use Rattle.iris_plain.specs.Checks.{no_place, move_checks};
ghost use Rattle.iris_plain.specs.Routes.{parent, last, is_top, is_front};
ghost use Rattle.iris_treepaths.specs.Rows.{Row};
ghost use Rattle.iris_treepaths.specs.Needs.{IsDirectory};
ghost use Rattle.iris_paths.specs.declared.resolving.Found.TheVariants.{At as CameTo};
ghost use Rattle.iris_paths.specs.Resolving.{Resolves};
ghost use Rattle.iris_paths.specs.Pictured.{Pictured, AreInSight, IsOnTrail, IsPathLack, every};
ghost use Rattle.iris_paths.specs.Following.{Follows};
ghost use Rattle.iris_paths.specs.Making.{IsWhole};
ghost use Rattle.iris_paths.specs.Moving.{Takes, Puts, IsSource, IsCarryShort, IsMoveShort};

use crate::entering::{Place, place_of};
use crate::making::lone_entry;
use crate::resolving::{Found, follow};
use iris_cache::{Cache, Draft, Short};
use iris_dirtree::{is_directory, plan_insert, plan_remove};
use iris_mac::Keys;
use iris_name::{FileId, NoMemory, Path, PlainError, Text};
use iris_node::EntryNode;
use iris_plain::files::is_below;
use std::alloc::Global;

// The directory out of which what resolving came to is moved, or why it can't be.
fn source_at(draft: &Draft, cache: &Cache, found: Found, from: &[Text], to: &[Text]) -> Place
    requires sight { AreInSight draft.now cache.now found }
    requires some { 0 < length from.now }
    requires follows { Follows draft.now cache.now from.now found }
    ensures { IsSource draft.now cache.now from.now to.now result }
{
    draft.sound();
    cache.sound();
    match found {
        Found::At { parent, .. } => {
            if is_below(from, to) {
                Place::Not {
                    error: PlainError::IntoSelf,
                }
            } else {
                Place::In { dir: parent }
            }
        }
        Found::Missing => Place::Not {
            error: PlainError::NotFound,
        },
        Found::ThroughFile => Place::Not {
            error: PlainError::NotDir,
        },
    }
}

// The directory out of which a path is moved to another, or why it can't be.
fn source_of(draft: &Draft, cache: &Cache, from: &[Text], to: &[Text]) -> Result<Place, Short>
    ensures source { IfOk result (IsSource draft.now cache.now from.now to.now) }
    ensures short { IfErr result (λ e. (key : List ℕ) →
        IsPathLack key every (IsOnTrail key from.now) draft.now cache.now e) }
{
    if from.is_empty() {
        return Ok(Place::Not {
            error: PlainError::BadPath,
        });
    }
    let found = follow(draft, cache, from)?;
    Ok(source_at(draft, cache, found, from, to))
}

// What each entry keeps.
fn keeps_rules(entry: &EntryNode)
    ensures { IsEntry entry.now }
{
    let _ = &entry.id;
}

// An entry alone, under another name.
fn named_anew(alloc: Global, entry: EntryNode, name: &Text) -> Result<EntryNode, NoMemory>
    ensures { IfOk result (λ e. e ≡
        record { id = entry.id; name = name.now; left = None; right = None; body = entry.body }) }
{
    keeps_rules(&entry);
    lone_entry(alloc, entry.id, name, entry.body)
}

// Takes the row of a name out of a directory and puts it into another under a new name. Else the draft is given up.
fn carry(
    alloc: Global,
    draft: &mut Draft,
    cache: &Cache,
    keys: &Keys,
    out: FileId,
    name: &Text,
    into: FileId,
    label: &Text,
) -> Result<(), Short>
    requires out { IsDirectory draft.old cache.now out }
    ensures carried { OnOk result ((old new mid made : Shown) (x : Row) (rows others : List Row) →
        IsTree old → IsTree new → Drafts old new draft.old cache.now →
        IsWhole old → Takes keys.now.order out name.now x rows new mid →
        Puts keys.now.order into label.now x others mid made →
        Drafts old made draft.new cache.now) }
    ensures short { IfErr result
        (IsCarryShort keys.now.order out name.now into label.now draft.old cache.now) }
{
    let entry = plan_remove(alloc, draft, cache, keys, out, name)?;
    let node = named_anew(alloc, entry, label)?;
    if !is_directory(draft, cache, into) {
        return Err(Short::NoMemory);
    }
    plan_insert(alloc, draft, cache, keys, into, node)?;
    Ok(())
}

/// Replaces a path by another in every path that has it in front, or says why not. After want of memory or of a name the draft
/// is given up.
pub fn plan_rename(
    alloc: Global,
    draft: &mut Draft,
    cache: &Cache,
    keys: &Keys,
    from: &Path,
    to: &Path,
) -> Result<Option<PlainError>, Short>
    ensures verdict { IfOk result (λ r. (met : List (List ℕ) → MetSeen) (old new : Shown) →
        Pictured keys.now.order met draft.old cache.now old new → r ≡ move_checks (is_top from.now)
        (met from.now) (is_front from.now to.now) (no_place met false to.now)) }
    ensures moved { IfOk result (λ r. r ≡ None → (met : List (List ℕ) →
        MetSeen) (old new mid made : Shown) (id out into beyond : SpecId) (x : Row)
        (rows others : List Row) → Pictured keys.now.order met draft.old cache.now old new →
        IsWhole old → Resolves new keys.now.order from.now (CameTo id out) →
        Resolves new keys.now.order (parent to.now) (CameTo into beyond) →
        Takes keys.now.order out (last from.now) x rows new mid →
        Puts keys.now.order into (last to.now) x others mid made →
        Drafts old made draft.new cache.now) }
    ensures unchanged { IfOk result (λ r. IsSome r → draft.new ≡ draft.old) }
    ensures short { IfErr result (IsMoveShort keys.now.order from.now to.now draft.old cache.now) }
{
    let olds = from.names();
    let news = to.names();
    let out = match source_of(draft, cache, olds, news)? {
        Place::In { dir } => dir,
        Place::Not { error } => return Ok(Some(error)),
    };
    let into = match place_of(draft, cache, news)? {
        Place::In { dir } => dir,
        Place::Not { error } => return Ok(Some(error)),
    };
    let name = &olds[olds.len() - 1];
    let label = &news[news.len() - 1];
    carry(alloc, draft, cache, keys, out, name, into, label)?;
    Ok(None)
}
