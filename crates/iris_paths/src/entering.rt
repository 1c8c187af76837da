//! The directory at a path, and the place of a new name.

ghost use Rattle.std.specs.Prelude.{◌≡◌, ◌<◌, ◌-◌, ℕ, List, IfOk, IfErr, length, Some};
ghost use Rattle.iris_node.specs.Trees.{Shown};
ghost use Rattle.iris_plain.specs.Routes.{parent, last};
ghost use Rattle.iris_treepaths.specs.Needs.{IsDirectory};
ghost use Rattle.iris_paths.specs.Pictured.{AreInSight, IsOnTrail, IsPathLack, every};
ghost use Rattle.iris_paths.specs.Following.{Follows};
ghost use Rattle.iris_paths.specs.Entering.{IsEntered, IsDestination};

use crate::resolving::{Found, follow};
use iris_cache::{Cache, Draft, Short};
use iris_dirtree::{is_directory, plan_find};
use iris_name::{FileId, PlainError, Text};
use iris_plain::step::above;

/// A directory, or why there is none that serves.
#[derive(Clone, Copy, Debug)]
pub(crate) enum Place {
    In { dir: FileId },
    Not { error: PlainError },
}

// The directory at which resolving has come to its end, or why there is none.
fn enter_at(draft: &Draft, cache: &Cache, found: Found) -> Place
    requires { AreInSight draft.now cache.now found }
    ensures { (names : List (List ℕ)) →
        Follows draft.now cache.now names found → IsEntered draft.now cache.now names result }
{
    draft.sound();
    cache.sound();
    match found {
        Found::At { id, .. } => {
            if is_directory(draft, cache, id) {
                Place::In { dir: id }
            } else {
                Place::Not {
                    error: PlainError::NotDir,
                }
            }
        }
        Found::Missing => Place::Not {
            error: PlainError::NotFound,
        },
        Found::ThroughFile => Place::Not {
            error: PlainError::NotDir,
        },
    }
}

/// The directory at a path, or why there is none.
pub(crate) fn enter(draft: &Draft, cache: &Cache, names: &[Text]) -> Result<Place, Short>
    ensures entered { IfOk result (IsEntered draft.now cache.now names.now) }
    ensures short { IfErr result (λ e. (key : List ℕ) →
        IsPathLack key every (IsOnTrail key names.now) draft.now cache.now e) }
{
    let found = follow(draft, cache, names)?;
    Ok(enter_at(draft, cache, found))
}

// The place of a new path in the directory above it.
fn place_in(draft: &Draft, cache: &Cache, names: &[Text], dir: FileId) -> Result<Place, Short>
    requires some { 0 < length names.now }
    requires entered { IsEntered draft.now cache.now (parent names.now) (Place.In dir) }
    ensures place { IfOk result (IsDestination draft.now cache.now names.now) }
    ensures short { IfErr result (λ e. (key : List ℕ) →
        IsPathLack key every (IsOnTrail key names.now) draft.now cache.now e) }
{
    draft.sound();
    cache.sound();
    match plan_find(draft, cache, dir, &names[names.len() - 1])? {
        Some(_) => Ok(Place::Not {
            error: PlainError::Exists,
        }),
        None => Ok(Place::In { dir }),
    }
}

/// The directory in which a new path is to stand, or why it can't.
pub(crate) fn place_of(draft: &Draft, cache: &Cache, names: &[Text]) -> Result<Place, Short>
    ensures place { IfOk result (IsDestination draft.now cache.now names.now) }
    ensures short { IfErr result (λ e. (key : List ℕ) →
        IsPathLack key every (IsOnTrail key names.now) draft.now cache.now e) }
{
    if names.is_empty() {
        return Ok(Place::Not {
            error: PlainError::Exists,
        });
    }
    match enter(draft, cache, above(names))? {
        Place::In { dir } => place_in(draft, cache, names, dir),
        Place::Not { error } => Ok(Place::Not { error }),
    }
}
