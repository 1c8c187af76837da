//! Resolving paths.

ghost use Rattle.std.specs.Prelude.{◌≡◌, ℕ, List, IfOk, IfErr};
ghost use Rattle.iris_node.specs.Trees.{Shown};
ghost use Rattle.iris_plain.specs.declared.checks.Seen.{Seen as MetSeen};
ghost use Rattle.iris_paths.specs.Resolving.{Resolves, met_by};
ghost use Rattle.iris_paths.specs.Pictured.{Pictured, AreInSight, IsOnTrail, IsPathLack, every};
ghost use Rattle.iris_paths.specs.Following.{Follows};

use iris_cache::{Cache, Draft, Short};
use iris_dirtree::{is_directory, plan_find};
use iris_name::{FileId, Path, Text};

/// What resolving a path comes to. The root is its own parent.
#[derive(Clone, Copy, Debug, PartialEq, Eq)]
pub enum Found {
    At { id: FileId, parent: FileId },
    Missing,
    ThroughFile,
}

// The id of the visible root.
const ROOT: FileId = FileId(0);

// What going on by names from the root comes to.
pub(crate) fn follow(draft: &Draft, cache: &Cache, names: &[Text]) -> Result<Found, Short>
    ensures follows { IfOk result (Follows draft.now cache.now names.now) }
    ensures there { IfOk result (AreInSight draft.now cache.now) }
    ensures short { IfErr result (λ e. (key : List ℕ) →
        IsPathLack key every (IsOnTrail key names.now) draft.now cache.now e) }
{
    let mut at = ROOT;
    let mut above = ROOT;
    for name in names {
        if !is_directory(draft, cache, at) {
            return Ok(Found::ThroughFile);
        }
        match plan_find(draft, cache, at, name)? {
            Some(id) => {
                above = at;
                at = id;
            }
            None => return Ok(Found::Missing),
        }
    }
    Ok(Found::At {
        id: at,
        parent: above,
    })
}

/// Goes from the root by the names of a path.
pub fn resolve(draft: &Draft, cache: &Cache, path: &Path) -> Result<Found, Short>
    ensures found { IfOk result (λ r.
        (key : List ℕ) (met : List (List ℕ) → MetSeen) (old new : Shown) →
        Pictured key met draft.now cache.now old new → Resolves new key path.now r) }
    ensures met { IfOk result (λ r.
        (key : List ℕ) (met : List (List ℕ) → MetSeen) (old new : Shown) →
        Pictured key met draft.now cache.now old new → met path.now ≡ met_by new r) }
    ensures there { IfOk result (AreInSight draft.now cache.now) }
    ensures short { IfErr result (λ e. (key : List ℕ) →
        IsPathLack key every (IsOnTrail key path.now) draft.now cache.now e) }
{
    follow(draft, cache, path.names())
}
