//! New files and directories.

ghost use Rattle.std.specs.Prelude.{◌≡◌, ◌<◌, ℕ, List, Option, Some, None, IfOk, IfErr, IsSome, length, false};
ghost use Rattle.iris_name.specs.declared.name.FileId.{FileId as SpecId};
ghost use Rattle.iris_node.specs.Rules.{IsBody};
ghost use Rattle.iris_node.specs.Trees.{Shown, IsTree};
ghost use Rattle.iris_shape.specs.Treap.{rows_with};
ghost use Rattle.iris_cache.specs.Pictures.{Drafts};
ghost use Rattle.iris_plain.specs.declared.checks.Seen.{Seen as MetSeen};
ghost use Rattle.iris_plain.specs.Checks.{no_place};
ghost use Rattle.iris_plain.specs.Routes.{parent, last};
ghost use Rattle.iris_treepaths.specs.Rows.{Row, HasRows, Rearranges, IsCountable};
ghost use Rattle.iris_treepaths.specs.Ways.{is_row_before};
ghost use Rattle.iris_paths.specs.declared.resolving.Found.TheVariants.{At as CameTo};
ghost use Rattle.iris_paths.specs.Resolving.{Resolves};
ghost use Rattle.iris_paths.specs.Pictured.{Pictured, IsOnTrail, IsPathShort};
ghost use Rattle.iris_paths.specs.Making.{new_row, fresh_body, IsNew};

use crate::entering::{Place, place_of};
use iris_cache::{Cache, Draft, Short};
use iris_dirtree::plan_insert;
use iris_mac::Keys;
use iris_name::{FileId, NoMemory, Path, PlainError, Text};
use iris_node::{Body, EntryNode, Side, is_file_name};
use std::alloc::Global;

/// An entry with nothing beside it. Paths that clients name have no other names than entries have; of any other there is none.
pub(crate) fn lone_entry(
    alloc: Global,
    id: FileId,
    name: &Text,
    body: Body,
) -> Result<EntryNode, NoMemory>
    requires { IsBody body }
    ensures { IfOk result (λ e.
        e ≡ record { id = id; name = name.now; left = None; right = None; body = body }) }
{
    let name = name.copy(alloc)?;
    if id.0 < 2 || !is_file_name(name.as_str()) {
        return Err(NoMemory);
    }
    Ok(EntryNode {
        id,
        name,
        left: None,
        right: None,
        body,
    })
}

// What the entry of an empty directory or file says.
fn fresh_body(dir: bool) -> Body
    ensures value { result ≡ fresh_body dir }
    ensures rules { IsBody result }
{
    if dir {
        Body::Dir { top: None }
    } else {
        Body::File {
            length: 0,
            counter: 0,
            versions: Side::Fold(0),
        }
    }
}

/// A new empty directory or file at a path, or why there is none. After want of memory or of a name the draft is given up.
pub fn plan_make(
    alloc: Global,
    draft: &mut Draft,
    cache: &Cache,
    keys: &Keys,
    path: &Path,
    id: FileId,
    dir: bool,
) -> Result<Option<PlainError>, Short>
    ensures verdict { IfOk result (λ r. (met : List (List ℕ) → MetSeen) (old new : Shown) →
        Pictured keys.now.order met draft.old cache.now old new → r ≡ no_place met false path.now) }
    ensures made { IfOk result (λ r. r ≡ None → (met : List (List ℕ) →
        MetSeen) (old new made : Shown) (folder above : SpecId) (rows : List Row) →
        Pictured keys.now.order met draft.old cache.now old new →
        IsNew id old new → Resolves new keys.now.order (parent path.now) (CameTo folder above) →
        HasRows new keys.now.order folder rows →
        IsTree made → IsCountable made → Rearranges new made keys.now.order folder rows
        (rows_with (is_row_before (last path.now)) (new_row id.0 (last path.now) dir) rows) →
        Drafts old made draft.new cache.now) }
    ensures unchanged { IfOk result (λ r. IsSome r → draft.new ≡ draft.old) }
    ensures short { IfErr result (IsPathShort keys.now.order
        (IsNew id) (IsOnTrail keys.now.order path.now) draft.old cache.now) }
{
    let names = path.names();
    let folder = match place_of(draft, cache, names)? {
        Place::In { dir } => dir,
        Place::Not { error } => return Ok(Some(error)),
    };
    let node = lone_entry(alloc, id, &names[names.len() - 1], fresh_body(dir))?;
    plan_insert(alloc, draft, cache, keys, folder, node)?;
    Ok(None)
}
