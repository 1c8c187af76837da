//! Paths down a directory's treap: kept on the way down, set anew on the way up.

ghost use Rattle.std.specs.Prelude.{◌≡◌, ◌≤◌, ◌<◌, ◌^◌, ◌++◌, Bool, ◌∷◌, [], Some, IfOk, OnOk, true};
ghost use Rattle.iris_name.specs.declared.name.Name.{Name as SpecName};
ghost use Rattle.iris_name.specs.declared.name.Name.TheVariants as name;
ghost use Rattle.iris_node.specs.Rules.{IsLinkToNamed};
ghost use Rattle.iris_node.specs.Trees.{Shown};
ghost use Rattle.iris_node.specs.Unfolded.{blocks};
ghost use Rattle.iris_shape.specs.Treap.{Treap};
ghost use Rattle.iris_cache.specs.Drafted.{Drafted};
ghost use Rattle.iris_cache.specs.Resident.{Resident};
ghost use Rattle.iris_treepaths.specs.Crumbs.{AreNamed, Rises, crumb_above};
ghost use Rattle.iris_treepaths.specs.Nodes.{IsPut, LinksTo, OnlyEntries, turned};
ghost use Rattle.iris_treepaths.specs.Paths.{Once};
ghost use Rattle.iris_treepaths.specs.Rows.{Row, unfolded_rows};

use crate::nodes::{hang, turn};
use iris_cache::Draft;
use iris_name::{FileId, Hash32, NoMemory};
use iris_node::{EntryNode, Link};

/// An entry met on a way down, on which side the way goes on, and the hash by which it was reached.
#[derive(Drop)]
pub struct Crumb {
    pub node: EntryNode,
    pub right: bool,
    pub hash: Hash32,
}

/// Puts a crumb at the end of a path.
pub fn keep(
    path: &mut Vec<Crumb>,
    node: EntryNode,
    right: bool,
    hash: Hash32,
) -> Result<(), NoMemory>
    ensures { OnOk result (path.new.items ≡
        path.old.items ++ record { node = node; right = right; hash = hash } ∷ []) }
{
    path.push(Crumb { node, right, hash })?;
    Ok(())
}

/// The entry above the end of a path from a directory's.
pub fn above(path: &[Crumb], dir: FileId) -> FileId
    ensures { result ≡ crumb_above dir path.now }
{
    match path.last() {
        Some(crumb) => crumb.node.id,
        None => dir,
    }
}

// Sets a crumb's entry over a link, below another entry, and links to it.
fn rehang(
    draft: &mut Draft,
    parent: FileId,
    crumb: Crumb,
    link: Option<Link>,
) -> Result<Link, NoMemory>
    requires row { 2 ≤ crumb.node.id.0 }
    requires linked { IsLinkToNamed link }
    ensures link { IfOk result (LinksTo (turned crumb.right link crumb.node) crumb.hash) }
    ensures set { OnOk result (IsPut draft.old draft.new
        (Some (name.Entry parent)) (turned crumb.right link crumb.node)) }
{
    let node = turn(crumb.node, crumb.right, link);
    hang(draft, parent, node, crumb.hash)
}

/// Sets the entries of a path from a directory's anew, from its end up, and links to the topmost.
pub fn climb(
    draft: &mut Draft,
    path: Vec<Crumb>,
    dir: FileId,
    end: Option<Link>,
) -> Result<Option<Link>, NoMemory>
    requires named { AreNamed path.items }
    requires linked { IsLinkToNamed end }
    ensures risen { IfOk result (λ k. (old : Shown) →
        (c : Resident) → (home u : Treap Row) → (lasts : SpecName → Bool) →
        (d : Drafted) → Once u → blocks (unfolded_rows u) < 2 ^ 64 → lasts (name.Entry dir) ≡ true →
        Rises old c home lasts d draft.old (name.Entry dir) u path.items end →
        Rises old c home lasts d draft.new (name.Entry dir) u [] k) }
    ensures linked { IfOk result (λ k. IsLinkToNamed k) }
    ensures entries { OnOk result (OnlyEntries draft.old draft.new) }
{
    let mut path = path;
    let mut link = end;
    while let Some(crumb) = path.pop() {
        let parent = above(path.as_slice(), dir);
        link = Some(rehang(draft, parent, crumb, link)?);
    }
    Ok(link)
}
