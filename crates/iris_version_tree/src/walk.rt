//! The way down to a place.

ghost use Rattle.std.specs.Prelude.{◌≡◌, ◌↔◌, IsTrue, ◌<◌, ◌≤◌, ◌+◌, ◌/◌, ◌%◌, ◌^◌, ℕ, IfOk, IfErr, IfSome, Some, None, IsSome};
ghost use Rattle.std.specs.Option.{option_copied};
ghost use Rattle.iris_node.specs.Rules.{IsEntry};
ghost use Rattle.iris_shape.specs.Folds.{folded, One};
ghost use Rattle.iris_cache.specs.Drafted.{known, seen};
ghost use Rattle.iris_node.specs.Trees.{Shown};
ghost use Rattle.iris_version_tree.specs.Versions.{Versioned, places};
ghost use Rattle.iris_version_tree.specs.Needs.{IsFile, IsFileNode, IsPartLack};
ghost use Rattle.iris_version_tree.specs.Sides.{part_seen, side_seen, side_toward};

use iris_cache::{Cache, Draft, Short};
use iris_name::{Expect, FileId, Hash32, Name};
use iris_node::{Body, EntryNode, MOST_LEVEL, Node, PartNode, Side};

/// Places of one version: the part that they make up is of this level.
#[derive(Clone, Copy, Debug)]
pub(crate) struct Even {
    pub version: u64,
    pub level: u8,
}

// The entry of a file.
pub fn file_entry<'a>(draft: &'a Draft, cache: &'a Cache, file: FileId) -> &'a EntryNode
    requires { IsFile draft.now cache.now file }
    ensures shown { seen draft.now cache.now (Name.Entry file) ≡ Some (Node.Entry result.now) }
    ensures own { result.now.id ≡ file }
    ensures file { 2 ≤ file.0 }
{
    draft.sound();
    cache.sound();
    match draft.view(cache, &Name::Entry { id: file }) {
        Some(Node::Entry(entry)) => {
            keeps_rules(entry);
            entry
        }
        _ => unreachable!(),
    }
}

/// Whether the entry of a file is in draft or cache, as a file.
pub fn is_file(draft: &Draft, cache: &Cache, file: FileId) -> bool
    ensures { IsTrue result ↔ IsFile draft.now cache.now file }
{
    match draft.view(cache, &Name::Entry { id: file }) {
        Some(node) => is_file_node(node),
        None => false,
    }
}

fn is_file_node(node: &Node) -> bool
    ensures { IsTrue result ↔ IsFileNode (Some node.now) }
{
    match node {
        Node::Entry(entry) => match entry.body {
            Body::File { .. } => true,
            Body::Dir { .. } => false,
        },
        Node::Part(_) => false,
    }
}

// What each entry keeps.
fn keeps_rules(entry: &EntryNode)
    ensures { IsEntry entry.now }
{
    let _ = &entry.id;
}

// The side of all versions of a file.
pub(crate) fn top_side(draft: &Draft, cache: &Cache, file: FileId) -> Side
    requires { IsFile draft.now cache.now file }
    ensures side { side_seen (seen draft.now cache.now (Name.Entry file)) ≡ Some result }
    ensures file { 2 ≤ file.0 }
{
    match file_entry(draft, cache, file).body {
        Body::File { versions, .. } => versions,
        Body::Dir { .. } => unreachable!(),
    }
}

// The part, if a part is there.
fn as_part(node: Option<&Node>) -> Option<PartNode>
    ensures { result ≡ part_seen (option_copied node.entry) }
{
    match node {
        Some(Node::Part(part)) => Some(*part),
        _ => None,
    }
}

// A part of which a hash is held: none where another node has its name, or it was taken away.
pub(crate) fn part_at(
    draft: &Draft,
    cache: &Cache,
    name: &Name,
    hash: Hash32,
) -> Result<Option<PartNode>, Short>
    ensures part { IfOk result (λ p. p ≡ part_seen (seen draft.now cache.now name.now)) }
    ensures known { IfOk result (λ _. IsSome (known draft.now cache.now name.now)) }
    ensures need { IfErr result (λ e. e ≡ Short.Need name.now (Expect.Hash hash)) }
    ensures missing { IfErr result (λ _. known draft.now cache.now name.now ≡ None) }
    ensures own { IfOk result (λ p. IfSome p (λ p. Name.Part p.file p.level p.index ≡ name.now)) }
{
    draft.sound();
    cache.sound();
    match draft.known(cache, name) {
        None => Err(Short::Need {
            name: *name,
            expect: Expect::Hash(hash),
        }),
        Some(node) => Ok(as_part(node)),
    }
}

// The half of a part on which a place lies, by the bit of the level below.
fn half_toward(part: &PartNode, place: u32, below: u8) -> Side
    requires { below < 32 }
    ensures { result ≡ side_toward ((place / 2 ^ below) % 2) part.now }
{
    if (place >> below) % 2 == 0 {
        part.low
    } else {
        part.high
    }
}

// The places around a place that have one version.
pub(crate) fn even_at(draft: &Draft, cache: &Cache, file: FileId, place: u32) -> Result<Even, Short>
    requires entry { IsFile draft.now cache.now file }
    requires within { place < places }
    ensures level { IfOk result (λ e. e.level ≤ 16) }
    ensures even { IfOk result (λ e. (old new : Shown) →
        (v : ℕ → ℕ) → Versioned old new file v draft.now cache.now →
        folded v e.level (place / 2 ^ e.level) ≡ One e.version) }
    ensures short { IfErr result (λ e. IsPartLack draft.now cache.now file place (place + 1) e) }
{
    let mut side = top_side(draft, cache, file);
    for step in 0..16u8 {
        let level = MOST_LEVEL - step;
        let hash = match side {
            Side::Fold(version) => return Ok(Even { version, level }),
            Side::Below(hash) => hash,
        };
        let name = Name::Part {
            file,
            level,
            index: place >> level,
        };
        let Some(part) = part_at(draft, cache, &name, hash)? else {
            return Ok(Even { version: 0, level });
        };
        side = half_toward(&part, place, level - 1);
    }
    match side {
        Side::Fold(version) => Ok(Even { version, level: 0 }),
        Side::Below(_) => Ok(Even {
            version: 0,
            level: 0,
        }),
    }
}
