//! The versions of a range set.

ghost use Rattle.std.specs.Prelude.{◌≡◌, ◌↔◌, IsTrue, ◌<◌, ◌≤◌, ◌+◌, ◌*◌, ◌^◌, ℕ, Some, None, IfOk, IfErr, IfSome, OnOk, false};
ghost use Rattle.iris_name.specs.Names.{same_name};
ghost use Rattle.iris_name.specs.declared.name.Name.{Name as SpecName};
ghost use Rattle.iris_node.specs.Fields.{EntryFields};
ghost use Rattle.iris_node.specs.Rules.{IsFold};
ghost use Rattle.iris_shape.specs.FoldLaws.{with_range_set};
ghost use Rattle.iris_cache.specs.Drafted.{drafted, seen, set_to};
ghost use Rattle.iris_node.specs.Trees.{Shown, IsTree};
ghost use Rattle.iris_cache.specs.Pictures.{parent_after, Drafts};
ghost use Rattle.iris_version_tree.specs.Versions.{Versioned, HadVersions, Reversions, places};
ghost use Rattle.iris_version_tree.specs.Needs.{IsFile, HasEntryWith, IsPartShort};
ghost use Rattle.iris_version_tree.specs.Sides.{body_with, entry_with, side_seen};
ghost use Rattle.iris_version_tree.specs.Ranges.{DifferWithin, IsPartWithin, Turns, IsMissing};

use crate::parts::{Halves, halves_of, join};
use crate::walk::{file_entry, top_side};
use iris_cache::{Cache, Draft, Short};
use iris_name::{FileId, Name, NoMemory};
use iris_node::{Body, EntryNode, MOST_LEVEL, Node, Side};
use std::alloc::Global;

// The places that get a version: from the low one to before the high one.
#[derive(Clone, Copy, Debug)]
struct Span {
    low: u32,
    high: u32,
    version: u64,
}

// The first place under a part, and the first past it.
fn bounds(level: u8, index: u32) -> (u32, u32)
    requires level { level ≤ 16 }
    requires fits { (index + 1) * 2 ^ level ≤ places }
    ensures first { result.0 ≡ index * 2 ^ level }
    ensures past { result.1 ≡ (index + 1) * 2 ^ level }
{
    let size = 1u32 << level;
    (index * size, (index + 1) * size)
}

// Sets the places of a span that lie under a part, whose side this was, and answers its new side.
fn set_range(
    draft: &mut Draft,
    cache: &Cache,
    file: FileId,
    level: u8,
    index: u32,
    side: Side,
    span: Span,
) -> Result<Side, Short>
    requires file { 2 ≤ file.0 }
    requires level { level ≤ 16 }
    requires fits { (index + 1) * 2 ^ level ≤ places }
    requires some { span.low < span.high }
    requires floor { level ≡ 0 → IsFold side }
    ensures frame { OnOk result (DifferWithin draft.old draft.new file level index) }
    ensures keeps { OnOk result ((n : SpecName) →
        drafted draft.new n ≡ None → drafted draft.old n ≡ None) }
    ensures made { IfOk result (λ s. (old : Shown) → (v : ℕ → ℕ) → Turns old draft.old draft.new
        cache.now file v (with_range_set v span.low span.high span.version) level index side s) }
    ensures floor { IfOk result (λ s. level ≡ 0 → IsFold s) }
    ensures short { IfErr result
        (IsMissing draft.old cache.now file level index side span.low span.high) }
{
    let (first, past) = bounds(level, index);
    if past <= span.low || span.high <= first {
        return Ok(side);
    }
    if level == 0 {
        return Ok(Side::Fold(span.version));
    }
    if span.low <= first && past <= span.high {
        if let Side::Fold(_) = side {
            return Ok(Side::Fold(span.version));
        }
    }
    let was = halves_of(draft, cache, file, level, index, side)?;
    let below = level - 1;
    let low = set_range(draft, cache, file, below, 2 * index, was.low, span)?;
    let high = set_range(draft, cache, file, below, 2 * index + 1, was.high, span)?;
    join(draft, cache, file, level, index, side, Halves { low, high })
}

// Whether two sides are equal.
fn is_same_side(a: Side, b: Side) -> bool
    ensures { IsTrue result ↔ (a ≡ b) }
{
    a == b
}

// What an entry says of its file, with another side of all versions.
fn body_with(body: Body, versions: Side) -> Body
    ensures { result ≡ body_with versions body }
{
    match body {
        Body::File {
            length,
            counter,
            ..
        } => Body::File {
            length,
            counter,
            versions,
        },
        Body::Dir { top } => Body::Dir { top },
    }
}

// An entry with another side of all versions.
fn entry_with(alloc: Global, entry: &EntryNode, versions: Side) -> Result<EntryNode, NoMemory>
    ensures { IfOk result (λ e. e ≡ entry_with versions entry.now) }
{
    let name = entry.name.copy(alloc)?;
    Ok(EntryNode {
        id: entry.id,
        name,
        left: entry.left,
        right: entry.right,
        body: body_with(entry.body, versions),
    })
}

// Sets the side of all versions in the entry of a file.
fn set_entry(
    alloc: Global,
    draft: &mut Draft,
    cache: &Cache,
    file: FileId,
    versions: Side,
) -> Result<(), NoMemory>
    requires { IsFile draft.old cache.now file }
    ensures entry { OnOk result ((e : EntryFields) →
        seen draft.old cache.now (Name.Entry file) ≡ Some (Node.Entry e) →
        drafted draft.new (Name.Entry file) ≡ Some (set_to (parent_after draft.old cache.now
        (Name.Entry file)) (Node.Entry (entry_with versions e)))) }
    ensures frame { OnOk result ((n : SpecName) →
        same_name (Name.Entry file) n ≡ false → drafted draft.new n ≡ drafted draft.old n) }
    ensures keeps { OnOk result ((n : SpecName) →
        drafted draft.new n ≡ None → drafted draft.old n ≡ None) }
{
    let parent = draft.parent(cache, &Name::Entry { id: file });
    let entry = entry_with(alloc, file_entry(draft, cache, file), versions)?;
    draft.set(parent, Node::Entry(entry))
}

/// Gives the places from a low one to before a high one a version. Its part is read along the edges of the range, and where parts
/// vanish. After want of memory or of a part the draft is given up.
pub fn plan_set(
    alloc: Global,
    draft: &mut Draft,
    cache: &Cache,
    file: FileId,
    low: u32,
    high: u32,
    version: u64,
) -> Result<(), Short>
    requires entry { IsFile draft.old cache.now file }
    requires some { low < high }
    requires within { high ≤ places }
    ensures set { OnOk result ((old : Shown) → (new : Shown) → (v : ℕ → ℕ) →
        Versioned old new file v draft.old cache.now → HadVersions old file → (made : Shown) →
        IsTree made → Reversions new made file (with_range_set v low high version) →
        Drafts old made draft.new cache.now) }
    // Whatever is pictured, nothing but the side in the file's entry and the parts of the file is changed.
    ensures entry { OnOk result ((e : EntryFields) →
        seen draft.old cache.now (Name.Entry file) ≡ Some (Node.Entry e) →
        HasEntryWith draft.new cache.now file e) }
    ensures file { OnOk result (IsFile draft.new cache.now file) }
    ensures others { OnOk result ((n : SpecName) → (IsPartWithin file 16 0 n → ⊥) →
        (n ≡ Name.Entry file → ⊥) → drafted draft.new n ≡ drafted draft.old n) }
    // What was drafted stays drafted.
    ensures keeps { OnOk result ((n : SpecName) →
        drafted draft.new n ≡ None → drafted draft.old n ≡ None) }
    ensures short { IfErr result (IsPartShort draft.old cache.now file low high) }
{
    let side = top_side(draft, cache, file);
    let span = Span { low, high, version };
    let made = set_range(draft, cache, file, MOST_LEVEL, 0, side, span)?;
    if is_same_side(made, side) {
        return Ok(());
    }
    set_entry(alloc, draft, cache, file, made)?;
    Ok(())
}
