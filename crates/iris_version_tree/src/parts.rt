//! Parts made of two halves.

ghost use Rattle.std.specs.Prelude.{◌≡◌, ◌<◌, ◌≤◌, ◌+◌, ◌*◌, ◌^◌, ℕ, suc, IfOk, IfErr, OnOk, IsSome, None, false};
ghost use Rattle.iris_name.specs.Names.{same_name};
ghost use Rattle.iris_name.specs.declared.name.Name.{Name as SpecName};
ghost use Rattle.iris_node.specs.Rules.{IsFold};
ghost use Rattle.iris_node.specs.declared.node.Side.TheVariants.{Below as Hashed};
ghost use Rattle.iris_cache.specs.Resident.{held_node};
ghost use Rattle.iris_cache.specs.Drafted.{drafted, known, seen};
ghost use Rattle.iris_node.specs.Trees.{Shown};
ghost use Rattle.iris_cache.specs.Pictures.{Pictures, WasHash};
ghost use Rattle.iris_version_tree.specs.Versions.{HadVersions, places};
ghost use Rattle.iris_version_tree.specs.Sides.{part_seen, common_of, side_below, over_name, held_side, IsBelowSide, AreHalvesOf, IsNeedOf};
ghost use Rattle.iris_version_tree.specs.Ranges.{IsKnownBelow, Joins};

use crate::walk::part_at;
use iris_cache::{Cache, Draft, Short};
use iris_name::{FileId, Hash32, Name};
use iris_node::{Body, MOST_LEVEL, Node, PartNode, Side};

// The part or the entry directly over a part.
fn over(file: FileId, level: u8, index: u32) -> Name
    requires { level ≤ 16 }
    ensures { result ≡ over_name file level index }
{
    if level == MOST_LEVEL {
        return Name::Entry { id: file };
    }
    Name::Part {
        file,
        level: level + 1,
        index: index / 2,
    }
}

// The side that a node holds of the part of an index directly below it.
fn side_in(node: &Node, index: u32) -> Option<Side>
    ensures { result ≡ side_below node.now index }
{
    match node {
        Node::Part(part) if index % 2 == 0 => Some(part.low),
        Node::Part(part) => Some(part.high),
        Node::Entry(entry) => match entry.body {
            Body::File { versions, .. } => Some(versions),
            Body::Dir { .. } => None,
        },
    }
}

// The side that the cache holds of a part.
fn side_held(cache: &Cache, file: FileId, level: u8, index: u32) -> Option<Side>
    requires { level ≤ 16 }
    ensures { result ≡ held_side (held_node cache.now (over_name file level index)) index }
{
    let held = cache.find(&over(file, level, index))?;
    side_in(&held.node, index)
}

// The hash that the cache holds of a part, or any.
fn hash_held(cache: &Cache, file: FileId, level: u8, index: u32) -> Hash32
    requires level { level ≤ 16 }
    requires fits { (index + 1) * 2 ^ level ≤ places }
    ensures { (old : Shown) → Pictures old cache.now →
        HadVersions old file → IsSome (held_node cache.now (Name.Part file level index)) →
        WasHash old cache.now (Name.Part file level index) result }
{
    match side_held(cache, file, level, index) {
        Some(Side::Below(hash)) => hash,
        Some(Side::Fold(_)) => Hash32([0; 32]),
        None => Hash32([0; 32]),
    }
}

// A hash for a part: the one that stood there, else the one that the cache holds.
fn side_of_part(cache: &Cache, file: FileId, level: u8, index: u32, was: Side) -> Side
    requires level { level ≤ 16 }
    requires fits { (index + 1) * 2 ^ level ≤ places }
    ensures below { IsBelowSide result }
    ensures kept { IsBelowSide was → result ≡ was }
    ensures held { (h : Hash32) →
        result ≡ Hashed h → (IsBelowSide was → ⊥) → (old : Shown) → Pictures old cache.now →
        HadVersions old file → IsSome (held_node cache.now (Name.Part file level index)) →
        WasHash old cache.now (Name.Part file level index) h }
{
    match was {
        Side::Below(_) => was,
        Side::Fold(_) => Side::Below(hash_held(cache, file, level, index)),
    }
}

// The version that two sides have in common, if they have one.
fn common(low: Side, high: Side) -> Option<u64>
    ensures { result ≡ common_of low high }
{
    match (low, high) {
        (Side::Fold(x), Side::Fold(y)) if x == y => Some(x),
        _ => None,
    }
}

/// The two halves of a side.
#[derive(Clone, Copy, Debug)]
pub(crate) struct Halves {
    pub low: Side,
    pub high: Side,
}

/// The halves of a side of the part of a level: those of its part, or twice its version.
pub(crate) fn halves_of(
    draft: &Draft,
    cache: &Cache,
    file: FileId,
    level: u8,
    index: u32,
    side: Side,
) -> Result<Halves, Short>
    ensures halves { IfOk result (λ r. AreHalvesOf side
        (part_seen (seen draft.now cache.now (Name.Part file level index))) r.low r.high) }
    ensures known { IfOk result (λ _.
        IsKnownBelow side (known draft.now cache.now (Name.Part file level index))) }
    ensures floor { IfOk result (λ r. level ≡ 1 → IsFold r.low × IsFold r.high) }
    ensures short { IfErr result (IsNeedOf side (Name.Part file level index)) }
    ensures missing { IfErr result (λ _.
        known draft.now cache.now (Name.Part file level index) ≡ None) }
{
    let hash = match side {
        Side::Fold(_) => {
            return Ok(Halves {
                low: side,
                high: side,
            });
        }
        Side::Below(hash) => hash,
    };
    let name = Name::Part { file, level, index };
    match part_at(draft, cache, &name, hash)? {
        Some(part) => Ok(Halves {
            low: part.low,
            high: part.high,
        }),
        None => Ok(Halves {
            low: Side::Fold(0),
            high: Side::Fold(0),
        }),
    }
}

/// The side that two halves make. Where they differ their part is set, else it is taken away.
pub(crate) fn join(
    draft: &mut Draft,
    cache: &Cache,
    file: FileId,
    level: u8,
    index: u32,
    was: Side,
    halves: Halves,
) -> Result<Side, Short>
    requires file { 2 ≤ file.0 }
    requires some { 1 ≤ level }
    requires level { level ≤ 16 }
    requires fits { (index + 1) * 2 ^ level ≤ places }
    requires floor { level ≡ 1 → IsFold halves.low × IsFold halves.high }
    ensures frame { OnOk result ((n : SpecName) → same_name (Name.Part file level index) n ≡ false →
        drafted draft.new n ≡ drafted draft.old n) }
    ensures keeps { OnOk result ((n : SpecName) →
        drafted draft.new n ≡ None → drafted draft.old n ≡ None) }
    ensures made { IfOk result (λ s. (old : Shown) → (v : ℕ → ℕ) → (w : ℕ → ℕ) →
        Joins old draft.old draft.new cache.now file v w level index was halves.low halves.high s) }
    ensures err { IfErr result (λ e. e ≡ Short.NoMemory) }
{
    let name = Name::Part { file, level, index };
    match common(halves.low, halves.high) {
        Some(version) => {
            match was {
                Side::Fold(_) => {}
                Side::Below(_) => draft.remove(&name)?,
            }
            Ok(Side::Fold(version))
        }
        None => {
            let part = PartNode {
                file,
                level,
                index,
                low: halves.low,
                high: halves.high,
            };
            draft.set(Some(over(file, level, index)), Node::Part(part))?;
            Ok(side_of_part(cache, file, level, index, was))
        }
    }
}
