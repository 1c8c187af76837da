//! The records of a file: of its blocks, and of the parts of its versions.

ghost use Rattle.std.specs.Prelude.{◌≡◌, ◌≤◌, ◌<◌, ◌-◌, ◌+◌, ◌^◌, ℕ, List, length, Some, None, IfOk, OnOk, slice_index};
ghost use Rattle.iris_name.specs.Hmac.{record_of};
ghost use Rattle.iris_node.specs.Rules.{most_level};
ghost use Rattle.iris_node.specs.Unfolded.{hash, side_to, node_of};
ghost use Rattle.iris_rows.specs.Places.{IsPlace, version_at, file_of};
ghost use Rattle.iris_shape.specs.Sides.{unfolded_side};
ghost use Rattle.iris_records.specs.Shown.{versions, in_parts, in_blocks};
ghost use Rattle.iris_records.specs.Unmade.{unmade_fold};
ghost use Rattle.iris_records.specs.Pieces.{Adds, IsHalved, at_place};

use crate::shelf::{Shelf, put_node};
use iris_mac::{Keys, tag};
use iris_name::{Bytes, FileId, Name, NoMemory, Page};
use iris_node::{MOST_LEVEL, Node, PartNode, Side};
use iris_rows::file::FileRow;
use iris_rows::places::Place;
use iris_shape::{Folded, fold};
use std::alloc::Global;

/// How many places a version tree has.
const PLACES: usize = 65536;

// Puts the records of the parts of a range, and answers its side.
fn side_of(
    alloc: Global,
    shelf: &mut Shelf,
    file: FileId,
    level: u8,
    index: u32,
    folded: &Folded,
) -> Result<Side, NoMemory>
    requires file { 2 ≤ file.0 }
    requires level { level ≤ most_level }
    requires index { index < 2 ^ (most_level - level) }
    requires halved { IsHalved level (unmade_fold folded.now) }
    ensures side { IfOk result (λ s.
        s ≡ side_to (unfolded_side file.0 level index (unmade_fold folded.now))
        (node_of (unfolded_side file.0 level index (unmade_fold folded.now)))) }
    ensures puts { OnOk result ((key : List ℕ) → Adds key (λ n. in_parts n file.0
        (unfolded_side file.0 level index (unmade_fold folded.now))) shelf.old shelf.new) }
{
    match folded {
        Folded::One(version) => Ok(Side::Fold(*version)),
        Folded::Two(low, high) => {
            let high = side_of(alloc, shelf, file, level - 1, 2 * index + 1, high.get())?;
            let low = side_of(alloc, shelf, file, level - 1, 2 * index, low.get())?;
            let part = PartNode {
                file,
                level,
                index,
                low,
                high,
            };
            let hash = put_node(alloc, shelf, &Node::Part(part))?;
            Ok(Side::Below(hash))
        }
    }
}

// The record of a block.
fn block_record(
    alloc: Global,
    keys: &Keys,
    file: FileId,
    place: u32,
    version: u64,
    page: &Page,
) -> Result<Bytes, NoMemory>
    ensures { IfOk result (λ bytes.
        bytes ≡ record_of keys.now.block file.0 place version page.now) }
{
    let block = page.as_slice();
    let mut bytes = block.to_vec(alloc)?;
    bytes.extend_from_slice(&tag(keys, file, place, version, block))?;
    Ok(Bytes::of(bytes))
}

// Puts the record of a place's block; a hole has none.
fn put_block(
    alloc: Global,
    keys: &Keys,
    shelf: &mut Shelf,
    file: FileId,
    place: u32,
    kept: &Place,
) -> Result<(), NoMemory>
    requires { IsPlace (Some kept.now) }
    ensures { OnOk result (Adds keys.now.block (λ n.
        at_place n file.0 place kept.now) shelf.old shelf.new) }
{
    if let Some(page) = &kept.page {
        let bytes = block_record(alloc, keys, file, place, kept.version, page)?;
        shelf.put(Name::Block { file, place }, bytes)?;
    }
    Ok(())
}

// Puts the records of a file's blocks.
pub(crate) fn put_blocks(
    alloc: Global,
    keys: &Keys,
    shelf: &mut Shelf,
    file: FileId,
    row: &FileRow,
) -> Result<(), NoMemory>
    ensures { OnOk result (Adds keys.now.block (λ n.
        in_blocks n file.0 (file_of row.now)) shelf.old shelf.new) }
{
    let places = row.places();
    for (i, kept) in places.iter().enumerate() {
        put_block(alloc, keys, shelf, file, i as u32, kept)?;
    }
    Ok(())
}

// The version of a place; past the last it is 0.
fn version_at(places: &[Place], place: usize) -> u64
    ensures { result ≡ version_at places.now place }
{
    match places.get(place) {
        None => 0,
        Some(place) => place.version,
    }
}

// The versions of all places of a file.
fn versions_of(alloc: Global, row: &FileRow) -> Result<Vec<u64>, NoMemory>
    ensures len { IfOk result (λ versions. length versions.items ≡ 65536) }
    ensures each { IfOk result (λ versions. (p : ℕ) →
        p < 65536 → slice_index versions.items p ≡ version_at row.now.places p) }
{
    let mut versions = Vec::new(alloc);
    for place in 0..PLACES {
        versions.push(version_at(row.places(), place))?;
    }
    Ok(versions)
}

// Puts the records of a file's parts, and answers the side of all its versions.
pub(crate) fn put_parts(
    alloc: Global,
    shelf: &mut Shelf,
    file: FileId,
    row: &FileRow,
) -> Result<Side, NoMemory>
    requires { 2 ≤ file.0 }
    ensures side { IfOk result (λ s. s ≡
        side_to (versions file.0 (file_of row.now)) (node_of (versions file.0 (file_of row.now)))) }
    ensures puts { OnOk result ((key : List ℕ) →
        Adds key (λ n. in_parts n file.0 (versions file.0 (file_of row.now))) shelf.old shelf.new) }
{
    let versions = versions_of(alloc, row)?;
    let folded = fold(alloc, versions.as_slice())?;
    side_of(alloc, shelf, file, MOST_LEVEL, 0, &folded)
}
