//! The places of a file.

ghost use Rattle.std.specs.Prelude.{◌≡◌, ◌<◌, ◌≤◌, ◌+◌, ◌*◌, ◌-◌, ◌/◌, ◌%◌, ◌^◌, ◌==◌, ◌++◌, ◌&&◌, ℕ, length, replicate, slice_get, Some, None, MatchOption, Option, IfOk, OnOk, OnErr, if◌then◌else◌, nat_lt};
ghost use Rattle.std.specs.List.{list_all};
ghost use Rattle.iris_plain.specs.Checks.{blocks_of};
ghost use Rattle.iris_rows.specs.Rows.{zeros};
ghost use Rattle.iris_rows.specs.FileChanges.{file_written, cut, freed, count_written, merged};
ghost use Rattle.iris_rows.specs.View.{joined};
ghost use Rattle.iris_rows.specs.Places.{ArePlacesKept, file_of, version_at, block_at, hole, ArePlaces, put_pages, cut_page, split_places};

use iris_name::{NoMemory, PAGE_LEN, Page};
use iris_plain::bytes::copy_at;
use iris_plain::checks::blocks_of;
use std::alloc::Global;

/// How many places one step of reclaiming frees.
const FREED_PLACES: usize = 16;

/// A place of a file: its version and its block. A hole has version 0 and no page, and reads as zeros.
#[derive(Drop)]
pub struct Place {
    pub version: u64,
    pub page: Option<Page>,
}

// A place without a page.
fn hole() -> Place
    ensures { result ≡ hole }
{
    Place {
        version: 0,
        page: None,
    }
}

// The page of a place, none where it is a hole.
fn page_at(places: &[Place], place: usize) -> Option<&Page>
    ensures { MatchOption result (block_at places.now place ≡ zeros) (λ page.
        block_at places.now place ≡ page.now) }
{
    if place >= places.len() {
        return None;
    }
    match &places[place].page {
        Some(page) => Some(page),
        None => None,
    }
}

// The bytes of a page.
fn bytes_of(page: &Page) -> [u8; PAGE_LEN]
    ensures { result ≡ page.now }
{
    let mut block = [0; PAGE_LEN];
    block.copy_from_slice(page.as_slice());
    block
}

// The block of a place, zeros where it has no page.
fn block(places: &[Place], place: usize) -> [u8; PAGE_LEN]
    ensures { result ≡ block_at places.now place }
{
    match page_at(places, place) {
        Some(page) => bytes_of(page),
        None => [0; PAGE_LEN],
    }
}

// The block of a place with the bytes of a write over it.
fn merged_page(
    alloc: Global,
    places: &[Place],
    offset: usize,
    bytes: &[u8],
    place: usize,
) -> Result<Page, NoMemory>
    requires before { offset < place * 4096 + 4096 }
    requires after { place * 4096 < offset + length bytes.now }
    requires bound { offset + length bytes.now ≤ 268435456 }
    ensures { IfOk result (λ page.
        page ≡ merged offset bytes.now place (block_at places.now place)) }
{
    let mut block = block(places, place);
    let begin = place * PAGE_LEN;
    let at = offset.saturating_sub(begin);
    let from = begin.saturating_sub(offset);
    let count = (PAGE_LEN - at).min(bytes.len() - from);
    copy_at(&mut block, at, &bytes[from..from + count]);
    Page::of(alloc, &block)
}

// The pages of the places that a write touches, with its bytes over them.
fn merged_pages(
    alloc: Global,
    places: &[Place],
    offset: usize,
    bytes: &[u8],
) -> Result<Vec<Page>, NoMemory>
    requires some { 0 < length bytes.now }
    requires bound { offset + length bytes.now ≤ 268435456 }
    ensures len { IfOk result (λ pages.
        length pages.items ≡ (offset + length bytes.now - 1) / 4096 + 1 - offset / 4096) }
    ensures pages { IfOk result (λ pages. (k : ℕ) →
        k < length pages.items → slice_get pages.items k ≡ Some (merged offset bytes.now (offset /
        4096 + k) (block_at places.now (offset / 4096 + k)))) }
{
    let first = offset / PAGE_LEN;
    let end = (offset + bytes.len() - 1) / PAGE_LEN + 1;
    let mut pages = Vec::new(alloc);
    for place in first..end {
        pages.push(merged_page(alloc, places, offset, bytes, place)?)?;
    }
    Ok(pages)
}

// So many holes.
fn holes(alloc: Global, count: usize) -> Result<Vec<Place>, NoMemory>
    ensures { IfOk result (λ v. v.items ≡ replicate count hole) }
{
    let mut places = Vec::new(alloc);
    for k in 0..count {
        places.push(hole())?;
    }
    Ok(places)
}

// Holes up to a number of places.
fn extend(alloc: Global, places: &mut Vec<Place>, count: usize) -> Result<(), NoMemory>
    ensures ok { OnOk result (places.new.items ≡
        places.old.items ++ replicate (count - length places.old.items) hole) }
    ensures err { OnErr result (places.new.items ≡ places.old.items) }
{
    let mut more = holes(alloc, count.saturating_sub(places.len()))?;
    places.append(&mut more)?;
    Ok(())
}

// Puts pages into the places from a first one on.
fn put_pages(places: &mut [Place], first: usize, version: u64, mut pages: Vec<Page>)
    requires { first + length pages.items ≤ length places.old }
    ensures { (p : ℕ) → slice_get places.new p ≡ put_pages first version pages.items places.old p }
{
    while let Some(page) = pages.pop() {
        places[first + pages.len()] = Place {
            version,
            page: Some(page),
        };
    }
}

// Writes bytes over the blocks of a file of this length, which gets as many places as it then has blocks.
pub(crate) fn write_over(
    alloc: Global,
    places: &mut Vec<Place>,
    size: u64,
    counter: u64,
    offset: u64,
    bytes: &[u8],
) -> Result<(), NoMemory>
    requires some { 0 < length bytes.now }
    requires room { offset + length bytes.now ≤ 268435456 }
    requires counter { counter < 2 ^ 63 }
    requires kept { ArePlacesKept
        (record { size = size; counter = counter; places = places.old.items }) }
    ensures ok { OnOk result (file_of (record {
      size = if nat_lt size (offset + length bytes.now)
          then offset + length bytes.now else size;
      counter = counter +
          1;
      places = places.new.items;
    }) ≡ file_written offset bytes.now
        (file_of (record { size = size; counter = counter; places = places.old.items }))) }
    ensures kept { OnOk result (ArePlacesKept (record {
      size = if nat_lt size (offset +
          length bytes.now) then offset + length bytes.now
          else size;
      counter = counter + 1;
      places = places.new.items;
    })) }
    ensures err { OnErr result (places.new.items ≡ places.old.items) }
{
    let end = offset + bytes.len() as u64;
    let pages = merged_pages(alloc, places.as_slice(), offset as usize, bytes)?;
    extend(alloc, places, blocks_of(end) as usize)?;
    put_pages(
        places.as_mut_slice(),
        offset as usize / PAGE_LEN,
        counter + 1,
        pages,
    );
    Ok(())
}

// The block of a place with zeros from a position on.
fn cut_page(alloc: Global, places: &[Place], place: usize, kept: usize) -> Result<Page, NoMemory>
    requires { kept < 4096 }
    ensures { IfOk result (λ page. page ≡ cut_page kept (block_at places.now place)) }
{
    let old = block(places, place);
    let mut fresh = [0; PAGE_LEN];
    copy_at(&mut fresh, 0, &old[..kept]);
    Page::of(alloc, &fresh)
}

// Gives the place in which a file of this length ends a page of zeros from there on, where it is no hole.
fn split(alloc: Global, places: &mut [Place], size: u64, version: u64) -> Result<(), NoMemory>
    requires { size / 4096 < length places.old }
    ensures ok { OnOk result (places.new ≡ split_places size version places.old) }
    ensures err { OnErr result (places.new ≡ places.old) }
{
    let place = size as usize / PAGE_LEN;
    if places[place].version == 0 {
        return Ok(());
    }
    let page = cut_page(alloc, places, place, size as usize % PAGE_LEN)?;
    places[place] = Place {
        version,
        page: Some(page),
    };
    Ok(())
}

// Cuts the places of a file to a length, or fills them up with holes.
pub(crate) fn refit(
    alloc: Global,
    places: &mut Vec<Place>,
    old: u64,
    counter: u64,
    size: u64,
) -> Result<(), NoMemory>
    requires room { size ≤ 268435456 }
    requires counter { counter < 2 ^ 63 }
    requires kept { ArePlacesKept
        (record { size = old; counter = counter; places = places.old.items }) }
    ensures ok { OnOk result
        (file_of (record { size = size; counter = counter + 1; places = places.new.items }) ≡
        cut size (file_of (record { size = old; counter = counter; places = places.old.items }))) }
    ensures kept { OnOk result (ArePlacesKept (record {
      size = size;
      counter = counter +
          1;
      places = places.new.items;
    })) }
    ensures err { OnErr result (places.new.items ≡ places.old.items) }
{
    let blocks = blocks_of(size) as usize;
    if size < old {
        split(alloc, places.as_mut_slice(), size, counter + 1)?;
        places.truncate(blocks);
        Ok(())
    } else {
        extend(alloc, places, blocks)
    }
}

// Makes the first places that are no holes holes.
pub(crate) fn free(places: &mut [Place])
    requires { ArePlaces places.old }
    ensures versions { (p : ℕ) →
        version_at places.new p ≡ (if nat_lt (count_written (version_at places.old) p) 16
        then 0 else version_at places.old p) }
    ensures blocks { (p : ℕ) →
        block_at places.new p ≡ (if nat_lt (count_written (version_at places.old) p) 16
        then zeros else block_at places.old p) }
    ensures places { ArePlaces places.new }
{
    let mut freed = 0;
    for place in 0..places.len() {
        if freed < FREED_PLACES && places[place].version > 0 {
            places[place] = hole();
            freed += 1;
        }
    }
}

// Whether each place is a hole.
pub(crate) fn are_holes(places: &[Place]) -> bool
    ensures { result ≡ list_all (λ place. place.version == 0) places.now }
{
    places.iter().all(|place| place.version == 0)
}

// So many blocks one after another.
pub(crate) fn joined(
    alloc: Global,
    places: &[Place],
    first: usize,
    count: usize,
) -> Result<Vec<u8>, NoMemory>
    requires { first + count < 2 ^ 63 }
    ensures { IfOk result (λ bytes. bytes.items ≡ joined (block_at places.now) first count) }
{
    let mut bytes = Vec::new(alloc);
    for k in 0..count {
        bytes.extend_from_slice(&block(places, first + k))?;
    }
    Ok(bytes)
}
