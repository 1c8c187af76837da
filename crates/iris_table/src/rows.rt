//! What stands among rows in preorder, by path.

ghost use Rattle.std.specs.Prelude.{◌≡◌, ◌≤◌, ◌<◌, ◌+◌, length, drop, MatchOption, IfOk, None, Some};
ghost use Rattle.iris_table.specs.Stops.{root_of, met_in, file_met, stop, deeper, run_length, room, first_inside, is_name_of, IsStopWithin};
ghost use Rattle.iris_rows.specs.View.{kind_below};
ghost use Rattle.iris_plain.specs.Pages.{NoneLater, IsNext, IsPage};
ghost use Rattle.iris_plain.specs.Steps.{has_entry_named};
ghost use Rattle.iris_rows.specs.Places.{file_of};
ghost use Rattle.iris_rows.specs.Changes.{seen_row, seen_file};
ghost use Rattle.iris_rows.specs.Items.{grown, kept_file};

use iris_name::{NoMemory, Text, Texts};
use iris_plain::Seen;
use iris_plain::files::{PAGE_NAMES, is_before, is_name, lesser};
use iris_rows::file::FileRow;
use iris_rows::item::Item;
use std::alloc::Global;

/// Where resolving a path below the root ends among items.
#[derive(Clone, Copy)]
pub enum Stop {
    /// At the row that stands here.
    Standing(usize),
    /// At a directory that has no such name.
    Absent,
    /// At a file on the way.
    Barred,
}

/// Where resolving a path ends.
pub fn resolve(items: &[Item], names: &[Text]) -> Stop
    requires { 0 < length names.now }
    ensures value { result ≡ stop 0 names.now items.now }
    ensures within { IsStopWithin (length items.now) result }
{
    let mut level = 0;
    for (k, item) in items.iter().enumerate() {
        if item.depth < level {
            return Stop::Absent;
        }
        if item.depth == level && is_name(&names[level], &item.name) {
            level += 1;
            if level == names.len() {
                return Stop::Standing(k);
            }
            if item.file.is_some() {
                return Stop::Barred;
            }
        }
    }
    Stop::Absent
}

// How many rows from a place on lie deeper.
fn run(items: &[Item], from: usize, depth: usize) -> usize
    requires { from ≤ length items.now }
    ensures value { result ≡ deeper depth (drop from items.now) }
    ensures within { from + result ≤ length items.now }
{
    let mut count = 0;
    for item in &items[from..] {
        if item.depth <= depth {
            return count;
        }
        count += 1;
    }
    count
}

/// How many rows a row and those inside it are.
pub fn run_len(items: &[Item], place: usize) -> usize
    requires { place < length items.now }
    ensures value { result ≡ run_length (drop place items.now) }
    ensures within { place + result ≤ length items.now }
{
    1 + run(items, place + 1, items[place].depth)
}

/// How many rows of a directory, from its first on, stand before a new name.
pub fn room(items: &[Item], from: usize, depth: usize, name: &Text) -> usize
    requires { from ≤ length items.now }
    ensures value { result ≡ room depth name.now (drop from items.now) }
    ensures within { from + result ≤ length items.now }
{
    let mut count = 0;
    for item in &items[from..] {
        if item.depth < depth || (item.depth == depth && is_before(name, &item.name)) {
            return count;
        }
        count += 1;
    }
    count
}

// What a row is seen as.
fn seen_item(item: &Item) -> Seen
    ensures { result ≡ seen_file (kept_file item.now.file) }
{
    match &item.file {
        None => Seen::ADirectory,
        Some(file) => Seen::AFile(file.size()),
    }
}

/// What resolving a path meets.
pub fn seen(items: &[Item], names: &[Text]) -> Seen
    ensures { result ≡ seen_row (met_in items.now names.now) }
{
    if names.is_empty() {
        return Seen::ADirectory;
    }
    match resolve(items, names) {
        Stop::Standing(place) => seen_item(&items[place]),
        Stop::Absent => Seen::Nothing,
        Stop::Barred => Seen::AFileBefore,
    }
}

/// The file at a path.
pub fn file_at<'a>(items: &'a [Item], names: &[Text]) -> Option<&'a FileRow>
    ensures { MatchOption result (file_met (met_in items.now names.now) ≡ None) (λ file.
        file_met (met_in items.now names.now) ≡ Some (file_of file.now)) }
{
    if names.is_empty() {
        return None;
    }
    match resolve(items, names) {
        Stop::Standing(place) => items[place].file.as_ref(),
        _ => None,
    }
}

/// Where the rows of a directory begin: after it, and those of the root at the first.
pub fn begin(items: &[Item], names: &[Text]) -> usize
    ensures value { result ≡ first_inside names.now (stop 0 names.now items.now) }
    ensures within { result ≤ length items.now }
{
    if names.is_empty() {
        return 0;
    }
    match resolve(items, names) {
        Stop::Standing(place) => place + 1,
        _ => 0,
    }
}

// The least name of a directory that is greater than another.
fn next_name<'a>(items: &'a [Item], depth: usize, after: &Text) -> Option<&'a Text>
    ensures { MatchOption result (NoneLater (is_name_of (grown depth items.now)) after.now) (λ name.
        IsNext (is_name_of (grown depth items.now)) after.now name.now) }
{
    let mut best: Option<&'a Text> = None;
    for item in items {
        if item.depth < depth {
            return best;
        }
        if item.depth == depth {
            best = lesser(after, &item.name, best);
        }
    }
    best
}

/// A page of the names of a directory that are greater than another, up to 64. Where no directory is there, no names.
pub fn page(alloc: Global, items: &[Item], names: &[Text], after: &Text) -> Result<Texts, NoMemory>
    ensures { IfOk result (λ page. IsPage (has_entry_named (λ path.
        kind_below path (root_of items.now)) names.now) 64 after.now page) }
{
    match seen(items, names) {
        Seen::ADirectory => page_of(alloc, &items[begin(items, names)..], names.len(), after),
        _ => Ok(Texts::new(alloc)),
    }
}

// A page of the names of the directory whose rows come first.
fn page_of(alloc: Global, items: &[Item], depth: usize, after: &Text) -> Result<Texts, NoMemory>
    ensures { IfOk result (λ page. IsPage (is_name_of (grown depth items.now)) 64 after.now page) }
{
    let mut page = Texts::new(alloc);
    let mut last = after;
    for _i in 0..PAGE_NAMES {
        match next_name(items, depth, last) {
            None => return Ok(page),
            Some(name) => {
                page.push(name.copy(alloc)?)?;
                last = name;
            }
        }
    }
    Ok(page)
}
