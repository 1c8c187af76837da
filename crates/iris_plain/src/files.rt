//! Paths with what stands there.

ghost use Rattle.std.specs.Prelude.{◌≡◌, ◌||◌, ◌+◌, ◌<◌, ◌^◌, ℕ, length, List, [], ◌∷◌, ◌++◌, Bool, true, false, position, MatchOption, IfOk, OnOk, OnErr, if◌then◌else◌, Option, None};
ghost use Rattle.std.specs.Str.{bytes_eq};
ghost use Rattle.iris_plain.specs.Routes.{is_path, is_at_or_under, is_front, rest, is_name_before};
ghost use Rattle.iris_plain.specs.Pages.{NoneLater, IsNext, IsPage};
ghost use Rattle.iris_plain.specs.Steps.{has_entry_named};
ghost use Rattle.iris_plain.specs.Entries.{kind_at};
ghost use Rattle.iris_plain.specs.Files.{seen_kind, seen_at, set, cleared, shifted, bytes_changed, wrote, resized_bytes, on_bytes};

use crate::bytes::{overwrite, resize};
use crate::checks::Seen;
use iris_name::{Bytes, NoMemory, Path, Text, Texts};
use std::alloc::Global;

/// How many names a page has at most.
pub const PAGE_NAMES: u64 = 64;

/// What stands at a path.
#[derive(Drop)]
pub enum Kind {
    /// A directory.
    Dir,
    /// A file's bytes.
    Bytes(Bytes),
}

impl Kind {
    /// An equal kind.
    pub fn copy(&self, alloc: Global) -> Result<Kind, NoMemory>
        ensures { IfOk result (λ copy. copy ≡ self.now) }
    {
        match self {
            Kind::Dir => Ok(Kind::Dir),
            Kind::Bytes(bytes) => Ok(Kind::Bytes(bytes.copy(alloc)?)),
        }
    }
}

/// A path, and what stands there.
#[derive(Drop)]
pub struct Entry {
    /// The path.
    pub path: Path,
    /// What stands there.
    pub kind: Kind,
}

/// Whether two names are one.
pub fn is_name(a: &Text, b: &Text) -> bool
    ensures { result ≡ bytes_eq a.now b.now }
{
    a.as_str() == b.as_str()
}

/// Whether the bytes of one name come before those of another.
pub fn is_before(a: &Text, b: &Text) -> bool
    ensures { result ≡ is_name_before a.now b.now }
{
    a.as_str() < b.as_str()
}

/// Whether the second path is the first or lies below it.
pub fn is_under(above: &[Text], path: &[Text]) -> bool
    ensures { result ≡ is_at_or_under above.now path.now }
{
    if path.len() < above.len() {
        return false;
    }
    for i in 0..above.len() {
        if !is_name(&path[i], &above[i]) {
            return false;
        }
    }
    true
}

/// Whether two paths are one.
pub fn is_same(a: &[Text], b: &[Text]) -> bool
    ensures { result ≡ is_path a.now b.now }
{
    a.len() == b.len() && is_under(a, b)
}

/// Whether the second path lies below the first.
pub fn is_below(above: &[Text], path: &[Text]) -> bool
    ensures { result ≡ is_front above.now path.now }
{
    above.len() < path.len() && is_under(above, path)
}

// Where a path stands in the list.
fn place_of(entries: &[Entry], names: &[Text]) -> Option<usize>
    ensures { result ≡ position (λ e. is_path e.path names.now) entries.now }
{
    entries.iter().position(|e| is_same(e.path.names(), names))
}

/// What stands at a path of the list.
pub fn look_at<'a>(entries: &'a [Entry], names: &[Text]) -> Option<&'a Kind>
    ensures { MatchOption result (kind_at entries.now names.now ≡ None) (λ kind.
        kind_at entries.now names.now ≡ Some kind.now) }
{
    match place_of(entries, names) {
        None => None,
        Some(place) => Some(&entries[place].kind),
    }
}

// What a place is seen as, where resolving comes to its end.
fn seen_kind(kind: &Kind) -> Seen
    ensures { result ≡ seen_kind (Some kind.now) }
{
    match kind {
        Kind::Dir => Seen::ADirectory,
        Kind::Bytes(bytes) => Seen::AFile(bytes.as_slice().len() as u64),
    }
}

/// What resolving a path meets.
pub fn seen_at(entries: &[Entry], names: &[Text]) -> Seen
    ensures { result ≡ seen_at (kind_at entries.now) names.now }
{
    for k in 0..names.len() {
        match look_at(entries, &names[..k]) {
            None => return Seen::Nothing,
            Some(Kind::Bytes(_)) => return Seen::AFileBefore,
            Some(Kind::Dir) => {}
        }
    }
    match look_at(entries, names) {
        None => Seen::Nothing,
        Some(kind) => seen_kind(kind),
    }
}

/// Puts something at a path, in place of what stands there.
pub fn add(entries: &mut Vec<Entry>, path: Path, kind: Kind) -> Result<(), NoMemory>
    ensures ok { OnOk result ((q : List (List ℕ)) →
        kind_at entries.new.items q ≡ set path kind (kind_at entries.old.items) q) }
    ensures err { OnErr result (entries.new.items ≡ entries.old.items) }
{
    entries.insert(0, Entry { path, kind })?;
    Ok(())
}

/// Takes a path and all below it out.
pub fn clear(entries: &mut Vec<Entry>, names: &[Text])
    ensures { (q : List (List ℕ)) →
        kind_at entries.new.items q ≡ cleared names.now (kind_at entries.old.items) q }
{
    entries.retain(|e| !is_under(names, e.path.names()));
}

// What follows the first path in the second, which lies at or below it.
fn rest_of<'a>(above: &[Text], path: &'a [Text]) -> &'a [Text]
    requires { is_at_or_under above.now path.now ≡ true }
    ensures { result.now ≡ rest above.now path.now }
{
    &path[above.len()..]
}

// An entry at or below a path, with another path in front.
fn moved_entry(
    alloc: Global,
    entry: &Entry,
    olds: &[Text],
    news: &[Text],
) -> Result<Entry, NoMemory>
    requires { is_at_or_under olds.now entry.now.path ≡ true }
    ensures path { IfOk result (λ moved. moved.path ≡ news.now ++ rest olds.now entry.now.path) }
    ensures kind { IfOk result (λ moved. moved.kind ≡ entry.now.kind) }
{
    let path = Path::joined(alloc, news, rest_of(olds, entry.path.names()))?;
    let kind = entry.kind.copy(alloc)?;
    Ok(Entry { path, kind })
}

// The entries at and below a path, with another path in front.
fn moved(
    alloc: Global,
    entries: &[Entry],
    olds: &[Text],
    news: &[Text],
) -> Result<Vec<Entry>, NoMemory>
    ensures { IfOk result (λ v. (q : List (List ℕ)) →
        kind_at v.items q ≡ (if is_at_or_under news.now q
        then kind_at entries.now (olds.now ++ rest news.now q) else None)) }
{
    let mut fresh = Vec::new(alloc);
    for entry in entries {
        if is_under(olds, entry.path.names()) {
            fresh.push(moved_entry(alloc, entry, olds, news)?)?;
        }
    }
    Ok(fresh)
}

/// Replaces a path by another in every path that has it in front.
pub fn shift(
    alloc: Global,
    entries: &mut Vec<Entry>,
    olds: &[Text],
    news: &[Text],
) -> Result<(), NoMemory>
    ensures ok { OnOk result ((q : List (List ℕ)) →
        kind_at entries.new.items q ≡ shifted olds.now news.now (kind_at entries.old.items) q) }
    ensures err { OnErr result (entries.new.items ≡ entries.old.items) }
{
    let mut fresh = moved(alloc, entries.as_slice(), olds, news)?;
    fresh.reserve(entries.len())?;
    entries.retain(|e| !is_under(olds, e.path.names()) && !is_under(news, e.path.names()));
    fresh.append(entries).unwrap();
    std::mem::swap(entries, &mut fresh);
    Ok(())
}

// The name of an entry that stands in the directory itself.
fn child_name<'a>(entry: &'a Entry, names: &[Text]) -> Option<&'a Text>
    ensures { MatchOption result ((n : List ℕ) →
        is_path entry.now.path (names.now ++ n ∷ []) ≡ false) (λ name.
        entry.now.path ≡ names.now ++ name.now ∷ []) }
{
    let path = entry.path.names();
    if path.len() == names.len() + 1 && is_under(names, path) {
        Some(&path[names.len()])
    } else {
        None
    }
}

/// The least name of a directory that is greater than another.
pub fn next_name<'a>(entries: &'a [Entry], names: &[Text], after: &Text) -> Option<&'a Text>
    ensures { MatchOption result
        (NoneLater (has_entry_named (kind_at entries.now) names.now) after.now) (λ name.
        IsNext (has_entry_named (kind_at entries.now) names.now) after.now name.now) }
{
    let mut best: Option<&'a Text> = None;
    for entry in entries {
        if let Some(name) = child_name(entry, names) {
            best = lesser(after, name, best);
        }
    }
    best
}

/// The better of a name and the best so far: greater than `after`, and least of these.
pub fn lesser<'a>(after: &Text, name: &'a Text, best: Option<&'a Text>) -> Option<&'a Text>
    ensures { (there : List ℕ → Bool) →
        MatchOption best.entry (NoneLater there after.now) (λ b. IsNext there after.now b.now) →
        MatchOption result (NoneLater (λ m. there m || bytes_eq m name.now) after.now) (λ b.
        IsNext (λ m. there m || bytes_eq m name.now) after.now b.now) }
{
    if !is_before(after, name) {
        return best;
    }
    match best {
        Some(old) if !is_before(name, old) => Some(old),
        _ => Some(name),
    }
}

/// A page of the names of a directory that are greater than another, up to 64.
pub fn page(
    alloc: Global,
    entries: &[Entry],
    names: &[Text],
    after: &Text,
) -> Result<Texts, NoMemory>
    ensures { IfOk result (λ page.
        IsPage (has_entry_named (kind_at entries.now) names.now) 64 after.now page) }
{
    let mut page = Texts::new(alloc);
    let mut last = after;
    for _i in 0..PAGE_NAMES {
        match next_name(entries, names, last) {
            None => return Ok(page),
            Some(name) => {
                page.push(name.copy(alloc)?)?;
                last = name;
            }
        }
    }
    Ok(page)
}

// Writes a piece over the bytes of an entry.
fn write_entry(alloc: Global, entry: &mut Entry, offset: u64, piece: &[u8]) -> Result<(), NoMemory>
    requires { offset + length piece.now < 2 ^ 63 }
    ensures path { entry.new.path ≡ entry.old.path }
    ensures ok { OnOk result (entry.new.kind ≡ on_bytes (wrote offset piece.now) entry.old.kind) }
    ensures err { OnErr result (entry.new.kind ≡ entry.old.kind) }
{
    match &mut entry.kind {
        Kind::Dir => Ok(()),
        Kind::Bytes(bytes) => overwrite(alloc, bytes, offset, piece),
    }
}

// Cuts the bytes of an entry, or fills them with zeros.
fn resize_entry(alloc: Global, entry: &mut Entry, size: u64) -> Result<(), NoMemory>
    requires { size < 2 ^ 63 }
    ensures path { entry.new.path ≡ entry.old.path }
    ensures ok { OnOk result (entry.new.kind ≡ on_bytes (resized_bytes size) entry.old.kind) }
    ensures err { OnErr result (entry.new.kind ≡ entry.old.kind) }
{
    match &mut entry.kind {
        Kind::Dir => Ok(()),
        Kind::Bytes(bytes) => resize(alloc, bytes, size),
    }
}

/// Writes a piece over the bytes of the file at a path.
pub fn write_at(
    alloc: Global,
    entries: &mut Vec<Entry>,
    names: &[Text],
    offset: u64,
    piece: &[u8],
) -> Result<(), NoMemory>
    requires { offset + length piece.now < 2 ^ 63 }
    ensures ok { OnOk result ((q : List (List ℕ)) → kind_at entries.new.items q ≡
        bytes_changed names.now (wrote offset piece.now) (kind_at entries.old.items) q) }
    ensures err { OnErr result (entries.new.items ≡ entries.old.items) }
{
    match place_of(entries.as_slice(), names) {
        None => Ok(()),
        Some(place) => write_entry(alloc, &mut entries[place], offset, piece),
    }
}

/// Cuts the bytes of the file at a path, or fills them with zeros.
pub fn resize_at(
    alloc: Global,
    entries: &mut Vec<Entry>,
    names: &[Text],
    size: u64,
) -> Result<(), NoMemory>
    requires { size < 2 ^ 63 }
    ensures ok { OnOk result ((q : List (List ℕ)) → kind_at entries.new.items q ≡
        bytes_changed names.now (resized_bytes size) (kind_at entries.old.items) q) }
    ensures err { OnErr result (entries.new.items ≡ entries.old.items) }
{
    match place_of(entries.as_slice(), names) {
        None => Ok(()),
        Some(place) => resize_entry(alloc, &mut entries[place], size),
    }
}
