//! The rules of entries and parts, as tests.

ghost use Rattle.std.specs.Prelude.{◌≡◌, ◌↔◌, ◌≤◌, ◌-◌, ◌^◌, IsTrue};
ghost use Rattle.std.specs.List.{list_all};
ghost use Rattle.iris_node.specs.Rules.{most_level, in_name, IsFileName};
ghost use Rattle.iris_node.specs.Tests.{is_dots, is_file_name, is_linked, is_body, is_directory_body, is_root, is_placed, is_entry, is_fold, differ, is_part};
ghost use Rattle.iris_node.specs.Views.{entry_read, part_read};

use crate::fields::{EntryRead, PartRead};
use crate::node::{Body, Link, MOST_LENGTH, MOST_LEVEL, Side};

fn is_dots(name: &[u8]) -> bool
    ensures { result ≡ is_dots name.now }
{
    match name {
        [b] => *b == b'.',
        [b, c] => *b == b'.' && *c == b'.',
        _ => false,
    }
}

// Whether there is neither a slash nor a zero.
fn is_one_step(name: &[u8]) -> bool
    ensures { result ≡ list_all in_name name.now }
{
    name.iter().all(|b| *b != b'/' && *b != 0)
}

/// Whether a file or a directory may have this name.
pub fn is_file_name(name: &str) -> bool
    ensures test { result ≡ is_file_name name.now }
    ensures rule { IsTrue result ↔ IsFileName name.now }
{
    let name = name.as_bytes();
    1 <= name.len() && name.len() <= 255 && !is_dots(name) && is_one_step(name)
}

fn is_linked(link: &Option<Link>) -> bool
    ensures { result ≡ is_linked link.now }
{
    match link {
        None => true,
        Some(link) => 2 <= link.id.0,
    }
}

fn is_body(body: &Body) -> bool
    ensures { result ≡ is_body body.now }
{
    match body {
        Body::Dir { top } => is_linked(top),
        Body::File { length, .. } => *length <= MOST_LENGTH,
    }
}

fn is_dir(body: &Body) -> bool
    ensures { result ≡ is_directory_body body.now }
{
    match body {
        Body::Dir { .. } => true,
        Body::File { .. } => false,
    }
}

fn is_root(entry: &EntryRead<'_>) -> bool
    ensures { result ≡ is_root (entry_read entry.now) }
{
    entry.name.is_empty() && entry.left.is_none() && entry.right.is_none() && is_dir(&entry.body)
}

// Whether its place in the tree is right: a root without a name, or an entry with one.
fn is_placed(entry: &EntryRead<'_>) -> bool
    ensures { result ≡ is_placed (entry_read entry.now) }
{
    if entry.id < 2 {
        is_root(entry)
    } else {
        is_file_name(entry.name)
    }
}

/// Whether what was read keeps the rules of entries.
pub(crate) fn is_entry(entry: &EntryRead<'_>) -> bool
    ensures { result ≡ is_entry (entry_read entry.now) }
{
    is_placed(entry) && is_linked(&entry.left) && is_linked(&entry.right) && is_body(&entry.body)
}

fn is_fold(side: &Side) -> bool
    ensures { result ≡ is_fold side.now }
{
    match side {
        Side::Fold(_) => true,
        Side::Below(_) => false,
    }
}

fn differ(low: &Side, high: &Side) -> bool
    ensures { result ≡ differ low.now high.now }
{
    match (low, high) {
        (Side::Fold(v), Side::Fold(w)) => *v != *w,
        _ => true,
    }
}

// How many parts there may be at a level.
fn parts_at(level: u8) -> u32
    requires { level ≤ most_level }
    ensures { result ≡ 2 ^ (most_level - level) }
{
    1 << (MOST_LEVEL - level)
}

/// Whether what was read keeps the rules of parts.
pub(crate) fn is_part(part: &PartRead) -> bool
    ensures { result ≡ is_part (part_read part.now) }
{
    2 <= part.file
        && 1 <= part.level
        && part.level <= MOST_LEVEL
        && part.index < parts_at(part.level)
        && (part.level != 1 || (is_fold(&part.low) && is_fold(&part.high)))
        && differ(&part.low, &part.high)
}
