//! Directories of many entries, of many that aren't made yet, and of long names.

ghost use Rattle.std.specs.Prelude.{◌≤◌};

use iris_cache::{Cache, Draft};
use iris_mac::Keys;
use iris_name::{PlainError, Reply, Text, Texts};
use iris_testing::planning::{draw, fresh, land, listed, make, make_under, some_keys};
use std::alloc::Global;
use std::test::Fail;

// The name of a file, from f00 to f99.
fn numbered(alloc: Global, i: u64) -> Result<String, Fail> {
    Ok(format!(in alloc; "f{}{}", i / 10 % 10, i % 10)?)
}

// The path of that file in the root.
fn numbered_path(alloc: Global, i: u64) -> Result<String, Fail> {
    Ok(format!(in alloc; "/f{}{}", i / 10 % 10, i % 10)?)
}

// The reply that lists some of these.
fn names_of(alloc: Global, low: u64, high: u64) -> Result<Reply, Fail> {
    let mut names = Texts::new(alloc);
    for i in low..high {
        names.push(Text::of(numbered(alloc, i)?))?;
    }
    Ok(Reply::Names(names))
}

fn make_numbered(alloc: Global, cache: &mut Cache, i: u64) -> Result<Option<PlainError>, Fail> {
    let path = numbered_path(alloc, i)?;
    make(alloc, cache, path.as_str(), i.saturating_add(2), false)
}

// A root with the files f00 to f64, the last made first.
fn many(alloc: Global) -> Result<Cache, Fail> {
    let mut cache = fresh(alloc)?;
    for i in 0..65u64 {
        make_numbered(alloc, &mut cache, 64 - i)?;
    }
    Ok(cache)
}

// Whether the page of the root after a name has these.
fn has_page(alloc: Global, cache: &Cache, after: &str, low: u64, high: u64) -> Result<bool, Fail> {
    Ok(listed(alloc, cache, "/", after)? == names_of(alloc, low, high)?)
}

// Whether the first page has 64 of these, and the one behind f63 the last.
fn has_pages(alloc: Global) -> Result<bool, Fail> {
    let cache = many(alloc)?;
    Ok(has_page(alloc, &cache, "", 0, 64)? && has_page(alloc, &cache, "f63", 64, 65)?)
}

// A page of one name more or less, or in another order.
#[test]
fn lists_in_pages(rt: HostRuntime) -> Result<(), Fail> {
    assert!(rt; has_pages(rt.alloc())?);
    Ok(())
}

// Makes so many files in the root, with ids from one on.
fn crowd(
    alloc: Global,
    cache: &mut Cache,
    keys: &Keys,
    first: u64,
    count: u64,
) -> Result<(), Fail> {
    for i in 0..count {
        let id = first.saturating_add(i);
        let path = format!(in alloc; "/f{id}")?;
        make_under(alloc, cache, keys, path.as_str(), id, false)?;
    }
    Ok(())
}

// Makes 20 files more where there are about a hundred.
#[inline(never)]
fn insert_into_hundred(alloc: Global, cache: &mut Cache, keys: &Keys) -> Result<(), Fail> {
    crowd(alloc, cache, keys, 92, 20)
}

// Makes 20 files more where there are about ten thousand.
#[inline(never)]
fn insert_into_ten_thousand(alloc: Global, cache: &mut Cache, keys: &Keys) -> Result<(), Fail> {
    crowd(alloc, cache, keys, 9_992, 20)
}

// A root of 110 files.
fn hundred(alloc: Global, keys: &Keys) -> Result<Cache, Fail> {
    let mut cache = fresh(alloc)?;
    crowd(alloc, &mut cache, keys, 2, 90)?;
    insert_into_hundred(alloc, &mut cache, keys)?;
    Ok(cache)
}

// How many are resident once a root has 10,010 files.
fn crowded(alloc: Global) -> Result<u32, Fail> {
    let keys = some_keys();
    let mut cache = hundred(alloc, &keys)?;
    crowd(alloc, &mut cache, &keys, 112, 9_880)?;
    insert_into_ten_thousand(alloc, &mut cache, &keys)?;
    Ok(cache.count())
}

// An entry that is lost, or two of one name, in a large directory.
#[test]
fn holds_a_crowd(rt: HostRuntime) -> Result<(), Fail> {
    assert_eq!(rt; crowded(rt.alloc())?, 10_011);
    Ok(())
}

// Plans the files f00 to f19 in the root, none of which is made yet.
fn draw_twenty(alloc: Global, draft: &mut Draft, cache: &Cache) -> Result<(), Fail> {
    let keys = some_keys();
    for i in 0..20u64 {
        let path = numbered_path(alloc, i)?;
        draw(alloc, draft, cache, &keys, path.as_str(), i + 2, false)?;
    }
    Ok(())
}

fn lists_what_was_drawn(alloc: Global) -> Result<bool, Fail> {
    let mut cache = fresh(alloc)?;
    let mut draft = Draft::new(alloc);
    draw_twenty(alloc, &mut draft, &cache)?;
    land(&mut cache, draft)?;
    has_page(alloc, &cache, "", 0, 20)
}

// A plan that gives up where more entries are planned than resident.
#[test]
fn plans_more_than_is_resident(rt: HostRuntime) -> Result<(), Fail> {
    assert!(rt; lists_what_was_drawn(rt.alloc())?);
    Ok(())
}

// How many bytes a name has at most.
const MOST: u64 = 255;

// A name of the greatest length.
fn longest(alloc: Global) -> Result<String, Fail> {
    let mut words = String::new(alloc);
    for _ in 0..MOST {
        words.push('n')?;
    }
    Ok(words)
}

// The path of so many such names.
fn nested(alloc: Global, depth: u64) -> Result<String, Fail>
    requires { depth ≤ 2 }
{
    let mut words = String::new(alloc);
    for i in 0..depth * (MOST + 1) {
        let letter = if i % (MOST + 1) == 0 { '/' } else { 'n' };
        words.push(letter)?;
    }
    Ok(words)
}

fn make_nested(alloc: Global, cache: &mut Cache, depth: u64) -> Result<(), Fail>
    requires { depth ≤ 2 }
{
    let path = nested(alloc, depth)?;
    match make(alloc, cache, path.as_str(), depth + 1, true)? {
        None => Ok(()),
        Some(_) => Err("it isn't made".into()),
    }
}

// A directory whose name has 255 bytes, and in it one of the same name.
fn two_deep(alloc: Global) -> Result<Cache, Fail> {
    let mut cache = fresh(alloc)?;
    make_nested(alloc, &mut cache, 1)?;
    make_nested(alloc, &mut cache, 2)?;
    Ok(cache)
}

// The reply that lists one such name.
fn one_name(alloc: Global) -> Result<Reply, Fail> {
    let mut names = Texts::new(alloc);
    names.push(Text::of(longest(alloc)?))?;
    Ok(Reply::Names(names))
}

fn has_one_name(alloc: Global, cache: &Cache, path: &str) -> Result<bool, Fail> {
    Ok(listed(alloc, cache, path, "")? == one_name(alloc)?)
}

fn lists_long_names(alloc: Global) -> Result<bool, Fail> {
    let cache = two_deep(alloc)?;
    let within = nested(alloc, 1)?;
    Ok(has_one_name(alloc, &cache, "/")? && has_one_name(alloc, &cache, within.as_str())?)
}

// A name of the greatest length that isn't found again.
#[test]
fn finds_the_longest_names(rt: HostRuntime) -> Result<(), Fail> {
    assert!(rt; lists_long_names(rt.alloc())?);
    Ok(())
}
