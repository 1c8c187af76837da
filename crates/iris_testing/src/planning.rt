//! Plans on paths over a cache that the tests fill themselves.

use crate::fetching::put_in;
use iris_cache::{Cache, Draft};
use iris_mac::Keys;
use iris_name::{FileId, Name, Path, PlainError, Reply, Text};
use iris_node::{Body, EntryNode, Node};
use iris_paths::{plan_list, plan_make, plan_rename, plan_stat};
use std::alloc::Global;
use std::test::Fail;

pub const ROOT: Name = Name::Entry { id: FileId(0) };

pub fn text(alloc: Global, words: &str) -> Result<Text, Fail> {
    Ok(Text::of(words.to_string(alloc)?))
}

fn path(alloc: Global, words: &str) -> Result<Path, Fail> {
    Ok(Path::read(alloc, &text(alloc, words)?)?)
}

/// Makes a draft.
pub fn land(cache: &mut Cache, draft: Draft) -> Result<(), Fail> {
    cache.room_for(&draft)?;
    cache.apply(draft);
    Ok(())
}

/// A cache with an empty root.
pub fn fresh(alloc: Global) -> Result<Cache, Fail> {
    let mut cache = Cache::new(alloc);
    let root = EntryNode {
        id: FileId(0),
        name: Text::of(String::new(alloc)),
        left: None,
        right: None,
        body: Body::Dir { top: None },
    };
    put_in(&mut cache, None, Node::Entry(root))?;
    Ok(cache)
}

pub fn some_keys() -> Keys {
    Keys::of(&[7; 32])
}

/// Plans a file or a directory.
pub fn draw(
    alloc: Global,
    draft: &mut Draft,
    cache: &Cache,
    keys: &Keys,
    words: &str,
    id: u64,
    dir: bool,
) -> Result<Option<PlainError>, Fail> {
    let path = path(alloc, words)?;
    Ok(plan_make(alloc, draft, cache, keys, &path, FileId(id), dir)?)
}

/// Plans a file or a directory, and makes the plan.
pub fn make_under(
    alloc: Global,
    cache: &mut Cache,
    keys: &Keys,
    words: &str,
    id: u64,
    dir: bool,
) -> Result<Option<PlainError>, Fail> {
    let mut draft = Draft::new(alloc);
    let answer = draw(alloc, &mut draft, cache, keys, words, id, dir)?;
    land(cache, draft)?;
    Ok(answer)
}

/// Plans a file or a directory by some keys, and makes the plan.
pub fn make(
    alloc: Global,
    cache: &mut Cache,
    words: &str,
    id: u64,
    dir: bool,
) -> Result<Option<PlainError>, Fail> {
    make_under(alloc, cache, &some_keys(), words, id, dir)
}

// Plans a renaming.
fn redraw(
    alloc: Global,
    draft: &mut Draft,
    cache: &Cache,
    from: &str,
    to: &str,
) -> Result<Option<PlainError>, Fail> {
    let from = path(alloc, from)?;
    let to = path(alloc, to)?;
    Ok(plan_rename(alloc, draft, cache, &some_keys(), &from, &to)?)
}

/// Plans a renaming by some keys, and makes the plan.
pub fn rename(
    alloc: Global,
    cache: &mut Cache,
    from: &str,
    to: &str,
) -> Result<Option<PlainError>, Fail> {
    let mut draft = Draft::new(alloc);
    let answer = redraw(alloc, &mut draft, cache, from, to)?;
    land(cache, draft)?;
    Ok(answer)
}

/// The page of a directory after a name.
pub fn listed(alloc: Global, cache: &Cache, words: &str, after: &str) -> Result<Reply, Fail> {
    let draft = Draft::new(alloc);
    let path = path(alloc, words)?;
    let after = text(alloc, after)?;
    Ok(plan_list(alloc, &draft, cache, &path, &after)?)
}

/// What is told of a path.
pub fn told(alloc: Global, cache: &Cache, words: &str) -> Result<Reply, Fail> {
    let draft = Draft::new(alloc);
    let path = path(alloc, words)?;
    Ok(plan_stat(&draft, cache, &path)?)
}
