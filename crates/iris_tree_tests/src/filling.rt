//! The versions of a file are set over a cache that is filled from the records of a table.

ghost use Rattle.std.specs.Prelude.{◌<◌, ◌≤◌};
ghost use Rattle.iris_version_tree.specs.Versions.{places};

use iris_cache::{Cache, Draft, Short};
use iris_name::{Bytes, Expect, Hash32, Name};
use iris_node::{Body, Node, Side};
use iris_testing::fetching::{fetch, record_of, take_in};
use iris_testing::planning::land;
use iris_testing::versions::FILE;
use iris_version_tree::{is_file, plan_set};
use std::alloc::Global;
use std::test::Fail;

pub(crate) const ENTRY: Name = Name::Entry { id: FILE };

// A cache that has a file's entry alone.
pub(crate) fn cache_of(alloc: Global, records: &[(Name, Bytes)]) -> Result<Cache, Fail> {
    let record = record_of(records, &ENTRY).ok_or("the entry")?;
    let mut cache = Cache::new(alloc);
    take_in(alloc, &mut cache, None, record)?;
    Ok(cache)
}

// The counter of writes, and the side of all versions, of a file.
pub(crate) fn file_in(node: &Node) -> Option<(u64, Side)> {
    match node {
        Node::Entry(entry) => match entry.body {
            Body::File {
                counter,
                versions,
                ..
            } => Some((counter, versions)),
            Body::Dir { .. } => None,
        },
        Node::Part(_) => None,
    }
}

// The side of all versions in the file's entry.
pub(crate) fn side_in(cache: &Cache) -> Option<Side> {
    Some(file_in(&cache.find(&ENTRY)?.node)?.1)
}

// What a plan lacks, or none where it was made.
fn lack(
    alloc: Global,
    cache: &mut Cache,
    low: u32,
    high: u32,
    version: u64,
) -> Result<Option<(Name, Hash32)>, Fail>
    requires some { low < high }
    requires within { high ≤ places }
{
    let mut draft = Draft::new(alloc);
    if !is_file(&draft, cache, FILE) {
        return Err("the file's entry is missing".into());
    }
    match plan_set(alloc, &mut draft, cache, FILE, low, high, version) {
        Ok(()) => {
            land(cache, draft)?;
            Ok(None)
        }
        Err(
            Short::Need {
                name,
                expect: Expect::Hash(hash),
            },
        ) => Ok(Some((name, hash))),
        Err(_) => Err("no hash is expected".into()),
    }
}

// Sets a range, with the parts that it lacks taken from the records before it.
pub(crate) fn set(
    alloc: Global,
    cache: &mut Cache,
    records: &[(Name, Bytes)],
    low: u32,
    high: u32,
    version: u64,
) -> Result<(), Fail>
    requires some { low < high }
    requires within { high ≤ places }
{
    for _ in 0..100_000 {
        match lack(alloc, cache, low, high, version)? {
            None => {
                cache.release(0);
                return Ok(());
            }
            Some((name, hash)) => fetch(alloc, cache, records, &name, hash)?,
        }
    }
    Err("it goes on lacking parts".into())
}
