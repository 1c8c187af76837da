//! A file's entry alone in a cache, and versions of the file that are set there.

ghost use Rattle.std.specs.Prelude.{◌<◌, ◌≤◌};
ghost use Rattle.iris_version_tree.specs.Versions.{places};

use crate::fetching::take_in;
use crate::planning::land;
use iris_cache::{Cache, Draft};
use iris_name::FileId;
use iris_version_tree::{is_file, plan_set};
use std::alloc::Global;
use std::test::Fail;

/// The first file that a table makes.
pub const FILE: FileId = FileId(2);

// The record of the empty file 2 named `a`.
const RECORD: [u8; 39] = [
    1, 2, 0, 0, 0, 0, 0, 0, 0, 2, 1, b'a', 0, 0, 0, 0, 0, 0, 0, 0, 0, 0, 0, 0, 0, 0, 0, 0, 0, 0, 0,
    0, 0, 0, 0, 0, 0, 0, 0,
];

/// A cache that has the entry of an empty file and no part.
pub fn cache_of_a_file(alloc: Global) -> Result<Cache, Fail> {
    let mut cache = Cache::new(alloc);
    take_in(alloc, &mut cache, None, &RECORD)?;
    Ok(cache)
}

/// Gives the places from a low one to before a high one a version: plans it, and makes the plan.
pub fn set_versions(
    alloc: Global,
    cache: &mut Cache,
    file: FileId,
    low: u32,
    high: u32,
    version: u64,
) -> Result<(), Fail>
    requires some { low < high }
    requires within { high ≤ places }
{
    let mut draft = Draft::new(alloc);
    if !is_file(&draft, cache, file) {
        return Err("the file's entry is missing".into());
    }
    plan_set(alloc, &mut draft, cache, file, low, high, version)?;
    land(cache, draft)
}
