//! What is read of a file's versions.

ghost use Rattle.std.specs.Prelude.{◌≡◌, ◌<◌, ◌≤◌, ◌+◌, ◌*◌, ◌/◌, ◌^◌, ℕ, IfOk, IfErr};
ghost use Rattle.iris_node.specs.Trees.{Shown};
ghost use Rattle.iris_version_tree.specs.Versions.{Versioned, places};
ghost use Rattle.iris_version_tree.specs.Needs.{IsFile, IsPartLack, IsFirstLack, IsFirstWritten};

use crate::walk::even_at;
use iris_cache::{Cache, Draft, Short};
use iris_name::FileId;

/// How many places a file has.
pub const PLACES: u32 = 65_536;

/// The version of a place.
pub fn version_at(draft: &Draft, cache: &Cache, file: FileId, place: u32) -> Result<u64, Short>
    requires entry { IsFile draft.now cache.now file }
    requires within { place < places }
    ensures version { IfOk result (λ x. (old new : Shown) →
        (v : ℕ → ℕ) → Versioned old new file v draft.now cache.now → x ≡ v place) }
    ensures short { IfErr result (λ e. IsPartLack draft.now cache.now file place (place + 1) e) }
{
    Ok(even_at(draft, cache, file, place)?.version)
}

// The first place past the part of a level in which a place lies.
fn past(place: u32, level: u8) -> u32
    requires within { place < places }
    requires level { level ≤ 16 }
    ensures value { result ≡ (place / 2 ^ level + 1) * 2 ^ level }
    ensures more { place < result }
    ensures within { result ≤ places }
{
    ((place >> level) + 1) << level
}

/// The least place from one on that isn't a hole.
pub fn first_written(
    draft: &Draft,
    cache: &Cache,
    file: FileId,
    from: u32,
) -> Result<Option<u32>, Short>
    requires entry { IsFile draft.now cache.now file }
    requires within { from ≤ places }
    ensures first { IfOk result (λ p. (old new : Shown) →
        (v : ℕ → ℕ) → Versioned old new file v draft.now cache.now → IsFirstWritten v from p) }
    ensures short { IfErr result (λ e. IsFirstLack draft.now cache.now file from e) }
{
    let mut place = from;
    while place < PLACES {
        let even = even_at(draft, cache, file, place)?;
        if even.version != 0 {
            return Ok(Some(place));
        }
        place = past(place, even.level);
    }
    Ok(None)
}
