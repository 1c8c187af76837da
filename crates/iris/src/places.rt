//! What a session keeps of the registers.

ghost use Rattle.std.specs.Prelude.{◌≡◌, ◌<◌, ℕ, None, IfOk, length, slice_index, slice_index_or, slice_set};

use iris_name::{NoMemory, Page};
use std::alloc::Global;

/// How many places there are.
pub const PLACES: usize = 65536;

/// The counter of writes, and for each place its version and the block, where the store failed to take that.
#[derive(Drop)]
pub struct Places {
    pub counter: u64,
    pub versions: Vec<u64>,
    pub kept: Vec<Option<Page>>,
}

// That many zeros.
#[tactic(auto, using(crate::proofs::Lists::same_more))]
fn zeros(alloc: Global, n: usize) -> Result<Vec<u64>, NoMemory>
    ensures len { IfOk result (λ v. length v.items ≡ n) }
    ensures zero { IfOk result (λ v. (p : ℕ) → slice_index v.items p ≡ 0) }
{
    let mut versions = Vec::with_capacity(alloc, n)?;
    for i in 0..n {
        versions.push(0)?;
    }
    Ok(versions)
}

// That many absent pages.
#[tactic(auto, using(crate::proofs::Lists::same_more))]
fn absent(alloc: Global, n: usize) -> Result<Vec<Option<Page>>, NoMemory>
    ensures len { IfOk result (λ v. length v.items ≡ n) }
    ensures none { IfOk result (λ v. (p : ℕ) → slice_index_or v.items p None ≡ None) }
{
    let mut pages = Vec::with_capacity(alloc, n)?;
    for i in 0..n {
        pages.push(None)?;
    }
    Ok(pages)
}

impl Places {
    /// Nothing was written.
    pub fn new(alloc: Global) -> Result<Places, NoMemory>
        ensures sizes { IfOk result (λ a. (length a.versions.items ≡ PLACES) ×
            (length a.kept.items ≡ PLACES)) }
        ensures counter { IfOk result (λ a. a.counter ≡ 0) }
        ensures versions { IfOk result (λ a. (p : ℕ) → slice_index a.versions.items p ≡ 0) }
        ensures kept { IfOk result (λ a. (p : ℕ) → slice_index_or a.kept.items p None ≡ None) }
    {
        Ok(Places {
            counter: 0,
            versions: zeros(alloc, PLACES)?,
            kept: absent(alloc, PLACES)?,
        })
    }

    /// Gives a place a version, which is the counter's now, and keeps its block or none.
    pub fn set(&mut self, place: u32, version: u64, kept: Option<Page>)
        requires versions { place < length self.old.versions.items }
        requires kept { place < length self.old.kept.items }
        ensures counter { self.new.counter ≡ version }
        ensures versions { self.new.versions.items ≡
            slice_set self.old.versions.items place version }
        ensures kept { self.new.kept.items ≡ slice_set self.old.kept.items place kept }
    {
        self.counter = version;
        self.versions[place as usize] = version;
        self.kept[place as usize] = kept;
    }
}
