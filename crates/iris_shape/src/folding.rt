//! The fold of a list of versions.

ghost use Rattle.std.specs.Prelude.{◌≡◌, ◌^◌, ◌↔◌, ℕ, length, slice_index, IsTrue, IfOk};
ghost use Rattle.iris_shape.specs.Folds.{IsPower, IsEven, folded};
ghost use Rattle.iris_shape.specs.Made.{made_fold};

use iris_name::NoMemory;
use sqlite_items::Boxed;
use std::alloc::Global;

/// The versions of a range of places: all are one version, or the two halves.
#[derive(Drop)]
pub enum Folded {
    One(u64),
    Two(Boxed<Folded>, Boxed<Folded>),
}

// Whether all versions are the first one.
fn is_even(versions: &[u64]) -> bool
    ensures { IsTrue result ↔ IsEven versions.now }
{
    versions.iter().all(|v| *v == versions[0])
}

/// The fold of a list of versions: one version where all are equal, else the folds of its two halves. It goes down as
/// many levels as the length halves.
pub fn fold(alloc: Global, versions: &[u64]) -> Result<Folded, NoMemory>
    requires { IsPower (length versions.now) }
    ensures { (level : ℕ) → length versions.now ≡ 2 ^ level →
        IfOk result (λ f. f ≡ made_fold (folded (λ p. slice_index versions.now p) level 0)) }
{
    if is_even(versions) {
        return Ok(Folded::One(versions[0]));
    }
    let (low, high) = versions.split_at(versions.len() / 2);
    let low = Boxed::new(alloc, fold(alloc, low)?)?;
    let high = Boxed::new(alloc, fold(alloc, high)?)?;
    Ok(Folded::Two(low, high))
}
