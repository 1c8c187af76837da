//! The lowest node that has a mark.

ghost use Rattle.std.specs.Prelude.{◌≡◌, ◌↔◌, IsTrue, Some, None, IsSome, IfSome, IfNone, MatchOption};
ghost use Rattle.iris_name.specs.declared.name.Name.{Name as SpecName};
ghost use Rattle.iris_cache.specs.declared.held.Held.{Held as HeldRecord};
ghost use Rattle.iris_cache.specs.Pictures.{Holds};
ghost use Rattle.iris_cache.specs.Resident.{held_node};
ghost use Rattle.iris_upkeep.specs.Children.{HasHash};
ghost use Rattle.iris_upkeep.specs.Marks.{HasMark, IsMarked, HoldsHashOf, IsAtOrBelow, PicturesTree};

use crate::children::children_of;
use iris_cache::{Cache, Held};
use iris_name::Name;
use iris_node::Node;

/// A mark of a resident node.
#[derive(Clone, Copy)]
pub enum What {
    /// Its record must still be put.
    Dirty,
    /// Its parent may hold another hash than that of its record.
    Unsettled,
}

impl What {
    // Whether a node has the mark.
    fn is_on(self, held: &Held) -> bool
        ensures { IsTrue result ↔ HasMark self held.now }
    {
        match self {
            What::Dirty => held.dirty,
            What::Unsettled => !held.settled,
        }
    }
}

// Whether a name is resident and has the mark.
pub(crate) fn is_marked(cache: &Cache, name: &Name, what: What) -> bool
    ensures { IsTrue result ↔ IsMarked what cache.now name.now }
{
    match cache.find(name) {
        Some(held) => what.is_on(held),
        None => false,
    }
}

// A name, where it is resident and has the mark.
fn if_marked(cache: &Cache, name: Option<Name>, what: What) -> Option<Name>
    ensures some { IfSome result (λ n. (name ≡ Some n) × IsMarked what cache.now n) }
    ensures none { IfNone result
        ((n : SpecName) → name ≡ Some n → IsMarked what cache.now n → ⊥) }
{
    match name {
        Some(name) if is_marked(cache, &name, what) => Some(name),
        _ => None,
    }
}

// A child of a node that is resident and has the mark.
fn marked_child(cache: &Cache, node: &Node, what: What) -> Option<Name>
    ensures some { IfSome result
        (λ n. HasHash (Holds node.now n) × IsMarked what cache.now n) }
    ensures none { IfNone result
        ((n : SpecName) → HasHash (Holds node.now n) → IsMarked what cache.now n → ⊥) }
{
    let children = children_of(node);
    if let Some(left) = if_marked(cache, children.left, what) {
        return Some(left);
    }
    if let Some(right) = if_marked(cache, children.right, what) {
        return Some(right);
    }
    if_marked(cache, children.top, what)
}

// A child of a resident node that is resident and has the mark.
pub(crate) fn next_down(cache: &Cache, name: &Name, what: What) -> Option<Name>
    ensures some { IfSome result
        (λ n. HoldsHashOf cache.now name.now n × IsMarked what cache.now n) }
    ensures none { IfNone result
        ((n : SpecName) → HoldsHashOf cache.now name.now n → IsMarked what cache.now n → ⊥) }
{
    match cache.find(name) {
        Some(held) => marked_child(cache, &held.node, what),
        None => None,
    }
}

/// From a resident node that has the mark, goes down to resident children that have it, until none has.
/// It looks at no more than what is resident, and at three children of each.
pub fn lowest(cache: &Cache, from: &Name, what: What) -> Option<Name>
    ensures from { IsSome result → IsMarked what cache.now from.now }
    ensures marked { IfSome result (IsMarked what cache.now) }
    ensures childless { IfSome result (λ a. (n : SpecName) →
        HoldsHashOf cache.now a n → IsMarked what cache.now n → ⊥) }
    ensures below { PicturesTree cache.now →
        IfSome result (λ a. IsAtOrBelow cache.now a from.now) }
    ensures found { PicturesTree cache.now → IsMarked what cache.now from.now → IsSome result }
    ensures lowest { PicturesTree cache.now → IfSome result (λ a. (n : SpecName) (h : HeldRecord) →
        held_node cache.now n ≡ Some h → h.parent ≡ Some a → HasMark what h → ⊥) }
{
    if !is_marked(cache, from, what) {
        return None;
    }
    let mut at = *from;
    for step in 0..cache.count() {
        match next_down(cache, &at, what) {
            Some(child) => at = child,
            None => return Some(at),
        }
    }
    None
}
