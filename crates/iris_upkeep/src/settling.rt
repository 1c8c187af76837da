//! Settling a node with all below it, from the leaves up.

ghost use Rattle.std.specs.Prelude.{◌≡◌, ◌↔◌, Some, None, IsSome, IfSome, length, true};
ghost use Rattle.std.specs.Option.{option_map};
ghost use Rattle.iris_name.specs.declared.name.Name.{Name as SpecName};
ghost use Rattle.iris_node.specs.Trees.{Shown, IsTree};
ghost use Rattle.iris_node.specs.Unfolded.{hash};
ghost use Rattle.iris_cache.specs.declared.held.Held.{Held as HeldRecord};
ghost use Rattle.iris_cache.specs.Laws.{AreFormed};
ghost use Rattle.iris_cache.specs.Pictures.{Pictures};
ghost use Rattle.iris_cache.specs.Resident.{held_node, resident_parent};
ghost use Rattle.iris_cache.specs.Settled.{Settles};
ghost use Rattle.iris_upkeep.specs.Marks.{IsAtOrBelow, IsMarked, PicturesTree};
ghost use Rattle.iris_upkeep.specs.SettlesInto.{SettlesInto, StaysOrIsTold};

use crate::descent::{What, is_marked, next_down};
use iris_cache::Cache;
use iris_name::{Hash32, Name};
use iris_node::node_hash;

// Settles a node by the hash of its record, where it is resident and isn't settled. Tells its parent and that hash, where it did.
fn settle_one(cache: &mut Cache, name: &Name) -> Option<(Option<Name>, Hash32)>
    ensures nodes { (q : SpecName) →
        SettlesInto (held_node cache.old q) (held_node cache.new q) }
    ensures settles { IsMarked What.Unsettled cache.old name.now →
        Settles cache.old cache.new name.now }
    ensures done { IsSome result ↔ IsMarked What.Unsettled cache.old name.now }
    ensures parent { IfSome result (λ p. p.0 ≡ resident_parent cache.old name.now) }
    ensures hash { IfSome result (λ p.
        option_map (λ (h : HeldRecord). hash h.node) (held_node cache.old name.now) ≡ Some p.1) }
    ensures room { cache.new.room ≡ cache.old.room }
    ensures count { length cache.new.nodes ≡ length cache.old.nodes }
{
    let (parent, hash) = match cache.find(name) {
        Some(held) if !held.settled => (held.parent, node_hash(&held.node)),
        _ => return None,
    };
    cache.set_hash(name, hash);
    Some((parent, hash))
}

/// Settles each unsettled node at and below a resident one, from the leaves up, each once and without memory. It looks at each of
/// them at most once more than it has unsettled children, and at no other but their children. Answers the hash of the record of the
/// node where it started, if it settled that one.
pub fn settle_all(cache: &mut Cache, from: &Name) -> Option<Hash32>
    ensures nodes { (q : SpecName) →
        SettlesInto (held_node cache.old q) (held_node cache.new q) }
    ensures pictures { (t : Shown) →
        Pictures t cache.old → IsTree t → AreFormed t → Pictures t cache.new }
    ensures still { PicturesTree cache.old → (q : SpecName) (h : HeldRecord) →
        held_node cache.old q ≡ Some h → h.settled ≡ true → held_node cache.new q ≡ Some h }
    ensures settled { PicturesTree cache.old → (q : SpecName) (h : HeldRecord) →
        IsAtOrBelow cache.old q from.now → held_node cache.new q ≡ Some h → h.settled ≡ true }
    ensures elsewhere { PicturesTree cache.old → (q : SpecName) →
        (IsAtOrBelow cache.old q from.now → ⊥) →
        StaysOrIsTold cache.old cache.new from.now q }
    ensures told { IfSome result (λ x.
        option_map (λ (h : HeldRecord). hash h.node) (held_node cache.new from.now) ≡ Some x) }
    ensures some { PicturesTree cache.old → IsMarked What.Unsettled cache.old from.now →
        IsSome result }
    ensures none { (IsMarked What.Unsettled cache.old from.now → ⊥) → result ≡ None }
    ensures room { cache.new.room ≡ cache.old.room }
    ensures count { length cache.new.nodes ≡ length cache.old.nodes }
{
    if !is_marked(cache, from, What::Unsettled) {
        return None;
    }
    let mut at = *from;
    for step in 0..2 * u64::from(cache.count()) {
        if let Some(child) = next_down(cache, &at, What::Unsettled) {
            at = child;
            continue;
        }
        let (parent, hash) = settle_one(cache, &at)?;
        if at == *from {
            return Some(hash);
        }
        at = parent?;
    }
    None
}
