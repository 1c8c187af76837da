//! What is unsettled is settled.

ghost use Rattle.std.specs.Prelude.{◌≡◌, Some, None, IsSome, IfSome, true};
ghost use Rattle.std.specs.Option.{option_map};
ghost use Rattle.iris_cache.specs.declared.held.Held.{Held as HeldRecord};
ghost use Rattle.iris_cache.specs.Laws.{AreFormed};
ghost use Rattle.iris_cache.specs.Pictures.{Pictures};
ghost use Rattle.iris_cache.specs.Resident.{held_node};
ghost use Rattle.iris_name.specs.declared.name.Name.{Name as SpecName};
ghost use Rattle.iris_node.specs.Trees.{Shown, IsTree};
ghost use Rattle.iris_node.specs.Unfolded.{hash};
ghost use Rattle.iris_upkeep.specs.Marks.{IsAtOrBelow, IsMarked, PicturesTree};
ghost use Rattle.iris_upkeep.specs.SettlesInto.{SettlesInto, StaysOrIsTold};
ghost use Rattle.iris_upkeep.specs.declared.descent.What.TheVariants.{Unsettled};

use crate::pool::Pool;
use iris_name::{Hash32, Name};
use iris_upkeep::settle_all;

impl Pool {
    /// Settles each unsettled node at and below a cached one, from the leaves up and without memory. Answers the hash of the record of
    /// the node where it started, if it settled that one.
    pub fn settle(&mut self, root: &Name) -> Option<Hash32>
        ensures nodes { (q : SpecName) →
            SettlesInto (held_node self.old.nodes q) (held_node self.new.nodes q) }
        ensures pictures { (t : Shown) → Pictures t self.old.nodes →
            IsTree t → AreFormed t → Pictures t self.new.nodes }
        ensures still { PicturesTree self.old.nodes → (q : SpecName) (h : HeldRecord) →
            held_node self.old.nodes q ≡ Some h → h.settled ≡ true →
            held_node self.new.nodes q ≡ Some h }
        ensures settled { PicturesTree self.old.nodes → (q : SpecName) (h : HeldRecord) →
            IsAtOrBelow self.old.nodes q root.now → held_node self.new.nodes q ≡ Some h →
            h.settled ≡ true }
        ensures elsewhere { PicturesTree self.old.nodes → (q : SpecName) →
            (IsAtOrBelow self.old.nodes q root.now → ⊥) →
            StaysOrIsTold self.old.nodes self.new.nodes root.now q }
        ensures told { IfSome result (λ x. option_map (λ (h : HeldRecord). hash h.node)
            (held_node self.new.nodes root.now) ≡ Some x) }
        ensures some { PicturesTree self.old.nodes →
            IsMarked Unsettled self.old.nodes root.now → IsSome result }
        ensures none { (IsMarked Unsettled self.old.nodes root.now → ⊥) → result ≡ None }
        ensures pages { self.new.pages ≡ self.old.pages }
        ensures desks { self.new.desks ≡ self.old.desks }
    {
        settle_all(&mut self.cache, root)
    }
}
