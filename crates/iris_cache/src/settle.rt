//! A node is settled once its resident children are.

ghost use Rattle.std.specs.Prelude.{◌≡◌, ◌↔◌, IsTrue, true, false, Some};
ghost use Rattle.iris_cache.specs.Settled.{HasSettledChildren, IsReady, Settles};

use crate::cache::Cache;
use crate::held::Held;
use iris_name::Name;
use iris_node::node_hash;

// Whether a node is a child of a name, and isn't settled.
fn is_loose_child(held: &Held, name: &Name) -> bool
    ensures fine { result ≡ false → held.now.parent ≡ Some name.now → held.now.settled ≡ true }
    ensures loose { IsTrue result → (held.now.parent ≡ Some name.now) × (held.now.settled ≡ false) }
{
    match held.parent {
        Some(parent) => parent == *name && !held.settled,
        None => false,
    }
}

impl Cache {
    /// Whether all resident children of a name are settled. It goes over all that is resident.
    pub fn has_settled_children(&self, name: &Name) -> bool
        ensures { IsTrue result ↔ HasSettledChildren self.now name.now }
    {
        self.sound();
        for i in 0..self.count() {
            let (_, held) = self.at(i);
            if is_loose_child(held, name) {
                return false;
            }
        }
        true
    }

    /// Settles a node by the hash of its record, if it isn't settled and all its resident children are. Tells whether it did.
    pub fn settle(&mut self, name: &Name) -> bool
        ensures done { IsTrue result ↔ IsReady self.old name.now }
        ensures settled { IsTrue result → Settles self.old self.new name.now }
        ensures unchanged { result ≡ false → self.new ≡ self.old }
    {
        let hash = match self.find(name) {
            Some(held) if !held.settled => node_hash(&held.node),
            _ => return false,
        };
        if !self.has_settled_children(name) {
            return false;
        }
        self.set_hash(name, hash);
        true
    }
}
