//! Nodes come and go, and hang from their parents.

ghost use Rattle.std.specs.Prelude.{◌≡◌, ◌+◌, IsSome, Some, None, cond, length, true, false};
ghost use Rattle.iris_name.specs.Names.{same_name};
ghost use Rattle.iris_name.specs.declared.name.Name.{Name as SpecName};
ghost use Rattle.iris_node.specs.Nodes.{name_of};
ghost use Rattle.iris_cache.specs.declared.held.Held.{Held as HeldRecord};
ghost use Rattle.iris_cache.specs.Held.{points, with_parent, with_kids, kid_more, kid_less};
ghost use Rattle.iris_cache.specs.Resident.{held_node, has_room, children, map_if, resident_parent};

use crate::cache::Cache;
use crate::edits::{count_children, edit, edit_parent};
use crate::held::{Edit, Held};
use crate::idle::refile_parent;
use crate::index::ranged;
use iris_name::Name;

impl Cache {
    // Takes a node without a parent in, at its place.
    pub(crate) fn put(&mut self, mut guest: Held)
        requires room { has_room self.old (name_of guest.node) ≡ true }
        requires alone { guest.parent ≡ None }
        ensures nodes { (q : SpecName) →
            held_node self.new q ≡ cond (same_name (name_of guest.node) q) (Some
            (with_kids (children self.old (name_of guest.node)) guest)) (held_node self.old q) }
        ensures room { (q : SpecName) → has_room self.new q ≡
            cond (same_name (name_of guest.node) q) false (has_room self.old q) }
        ensures count { length self.new.nodes ≡ length self.old.nodes + 1 }
    {
        let name = guest.node.name();
        ranged(&guest.node);
        self.places.swap_remove(&name);
        guest.kids = count_children(&self.nodes, &name, self.astray);
        self.idle.file(&name, guest.is_free());
        self.links.add_node(&guest.node);
        self.dirty += usize::from(guest.dirty);
        match self.nodes.insert(name, guest) {
            Ok(_) => {}
            Err(_) => unreachable!(),
        }
    }

    // Hangs a resident node that has no parent under one.
    pub(crate) fn link(&mut self, name: &Name, parent: Option<Name>)
        requires alone { (h : HeldRecord) → held_node self.old name.now ≡ Some h → h.parent ≡ None }
        requires resident { IsSome (held_node self.old name.now) }
        ensures nodes { (q : SpecName) → held_node self.new q ≡ map_if (points parent q) kid_more
            (map_if (same_name name.now q) (with_parent parent) (held_node self.old q)) }
        ensures room { self.new.room ≡ self.old.room }
        ensures count { length self.new.nodes ≡ length self.old.nodes }
    {
        edit(&mut self.nodes, name, Edit::Adopt(parent));
        let edited = edit_parent(&mut self.nodes, parent, Edit::Kid);
        self.astray |= edited.is_missing();
        refile_parent(&mut self.idle, &self.nodes, parent, edited);
    }

    // Takes a resident node from its parent.
    pub(crate) fn unlink(&mut self, name: &Name)
        requires { IsSome (held_node self.old name.now) }
        ensures nodes { (q : SpecName) →
            held_node self.new q ≡ map_if (points (resident_parent self.old name.now) q) kid_less
            (map_if (same_name name.now q) (with_parent None) (held_node self.old q)) }
        ensures room { self.new.room ≡ self.old.room }
        ensures count { length self.new.nodes ≡ length self.old.nodes }
    {
        let parent = self.parent_of(name);
        edit(&mut self.nodes, name, Edit::Adopt(None));
        let edited = edit_parent(&mut self.nodes, parent, Edit::Orphan);
        refile_parent(&mut self.idle, &self.nodes, parent, edited);
    }

    // The parent of a resident node.
    pub(crate) fn parent_of(&self, name: &Name) -> Option<Name>
        ensures { result ≡ resident_parent self.now name.now }
    {
        match self.nodes.get(name) {
            Some(held) => held.parent,
            None => None,
        }
    }

    // Lets a node without a parent go.
    pub(crate) fn take(&mut self, name: &Name) -> Held
        requires alone { (h : HeldRecord) → held_node self.old name.now ≡ Some h → h.parent ≡ None }
        requires resident { IsSome (held_node self.old name.now) }
        ensures node { held_node self.old name.now ≡ Some result }
        ensures nodes { (q : SpecName) →
            held_node self.new q ≡ cond (same_name name.now q) None (held_node self.old q) }
        ensures room { self.new.room ≡ self.old.room }
        ensures count { length self.new.nodes + 1 ≡ length self.old.nodes }
    {
        let Some(held) = self.nodes.swap_remove(name) else {
            unreachable!()
        };
        self.astray |= held.kids > 0;
        self.links.remove_node(&held.node);
        self.dirty -= usize::from(held.dirty);
        self.idle.file(name, false);
        held
    }
}
