//! Marks go up from the nodes that a draft changes.

ghost use Rattle.std.specs.Prelude.{◌≡◌, ◌+◌, true, false, Some, length};
ghost use Rattle.iris_name.specs.declared.name.Name.{Name as SpecName};
ghost use Rattle.indexmap.specs.IndexMap.{IsUnique};
ghost use Rattle.iris_name.specs.Names.{same_name};
ghost use Rattle.iris_cache.specs.Held.{moved_node};
ghost use Rattle.iris_cache.specs.Applied.{is_above_within, Differs};
ghost use Rattle.iris_cache.specs.Pictures.{parent_after};
ghost use Rattle.iris_cache.specs.Resident.{held_node, map_if};
ghost use Rattle.iris_cache.specs.Marked.{Marks, MarksOne};

use crate::cache::Cache;
use crate::draft::Change;
use crate::held::Edit;
use indexmap::IndexMap;
use iris_name::Name;
use iris_node::{Node, is_same_node};

impl Cache {
    // The parent of a name with the changes made.
    fn parent_after(&self, changes: &IndexMap<Name, Change>, name: &Name) -> Option<Name>
        ensures { result ≡
            parent_after (record { changes = changes.now.entries }) self.now name.now }
    {
        match changes.get(name) {
            Some(change) => change.parent,
            None => self.parent_of(name),
        }
    }

    // Whether a change sets a node where none was, or to another value.
    fn differs(&self, name: &Name, node: &Option<Node>) -> bool
        ensures yes { result ≡ true → Differs node.now (held_node self.now name.now) }
        ensures no { result ≡ false → Differs node.now (held_node self.now name.now) → ⊥ }
    {
        let Some(node) = node else {
            return false;
        };
        match self.find(name) {
            Some(held) => !is_same_node(node, &held.node),
            None => true,
        }
    }

    // Marks a node and all above it with the changes made.
    fn mark_up(&mut self, changes: &IndexMap<Name, Change>, name: &Name)
        ensures nodes { (q : SpecName) →
            held_node self.new q ≡ map_if (is_above_within (parent_after
            (record { changes = changes.now.entries }) self.old) (length self.old.nodes +
            length changes.now.entries + 1) (Some name.now) q) moved_node (held_node self.old q) }
        ensures room { self.new.room ≡ self.old.room }
        ensures count { length self.new.nodes ≡ length self.old.nodes }
    {
        let most = self.nodes.len() + changes.len() + 1;
        let mut at = Some(*name);
        for step in 0..most {
            let Some(here) = at else {
                return;
            };
            at = self.parent_after(changes, &here);
            self.flag(&here, Edit::Moved);
        }
    }

    // Marks each node that differs, and all above it.
    pub(crate) fn mark_changed(&mut self, changes: &IndexMap<Name, Change>)
        requires { IsUnique same_name changes.now }
        ensures nodes { (q : SpecName) →
            Marks (record { changes = changes.now.entries }) self.old self.new q }
        ensures room { self.new.room ≡ self.old.room }
        ensures count { length self.new.nodes ≡ length self.old.nodes }
    {
        for i in 0..changes.len() {
            match changes.get_index(i) {
                Some((name, change)) => self.mark_where(changes, name, change),
                None => unreachable!(),
            }
        }
    }

    // Marks a node that differs, and all above it.
    fn mark_where(&mut self, changes: &IndexMap<Name, Change>, name: &Name, change: &Change)
        ensures nodes { MarksOne (record { changes = changes.now.entries })
            self.old self.new name.now (Differs change.now.node (held_node self.old name.now)) }
        ensures room { self.new.room ≡ self.old.room }
        ensures count { length self.new.nodes ≡ length self.old.nodes }
    {
        if self.differs(name, &change.node) {
            self.mark_up(changes, name);
        }
    }
}
