//! A draft is made.

ghost use Rattle.std.specs.Prelude.{◌≡◌, ◌<◌, slice_get, ◌&&◌, Option, Some, None, true, false, not, is_some, if◌then◌else◌, length};
ghost use Rattle.std.specs.Option.{option_map};
ghost use Rattle.std.specs.Map.{keys_of};
ghost use Rattle.iris_name.specs.Names.{same_name};
ghost use Rattle.iris_name.specs.declared.name.Name.{Name as SpecName};
ghost use Rattle.iris_node.specs.Nodes.{name_of};
ghost use Rattle.iris_node.specs.declared.node.Node.{Node as NodeValue};
ghost use Rattle.indexmap.specs.IndexMap.{IsUnique, get};
ghost use Rattle.iris_cache.specs.declared.held.Held.{Held as HeldRecord};
ghost use Rattle.iris_cache.specs.Held.{with_parent, with_node};
ghost use Rattle.iris_cache.specs.Drafted.{sets, is_set, IsDraft};
ghost use Rattle.iris_cache.specs.Applied.{bare, node_written, node_of_change, spent, hung, Lands};
ghost use Rattle.iris_cache.specs.Resident.{held_node, has_room, map_if};

use crate::cache::Cache;
use crate::draft::{Change, Draft};
use crate::edits::renew;
use crate::held::Held;
use crate::index::{exchange_links, ranged};
use indexmap::IndexMap;
use iris_name::Name;
use iris_node::Node;

impl Cache {
    // Takes a node from its parent, where it is resident.
    fn unhang_one(&mut self, name: &Name)
        ensures nodes { (q : SpecName) →
            bare self.new q ≡ map_if (same_name name.now q) (with_parent None) (bare self.old q) }
        ensures room { self.new.room ≡ self.old.room }
    {
        if self.find(name).is_some() {
            self.unlink(name);
        }
    }

    // Takes each node of the changes from its parent.
    fn unhang(&mut self, changes: &IndexMap<Name, Change>)
        ensures nodes { (q : SpecName) → bare self.new q ≡
            map_if (is_some (get same_name changes.now q)) (with_parent None) (bare self.old q) }
        ensures room { self.new.room ≡ self.old.room }
    {
        for i in 0..changes.len() {
            match changes.get_index(i) {
                Some((name, _)) => self.unhang_one(name),
                None => unreachable!(),
            }
        }
    }

    // Hangs a node under a parent, where it is resident.
    fn hang_one(&mut self, name: &Name, parent: Option<Name>)
        requires { (h : HeldRecord) → bare self.old name.now ≡ Some h → h.parent ≡ None }
        ensures nodes { (q : SpecName) →
            bare self.new q ≡ map_if (same_name name.now q) (with_parent parent) (bare self.old q) }
        ensures room { self.new.room ≡ self.old.room }
    {
        if self.find(name).is_some() {
            self.link(name, parent);
        }
    }

    // Hangs each node of the changes under its new parent.
    fn hang(&mut self, changes: &IndexMap<Name, Change>)
        requires once { IsUnique same_name changes.now }
        requires alone { (q : SpecName) (h : HeldRecord) →
            is_some (get same_name changes.now q) ≡ true →
            bare self.old q ≡ Some h → h.parent ≡ None }
        ensures nodes { (q : SpecName) →
            bare self.new q ≡ hung (get same_name changes.now q) (bare self.old q) }
        ensures room { self.new.room ≡ self.old.room }
    {
        for i in 0..changes.len() {
            match changes.get_index(i) {
                Some((name, change)) => self.hang_one(name, change.parent),
                None => unreachable!(),
            }
        }
    }

    // Puts a node in the place of what was held of a name, or takes it away.
    fn land(&mut self, name: &Name, node: Option<Node>)
        requires alone { (h : HeldRecord) → bare self.old name.now ≡ Some h → h.parent ≡ None }
        requires own { (k : NodeValue) → node ≡ Some k → name_of k ≡ name.now }
        requires place { is_some node ≡ true →
            held_node self.old name.now ≡ None → has_room self.old name.now ≡ true }
        ensures nodes { (q : SpecName) → bare self.new q ≡ (if same_name name.now q
            then node_written node (bare self.old q) else bare self.old q) }
        ensures room { (q : SpecName) → has_room self.new q ≡
            (has_room self.old q && not (same_name name.now q && is_some node)) }
    {
        match node {
            Some(node) => self.write_one(name, node),
            None => self.take_one(name),
        }
    }

    // Takes a name away, where it is resident.
    fn take_one(&mut self, name: &Name)
        requires alone { (h : HeldRecord) → bare self.old name.now ≡ Some h → h.parent ≡ None }
        ensures nodes { (q : SpecName) →
            bare self.new q ≡ (if same_name name.now q then None else bare self.old q) }
        ensures room { self.new.room ≡ self.old.room }
    {
        if self.find(name).is_some() {
            self.take(name);
        }
    }

    // Puts a node in the place of what was held of its name.
    fn write_one(&mut self, name: &Name, node: Node)
        requires own { name_of node ≡ name.now }
        requires place { held_node self.old name.now ≡ None → has_room self.old name.now ≡ true }
        ensures nodes { (q : SpecName) → bare self.new q ≡ (if same_name name.now q
            then node_written (Some node) (bare self.old q) else bare self.old q) }
        ensures room { (q : SpecName) →
            has_room self.new q ≡ (has_room self.old q && not (same_name name.now q)) }
    {
        if self.nodes.contains_key(name) {
            self.rewrite(name, node);
        } else {
            self.put(Held {
                node,
                parent: None,
                kids: 0,
                pins: 0,
                dirty: true,
                settled: false,
                out: None,
                touched: false,
            });
        }
    }

    // Gives a resident name another node.
    fn rewrite(&mut self, name: &Name, node: Node)
        requires { name_of node ≡ name.now }
        ensures nodes { (q : SpecName) → held_node self.new q ≡
            map_if (same_name name.now q) (with_node node) (held_node self.old q) }
        ensures room { self.new.room ≡ self.old.room }
    {
        ranged(&node);
        exchange_links(&mut self.links, &self.nodes, name, &node);
        renew(&mut self.nodes, name, node);
    }

    // Puts each node of the changes in the place of what was held of its name, or takes the name away.
    fn write(&mut self, changes: &mut IndexMap<Name, Change>)
        requires draft { IsDraft (record { changes = changes.old.entries }) }
        requires alone { (q : SpecName) (h : HeldRecord) →
            is_some (get same_name changes.old q) ≡ true →
            bare self.old q ≡ Some h → h.parent ≡ None }
        requires places { (q : SpecName) → is_set (get same_name changes.old q) ≡ true →
            held_node self.old q ≡ None → has_room self.old q ≡ true }
        ensures nodes { (q : SpecName) → bare self.new q ≡ (if is_some (get same_name changes.old q)
            then node_written (node_of_change (get same_name changes.old q)) (bare self.old q)
            else bare self.old q) }
        ensures room { (q : SpecName) → has_room self.new q ≡
            (has_room self.old q && not (is_set (get same_name changes.old q))) }
        ensures changes { (q : SpecName) →
            get same_name changes.new q ≡ option_map spent (get same_name changes.old q) }
        ensures keys { keys_of changes.new.entries ≡ keys_of changes.old.entries }
    {
        for i in 0..changes.len() {
            let name = name_at(changes, i);
            let node = take_node(changes, &name);
            self.land(&name, node);
        }
    }

    /// Makes a draft. Nodes that differ are marked with all above them, as they stand with the draft made.
    pub fn apply(&mut self, draft: Draft)
        requires { (q : SpecName) →
            sets draft q ≡ true → held_node self.old q ≡ None → has_room self.old q ≡ true }
        ensures nodes { (q : SpecName) → Lands draft self.old self.new q }
        ensures room { (q : SpecName) →
            has_room self.new q ≡ (has_room self.old q && not (sets draft q)) }
    {
        let mut changes = draft.into_changes();
        self.mark_changed(&changes);
        self.unhang(&changes);
        self.write(&mut changes);
        self.hang(&changes);
        let _ = &self.nodes;
    }
}

// The `i`-th name.
fn name_at(changes: &IndexMap<Name, Change>, i: usize) -> Name
    requires { i < length changes.now.entries }
    ensures { slice_get (keys_of changes.now.entries) i ≡ Some result }
{
    match changes.get_index(i) {
        Some((name, _)) => *name,
        None => unreachable!(),
    }
}

// Hands the node of a change out.
fn take_node(changes: &mut IndexMap<Name, Change>, name: &Name) -> Option<Node>
    ensures node { result ≡ node_of_change (get same_name changes.old name.now) }
    ensures changes { (q : SpecName) → get same_name changes.new q ≡ (if same_name name.now q
        then option_map spent (get same_name changes.old q) else get same_name changes.old q) }
    ensures keys { keys_of changes.new.entries ≡ keys_of changes.old.entries }
{
    match changes.get_mut(name) {
        Some(change) => change.hand_out(),
        None => None,
    }
}
