//! Resident nodes.

ghost use Rattle.std.specs.Prelude.{◌≡◌, ◌≤◌, ◌<◌, ◌+◌, Option, Some, None, IsSome, IfSome, IfOk, IfErr, OnOk, OnErr, is_some, count_by, if◌then◌else◌, not, length, true, false, slice_get};
ghost use Rattle.std.specs.Option.{option_copied, option_map};
ghost use Rattle.iris_name.specs.Names.{same_name};
ghost use Rattle.iris_node.specs.Nodes.{name_of};
ghost use Rattle.iris_cache.specs.declared.held.Held.{Held as HeldRecord};
ghost use Rattle.iris_cache.specs.Held.{points, kid_more, kid_less, newcomer_node, stay_of};
ghost use Rattle.iris_name.specs.declared.name.Name.{Name as SpecName};
ghost use Rattle.iris_cache.specs.Resident.{held_node, has_room, children, resident_parent, map_if, IsSoundCache};

use crate::held::{Held, Stay};
use crate::idle::Idle;
use indexmap::{IndexMap, IndexSet};
use iris_links::{Links, MOST_LINKS};
use iris_name::{Name, NoMemory};
use iris_node::Node;
use std::alloc::Global;
use std::marker::Model;

/// The resident nodes, and empty places for more.
#[derive(Drop)]
pub struct Cache {
    pub(crate) nodes: IndexMap<Name, Held>,
    pub(crate) places: IndexSet<Name>,
    // Whether a resident node may have a parent that isn't resident.
    pub(crate) astray: bool,
    // The links of the resident nodes.
    pub(crate) links: Links,
    // The names of the resident nodes that can go.
    pub(crate) idle: Idle,
    // How many of them are dirty.
    pub(crate) dirty: usize,
}

impl Model for Cache {
    ghost use Rattle.iris_cache.specs.Kept.{IsKept};
    ghost use Rattle.iris_cache.specs.Resident.{Resident};
    ghost use Rattle.indexmap.specs.IndexMap.{spare};

    ghost Value = { Resident };

    ghost view = { λ a. record { nodes = a.nodes.entries; room = a.places.keys } };

    ghost invariant = { λ a. IsKept (record { nodes = a.nodes.entries; room = a.places.keys })
        a.astray (spare a.nodes) a.links a.idle a.dirty };
}

impl Cache {
    /// Nothing is resident.
    pub fn new(alloc: Global) -> Cache
        ensures nodes { (n : SpecName) → held_node result n ≡ None }
        ensures room { (n : SpecName) → has_room result n ≡ false }
        ensures count { length result.nodes ≡ 0 }
    {
        Cache {
            nodes: IndexMap::new(alloc),
            places: IndexSet::new(alloc),
            astray: false,
            links: Links::new(alloc),
            idle: Idle::new(alloc),
            dirty: 0,
        }
    }

    /// What every cache keeps.
    pub fn sound(&self)
        ensures { IsSoundCache self.now }
    {
        let _ = &self.nodes;
    }

    /// How many are resident.
    pub fn count(&self) -> u32
        ensures { result ≡ length self.now.nodes }
    {
        self.nodes.len() as u32
    }

    /// How many are dirty. It goes over none.
    pub fn dirty(&self) -> u32
        ensures { result ≡ count_by (λ e. e.1.dirty) self.now.nodes }
    {
        self.dirty as u32
    }

    /// The `i`-th resident node, in an order that is left open.
    pub fn at(&self, i: u32) -> (&Name, &Held)
        requires { i < length self.now.nodes }
        ensures { slice_get self.now.nodes i ≡ Some (result.0.now, result.1.now) }
    {
        match self.nodes.get_index(i as usize) {
            Some(entry) => entry,
            None => unreachable!(),
        }
    }

    /// What is held of a name.
    pub fn find(&self, name: &Name) -> Option<&Held>
        ensures { option_copied result ≡ held_node self.now name.now }
    {
        self.nodes.get(name)
    }

    /// Keeps an empty place for a name, where it isn't resident.
    pub fn room(&mut self, name: &Name) -> Result<(), NoMemory>
        ensures nodes { self.new.nodes ≡ self.old.nodes }
        ensures kept { OnOk result ((q : SpecName) → has_room self.new q ≡ (if same_name name.now q
            then not (is_some (held_node self.old q)) else has_room self.old q)) }
        ensures err { OnErr result (self.new ≡ self.old) }
    {
        if self.nodes.contains_key(name) {
            return Ok(());
        }
        if self.places.contains(name) {
            return Ok(());
        }
        if self.nodes.len() + self.places.len() >= u32::MAX as usize {
            return Err(NoMemory);
        }
        self.nodes.reserve(self.places.len() + 1)?;
        self.links.reserve(MOST_LINKS * (self.places.len() + 1))?;
        self.idle.reserve(self.nodes.len() + self.places.len() + 1)?;
        self.places.insert(*name)?;
        Ok(())
    }

    /// Gives the empty place of a name up, where it has one.
    pub fn no_room(&mut self, name: &Name)
        ensures nodes { self.new.nodes ≡ self.old.nodes }
        ensures room { (q : SpecName) →
            has_room self.new q ≡ (if same_name name.now q then false else has_room self.old q) }
    {
        self.places.swap_remove(name);
    }

    /// Takes a node in at its empty place: clean, settled, and pinned for the caller.
    pub fn insert(&mut self, parent: Option<Name>, node: Node, who: u32)
        requires room { has_room self.old (name_of node) ≡ true }
        requires caller { who ≤ 16 }
        ensures nodes { (q : SpecName) →
            held_node self.new q ≡ map_if (points parent q) kid_more (if same_name (name_of node) q
            then Some (newcomer_node parent node who (children self.old (name_of node)))
            else held_node self.old q) }
        ensures room { (q : SpecName) → has_room self.new q ≡ (if same_name (name_of node) q
            then false else has_room self.old q) }
        ensures count { length self.new.nodes ≡ length self.old.nodes + 1 }
    {
        let name = node.name();
        self.put(Held {
            node,
            parent: None,
            kids: 0,
            pins: 1 << who,
            dirty: false,
            settled: true,
            out: None,
            touched: false,
        });
        self.link(&name, parent);
    }

    /// Lets a node go, or says why it stays.
    pub fn evict(&mut self, name: &Name) -> Result<Node, Stay>
        requires { IsSome (held_node self.old name.now) }
        ensures gone { IfOk result (λ n.
            option_map (λ (h : HeldRecord). h.node) (held_node self.old name.now) ≡ Some n) }
        ensures free { OnOk result (IfSome (held_node self.old name.now) (λ h. stay_of h ≡ None)) }
        ensures stays { IfErr result (λ s.
            IfSome (held_node self.old name.now) (λ h. stay_of h ≡ Some s)) }
        ensures nodes { OnOk result ((q : SpecName) → held_node self.new q ≡
            map_if (points (resident_parent self.old name.now) q) kid_less (if same_name name.now q
            then None else held_node self.old q)) }
        ensures count { OnOk result (length self.new.nodes + 1 ≡ length self.old.nodes) }
        ensures room { self.new.room ≡ self.old.room }
        ensures err { OnErr result (self.new ≡ self.old) }
    {
        if let Some(stay) = self.stay(name) {
            return Err(stay);
        }
        self.unlink(name);
        Ok(self.take(name).into_node())
    }

    // Why a node can't go, if so.
    fn stay(&self, name: &Name) -> Option<Stay>
        ensures { IfSome (held_node self.now name.now) (λ h. stay_of h ≡ result) }
    {
        match self.nodes.get(name) {
            Some(held) => held.stay(),
            None => None,
        }
    }
}
