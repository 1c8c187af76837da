//! Changes over a cache, not yet made.

ghost use Rattle.std.specs.Prelude.{◌≡◌, ◌<◌, [], Option, Some, None, OnOk, OnErr, if◌then◌else◌, length};
ghost use Rattle.std.specs.Option.{option_copied, option_map};
ghost use Rattle.iris_name.specs.Names.{same_name};
ghost use Rattle.iris_name.specs.declared.name.Name.{Name as SpecName};
ghost use Rattle.iris_node.specs.Nodes.{name_of};
ghost use Rattle.indexmap.specs.IndexMap.{insert_entry};
ghost use Rattle.iris_cache.specs.Drafted.{drafted, set_to, taken_away, known, seen, drafted_at, IsDraft};
ghost use Rattle.iris_cache.specs.Applied.{spent};

use crate::cache::Cache;
use indexmap::IndexMap;
use iris_name::{Name, NoMemory};
use iris_node::Node;
use std::alloc::Global;
use std::marker::Model;

/// What is to become of a name: its parent and its node, or no node where it is taken away.
#[derive(Debug, Drop)]
pub struct Change {
    pub parent: Option<Name>,
    pub node: Option<Node>,
}

/// Changes by name.
#[derive(Drop)]
pub struct Draft {
    pub(crate) changes: IndexMap<Name, Change>,
}

impl Model for Draft {
    ghost use Rattle.iris_cache.specs.Drafted.{Drafted, IsDraft};

    ghost Value = { Drafted };

    ghost view = { λ a. record { changes = a.changes.entries } };

    ghost invariant = { λ a. IsDraft (record { changes = a.changes.entries }) };
}

impl Draft {
    /// No change.
    pub fn new(alloc: Global) -> Draft
        ensures { result ≡ record { changes = [] } }
    {
        Draft {
            changes: IndexMap::new(alloc),
        }
    }

    /// What every draft keeps.
    pub fn sound(&self)
        ensures { IsDraft self.now }
    {
        let _ = &self.changes;
    }

    /// Gives a name a node and a parent.
    pub fn set(&mut self, parent: Option<Name>, node: Node) -> Result<(), NoMemory>
        ensures changes { OnOk result (self.new.changes ≡
            insert_entry same_name self.old.changes (name_of node) (set_to parent node)) }
        ensures names { OnOk result ((q : SpecName) →
            drafted self.new q ≡ (if same_name (name_of node) q
            then Some (set_to parent node) else drafted self.old q)) }
        ensures err { OnErr result (self.new ≡ self.old) }
    {
        if self.changes.len() >= u32::MAX as usize {
            return Err(NoMemory);
        }
        let name = node.name();
        let change = Change {
            parent,
            node: Some(node),
        };
        self.changes.insert(name, change)?;
        Ok(())
    }

    /// Takes a name away.
    pub fn remove(&mut self, name: &Name) -> Result<(), NoMemory>
        ensures changes { OnOk result (self.new.changes ≡
            insert_entry same_name self.old.changes name.now taken_away) }
        ensures names { OnOk result ((q : SpecName) → drafted self.new q ≡ (if same_name name.now q
            then Some taken_away else drafted self.old q)) }
        ensures err { OnErr result (self.new ≡ self.old) }
    {
        if self.changes.len() >= u32::MAX as usize {
            return Err(NoMemory);
        }
        let change = Change {
            parent: None,
            node: None,
        };
        self.changes.insert(*name, change)?;
        Ok(())
    }

    /// What is known of a name with the changes made: its node, or that it was taken away; nothing where it is missing.
    pub fn known<'a>(&'a self, cache: &'a Cache, name: &Name) -> Option<Option<&'a Node>>
        ensures { option_map option_copied result ≡ known self.now cache.now name.now }
    {
        match self.changes.get(name) {
            Some(change) => Some(change.node.as_ref()),
            None => cache.find(name).map(|held| Some(&held.node)),
        }
    }

    /// The node of a name with the changes made: none where it was taken away, and where it is missing.
    pub fn view<'a>(&'a self, cache: &'a Cache, name: &Name) -> Option<&'a Node>
        ensures { option_copied result ≡ seen self.now cache.now name.now }
    {
        self.known(cache, name).flatten()
    }

    /// How many names it changes.
    pub fn count(&self) -> u32
        ensures { result ≡ length self.now.changes }
    {
        self.changes.len() as u32
    }

    /// The `i`-th name, in the order in which they first came, with its node, or none where it is taken away.
    pub fn at(&self, i: u32) -> (&Name, Option<&Node>)
        requires { i < length self.now.changes }
        ensures { drafted_at self.now i ≡ Some (result.0.now, option_copied result.1) }
    {
        match self.changes.get_index(i as usize) {
            Some((name, change)) => (name, change.node.as_ref()),
            None => unreachable!(),
        }
    }

    // The changes, alone.
    pub(crate) fn into_changes(self) -> IndexMap<Name, Change>
        ensures changes { result.entries ≡ self.changes }
        ensures draft { IsDraft self }
    {
        self.changes
    }
}

impl Change {
    // Hands its node out.
    pub(crate) fn hand_out(&mut self) -> Option<Node>
        ensures node { result ≡ self.old.node }
        ensures change { self.new ≡ spent self.old }
    {
        self.node.take()
    }
}
