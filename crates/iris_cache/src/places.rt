//! Empty places for all names that a draft sets.

ghost use Rattle.std.specs.Prelude.{◌≡◌, ◌≤◌, ◌<◌, ◌+◌, ◌||◌, ◌&&◌, OnOk, OnErr, is_some, not, length};
ghost use Rattle.iris_name.specs.Names.{same_name};
ghost use Rattle.iris_name.specs.declared.name.Name.{Name as SpecName};
ghost use Rattle.indexmap.specs.IndexMap as map;
ghost use Rattle.indexmap.specs.IndexSet as set;
ghost use Rattle.iris_cache.specs.Drafted.{sets, is_set};
ghost use Rattle.iris_cache.specs.Resident.{held_node, has_room};

use crate::cache::Cache;
use crate::draft::{Change, Draft};
use crate::held::Held;
use indexmap::{IndexMap, IndexSet};
use iris_links::MOST_LINKS;
use iris_name::{Name, NoMemory};

impl Cache {
    /// Keeps an empty place for every name that a draft sets and that isn't resident.
    pub fn room_for(&mut self, draft: &Draft) -> Result<(), NoMemory>
        ensures nodes { self.new.nodes ≡ self.old.nodes }
        ensures kept { OnOk result ((q : SpecName) → has_room self.new q ≡
            (has_room self.old q || (sets draft.now q && not (is_some (held_node self.old q))))) }
        ensures err { OnErr result (self.new ≡ self.old) }
    {
        let names = draft.changes.len();
        let most = self.places.len() + names;
        if self.nodes.len() + most > u32::MAX as usize {
            return Err(NoMemory);
        }
        self.nodes.reserve(most)?;
        self.links.reserve(MOST_LINKS * most)?;
        self.idle.reserve(self.nodes.len() + most)?;
        self.places.reserve(names)?;
        place_all(&mut self.places, &self.nodes, &draft.changes);
        Ok(())
    }
}

// Adds each name that is set and isn't resident to the places.
fn place_all(
    places: &mut IndexSet<Name>,
    nodes: &IndexMap<Name, Held>,
    changes: &IndexMap<Name, Change>,
)
    requires spare { length changes.now.entries ≤ set.spare places.old }
    requires once { map.IsUnique same_name changes.now }
    ensures names { (q : SpecName) → set.contains same_name places.new q ≡
        (set.contains same_name places.old q || (is_set (map.get same_name changes.now q) &&
        not (is_some (map.get same_name nodes.now q)))) }
    ensures len { length places.new.keys ≤ length places.old.keys + length changes.now.entries }
{
    for i in 0..changes.len() {
        match changes.get_index(i) {
            Some((name, change)) => place(places, nodes, name, change),
            None => unreachable!(),
        }
    }
}

// Adds a name that is set and isn't resident to the places.
fn place(places: &mut IndexSet<Name>, nodes: &IndexMap<Name, Held>, name: &Name, change: &Change)
    requires { 0 < set.spare places.old }
    ensures names { (q : SpecName) → set.contains same_name places.new q ≡
        (set.contains same_name places.old q || (same_name name.now q &&
        (is_some change.now.node && not (is_some (map.get same_name nodes.now name.now))))) }
    ensures len { length places.new.keys ≤ length places.old.keys + 1 }
    ensures spare { set.spare places.old ≤ set.spare places.new + 1 }
{
    if change.node.is_none() {
        return;
    }
    if nodes.contains_key(name) {
        return;
    }
    match places.insert(*name) {
        Ok(_) => {}
        Err(_) => unreachable!(),
    }
}
