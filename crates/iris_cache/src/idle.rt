//! The names of the resident nodes that can go.

ghost use Rattle.std.specs.Prelude.{◌≡◌, ◌≤◌, ◌||◌, ◌&&◌, None, IfSome, true, false, if◌then◌else◌};
ghost use Rattle.std.specs.List.{list_any};
ghost use Rattle.iris_name.specs.Names.{same_name};
ghost use Rattle.iris_name.specs.declared.name.Name.{Name as SpecName};
ghost use Rattle.indexmap.specs.IndexMap.{get};
ghost use Rattle.iris_cache.specs.Idle.{is_idle, is_free, is_freed_by, is_turned, CanGo};
ghost use Rattle.iris_cache.specs.Held.{points};
ghost use Rattle.iris_cache.specs.Resident.{held_node};

use crate::cache::Cache;
use crate::held::{Edited, Held};
use indexmap::{IndexMap, IndexSet};
use iris_name::{Name, NoMemory};
use std::alloc::Global;
use std::marker::Model;

#[derive(Drop)]
pub(crate) struct Idle {
    names: IndexSet<Name>,
    // Whether a name may be missing, since there wasn't memory for it.
    unsure: bool,
}

impl Model for Idle {
    ghost use Rattle.iris_cache.specs.Idle.{IdleNames};

    ghost Value = { IdleNames };

    ghost view = { λ a. record { names = a.names.keys; unsure = a.unsure } };
}

impl Idle {
    pub(crate) fn new(alloc: Global) -> Idle
        ensures names { (q : SpecName) → is_idle result q ≡ false }
        ensures sure { result.unsure ≡ false }
    {
        Idle {
            names: IndexSet::new(alloc),
            unsure: false,
        }
    }

    // Makes room for so many names in all.
    pub(crate) fn reserve(&mut self, count: usize) -> Result<(), NoMemory>
        ensures { self.new ≡ self.old }
    {
        self.names.reserve(count.saturating_sub(self.names.len()))?;
        Ok(())
    }

    // Puts a name in, or takes it out.
    pub(crate) fn file(&mut self, name: &Name, idle: bool)
        ensures unsure { self.new.unsure ≡ false → self.old.unsure ≡ false }
        ensures names { self.new.unsure ≡ false → (q : SpecName) →
            is_idle self.new q ≡ (if same_name name.now q then idle else is_idle self.old q) }
    {
        if idle {
            match self.names.insert(*name) {
                Ok(_) => {}
                Err(_) => self.unsure = true,
            }
        } else {
            self.names.swap_remove(name);
        }
    }

    // Any of the names.
    fn first(&self) -> Option<&Name>
        ensures found { IfSome result (λ n. is_idle self.now n.now ≡ true) }
        ensures none { result ≡ None → (q : SpecName) → is_idle self.now q ≡ false }
    {
        self.names.get_index(0)
    }

    // The names, unless one may be missing.
    fn sure_names(&self) -> Option<&[Name]>
        ensures names { IfSome result (λ names. names.now ≡ self.now.names) }
        ensures sure { IfSome result (λ names. self.now.unsure ≡ false) }
    {
        if self.unsure {
            return None;
        }
        Some(self.names.as_slice())
    }

    fn is_unsure(&self) -> bool
        ensures { result ≡ self.now.unsure }
    {
        self.unsure
    }
}

// After an edit, puts a name in where its node can go now, and takes it out where it can't any more.
pub(crate) fn refile(idle: &mut Idle, nodes: &IndexMap<Name, Held>, name: &Name, edited: Edited)
    ensures unsure { idle.new.unsure ≡ false → idle.old.unsure ≡ false }
    ensures names { idle.new.unsure ≡ false → (q : SpecName) →
        is_idle idle.new q ≡ (if is_turned edited && same_name name.now q
        then is_free (get same_name nodes.now q) else is_idle idle.old q) }
{
    match edited {
        Edited::Turned => idle.file(name, is_free(nodes, name)),
        Edited::Kept | Edited::Missing => {}
    }
}

// The same for a parent, where there is one.
pub(crate) fn refile_parent(
    idle: &mut Idle,
    nodes: &IndexMap<Name, Held>,
    parent: Option<Name>,
    edited: Edited,
)
    ensures unsure { idle.new.unsure ≡ false → idle.old.unsure ≡ false }
    ensures names { idle.new.unsure ≡ false → (q : SpecName) →
        is_idle idle.new q ≡ (if is_turned edited && points parent q
        then is_free (get same_name nodes.now q) else is_idle idle.old q) }
{
    if let Some(parent) = parent {
        refile(idle, nodes, &parent, edited);
    }
}

// Whether a name is resident and its node can go.
fn is_free(nodes: &IndexMap<Name, Held>, name: &Name) -> bool
    ensures { result ≡ is_free (get same_name nodes.now name.now) }
{
    match nodes.get(name) {
        Some(held) => held.is_free(),
        None => false,
    }
}

// Puts all in that a caller's pin alone keeps.
pub(crate) fn file_freed(idle: &mut Idle, nodes: &IndexMap<Name, Held>, who: u32)
    requires { who ≤ 16 }
    ensures unsure { idle.new.unsure ≡ false → idle.old.unsure ≡ false }
    ensures names { idle.new.unsure ≡ false → (q : SpecName) →
        is_idle idle.new q ≡ (is_idle idle.old q || is_freed_by who (get same_name nodes.now q)) }
{
    for i in 0..nodes.len() {
        match nodes.get_index(i) {
            Some((name, held)) => file_where(idle, name, held.is_freed_by(who)),
            None => unreachable!(),
        }
    }
}

// Puts a name in, if it is freed.
fn file_where(idle: &mut Idle, name: &Name, freed: bool)
    ensures unsure { idle.new.unsure ≡ false → idle.old.unsure ≡ false }
    ensures names { idle.new.unsure ≡ false → (q : SpecName) →
        is_idle idle.new q ≡ (is_idle idle.old q || (same_name name.now q && freed)) }
{
    if freed {
        idle.file(name, true);
    }
}

impl Cache {
    /// A resident node that `evict` lets go, if there is one. It takes the first of a set.
    /// It goes over all that is resident only where there wasn't memory for a name of that set.
    pub fn can_go(&self) -> Option<&Name>
        ensures found { IfSome result (λ n. CanGo self.now n.now) }
        ensures none { result ≡ None → (n : SpecName) → CanGo self.now n → ⊥ }
    {
        if self.idle.is_unsure() {
            return self.any_free();
        }
        let name = self.idle.first()?;
        Some(name)
    }

    /// The names of the nodes that `evict` lets go, in an order that is left open; none where one may be missing, since there wasn't
    /// memory for it.
    pub fn idle(&self) -> Option<&[Name]>
        ensures { IfSome result (λ names. (q : SpecName) →
            list_any (same_name q) names.now ≡ is_free (held_node self.now q)) }
    {
        self.idle.sure_names()
    }

    // Any node that can go, by a pass over all that is resident.
    fn any_free(&self) -> Option<&Name>
        ensures found { IfSome result (λ n. CanGo self.now n.now) }
        ensures none { result ≡ None → (n : SpecName) → CanGo self.now n → ⊥ }
    {
        self.sound();
        for i in 0..self.count() {
            let (name, held) = self.at(i);
            if held.is_free() {
                return Some(name);
            }
        }
        None
    }
}
