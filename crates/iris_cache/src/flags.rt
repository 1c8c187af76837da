//! Marks, pins and what is out: changes of one resident node that leave the tree.

ghost use Rattle.std.specs.Prelude.{◌≡◌, ◌≤◌, IfSome, IsSome, None, length};
ghost use Rattle.std.specs.Option.{option_map};
ghost use Rattle.iris_name.specs.declared.name.Name.{Name as SpecName};
ghost use Rattle.iris_cache.specs.Held.{edited_node, IsFlag, pinned_node, unpinned_node, dirtied_node, begun_node, finished_node};
ghost use Rattle.iris_cache.specs.Resident.{held_node, Updates};

use crate::cache::Cache;
use crate::edits::{edit_counted, unpin_all};
use crate::held::Edit;
use crate::idle::{file_freed, refile};
use iris_name::Name;

impl Cache {
    // Makes an edit of a resident node that leaves its node, its parent and its children.
    pub(crate) fn flag(&mut self, name: &Name, change: Edit)
        requires { IsFlag change }
        ensures nodes { Updates self.old self.new name.now (edited_node change) }
        ensures room { self.new.room ≡ self.old.room }
        ensures count { length self.new.nodes ≡ length self.old.nodes }
    {
        let edited = edit_counted(&mut self.nodes, &mut self.dirty, name, change);
        refile(&mut self.idle, &self.nodes, name, edited);
    }

    /// Makes a node dirty.
    pub fn mark(&mut self, name: &Name)
        requires { IsSome (held_node self.old name.now) }
        ensures nodes { Updates self.old self.new name.now dirtied_node }
        ensures room { self.new.room ≡ self.old.room }
        ensures count { length self.new.nodes ≡ length self.old.nodes }
    {
        self.flag(name, Edit::Dirty);
    }

    /// Pins a node for a caller.
    pub fn pin(&mut self, name: &Name, who: u32)
        requires resident { IsSome (held_node self.old name.now) }
        requires caller { who ≤ 16 }
        ensures nodes { Updates self.old self.new name.now (pinned_node who) }
        ensures room { self.new.room ≡ self.old.room }
        ensures count { length self.new.nodes ≡ length self.old.nodes }
    {
        self.flag(name, Edit::Pin(who));
    }

    /// Takes a caller's pin off a node.
    pub fn unpin(&mut self, name: &Name, who: u32)
        requires resident { IsSome (held_node self.old name.now) }
        requires caller { who ≤ 16 }
        ensures nodes { Updates self.old self.new name.now (unpinned_node who) }
        ensures room { self.new.room ≡ self.old.room }
        ensures count { length self.new.nodes ≡ length self.old.nodes }
    {
        self.flag(name, Edit::Unpin(who));
    }

    /// A transfer or settling of a node begins for a caller.
    pub fn begin(&mut self, name: &Name, who: u32)
        requires free { IfSome (held_node self.old name.now) (λ h. h.out ≡ None) }
        requires resident { IsSome (held_node self.old name.now) }
        requires caller { who ≤ 16 }
        ensures nodes { Updates self.old self.new name.now (begun_node who) }
        ensures room { self.new.room ≡ self.old.room }
        ensures count { length self.new.nodes ≡ length self.old.nodes }
    {
        self.flag(name, Edit::Begin(who));
    }

    /// What is out for a node ends, cleanly or not.
    pub fn finish(&mut self, name: &Name, clean: bool)
        requires out { IfSome (held_node self.old name.now) (λ h. IsSome h.out) }
        requires resident { IsSome (held_node self.old name.now) }
        ensures nodes { Updates self.old self.new name.now (finished_node clean) }
        ensures room { self.new.room ≡ self.old.room }
        ensures count { length self.new.nodes ≡ length self.old.nodes }
    {
        self.flag(name, Edit::Finish(clean));
    }

    /// Takes all pins of a caller off.
    pub fn release(&mut self, who: u32)
        requires { who ≤ 16 }
        ensures nodes { (q : SpecName) →
            held_node self.new q ≡ option_map (unpinned_node who) (held_node self.old q) }
        ensures room { self.new.room ≡ self.old.room }
        ensures count { length self.new.nodes ≡ length self.old.nodes }
    {
        file_freed(&mut self.idle, &self.nodes, who);
        unpin_all(&mut self.nodes, who);
    }
}
