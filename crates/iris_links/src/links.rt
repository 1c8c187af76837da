//! Links from entries to entries, counted by where they lead.

ghost use Rattle.std.specs.Prelude.{◌≡◌, ◌≢◌, ◌≤◌, ◌<◌, ◌+◌, ◌-◌, ◌%◌, ◌^◌, ◌||◌, not, None, IsSome, OnOk, true, false, if◌then◌else◌};
ghost use Rattle.iris_name.specs.declared.name.FileId.{FileId as SpecId};
ghost use Rattle.iris_links.specs.Links.{same_id, linked_at, linked_count, linked_sum, AreHolders, CountsAlike, IsLinkedFrom};

use crate::linked::{Holders, Linked};
use indexmap::IndexMap;
use iris_name::{FileId, NoMemory};
use std::alloc::Global;
use std::marker::Model;

/// Counts links by the entry that they lead to. Where one link leads to an entry, the sum is the id of the entry that has it.
/// A call is one or two look-ups in a hash map.
#[derive(Drop)]
pub struct Links {
    linked: IndexMap<FileId, Linked>,
    partial: bool,
}

impl Model for Links {
    ghost use Rattle.iris_links.specs.Links.{LinkIndex};
    ghost use Rattle.indexmap.specs.IndexMap.{spare};

    ghost Value = { LinkIndex };

    ghost view = { λ a. record {
      linked = a.linked.entries;
      partial = a.partial;
      room = spare a.linked;
    } };
}

impl Links {
    /// No link is counted.
    pub fn new(alloc: Global) -> Links
        ensures counts { (q : SpecId) → linked_count result q ≡ 0 }
        ensures sums { (q : SpecId) → linked_sum result q ≡ 0 }
        ensures whole { result.partial ≡ false }
    {
        Links {
            linked: IndexMap::new(alloc),
            partial: false,
        }
    }

    /// Makes room for links to so many entries more.
    pub fn reserve(&mut self, additional: usize) -> Result<(), NoMemory>
        ensures same { CountsAlike self.old self.new }
        ensures room { OnOk result (additional ≤ self.new.room) }
        ensures kept { self.old.room ≤ self.new.room }
    {
        self.linked.reserve(additional)?;
        Ok(())
    }

    /// Which entries have a link to an entry.
    pub fn holders(&self, child: FileId) -> Holders
        ensures { AreHolders self.now child result }
    {
        if self.partial {
            return Holders::Unknown;
        }
        let linked = self.linked(child);
        match linked.count {
            0 => Holders::Nobody,
            1 => Holders::One(FileId(linked.sum)),
            _ => Holders::More,
        }
    }

    /// Counts a link to an entry. Without memory for it, the index is partial from then on.
    pub fn add(&mut self, child: FileId, holder: FileId)
        ensures partial { self.new.partial ≡ false → self.old.partial ≡ false }
        ensures whole { 1 ≤ self.old.room → linked_count self.old child + 1 < 2 ^ 64 →
            self.old.partial ≡ false → self.new.partial ≡ false }
        ensures room { self.old.room ≤ self.new.room + 1 }
        ensures counts { self.new.partial ≡ false → (q : SpecId) → linked_count self.new q ≡
            linked_count self.old q + (if same_id child q then 1 else 0) }
        ensures sums { self.new.partial ≡ false → (q : SpecId) → linked_sum self.new q ≡
            (if same_id child q then (linked_sum self.old q + holder.0) % 2 ^ 64
            else linked_sum self.old q) }
    {
        let linked = self.linked(child);
        match linked.count.checked_add(1) {
            Some(count) => self.put(child, count, linked.sum.wrapping_add(holder.0)),
            None => self.partial = true,
        }
    }

    /// Takes a link to an entry off. Where that holder's wasn't counted, the index is partial from then on.
    pub fn remove(&mut self, child: FileId, holder: FileId)
        ensures partial { self.new.partial ≡ false → self.old.partial ≡ false }
        ensures whole { IsLinkedFrom self.old child holder → self.old.partial ≡ false →
            self.new.partial ≡ false }
        ensures counts { self.new.partial ≡ false → (q : SpecId) → linked_count self.new q +
            (if same_id child q then 1 else 0) ≡ linked_count self.old q }
        ensures sums { self.new.partial ≡ false → (q : SpecId) → linked_sum self.old q ≡
            (if same_id child q then (linked_sum self.new q + holder.0) % 2 ^ 64
            else linked_sum self.new q) }
    {
        let linked = self.linked(child);
        match linked.count {
            0 => self.partial = true,
            1 => self.remove_last(child, linked.sum == holder.0),
            count => self.put(child, count - 1, linked.sum.wrapping_sub(holder.0)),
        }
    }

    // What is counted for an entry.
    fn linked(&self, child: FileId) -> Linked
        ensures count { result.count ≡ linked_count self.now child }
        ensures sum { result.sum ≡ linked_sum self.now child }
        ensures there { result.count ≢ 0 → IsSome (linked_at self.now child) }
    {
        match self.linked.get(&child) {
            Some(linked) => *linked,
            None => Linked { count: 0, sum: 0 },
        }
    }

    // Writes what is counted for an entry.
    fn put(&mut self, child: FileId, count: u64, sum: u64)
        ensures partial { self.new.partial ≡ false → self.old.partial ≡ false }
        ensures whole { IsSome (linked_at self.old child) → self.new.partial ≡ self.old.partial }
        ensures roomy { 1 ≤ self.old.room → self.new.partial ≡ self.old.partial }
        ensures room { self.old.room ≤ self.new.room + 1 }
        ensures counts { self.new.partial ≡ false → (q : SpecId) →
            linked_count self.new q ≡ (if same_id child q then count else linked_count self.old q) }
        ensures sums { self.new.partial ≡ false → (q : SpecId) →
            linked_sum self.new q ≡ (if same_id child q then sum else linked_sum self.old q) }
    {
        match self.linked.insert(child, Linked { count, sum }) {
            Ok(_) => {}
            Err(_) => self.partial = true,
        }
    }

    // Takes the last link to an entry off, if it is the holder's.
    fn remove_last(&mut self, child: FileId, own: bool)
        ensures partial { self.new.partial ≡ (self.old.partial || not own) }
        ensures gone { self.new.partial ≡ false → (q : SpecId) →
            linked_at self.new q ≡ (if same_id child q then None else linked_at self.old q) }
    {
        if own {
            self.linked.swap_remove(&child);
        } else {
            self.partial = true;
        }
    }
}
