//! What can go leaves the pool.

ghost use Rattle.std.specs.Prelude.{◌≡◌, ◌↔◌, ℕ, List, Some, None, IsTrue, IfSome, IfNone};
ghost use Rattle.std.specs.List.{list_any};
ghost use Rattle.iris_cache.specs.Idle.{is_free};
ghost use Rattle.iris_cache.specs.Pictures.{Holds};
ghost use Rattle.iris_cache.specs.Resident.{held_node};
ghost use Rattle.iris_invariant.specs.Events.{Evicted};
ghost use Rattle.iris_name.specs.declared.name.Name.{Name as SpecName};
ghost use Rattle.iris_name.specs.Names.{same_name};
ghost use Rattle.iris_pool.specs.Changes.{NodeGoes, PageGoes};
ghost use Rattle.iris_pool.specs.Going.{CanLeave, IsParentOf, IsParentOfAny, IsUsedAs, PageCanLeave};
ghost use Rattle.iris_pool.specs.View.{pool_view};
ghost use Rattle.iris_upkeep.specs.Children.{HasHash};

use crate::pool::Pool;
use iris_desk::{CALLERS, Doing, Out};
use iris_name::{FileId, Name};
use iris_node::Node;
use iris_upkeep::children_of;

impl Pool {
    /// A node that can leave does. It looks at no more idle nodes than one more than twice as many as there are names out.
    pub fn evict_node(&mut self) -> Option<Name>
        ensures could { IfSome result (CanLeave self.old) }
        ensures goes { IfSome result (NodeGoes self.old self.new) }
        ensures evicted { IfSome result (λ n. (key : List ℕ) →
            Evicted n (pool_view key self.old) (pool_view key self.new)) }
        ensures pages { self.new.pages ≡ self.old.pages }
        ensures desks { self.new.desks ≡ self.old.desks }
        ensures same { IfNone result (self.new ≡ self.old) }
        ensures none { IfNone result ((n : SpecName) → CanLeave self.old n → ⊥) }
    {
        self.cache.sound();
        let name = self.idle_node()?;
        match self.cache.evict(&name) {
            Ok(_) => Some(name),
            Err(_) => unreachable!(),
        }
    }

    /// A block that can leave does.
    pub fn evict_page(&mut self) -> Option<Name>
        ensures could { IfSome result (PageCanLeave self.old) }
        ensures goes { IfSome result (PageGoes self.old self.new) }
        ensures evicted { IfSome result (λ n. (key : List ℕ) →
            Evicted n (pool_view key self.old) (pool_view key self.new)) }
        ensures nodes { self.new.nodes ≡ self.old.nodes }
        ensures desks { self.new.desks ≡ self.old.desks }
        ensures same { IfNone result (self.new ≡ self.old) }
        ensures none { IfNone result ((n : SpecName) → PageCanLeave self.old n → ⊥) }
    {
        let (file, place) = self.idle_page()?;
        match self.blocks.evict(file, place) {
            Ok(_) => Some(Name::Block { file, place }),
            Err(_) => unreachable!(),
        }
    }

    // A node that can leave.
    fn idle_node(&self) -> Option<Name>
        ensures some { IfSome result (CanLeave self.now) }
        ensures none { IfNone result ((n : SpecName) → CanLeave self.now n → ⊥) }
    {
        match self.cache.idle() {
            Some(names) => self.idle_of(names),
            None => self.any_idle_node(),
        }
    }

    // The first of these names, which all can go, that isn't in use.
    fn idle_of(&self, names: &[Name]) -> Option<Name>
        requires { (q : SpecName) →
            list_any (same_name q) names.now ≡ is_free (held_node self.now.nodes q) }
        ensures some { IfSome result (CanLeave self.now) }
        ensures none { IfNone result ((n : SpecName) → CanLeave self.now n → ⊥) }
    {
        for name in names {
            if self.can_leave(name) {
                return Some(*name);
            }
        }
        None
    }

    // A node that can leave, by a pass over all that is cached.
    fn any_idle_node(&self) -> Option<Name>
        ensures some { IfSome result (CanLeave self.now) }
        ensures none { IfNone result ((n : SpecName) → CanLeave self.now n → ⊥) }
    {
        for i in 0..self.cache.count() {
            let (name, _) = self.cache.at(i);
            if self.can_leave(name) {
                return Some(*name);
            }
        }
        None
    }

    // Whether a name is cached and can leave.
    fn can_leave(&self, name: &Name) -> bool
        ensures { IsTrue result ↔ CanLeave self.now name.now }
    {
        let held = match self.cache.find(name) {
            Some(held) => held,
            None => return false,
        };
        if !held.is_free() {
            return false;
        }
        !self.is_in_use(name, &held.node)
    }

    // A block that can leave.
    fn idle_page(&self) -> Option<(FileId, u32)>
        ensures some { IfSome result (λ b. PageCanLeave self.now (Name.Block b.0 b.1)) }
        ensures none { IfNone result ((n : SpecName) → PageCanLeave self.now n → ⊥) }
    {
        self.blocks.sound();
        let (first, end) = self.blocks.idle();
        for i in first..end {
            let (file, place, _) = self.blocks.at(i);
            if self.desks.holder(&Name::Block { file, place }).is_none() {
                return Some((file, place));
            }
        }
        None
    }

    // Whether something is out for a name, or its node holds a hash of one that is being fetched.
    fn is_in_use(&self, name: &Name, node: &Node) -> bool
        ensures { IsTrue result ↔ IsUsedAs self.now.desks name.now node.now }
    {
        self.desks.sound();
        if self.desks.holder(name).is_some() {
            return true;
        }
        for who in 0..CALLERS as u32 {
            if is_parent_of_any(node, self.desks.desk(who).outs()) {
                return true;
            }
        }
        false
    }
}

// Whether a node holds a hash of a name that one of these fetches.
fn is_parent_of_any(node: &Node, outs: &[Out]) -> bool
    ensures { IsTrue result ↔ IsParentOfAny node.now outs.now }
{
    for out in outs {
        if is_parent_of(node, out) {
            return true;
        }
    }
    false
}

// Whether a node holds a hash of a name that this fetches.
fn is_parent_of(node: &Node, out: &Out) -> bool
    ensures { IsTrue result ↔ IsParentOf node.now out.now }
{
    match out.doing {
        Doing::Get => is_child(node, &out.name),
        Doing::Put | Doing::Discard | Doing::Settle => false,
    }
}

// Whether a node holds a hash of a name.
fn is_child(node: &Node, name: &Name) -> bool
    ensures { IsTrue result ↔ HasHash (Holds node.now name.now) }
{
    let children = children_of(node);
    if is_name(children.left, name) {
        return true;
    }
    if is_name(children.right, name) {
        return true;
    }
    is_name(children.top, name)
}

// Whether a child is there and has this name.
fn is_name(child: Option<Name>, name: &Name) -> bool
    ensures { IsTrue result ↔ (child ≡ Some name.now) }
{
    match child {
        Some(child) => child == *name,
        None => false,
    }
}
