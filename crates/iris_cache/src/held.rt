//! What the cache holds of a node.

ghost use Rattle.std.specs.Prelude.{◌≡◌, ◌≢◌, ◌≤◌, ◌<◌, ◌+◌, ◌^◌, Some, is_none};
ghost use Rattle.iris_cache.specs.Held.{IsEdit, edited_node, touched_after, stay_of, with_node};
ghost use Rattle.iris_cache.specs.Dirty.{dirty_addend};
ghost use Rattle.iris_cache.specs.Idle.{is_freed_by, is_missing};

use iris_name::{Expect, Name, NoMemory};
use iris_node::Node;

/// A resident node.
#[derive(Debug, Drop)]
pub struct Held {
    pub node: Node,
    /// The node that links to it.
    pub parent: Option<Name>,
    /// How many of its children are resident.
    pub kids: u32,
    /// Bit `who` is that caller's pin.
    pub pins: u32,
    pub dirty: bool,
    pub settled: bool,
    /// The caller for whom a transfer or settling is out.
    pub out: Option<u32>,
    /// Whether the node or one below it changed since that began.
    pub touched: bool,
}

/// Why a plan stops.
#[derive(Debug, PartialEq, Eq, Clone, Copy)]
pub enum Short {
    /// It lacks this name, whose record must show what is expected.
    Need { name: Name, expect: Expect },
    NoMemory,
}

impl From<NoMemory> for Short {
    ghost use Rattle.std.specs.Prelude.{◌≡◌};
    ghost use Rattle.iris_cache.specs.declared.held.Short.TheVariants.{NoMemory as NoRoom};

    ghost from_gives = { λ _ e. e ≡ NoRoom };

    fn from(_error: NoMemory) -> Short {
        Short::NoMemory
    }
}

/// Why a node can't go.
#[derive(Clone, Copy, Debug, PartialEq, Eq)]
pub enum Stay {
    Out,
    Dirty,
    HasKids,
    Pinned,
}

/// What befalls a resident node.
#[derive(Clone, Copy, Debug)]
pub(crate) enum Edit {
    Pin(u32),
    Unpin(u32),
    Dirty,
    Begin(u32),
    Finish(bool),
    Settled,
    Moved,
    Kid,
    Orphan,
    Adopt(Option<Name>),
}

/// What an edit of a name did.
#[derive(Clone, Copy, Debug, PartialEq, Eq)]
pub(crate) enum Edited {
    /// Nothing: the name isn't resident.
    Missing,
    /// Its node can go as before, or stays as before.
    Kept,
    /// Its node can go now and couldn't, or the other way round.
    Turned,
}

impl Edited {
    pub(crate) fn is_missing(self) -> bool
        ensures { result ≡ is_missing self }
    {
        matches!(self, Edited::Missing)
    }
}

impl Held {
    // Makes an edit.
    pub(crate) fn edit(&mut self, edit: Edit) -> Edited
        requires { IsEdit edit self.old }
        ensures node { self.new ≡ edited_node edit self.old }
        ensures there { result ≢ Edited.Missing }
        ensures same { result ≢ Edited.Turned →
            is_none (stay_of self.new) ≡ is_none (stay_of self.old) }
    {
        let was = self.is_free();
        self.make(edit);
        if self.is_free() == was {
            Edited::Kept
        } else {
            Edited::Turned
        }
    }

    // Makes an edit, with the count of the dirty nodes, of which it may be one.
    pub(crate) fn edit_counted(&mut self, edit: Edit, dirty: &mut usize) -> Edited
        requires edit { IsEdit edit self.old }
        requires counted { dirty_addend (Some self.old) ≤ dirty.old }
        requires few { dirty.old < 2 ^ 32 }
        ensures node { self.new ≡ edited_node edit self.old }
        ensures dirty { dirty.new + dirty_addend (Some self.old) ≡
            dirty.old + dirty_addend (Some self.new) }
        ensures same { result ≢ Edited.Turned →
            is_none (stay_of self.new) ≡ is_none (stay_of self.old) }
    {
        *dirty -= usize::from(self.dirty);
        let edited = self.edit(edit);
        *dirty += usize::from(self.dirty);
        edited
    }

    fn make(&mut self, edit: Edit)
        requires { IsEdit edit self.old }
        ensures { self.new ≡ edited_node edit self.old }
    {
        match edit {
            Edit::Pin(who) => self.pins |= 1 << who,
            Edit::Unpin(who) => self.pins &= !(1 << who),
            Edit::Dirty => self.dirty = true,
            Edit::Begin(who) => {
                self.out = Some(who);
                self.touched = false;
            }
            Edit::Finish(clean) => {
                self.out = None;
                self.dirty = self.dirty && !(clean && self.settled && !self.touched);
            }
            Edit::Settled => self.settled = true,
            Edit::Moved => {
                self.dirty = true;
                self.settled = false;
                self.touched = touches(self.out, self.touched);
            }
            Edit::Kid => self.kids += 1,
            Edit::Orphan => self.kids -= 1,
            Edit::Adopt(parent) => self.parent = parent,
        }
    }

    // Gives it another node.
    pub(crate) fn renew(&mut self, node: Node)
        ensures { self.new ≡ with_node node self.old }
    {
        self.node = node;
    }

    // Its node, alone.
    pub(crate) fn into_node(self) -> Node
        ensures { result ≡ self.node }
    {
        self.node
    }

    // Why it can't go, if so.
    pub(crate) fn stay(&self) -> Option<Stay>
        ensures { result ≡ stay_of self.now }
    {
        self.stay_with(self.pins)
    }

    // Why it can't go with these pins, if so.
    fn stay_with(&self, pins: u32) -> Option<Stay>
        ensures { result ≡ stay_of (record self.now { pins = pins }) }
    {
        if self.out.is_some() {
            return Some(Stay::Out);
        }
        if self.dirty {
            return Some(Stay::Dirty);
        }
        if self.kids > 0 {
            return Some(Stay::HasKids);
        }
        if pins > 0 {
            return Some(Stay::Pinned);
        }
        None
    }

    /// Whether nothing keeps it: `evict` would let it go.
    pub fn is_free(&self) -> bool
        ensures { result ≡ is_none (stay_of self.now) }
    {
        self.stay().is_none()
    }

    // Whether a caller's pin alone keeps it.
    pub(crate) fn is_freed_by(&self, who: u32) -> bool
        requires { who ≤ 16 }
        ensures { result ≡ is_freed_by who (Some self.now) }
    {
        !self.is_free() && self.stay_with(self.pins & !(1 << who)).is_none()
    }
}

// Whether it counts as touched after a change.
fn touches(out: Option<u32>, touched: bool) -> bool
    ensures { result ≡ touched_after out touched }
{
    match out {
        Some(_) => true,
        None => touched,
    }
}
