//! One caller's desk.

ghost use Rattle.std.specs.Prelude.{◌≡◌, ◌≤◌, ◌<◌, ◌+◌, ◌↔◌, [], ◌∷◌, Some, None, IsTrue, IfSome, IfNone, OnSome, OnOk, OnErr, All, map, position, if◌then◌else◌};
ghost use Rattle.std.specs.Option.{option_copied};
ghost use Rattle.std.specs.List.{IsDistinct};
ghost use Rattle.indexmap.specs.IndexSet.{insert_key, spare, IsUnique};
ghost use Rattle.iris_name.specs.Names.{same_name};
ghost use Rattle.iris_desk.specs.Outs.{FitsDoing, task_of, out_in, touched_where};
ghost use Rattle.iris_desk.specs.AtDesk.{empty_desk, keeps_name, asked_desk, entered_desk, begun_desk, ended_desk, touched_desk, IsDeskSound};

use crate::out::{Out, Task};
use indexmap::IndexSet;
use iris_name::{Name, NoMemory, Request};
use std::alloc::Global;
use std::marker::Model;

/// What a caller asks, what is out for it, and the names that are kept for its call.
#[derive(Drop)]
pub struct Desk {
    request: Option<Request>,
    outs: Vec<Out>,
    kept: IndexSet<Name>,
}

impl Model for Desk {
    ghost use Rattle.iris_desk.specs.AtDesk.{DeskState, IsDeskKept};
    ghost use Rattle.indexmap.specs.IndexSet.{spare};

    ghost Value = { DeskState };

    ghost view = { λ a. record { request = a.request; out = a.outs.items; kept = a.kept.keys } };

    ghost invariant = { λ a. IsDeskKept
        (record { request = a.request; out = a.outs.items; kept = a.kept.keys }) (spare a.kept) };
}

impl Desk {
    /// The request that is kept here.
    pub fn request(&self) -> Option<&Request>
        ensures { option_copied result ≡ self.now.request }
    {
        self.request.as_ref()
    }

    /// What is out here, the oldest first.
    pub fn outs(&self) -> &[Out]
        ensures outs { result.now ≡ self.now.out }
        ensures fits { All FitsDoing self.now.out }
    {
        self.outs.as_slice()
    }

    /// The names that are kept here, each once.
    pub fn kept(&self) -> &[Name]
        ensures names { result.now ≡ self.now.kept }
        ensures once { IsDistinct same_name self.now.kept }
    {
        self.kept.as_slice()
    }

    /// Whether a name is kept here, by one look-up.
    pub fn keeps_name(&self, name: &Name) -> bool
        ensures { result ≡ keeps_name self.now name.now }
    {
        self.kept.contains(name)
    }

    /// Whether exactly this request is kept here.
    pub fn asks(&self, request: &Request) -> bool
        ensures { IsTrue result ↔ (self.now.request ≡ Some request.now) }
    {
        match &self.request {
            Some(kept) => kept == request,
            None => false,
        }
    }

    /// Whether nothing is out here.
    pub fn is_idle(&self) -> bool
        ensures { IsTrue result ↔ (self.now.out ≡ []) }
    {
        self.outs.is_empty()
    }

    /// Whether this is out here, and nothing else.
    pub fn holds(&self, task: &Task) -> bool
        ensures { IsTrue result ↔ (map task_of self.now.out ≡ task.now ∷ []) }
    {
        match self.outs.as_slice() {
            [out] => out.task() == *task,
            _ => false,
        }
    }
}

impl Desk {
    // Nothing is asked, out or kept.
    pub(crate) fn new(alloc: Global) -> Desk
        ensures empty { result ≡ empty_desk }
        ensures sound { IsDeskSound result }
    {
        Desk {
            request: None,
            outs: Vec::new(alloc),
            kept: IndexSet::new(alloc),
        }
    }

    // What is out for a name.
    pub(crate) fn out(&self, name: &Name) -> Option<&Out>
        ensures { option_copied result ≡ out_in self.now.out name.now }
    {
        self.outs.iter().find(|out| *name == out.name)
    }

    // Keeps a request in place of an older one.
    pub(crate) fn ask(&mut self, request: Request)
        ensures asked { self.new ≡ asked_desk request self.old }
        ensures sound { IsDeskSound self.new }
    {
        self.request = Some(request);
    }

    // Hands the request out, and keeps no name.
    pub(crate) fn enter(&mut self) -> Option<Request>
        ensures request { result ≡ self.old.request }
        ensures entered { self.new ≡ entered_desk self.old }
        ensures sound { IsDeskSound self.new }
    {
        self.kept.clear();
        self.request.take()
    }

    // Puts this last, with room to keep its name.
    pub(crate) fn begin(&mut self, out: Out) -> Result<(), NoMemory>
        requires free { out_in self.old.out out.name ≡ None }
        requires fits { FitsDoing out }
        ensures begun { OnOk result (self.new ≡ begun_desk out self.old) }
        ensures err { OnErr result (self.new ≡ self.old) }
        ensures sound { IsDeskSound self.new }
    {
        self.kept.reserve(self.outs.len() + 1)?;
        self.outs.push(out)?;
        Ok(())
    }

    // Takes what is out for a name off, and keeps the name if so wanted.
    pub(crate) fn end(&mut self, name: &Name, keep: bool) -> Option<Out>
        ensures answer { result ≡ out_in self.old.out name.now }
        ensures ended { OnSome result (self.new ≡ ended_desk keep name.now self.old) }
        ensures none { IfNone result (self.new ≡ self.old) }
        ensures fits { IfSome result FitsDoing }
        ensures sound { IsDeskSound self.new }
    {
        let place = place_of(self.outs.as_slice(), name)?;
        let out = self.outs.remove(place);
        keep_if(&mut self.kept, name, keep);
        Some(out)
    }

    // Touches what is out for a name.
    pub(crate) fn touch(&mut self, name: &Name)
        ensures { self.new ≡ touched_desk name.now self.old }
    {
        touch_all(self.outs.as_mut_slice(), name);
    }
}

// Where a list has what is out for a name.
fn place_of(outs: &[Out], name: &Name) -> Option<usize>
    ensures { result ≡ position (λ o. same_name name.now o.name) outs.now }
{
    outs.iter().position(|out| *name == out.name)
}

// Keeps a name where there is room, if so wanted.
fn keep_if(kept: &mut IndexSet<Name>, name: &Name, keep: bool)
    requires { 0 < spare kept.old }
    ensures names { kept.new.keys ≡
        (if keep then insert_key same_name kept.old.keys name.now else kept.old.keys) }
    ensures room { spare kept.old ≤ spare kept.new + 1 }
    ensures once { IsUnique same_name kept.old → IsUnique same_name kept.new }
{
    if keep {
        match kept.insert(*name) {
            Ok(_) => {}
            Err(_) => unreachable!(),
        }
    }
}

// Touches what is out for a name.
fn touch_all(outs: &mut [Out], name: &Name)
    ensures { outs.new ≡ map (touched_where name.now) outs.old }
{
    for out in outs.iter_mut() {
        out.touch(name);
    }
}
