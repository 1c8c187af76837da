//! The desks of all callers, and the doomed names.

ghost use Rattle.std.specs.Prelude.{ℕ, ◌≡◌, ◌≤◌, ◌<◌, ◌+◌, ◌&&◌, true, false, Some, None, IfSome, IfNone, IfOk, OnSome, OnOk, OnErr, count_by, length, map, replicate, if◌then◌else◌};
ghost use Rattle.std.specs.Option.{option_copied, option_map};
ghost use Rattle.std.specs.List.{IsDistinct};
ghost use Rattle.iris_history.specs.Kept.{is_block};
ghost use Rattle.iris_name.specs.Names.{same_name};
ghost use Rattle.iris_name.specs.declared.name.Name.{Name as SpecName};
ghost use Rattle.iris_desk.specs.Outs.{FitsDoing};
ghost use Rattle.iris_desk.specs.AtDesk.{empty_desk, asked_desk, entered_desk, begun_desk, ended_desk, touched_desk};
ghost use Rattle.iris_desk.specs.AtDesks.{desk_at, asked_by, out_for, out_of, is_doomed, ChangesDesk, AreDesksSound};

use crate::desk::Desk;
use crate::out::Out;
use indexmap::IndexSet;
use iris_name::{Name, NoMemory, Request};
use std::alloc::Global;
use std::marker::Model;

/// How many callers there are, each with a desk.
pub const CALLERS: usize = 17;

/// The desks of all callers, and the doomed names. A call with a name that looks for its desk looks at all desks.
#[derive(Drop)]
pub struct Desks {
    desks: Vec<Desk>,
    doomed: IndexSet<Name>,
    // How many of `doomed` are blocks.
    doomed_blocks: usize,
    // How many names more are sure to fit into `doomed`.
    room: u32,
}

impl Model for Desks {
    ghost use Rattle.iris_desk.specs.AtDesks.{DesksState, AreDesksKept};
    ghost use Rattle.indexmap.specs.IndexSet.{spare};

    ghost Value = { DesksState };

    ghost view = { λ a.
        record { desks = a.desks.items; doomed = a.doomed.keys; room = a.room } };

    ghost invariant = { λ a. AreDesksKept
        (record { desks = a.desks.items; doomed = a.doomed.keys; room = a.room })
        (spare a.doomed) a.doomed_blocks };
}

impl Desks {
    /// Nothing is asked, out, kept or doomed.
    pub fn new(alloc: Global) -> Result<Desks, NoMemory>
        ensures desks { IfOk result (λ d. d.desks ≡ replicate CALLERS empty_desk) }
        ensures doomed { IfOk result (λ d. (q : SpecName) → is_doomed d q ≡ false) }
    {
        let desks = empty_desks(alloc)?;
        Ok(Desks {
            desks,
            doomed: IndexSet::new(alloc),
            doomed_blocks: 0,
            room: 0,
        })
    }

    /// What all desks keep.
    pub fn sound(&self)
        ensures { AreDesksSound self.now }
    {
        let _ = &self.desks;
    }

    /// A caller's desk.
    pub fn desk(&self, who: u32) -> &Desk
        requires { who ≤ 16 }
        ensures { desk_at self.now who ≡ Some result.now }
    {
        &self.desks[who as usize]
    }

    /// The caller at whose desk something is out for a name. `begin` may be called where there is none.
    pub fn holder(&self, name: &Name) -> Option<u32>
        ensures answer { result ≡ option_map (λ p. p.0) (out_of self.now name.now) }
        ensures caller { IfSome result (λ who. who ≤ 16) }
        ensures free { IfNone result (out_of self.now name.now ≡ None) }
    {
        let (who, _) = self.found(name)?;
        Some(who)
    }

    /// What is out for a name, at whichever desk.
    pub fn out(&self, name: &Name) -> Option<&Out>
        ensures answer { option_copied result ≡ option_map (λ p. p.1) (out_of self.now name.now) }
        ensures fits { IfSome result (λ o. FitsDoing o.now) }
    {
        let (_, out) = self.found(name)?;
        Some(out)
    }

    // What is out for a name, with its caller.
    fn found(&self, name: &Name) -> Option<(u32, &Out)>
        ensures answer { option_map (λ p. (p.0, p.1.now)) result ≡ out_of self.now name.now }
        ensures caller { IfSome result (λ p. p.0 ≤ 16) }
        ensures fits { IfSome result (λ p. FitsDoing p.1.now) }
    {
        for (who, desk) in self.desks.iter().enumerate() {
            if let Some(out) = desk.out(name) {
                return Some((who as u32, out));
            }
        }
        None
    }

    /// Keeps a caller's request, in place of an older one.
    pub fn ask(&mut self, who: u32, request: Request)
        requires { who ≤ 16 }
        ensures desks { ChangesDesk self.old self.new who (asked_desk request) }
        ensures doomed { self.new.doomed ≡ self.old.doomed }
        ensures room { self.new.room ≡ self.old.room }
    {
        let desk = &mut self.desks[who as usize];
        desk.ask(request);
    }

    /// Hands a caller's request out. No name is kept at this desk then. It costs the most names that were ever kept at once here.
    pub fn enter(&mut self, who: u32) -> Option<Request>
        requires { who ≤ 16 }
        ensures answer { result ≡ asked_by self.old who }
        ensures desks { ChangesDesk self.old self.new who entered_desk }
        ensures doomed { self.new.doomed ≡ self.old.doomed }
        ensures room { self.new.room ≡ self.old.room }
    {
        let desk = &mut self.desks[who as usize];
        desk.enter()
    }

    /// Something begins for a caller, with room to keep its name when it ends.
    pub fn begin(&mut self, who: u32, out: Out) -> Result<(), NoMemory>
        requires caller { who ≤ 16 }
        requires free { out_of self.old out.name ≡ None }
        requires fits { FitsDoing out }
        requires untouched { out.touched ≡ false }
        ensures desks { OnOk result (ChangesDesk self.old self.new who (begun_desk out)) }
        ensures doomed { self.new.doomed ≡ self.old.doomed }
        ensures room { self.new.room ≡ self.old.room }
        ensures err { OnErr result (self.new ≡ self.old) }
    {
        let desk = &mut self.desks[who as usize];
        desk.begin(out)?;
        Ok(())
    }

    /// What is out for a name at a caller's desk ends. With `keep` the name is kept there then. It takes no memory.
    pub fn end(&mut self, who: u32, name: &Name, keep: bool) -> Option<Out>
        requires { who ≤ 16 }
        ensures answer { result ≡ out_for self.old who name.now }
        ensures fits { IfSome result FitsDoing }
        ensures desks { OnSome result (ChangesDesk self.old self.new who
            (ended_desk keep name.now)) }
        ensures doomed { self.new.doomed ≡ self.old.doomed }
        ensures room { self.new.room ≡ self.old.room }
        ensures none { IfNone result (self.new ≡ self.old) }
    {
        let desk = &mut self.desks[who as usize];
        desk.end(name, keep)
    }

    /// Touches what is out for a name, at whichever desk.
    pub fn touch(&mut self, name: &Name)
        ensures desks { (w : ℕ) →
            desk_at self.new w ≡ option_map (touched_desk name.now) (desk_at self.old w) }
        ensures doomed { self.new.doomed ≡ self.old.doomed }
        ensures room { self.new.room ≡ self.old.room }
    {
        touch_at_each(self.desks.as_mut_slice(), name);
    }

    /// Dooms a name.
    pub fn doom(&mut self, name: &Name) -> Result<(), NoMemory>
        ensures desks { self.new.desks ≡ self.old.desks }
        ensures doomed { OnOk result ((q : SpecName) →
            is_doomed self.new q ≡ (if same_name name.now q then true else is_doomed self.old q)) }
        ensures count { OnOk result (length self.new.doomed ≡
            length self.old.doomed + (if is_doomed self.old name.now then 0 else 1)) }
        ensures room { self.old.room ≤ self.new.room + 1 }
        ensures err { OnErr result (self.new ≡ self.old) }
    {
        let new = self.doomed.insert(*name)?;
        self.doomed_blocks = with_doomed(self.doomed_blocks, &self.doomed, name, new);
        self.room = self.room.saturating_sub(1);
        Ok(())
    }

    /// Makes room to doom so many names more without memory.
    pub fn room_to_doom(&mut self, count: u32) -> Result<(), NoMemory>
        ensures desks { self.new.desks ≡ self.old.desks }
        ensures doomed { self.new.doomed ≡ self.old.doomed }
        ensures room { self.old.room ≤ self.new.room }
        ensures ok { OnOk result (count ≤ self.new.room) }
        ensures err { OnErr result (self.new ≡ self.old) }
    {
        self.doomed.reserve(count as usize)?;
        self.room = self.room.max(count);
        Ok(())
    }

    /// Dooms a name where there is room to. It takes no memory.
    pub fn doom_in_room(&mut self, name: &Name)
        requires { 0 < self.old.room }
        ensures desks { self.new.desks ≡ self.old.desks }
        ensures doomed { (q : SpecName) →
            is_doomed self.new q ≡ (if same_name name.now q then true else is_doomed self.old q) }
        ensures count { length self.new.doomed ≡
            length self.old.doomed + (if is_doomed self.old name.now then 0 else 1) }
        ensures room { self.old.room ≤ self.new.room + 1 }
    {
        match self.doomed.insert(*name) {
            Ok(new) => {
                self.doomed_blocks = with_doomed(self.doomed_blocks, &self.doomed, name, new);
                self.room -= 1;
            }
            Err(_) => unreachable!(),
        }
    }

    /// Dooms a name no longer.
    pub fn undoom(&mut self, name: &Name)
        ensures desks { self.new.desks ≡ self.old.desks }
        ensures doomed { (q : SpecName) →
            is_doomed self.new q ≡ (if same_name name.now q then false else is_doomed self.old q) }
        ensures count { length self.new.doomed +
            (if is_doomed self.old name.now then 1 else 0) ≡ length self.old.doomed }
        ensures room { self.old.room ≤ self.new.room }
    {
        let gone = self.doomed.swap_remove(name);
        self.doomed_blocks = without_undoomed(self.doomed_blocks, name, gone);
    }

    /// The doomed names, each once and in an order that is left open.
    pub fn doomed(&self) -> &[Name]
        ensures names { result.now ≡ self.now.doomed }
        ensures once { IsDistinct same_name self.now.doomed }
    {
        self.doomed.as_slice()
    }

    /// How many of the doomed names are blocks. It goes over none.
    pub fn doomed_blocks(&self) -> usize
        ensures { result ≡ count_by is_block self.now.doomed }
    {
        self.doomed_blocks
    }

    /// Whether a name is doomed, by one look-up.
    pub fn is_doomed(&self, name: &Name) -> bool
        ensures { result ≡ is_doomed self.now name.now }
    {
        self.doomed.contains(name)
    }
}

// A desk for each caller, at which nothing is.
fn empty_desks(alloc: Global) -> Result<Vec<Desk>, NoMemory>
    ensures { IfOk result (λ desks. desks.items ≡ replicate CALLERS empty_desk) }
{
    let mut desks = Vec::with_capacity(alloc, CALLERS)?;
    for made in 0..CALLERS {
        desks.push(Desk::new(alloc))?;
    }
    Ok(desks)
}

// Touches what is out for a name, at each desk.
fn touch_at_each(desks: &mut [Desk], name: &Name)
    ensures { desks.new ≡ map (touched_desk name.now) desks.old }
{
    for desk in desks.iter_mut() {
        desk.touch(name);
    }
}

// How many of the doomed names are blocks, once a name is doomed that may be new among them.
fn with_doomed(blocks: usize, doomed: &IndexSet<Name>, name: &Name, new: bool) -> usize
    requires { blocks ≤ length doomed.now.keys }
    ensures { result ≡ blocks + (if new && is_block name.now then 1 else 0) }
{
    let most = doomed.len();
    prove!(blocks <= most);
    if new && is_block(name) {
        blocks + 1
    } else {
        blocks
    }
}

// How many of the doomed names are blocks, once a name is gone that may have been one of them.
fn without_undoomed(blocks: usize, name: &Name, gone: bool) -> usize
    requires { (gone && is_block name.now) ≡ true → 0 < blocks }
    ensures { result + (if gone && is_block name.now then 1 else 0) ≡ blocks }
{
    if gone && is_block(name) {
        blocks - 1
    } else {
        blocks
    }
}

// Whether a name is of a block.
fn is_block(name: &Name) -> bool
    ensures { result ≡ is_block name.now }
{
    matches!(name, Name::Block { .. })
}
