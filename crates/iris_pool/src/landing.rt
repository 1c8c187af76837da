//! Drafts are made: what comes, goes and changes is marked, doomed, touched and pinned.

ghost use Rattle.std.specs.Prelude.{◌≡◌, ◌≤◌, ◌<◌, ◌+◌, ◌==◌, ◌&&◌, ℕ, OnOk, length};
ghost use Rattle.std.specs.List.{list_any};
ghost use Rattle.iris_desk.specs.AtDesks.{keeps_for};
ghost use Rattle.iris_name.specs.Names.{same_name};
ghost use Rattle.iris_pool.specs.Filing.{FilesNames, FilesNodes, FilesOne, FilesPages, PinsKept, TouchesAt, TouchesThere, is_touched_there, names_at};
ghost use Rattle.iris_pool.specs.Landing.{IsReadyFor, LandsIn};

use crate::pool::Pool;
use iris_blocks::{Blocks, PageDraft};
use iris_cache::{Cache, Draft};
use iris_desk::{CALLERS, Desks};
use iris_name::{Name, NoMemory};

impl Pool {
    /// Makes room for all that drafts set and take away.
    pub fn prepare(&mut self, draft: &Draft, pages: &PageDraft) -> Result<(), NoMemory>
        ensures ready { OnOk result (IsReadyFor self.new draft.now pages.now) }
        ensures nodes { self.new.nodes.nodes ≡ self.old.nodes.nodes }
        ensures pages { self.new.pages.pages ≡ self.old.pages.pages }
        ensures desks { self.new.desks.desks ≡ self.old.desks.desks }
        ensures doomed { self.new.desks.doomed ≡ self.old.desks.doomed }
    {
        let most = match draft.count().checked_add(pages.count()) {
            Some(most) => most,
            None => return Err(NoMemory),
        };
        self.cache.room_for(draft)?;
        self.blocks.room_for(pages)?;
        self.desks.room_to_doom(most)
    }

    /// Makes drafts for which there is room. Beside what cache and blocks do it costs a look-up for each change, for each name that is
    /// out, and for each name that is kept.
    pub fn apply(&mut self, draft: Draft, pages: PageDraft)
        requires { IsReadyFor self.old draft pages }
        ensures { LandsIn draft pages self.old self.new }
    {
        self.cache.sound();
        self.blocks.sound();
        self.desks.sound();
        draft.sound();
        pages.sound();
        file_nodes(&mut self.desks, &self.cache, &draft);
        file_pages(&mut self.desks, &self.blocks, &pages);
        self.cache.apply(draft);
        self.blocks.apply(pages);
        touch_changed(&mut self.desks, &self.cache, &self.blocks);
        pin_kept(&mut self.cache, &mut self.blocks, &self.desks);
    }
}

// Dooms the nodes that go, and dooms those that come no longer. What is out for either is touched.
fn file_nodes(desks: &mut Desks, cache: &Cache, draft: &Draft)
    requires { length draft.now.changes ≤ desks.old.room }
    ensures files { FilesNodes draft.now cache.now desks.old desks.new }
    ensures room { desks.old.room ≤ desks.new.room + length draft.now.changes }
{
    draft.sound();
    for i in 0..draft.count() {
        let (name, node) = draft.at(i);
        file_change(desks, name, cache.find(name).is_some(), node.is_some());
    }
}

// The same of pages.
fn file_pages(desks: &mut Desks, blocks: &Blocks, pages: &PageDraft)
    requires { length pages.now.changes ≤ desks.old.room }
    ensures files { FilesPages pages.now blocks.now desks.old desks.new }
    ensures room { desks.old.room ≤ desks.new.room + length pages.now.changes }
{
    pages.sound();
    for i in 0..pages.count() {
        let change = pages.at(i);
        let name = Name::Block {
            file: change.file,
            place: change.place,
        };
        let was = blocks.held(change.file, change.place).is_some();
        file_change(desks, &name, was, change.new.is_some());
    }
}

// A name that goes is doomed, one that comes isn't any more, and what is out for either is touched.
fn file_change(desks: &mut Desks, name: &Name, was: bool, is: bool)
    requires { 0 < desks.old.room }
    ensures files { FilesOne name.now was is desks.old desks.new }
    ensures room { desks.old.room ≤ desks.new.room + 1 }
{
    if was == is {
        return;
    }
    if is {
        desks.undoom(name);
    } else {
        desks.doom_in_room(name);
    }
    desks.sound();
    desks.touch(name);
}

// Touches what is out for whatever is touched where it is held.
fn touch_changed(desks: &mut Desks, cache: &Cache, blocks: &Blocks)
    ensures { TouchesThere cache.now blocks.now desks.old desks.new }
{
    desks.sound();
    for who in 0..CALLERS as u32 {
        touch_at(desks, cache, blocks, who);
    }
}

// The same at one desk.
fn touch_at(desks: &mut Desks, cache: &Cache, blocks: &Blocks, who: u32)
    requires { who ≤ 16 }
    ensures { TouchesAt who cache.now blocks.now desks.old desks.new }
{
    desks.sound();
    for i in 0..desks.desk(who).outs().len() {
        let name = desks.desk(who).outs()[i].name;
        touch_where(desks, &name, is_touched(cache, blocks, &name));
    }
}

// Touches what is out for a name, if so wanted.
fn touch_where(desks: &mut Desks, name: &Name, touched: bool)
    ensures files { FilesNames (λ q doomed. doomed) (λ q. touched && same_name name.now q)
        desks.old desks.new }
    ensures names { (w : ℕ) → names_at desks.new w ≡ names_at desks.old w }
{
    desks.sound();
    if touched {
        desks.touch(name);
    }
}

// Whether a name is held and was touched there.
fn is_touched(cache: &Cache, blocks: &Blocks, name: &Name) -> bool
    ensures { result ≡ is_touched_there cache.now blocks.now name.now }
{
    match *name {
        Name::Block { file, place } => match blocks.held(file, place) {
            Some(held) => held.touched,
            None => false,
        },
        Name::Entry { .. } | Name::Part { .. } => match cache.find(name) {
            Some(held) => held.touched,
            None => false,
        },
    }
}

// Pins what is kept and held for its callers.
fn pin_kept(cache: &mut Cache, blocks: &mut Blocks, desks: &Desks)
    ensures { PinsKept (keeps_for desks.now) cache.old cache.new blocks.old blocks.new }
{
    desks.sound();
    for who in 0..CALLERS as u32 {
        pin_all(cache, blocks, desks.desk(who).kept(), who);
    }
}

// Pins names for a caller, where they are held.
fn pin_all(cache: &mut Cache, blocks: &mut Blocks, names: &[Name], who: u32)
    requires { who ≤ 16 }
    ensures { PinsKept (λ w q. list_any (same_name q) names.now && (w == who))
        cache.old cache.new blocks.old blocks.new }
{
    for name in names {
        pin(cache, blocks, name, who);
    }
}

// Pins a name for a caller, where it is held.
fn pin(cache: &mut Cache, blocks: &mut Blocks, name: &Name, who: u32)
    requires { who ≤ 16 }
    ensures { PinsKept (λ w q. same_name q name.now && (w == who))
        cache.old cache.new blocks.old blocks.new }
{
    cache.sound();
    blocks.sound();
    match *name {
        Name::Block { file, place } => {
            if blocks.held(file, place).is_some() {
                blocks.pin(file, place, who);
            }
        }
        Name::Entry { .. } | Name::Part { .. } => {
            if cache.find(name).is_some() {
                cache.pin(name, who);
            }
        }
    }
}
