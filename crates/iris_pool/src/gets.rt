//! Gets: a request is asked with the get that it needs, a get is given up, and what it brings is kept.

ghost use Rattle.std.specs.Prelude.{◌≡◌, ◌≤◌, ℕ, List, [], Some, None, IsSome, OnOk, OnErr, false, true};
ghost use Rattle.iris_blocks.specs.Held.{pinned_page};
ghost use Rattle.iris_blocks.specs.Paged.{PageUpdates, has_page_room, held_page};
ghost use Rattle.iris_cache.specs.Held.{pinned_node};
ghost use Rattle.iris_cache.specs.Resident.{Updates, has_room, held_node};
ghost use Rattle.iris_desk.specs.AtDesks.{out_for, out_of};
ghost use Rattle.iris_invariant.specs.Agrees.{Out as SeenOut};
ghost use Rattle.iris_invariant.specs.Events.{Brought, Withdrawn};
ghost use Rattle.iris_name.specs.declared.name.Name.{Name as SpecName};
ghost use Rattle.iris_name.specs.Names.{same_name};
ghost use Rattle.iris_node.specs.Nodes.{name_of};
ghost use Rattle.iris_pool.specs.Changes.{AskedFor, HoldsAlike, IsDoing, IsIdle, NodeComes, PageComes};
ghost use Rattle.iris_pool.specs.Parts.{IsComeNode, IsComePage};
ghost use Rattle.iris_pool.specs.Pool.{IsAbsentIn};
ghost use Rattle.iris_pool.specs.View.{out_seen, pool_view};

use crate::by_name::{finish, finish_node, finish_page, give_place_up, make_place};
use crate::pool::Pool;
use crate::seats;
use iris_blocks::Blocks;
use iris_cache::Cache;
use iris_desk::{Doing, Out};
use iris_name::{Expect, FileId, Name, NoMemory, Page, Request};
use iris_node::Node;

impl Pool {
    /// Keeps the request of a caller for whom nothing is out, in place of an older one, and begins the get of an absent name that it
    /// needs, with an empty place for what it brings: both, or neither.
    pub fn ask_for(
        &mut self,
        who: u32,
        request: Request,
        name: &Name,
        since: u64,
        expect: Expect,
    ) -> Result<(), NoMemory>
        requires caller { who ≤ 16 }
        requires idle { IsIdle self.old.desks who }
        requires free { out_of self.old.desks name.now ≡ None }
        requires absent { IsAbsentIn self.old name.now }
        ensures began { OnOk result
            (AskedFor who request name.now since expect self.old self.new) }
        ensures nodes { self.new.nodes.nodes ≡ self.old.nodes.nodes }
        ensures pages { self.new.pages.pages ≡ self.old.pages.pages }
        ensures err { OnErr result (self.new.desks ≡ self.old.desks) }
    {
        make_place(&mut self.cache, &mut self.blocks, name)?;
        let out = Out {
            doing: Doing::Get,
            name: *name,
            since,
            expect: Some(expect),
            crowded: false,
            record: None,
            touched: false,
        };
        match seats::ask_for(&mut self.desks, who, request, out) {
            Ok(()) => Ok(()),
            Err(NoMemory) => {
                give_place_up(&mut self.cache, &mut self.blocks, name);
                Err(NoMemory)
            }
        }
    }

    /// What is out for a name at a caller's desk is given up, or is a get that brings nothing. All else of the name stays.
    pub fn withdraw(&mut self, who: u32, name: &Name)
        requires caller { who ≤ 16 }
        requires out { IsSome (out_for self.old.desks who name.now) }
        ensures withdrawn { (key : List ℕ) →
            Withdrawn name.now (pool_view key self.old) (pool_view key self.new) }
        ensures alike { HoldsAlike self.old self.new }
    {
        seats::end(&mut self.desks, who, name, false);
        give_place_up(&mut self.cache, &mut self.blocks, name);
        finish(&mut self.cache, &mut self.blocks, name, false);
    }

    /// A get brings a node, which is kept for its caller: it comes where it is absent and untouched. What is cached is pinned.
    pub fn keep_node(&mut self, who: u32, parent: Option<Name>, node: Node)
        requires caller { who ≤ 16 }
        requires out { IsDoing self.old.desks who (name_of node) Doing.Get }
        ensures brought { (key : List ℕ) (o : SeenOut) →
            out_seen key self.old.desks (name_of node) ≡ Some o →
            Brought (name_of node) o (pool_view key self.old) (pool_view key self.new) }
        ensures comes { (o : SeenOut) → IsAbsentIn self.old (name_of node) →
            out_seen [] self.old.desks (name_of node) ≡ Some o → o.touched ≡ false →
            NodeComes self.old self.new who parent (name_of node) node }
        ensures stays { (o : SeenOut) → out_seen [] self.old.desks (name_of node) ≡ Some o →
            (IsAbsentIn self.old (name_of node) → o.touched ≡ true) →
            HoldsAlike self.old self.new }
        ensures pages { self.new.pages.pages ≡ self.old.pages.pages }
    {
        let name = node.name();
        let out = seats::end(&mut self.desks, who, &name, true);
        finish_node(&mut self.cache, &name, false);
        bring_node(&mut self.cache, parent, node, who, out.touched);
    }

    /// A get brings the page of a block in this version, which is kept for its caller: it comes where it is absent and untouched. What is
    /// resident is pinned.
    pub fn keep_page(&mut self, who: u32, file: FileId, place: u32, version: u64, page: Page)
        requires caller { who ≤ 16 }
        requires out { IsDoing self.old.desks who (Name.Block file place) Doing.Get }
        ensures brought { (key : List ℕ) (o : SeenOut) →
            out_seen key self.old.desks (Name.Block file place) ≡ Some o →
            Brought (Name.Block file place) o (pool_view key self.old) (pool_view key self.new) }
        ensures comes { (o : SeenOut) → IsAbsentIn self.old (Name.Block file place) →
            out_seen [] self.old.desks (Name.Block file place) ≡ Some o → o.touched ≡ false →
            PageComes self.old self.new who (Name.Block file place) version page }
        ensures stays { (o : SeenOut) →
            out_seen [] self.old.desks (Name.Block file place) ≡ Some o →
            (IsAbsentIn self.old (Name.Block file place) → o.touched ≡ true) →
            HoldsAlike self.old self.new }
        ensures nodes { self.new.nodes.nodes ≡ self.old.nodes.nodes }
    {
        let name = Name::Block { file, place };
        let out = seats::end(&mut self.desks, who, &name, true);
        finish_page(&mut self.blocks, file, place, false);
        bring_page(
            &mut self.blocks,
            file,
            place,
            version,
            page,
            who,
            out.touched,
        );
    }
}

// A node comes where it is absent and untouched. What is cached is pinned.
fn bring_node(cache: &mut Cache, parent: Option<Name>, node: Node, who: u32, touched: bool)
    requires caller { who ≤ 16 }
    requires place { held_node cache.old (name_of node) ≡ None → touched ≡ false →
        has_room cache.old (name_of node) ≡ true }
    ensures pinned { IsSome (held_node cache.old (name_of node)) →
        Updates cache.old cache.new (name_of node) (pinned_node who) }
    ensures passed { held_node cache.old (name_of node) ≡ None → touched ≡ true →
        cache.new.nodes ≡ cache.old.nodes }
    ensures comes { held_node cache.old (name_of node) ≡ None → touched ≡ false →
        IsComeNode cache.old cache.new who parent (name_of node) node }
    ensures places { (q : SpecName) → same_name (name_of node) q ≡ false →
        has_room cache.new q ≡ has_room cache.old q }
{
    let name = node.name();
    if cache.find(&name).is_some() {
        cache.pin(&name, who);
    } else if touched {
        cache.no_room(&name);
    } else {
        cache.insert(parent, node, who);
    }
}

// A page comes where its block is absent and untouched. What is resident is pinned.
fn bring_page(
    blocks: &mut Blocks,
    file: FileId,
    place: u32,
    version: u64,
    page: Page,
    who: u32,
    touched: bool,
)
    requires caller { who ≤ 16 }
    requires place { held_page blocks.old (Name.Block file place) ≡ None → touched ≡ false →
        has_page_room blocks.old (Name.Block file place) ≡ true }
    ensures pinned { IsSome (held_page blocks.old (Name.Block file place)) →
        PageUpdates blocks.old blocks.new (Name.Block file place) (pinned_page who) }
    ensures passed { held_page blocks.old (Name.Block file place) ≡ None → touched ≡ true →
        blocks.new.pages ≡ blocks.old.pages }
    ensures comes { held_page blocks.old (Name.Block file place) ≡ None → touched ≡ false →
        IsComePage blocks.old blocks.new who (Name.Block file place) version page }
    ensures places { (q : SpecName) → same_name (Name.Block file place) q ≡ false →
        has_page_room blocks.new q ≡ has_page_room blocks.old q }
{
    if blocks.held(file, place).is_some() {
        blocks.pin(file, place, who);
    } else if touched {
        blocks.no_room(file, place);
    } else {
        blocks.insert(file, place, version, page, who);
    }
}
