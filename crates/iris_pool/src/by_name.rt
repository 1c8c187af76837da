//! Nodes and blocks by name, whichever the name is of.

ghost use Rattle.std.specs.Prelude.{◌≡◌, ◌≤◌, ◌&&◌, IfSome, IsSome, None, OnOk, OnErr, false, not, is_some, if◌then◌else◌};
ghost use Rattle.std.specs.List.{list_any};
ghost use Rattle.iris_blocks.specs.Held.{begun_page, unpinned_page};
ghost use Rattle.iris_blocks.specs.Paged.{held_page, has_page_room, IsBlock};
ghost use Rattle.iris_cache.specs.Held.{begun_node, unpinned_node};
ghost use Rattle.iris_cache.specs.Resident.{held_node, has_room, map_if};
ghost use Rattle.iris_history.specs.Kept.{is_block};
ghost use Rattle.iris_name.specs.declared.name.Name.{Name as SpecName};
ghost use Rattle.iris_name.specs.Names.{same_name};
ghost use Rattle.iris_node.specs.Trees.{IsNodeName};
ghost use Rattle.iris_pool.specs.Parts.{BlockChanges, NodeChanges, ended_node, ended_page, is_block_at, is_node_at};

use iris_blocks::Blocks;
use iris_cache::Cache;
use iris_name::{FileId, Name, NoMemory};

// Keeps an empty place for a name, where it isn't held.
pub(crate) fn make_place(
    cache: &mut Cache,
    blocks: &mut Blocks,
    name: &Name,
) -> Result<(), NoMemory>
    ensures nodes { cache.new.nodes ≡ cache.old.nodes }
    ensures pages { blocks.new.pages ≡ blocks.old.pages }
    ensures node_places { OnOk result ((q : SpecName) → has_room cache.new q ≡
        (if is_node_at name.now q then not (is_some (held_node cache.old q))
        else has_room cache.old q)) }
    ensures page_places { OnOk result ((q : SpecName) → has_page_room blocks.new q ≡
        (if is_block_at name.now q then not (is_some (held_page blocks.old q))
        else has_page_room blocks.old q)) }
    ensures err { OnErr result (cache.new ≡ cache.old) }
    ensures err_pages { OnErr result (blocks.new ≡ blocks.old) }
{
    match *name {
        Name::Block { file, place } => blocks.room(file, place),
        Name::Entry { .. } | Name::Part { .. } => cache.room(name),
    }
}

// Gives the empty place of a name up, where it has one.
pub(crate) fn give_place_up(cache: &mut Cache, blocks: &mut Blocks, name: &Name)
    ensures nodes { cache.new.nodes ≡ cache.old.nodes }
    ensures pages { blocks.new.pages ≡ blocks.old.pages }
    ensures node_places { (q : SpecName) → has_room cache.new q ≡
        (if is_node_at name.now q then false else has_room cache.old q) }
    ensures page_places { (q : SpecName) → has_page_room blocks.new q ≡
        (if is_block_at name.now q then false else has_page_room blocks.old q) }
{
    match *name {
        Name::Block { file, place } => blocks.no_room(file, place),
        Name::Entry { .. } | Name::Part { .. } => cache.no_room(name),
    }
}

// Something begins for a name that is held.
pub(crate) fn begin_held(cache: &mut Cache, blocks: &mut Blocks, name: &Name, who: u32)
    requires caller { who ≤ 16 }
    requires node { IsNodeName name.now → IsSome (held_node cache.old name.now) }
    requires free { IsNodeName name.now →
        IfSome (held_node cache.old name.now) (λ h. h.out ≡ None) }
    requires page { IsBlock name.now → IsSome (held_page blocks.old name.now) }
    requires free_page { IsBlock name.now →
        IfSome (held_page blocks.old name.now) (λ h. h.out ≡ None) }
    ensures nodes { NodeChanges cache.old cache.new name.now (begun_node who) }
    ensures pages { BlockChanges blocks.old blocks.new name.now (begun_page who) }
    ensures node_places { cache.new.room ≡ cache.old.room }
    ensures page_places { blocks.new.room ≡ blocks.old.room }
{
    match *name {
        Name::Block { file, place } => blocks.begin(file, place, who),
        Name::Entry { .. } | Name::Part { .. } => cache.begin(name, who),
    }
}

// What is out for a name ends, as far as cache and blocks know of it.
pub(crate) fn finish(cache: &mut Cache, blocks: &mut Blocks, name: &Name, clean: bool)
    ensures nodes { NodeChanges cache.old cache.new name.now (ended_node clean) }
    ensures pages { BlockChanges blocks.old blocks.new name.now (ended_page clean) }
    ensures node_places { cache.new.room ≡ cache.old.room }
    ensures page_places { blocks.new.room ≡ blocks.old.room }
{
    match *name {
        Name::Block { file, place } => finish_page(blocks, file, place, clean),
        Name::Entry { .. } | Name::Part { .. } => finish_node(cache, name, clean),
    }
}

// The same of a node.
pub(crate) fn finish_node(cache: &mut Cache, name: &Name, clean: bool)
    ensures nodes { (q : SpecName) → held_node cache.new q ≡
        map_if (same_name name.now q) (ended_node clean) (held_node cache.old q) }
    ensures places { cache.new.room ≡ cache.old.room }
{
    match cache.find(name) {
        Some(held) if held.out.is_some() => cache.finish(name, clean),
        _ => {}
    }
}

// And of a block.
pub(crate) fn finish_page(blocks: &mut Blocks, file: FileId, place: u32, clean: bool)
    ensures pages { (q : SpecName) → held_page blocks.new q ≡
        map_if (same_name (Name.Block file place) q) (ended_page clean) (held_page blocks.old q) }
    ensures places { blocks.new.room ≡ blocks.old.room }
{
    match blocks.held(file, place) {
        Some(held) if held.out.is_some() => blocks.finish(file, place, clean),
        _ => {}
    }
}

// Takes a caller's pins off.
pub(crate) fn unpin_each(cache: &mut Cache, blocks: &mut Blocks, names: &[Name], who: u32)
    requires { who ≤ 16 }
    ensures nodes { (q : SpecName) → held_node cache.new q ≡
        map_if (not (is_block q) && list_any (same_name q) names.now)
        (unpinned_node who) (held_node cache.old q) }
    ensures pages { (q : SpecName) → held_page blocks.new q ≡
        map_if (is_block q && list_any (same_name q) names.now)
        (unpinned_page who) (held_page blocks.old q) }
    ensures node_places { cache.new.room ≡ cache.old.room }
    ensures page_places { blocks.new.room ≡ blocks.old.room }
{
    for name in names {
        unpin(cache, blocks, name, who);
    }
}

// Takes a caller's pin off a name, where it is held.
fn unpin(cache: &mut Cache, blocks: &mut Blocks, name: &Name, who: u32)
    requires { who ≤ 16 }
    ensures nodes { NodeChanges cache.old cache.new name.now (unpinned_node who) }
    ensures pages { BlockChanges blocks.old blocks.new name.now (unpinned_page who) }
    ensures node_places { cache.new.room ≡ cache.old.room }
    ensures page_places { blocks.new.room ≡ blocks.old.room }
{
    match *name {
        Name::Block { file, place } => {
            if blocks.held(file, place).is_some() {
                blocks.unpin(file, place, who);
            }
        }
        Name::Entry { .. } | Name::Part { .. } => {
            if cache.find(name).is_some() {
                cache.unpin(name, who);
            }
        }
    }
}
