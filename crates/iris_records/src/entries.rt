//! The records of the entries of one directory.

ghost use Rattle.std.specs.Prelude.{◌≡◌, ◌≤◌, ◌<◌, ◌-◌, ◌+◌, ◌++◌, ◌∷◌, [], ℕ, List, length, map, Some, None, All, IfOk, OnOk};
ghost use Rattle.iris_node.specs.Rules.{IsBody, IsLinkToNamed};
ghost use Rattle.iris_node.specs.Unfolded.{Unfolded, hash, link_to, node_of, link_blocks};
ghost use Rattle.iris_records.specs.Shown.{Own, owns, directory, in_directory};
ghost use Rattle.iris_records.specs.Unmade.{unmade_treap};
ghost use Rattle.iris_records.specs.Pieces.{Adds};
ghost use Rattle.iris_records.specs.Walks.{IsRow, IsLevel, IsLevelOf, ArePlacesOf, at_top, placed_entry, placed, IsItem, IsRising, item_row, all_owns, told as told_of};
ghost use Rattle.iris_rows.specs.Items.{grown};
ghost use Rattle.iris_rows.specs.Sound.{times_given};

use crate::shelf::{Shelf, put_node};
use iris_mac::Keys;
use iris_name::NoMemory;
use iris_node::{Body, EntryNode, Link, Node};
use iris_rows::item::Item;
use iris_shape::{Row, Shape, treap};
use std::alloc::Global;

// What an entry says of itself, and how many blocks lie at it and inside it.
#[derive(Clone, Copy)]
pub(crate) struct Told {
    pub(crate) body: Body,
    pub(crate) blocks: u64,
}

// The rows of a directory, and what each says.
#[derive(Drop)]
struct Level {
    rows: Vec<Row>,
    told: Vec<Told>,
}

// How many blocks lie behind a link.
pub(crate) fn blocks_behind(link: &Option<Link>) -> u64
    ensures { result ≡ link_blocks link.now }
{
    match link {
        None => 0,
        Some(link) => link.blocks,
    }
}

// How many blocks lie at an entry, inside it, and behind its links.
fn blocks_at(told: &Told, left: &Option<Link>, right: &Option<Link>) -> Result<u64, NoMemory>
    ensures { IfOk result (λ n.
        n ≡ link_blocks left.now + (told.now.blocks + link_blocks right.now)) }
{
    let inside = told
        .blocks
        .checked_add(blocks_behind(right))
        .ok_or(NoMemory)?;
    blocks_behind(left).checked_add(inside).ok_or(NoMemory)
}

// The entry of a row with the entries beside it.
fn entry_node(
    alloc: Global,
    row: &Row,
    body: Body,
    left: Option<Link>,
    right: Option<Link>,
) -> Result<EntryNode, NoMemory>
    requires row { IsRow row.now }
    requires body { IsBody body }
    requires left { IsLinkToNamed left }
    requires right { IsLinkToNamed right }
    ensures { IfOk result (λ e. e ≡
        record { id = row.now.id; name = row.now.name; left = left; right = right; body = body }) }
{
    let name = row.name.copy(alloc)?;
    let _text = name.as_str();
    Ok(EntryNode {
        id: row.id,
        name,
        left,
        right,
        body,
    })
}

// Puts the record of an entry, and answers the link to it.
fn put_entry(
    alloc: Global,
    shelf: &mut Shelf,
    level: &Level,
    place: u32,
    left: Option<Link>,
    right: Option<Link>,
) -> Result<Option<Link>, NoMemory>
    requires level { IsLevel level.now }
    requires place { place < length level.now.rows.items }
    requires left { IsLinkToNamed left }
    requires right { IsLinkToNamed right }
    ensures linked { IfOk result (λ l. IsLinkToNamed l) }
    ensures link { IfOk result (λ l. (owns : List Own) (less more : Unfolded) →
        IsLevelOf owns level.now →
        left ≡ link_to less (node_of less) → right ≡ link_to more (node_of more) → l ≡
        link_to (placed_entry owns place less more) (node_of (placed_entry owns place less more))) }
    ensures puts { OnOk result ((owns : List Own) (less more : Unfolded) (key : List ℕ) →
        IsLevelOf owns level.now →
        left ≡ link_to less (node_of less) → right ≡ link_to more (node_of more) →
        Adds key (λ n. at_top n (placed_entry owns place less more)) shelf.old shelf.new) }
{
    let row = &level.rows[place as usize];
    let told = &level.told[place as usize];
    let blocks = blocks_at(told, &left, &right)?;
    let entry = entry_node(alloc, row, told.body, left, right)?;
    let hash = put_node(alloc, shelf, &Node::Entry(entry))?;
    Ok(Some(Link {
        id: row.id,
        hash,
        blocks,
    }))
}

// Puts the records of the entries of a shape, and answers the link to the topmost.
fn link_of(
    alloc: Global,
    shelf: &mut Shelf,
    level: &Level,
    shape: &Shape,
) -> Result<Option<Link>, NoMemory>
    requires level { IsLevel level.now }
    requires places { ArePlacesOf (length level.now.rows.items) (unmade_treap shape.now) }
    ensures linked { IfOk result (λ l. IsLinkToNamed l) }
    ensures link { IfOk result (λ l. (owns : List Own) →
        IsLevelOf owns level.now → l ≡ link_to (placed owns (unmade_treap shape.now))
        (node_of (placed owns (unmade_treap shape.now)))) }
    ensures puts { OnOk result ((owns : List Own) (key : List ℕ) → IsLevelOf owns level.now →
        Adds key (λ n. in_directory n (placed owns (unmade_treap shape.now))) shelf.old shelf.new) }
{
    match shape {
        Shape::Empty => Ok(None),
        Shape::Over { row, less, more } => {
            let right = link_of(alloc, shelf, level, more.get())?;
            let left = link_of(alloc, shelf, level, less.get())?;
            put_entry(alloc, shelf, level, *row, left, right)
        }
    }
}

// Puts an item's row last.
fn push_row(alloc: Global, level: &mut Level, item: &Item, told: Told) -> Result<(), NoMemory>
    requires level { IsLevel level.old }
    requires item { IsItem item.now }
    requires body { IsBody told.body }
    ensures level { OnOk result (IsLevel level.new) }
    ensures row { OnOk result (level.new.rows.items ≡
        level.old.rows.items ++ item_row item.now ∷ []) }
    ensures told { OnOk result (level.new.told.items ≡ level.old.told.items ++ told ∷ []) }
{
    let name = item.name.copy(alloc)?;
    level.rows.push(Row { id: item.id, name })?;
    level.told.push(told)?;
    Ok(())
}

// The rows at a depth among items, up to one that lies higher, with what is told of each.
fn level_of(alloc: Global, depth: usize, items: &[Item], told: &[Told]) -> Result<Level, NoMemory>
    requires same { length told.now ≡ length items.now }
    requires items { All IsItem items.now }
    requires bodies { All (λ t. IsBody t.body) told.now }
    ensures level { IfOk result (λ level. IsLevel level) }
    ensures owns { IfOk result (λ level. (order : List ℕ) →
        told.now ≡ map told_of (all_owns order items.now) →
        IsLevelOf (owns order (grown depth items.now)) level) }
{
    let mut level = Level {
        rows: Vec::new(alloc),
        told: Vec::new(alloc),
    };
    for (i, item) in items.iter().enumerate() {
        if item.depth < depth {
            return Ok(level);
        }
        if item.depth == depth {
            push_row(alloc, &mut level, item, told[i])?;
        }
    }
    Ok(level)
}

// Puts the records of a directory's entries, and answers the link to the topmost.
pub(crate) fn put_directory(
    alloc: Global,
    keys: &Keys,
    shelf: &mut Shelf,
    depth: usize,
    items: &[Item],
    told: &[Told],
) -> Result<Option<Link>, NoMemory>
    requires told { told.now ≡ map told_of (all_owns keys.now.order items.now) }
    requires items { All IsItem items.now }
    requires bodies { All (λ t. IsBody t.body) told.now }
    requires once { (i : ℕ) → times_given i (grown depth items.now) ≤ 1 }
    requires rising { IsRising (grown depth items.now) }
    ensures linked { IfOk result (λ l. IsLinkToNamed l) }
    ensures link { IfOk result (λ l. l ≡ link_to (directory keys.now.order (grown depth items.now))
        (node_of (directory keys.now.order (grown depth items.now)))) }
    ensures puts { OnOk result ((key : List ℕ) → Adds key (λ n.
        in_directory n (directory keys.now.order (grown depth items.now))) shelf.old shelf.new) }
{
    let level = level_of(alloc, depth, items, told)?;
    let shape = treap(alloc, keys, level.rows.as_slice())?;
    link_of(alloc, shelf, &level, &shape)
}
