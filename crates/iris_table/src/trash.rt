//! Rows into the trash, and out of it.

ghost use Rattle.std.specs.Prelude.{◌≡◌, ◌≤◌, ◌<◌, ◌+◌, ◌-◌, ◌++◌, ℕ, List, true, false, length, take, drop, OnOk, OnErr, Some, vec_len, vec_capacity};
ghost use Rattle.iris_rows.specs.Rows.{with_row, at};
ghost use Rattle.iris_rows.specs.Changes.{reclaimed, thrown};
ghost use Rattle.iris_rows.specs.Items.{grown, IsForest, table_over};
ghost use Rattle.iris_table.specs.Stops.{after_run, first_name, IsRun, run_row, IsFreed, IsGivenUp, has_child};

use crate::rows::{room, run_len};
use crate::runs::{lift, put_in};
use iris_name::NoMemory;
use iris_rows::digits::trash_name;
use iris_rows::item::Item;
use std::alloc::Global;

// Takes a row and those inside it out, into the trash under its own name.
pub(crate) fn throw(
    alloc: Global,
    visible: &mut Vec<Item>,
    place: usize,
    trash: &mut Vec<Item>,
) -> Result<(), NoMemory>
    requires within { place < vec_len visible.old }
    requires forest { IsForest visible.old.items }
    ensures left { OnOk result (visible.new.items ≡
        take place visible.old.items ++ after_run (drop place visible.old.items)) }
    ensures trash { OnOk result (grown 0 trash.new.items ≡
        thrown (run_row (drop place visible.old.items)) (grown 0 trash.old.items)) }
    ensures err { OnErr result ((visible.new.items ≡ visible.old.items) ×
        (trash.new.items ≡ trash.old.items)) }
    ensures spare { OnOk result (vec_len visible.new + 1 ≤ vec_capacity visible.new) }
    ensures kept { IsForest visible.new.items }
    ensures forest { IsForest trash.old.items → IsForest trash.new.items }
{
    let item = &visible[place];
    let name = trash_name(alloc, item.id)?;
    trash.reserve(run_len(visible.as_slice(), place))?;
    let run = lift(visible, place, 0, name)?;
    put_in_trash(trash, run);
    Ok(())
}

// Puts a run into the trash, by the name of its first row. There is room for it.
fn put_in_trash(trash: &mut Vec<Item>, run: Vec<Item>)
    requires run { IsRun 0 (first_name run.items) run.items }
    requires spare { vec_len trash.old + vec_len run ≤ vec_capacity trash.old }
    ensures rows { grown 0 trash.new.items ≡
        with_row (first_name run.items) (run_row run.items) (grown 0 trash.old.items) }
    ensures forest { IsForest trash.old.items → IsForest trash.new.items }
{
    let at = room(trash.as_slice(), 0, 0, &run[0].name);
    put_in(trash, at, run);
}

/// One step of reclaiming: the first row of the trash is given up, its file is freed in part, or what stands first
/// inside it moves into the trash under its own name.
pub fn reclaim(alloc: Global, trash: &mut Vec<Item>) -> Result<(), NoMemory>
    requires { IsForest trash.old.items }
    ensures ok { OnOk result ((visible : List Item) (next age : ℕ) →
        table_over visible trash.new.items next age ≡
        reclaimed (table_over visible trash.old.items next age) (grown 0 trash.old.items)) }
    ensures err { OnErr result (trash.new.items ≡ trash.old.items) }
    ensures forest { IsForest trash.new.items }
{
    if trash.is_empty() {
        return Ok(());
    }
    if has_child(trash.as_slice()) {
        return throw_first(alloc, trash);
    }
    if free_first(trash.as_mut_slice()) {
        return Ok(());
    }
    trash.remove(0);
    Ok(())
}

// Whether a row stands inside the first.
fn has_child(trash: &[Item]) -> bool
    ensures { result ≡ has_child trash.now }
{
    trash.len() > 1 && trash[1].depth > 0
}

// Frees places of the first row's file, where it has one with places to be freed.
fn free_first(trash: &mut [Item]) -> bool
    requires { 0 < length trash.old }
    ensures freed { result ≡ true → IsFreed trash.old trash.new }
    ensures left { result ≡ false → (trash.new ≡ trash.old) × IsGivenUp trash.old }
{
    match &mut trash[0].file {
        Some(file) if !file.is_free() => {
            file.free();
            true
        }
        _ => false,
    }
}

// Moves what stands first inside the first row into the trash under its own name.
fn throw_first(alloc: Global, trash: &mut Vec<Item>) -> Result<(), NoMemory>
    requires forest { IsForest trash.old.items }
    requires within { has_child trash.old.items ≡ true }
    ensures ok { OnOk result (grown 0 trash.new.items ≡ thrown (run_row (drop 1 trash.old.items))
        (grown 0 (take 1 trash.old.items ++ after_run (drop 1 trash.old.items)))) }
    ensures err { OnErr result (trash.new.items ≡ trash.old.items) }
    ensures kept { IsForest trash.new.items }
{
    let name = trash_name(alloc, trash[1].id)?;
    let run = lift(trash, 1, 0, name)?;
    put_in_trash(trash, run);
    Ok(())
}
