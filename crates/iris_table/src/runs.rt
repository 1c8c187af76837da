//! What lies at and below a row is a run of neighbours, which is taken out and put in.

ghost use Rattle.std.specs.Prelude.{◌≡◌, ◌≤◌, ◌<◌, ◌+◌, ◌-◌, ◌^◌, ◌++◌, true, length, take, drop, map, IfOk, OnOk, OnErr, vec_len, vec_capacity};
ghost use Rattle.iris_plain.specs.Routes.{parent, last};
ghost use Rattle.iris_plain.specs.Checks.{is_directory_seen};
ghost use Rattle.iris_rows.specs.Rows.{End, with_row, at};
ghost use Rattle.iris_rows.specs.Changes.{seen_row};
ghost use Rattle.iris_rows.specs.Items.{grown, kept_file, IsForest};
ghost use Rattle.iris_table.specs.Stops.{met_in, run_length, relabelled, after_run, first_renamed, IsRun, run_row, AreWithin};

use crate::rows::{begin, room, run_len};
use iris_name::{FileId, NoMemory, Text};
use iris_rows::file::FileRow;
use iris_rows::item::Item;
use std::alloc::Global;

// Takes so many rows out, from a place on.
fn take_out(items: &mut Vec<Item>, at: usize, count: usize) -> Result<Vec<Item>, NoMemory>
    requires { at + count ≤ vec_len items.old }
    ensures taken { IfOk result (λ run. run.items ≡ take count (drop at items.old.items)) }
    ensures left { OnOk result (items.new.items ≡
        take at items.old.items ++ drop (at + count) items.old.items) }
    ensures len { IfOk result (λ run. vec_len run ≡ count) }
    ensures err { OnErr result (items.new.items ≡ items.old.items) }
    ensures capacity { vec_capacity items.new ≡ vec_capacity items.old }
{
    let before = items.len() - count;
    items.rotate_left(at + count);
    let taken = items.split_off(before);
    items.rotate_left(before - at);
    Ok(taken?)
}

// Puts rows in, before a place. There is room for them.
pub(crate) fn put_in(items: &mut Vec<Item>, at: usize, mut run: Vec<Item>)
    requires within { at ≤ vec_len items.old }
    requires spare { vec_len items.old + vec_len run ≤ vec_capacity items.old }
    ensures { items.new.items ≡ take at items.old.items ++ (run.items ++ drop at items.old.items) }
{
    let after = items.len() - at;
    items.rotate_left(at);
    items.append(&mut run).unwrap();
    items.rotate_left(after);
}

// Gives the first row of a run another name, and all of it another depth.
fn relabel(run: &mut [Item], from: usize, to: usize, name: Text)
    requires some { 0 < length run.old }
    requires depths { AreWithin from to run.old }
    ensures { run.new ≡ first_renamed name (map (relabelled from to) run.old) }
{
    for k in 0..run.len() {
        run[k].depth = run[k].depth - from + to;
    }
    run[0].name = name;
}

// Puts a run in at a path. There is room for it.
pub(crate) fn put_at(items: &mut Vec<Item>, names: &[Text], run: Vec<Item>)
    requires named { 0 < length names.now }
    requires parent { is_directory_seen
        (seen_row (met_in items.old.items (parent names.now))) ≡ true }
    requires run { IsRun (length names.now - 1) (last names.now) run.items }
    requires spare { vec_len items.old + vec_len run ≤ vec_capacity items.old }
    ensures rows { grown 0 items.new.items ≡ at (parent names.now)
        (with_row (last names.now) (run_row run.items)) (grown 0 items.old.items) }
    ensures forest { IsForest items.old.items → IsForest items.new.items }
{
    let depth = names.len() - 1;
    let from = begin(items.as_slice(), &names[..depth]);
    let at = from + room(items.as_slice(), from, depth, &names[depth]);
    put_in(items, at, run);
}

// A row of a path by itself.
pub(crate) fn leaf(
    alloc: Global,
    names: &[Text],
    id: FileId,
    file: Option<FileRow>,
) -> Result<Vec<Item>, NoMemory>
    requires { 0 < length names.now }
    ensures run { IfOk result (λ run. IsRun (length names.now - 1) (last names.now) run.items) }
    ensures row { IfOk result (λ run.
        run_row run.items ≡ record { id = id.0; file = kept_file file; inside = End }) }
    ensures len { IfOk result (λ run. vec_len run ≡ 1) }
{
    let depth = names.len() - 1;
    let name = names[depth].copy(alloc)?;
    let mut run = Vec::new(alloc);
    run.push(Item {
        depth,
        id,
        name,
        file,
    })?;
    Ok(run)
}

// Takes a row and those inside it out, for another name and another depth.
pub(crate) fn lift(
    items: &mut Vec<Item>,
    place: usize,
    to: usize,
    name: Text,
) -> Result<Vec<Item>, NoMemory>
    requires within { place < vec_len items.old }
    requires depth { to + vec_len items.old < 2 ^ 64 }
    requires forest { IsForest items.old.items }
    ensures run { IfOk result (λ run. IsRun to name run.items) }
    ensures row { IfOk result (λ run. run_row run.items ≡ run_row (drop place items.old.items)) }
    ensures left { OnOk result (items.new.items ≡
        take place items.old.items ++ after_run (drop place items.old.items)) }
    ensures count { IfOk result (λ run. vec_len run ≡ run_length (drop place items.old.items)) }
    ensures len { IfOk result (λ run. vec_len run + vec_len items.new ≡ vec_len items.old) }
    ensures err { OnErr result (items.new.items ≡ items.old.items) }
    ensures capacity { vec_capacity items.new ≡ vec_capacity items.old }
    ensures kept { IsForest items.new.items }
{
    let from = items[place].depth;
    let count = run_len(items.as_slice(), place);
    let mut run = take_out(items, place, count)?;
    relabel(run.as_mut_slice(), from, to, name);
    Ok(run)
}
