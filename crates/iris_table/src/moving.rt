//! Changes of the rows in preorder, by path.

ghost use Rattle.std.specs.Prelude.{◌≡◌, ◌≤◌, ◌<◌, ◌+◌, ◌-◌, ◌^◌, ℕ, List, true, false, length, is_some, OnOk, OnErr, Some, vec_len, vec_capacity};
ghost use Rattle.iris_plain.specs.Routes.{parent, last, is_front};
ghost use Rattle.iris_plain.specs.Checks.{is_directory_seen, is_file, is_there};
ghost use Rattle.iris_rows.specs.Rows.{File, End, with_row, at, file_at, empty_file};
ghost use Rattle.iris_rows.specs.FileChanges.{file_written, cut};
ghost use Rattle.iris_rows.specs.Changes.{removed, row_moved, emptied, seen_row};
ghost use Rattle.iris_rows.specs.Items.{grown, kept_file, IsForest, table_over};
ghost use Rattle.iris_rows.specs.Places.{StoredPlaces, file_of};
ghost use Rattle.iris_rows.specs.Sound.{IsDistinct};
ghost use Rattle.iris_table.specs.Stops.{met_in, file_met, IsFiled};

use crate::rows::{Stop, resolve, room};
use crate::runs::{leaf, lift, put_at};
use crate::trash::throw;
use iris_name::{FileId, NoMemory, Text};
use iris_rows::file::FileRow;
use iris_rows::item::Item;
use std::alloc::Global;

/// Puts a new row in at a path.
pub fn insert(
    alloc: Global,
    items: &mut Vec<Item>,
    names: &[Text],
    id: FileId,
    file: Option<FileRow>,
) -> Result<(), NoMemory>
    requires named { 0 < length names.now }
    requires parent { is_directory_seen
        (seen_row (met_in items.old.items (parent names.now))) ≡ true }
    ensures ok { OnOk result (grown 0 items.new.items ≡
        at (parent names.now) (with_row (last names.now)
        (record { id = id.0; file = kept_file file; inside = End })) (grown 0 items.old.items)) }
    ensures err { OnErr result (items.new.items ≡ items.old.items) }
    ensures forest { IsForest items.old.items → IsForest items.new.items }
{
    let run = leaf(alloc, names, id, file)?;
    items.reserve(1)?;
    put_at(items, names, run);
    Ok(())
}

/// Takes what stands at a path out, into the trash under its own name.
pub fn remove(
    alloc: Global,
    visible: &mut Vec<Item>,
    trash: &mut Vec<Item>,
    names: &[Text],
) -> Result<(), NoMemory>
    requires named { 0 < length names.now }
    requires there { is_there (seen_row (met_in visible.old.items names.now)) ≡ true }
    requires forest { IsForest visible.old.items }
    ensures ok { OnOk result ((next age : ℕ) →
        table_over visible.new.items trash.new.items next (age + 1) ≡ removed names.now (table_over
        visible.old.items trash.old.items next age) (met_in visible.old.items names.now)) }
    ensures err { OnErr result ((visible.new.items ≡ visible.old.items) ×
        (trash.new.items ≡ trash.old.items)) }
    ensures visible_forest { IsForest visible.new.items }
    ensures trash_forest { IsForest trash.old.items → IsForest trash.new.items }
    ensures spare { OnOk result (vec_len visible.new + 1 ≤ vec_capacity visible.new) }
{
    match resolve(visible.as_slice(), names) {
        Stop::Standing(place) => throw(alloc, visible, place, trash),
        _ => Ok(()),
    }
}

/// Takes the file at a path out, into the trash under its own name, and puts a new empty one in its place.
pub fn empty(
    alloc: Global,
    visible: &mut Vec<Item>,
    trash: &mut Vec<Item>,
    names: &[Text],
    id: FileId,
    file: FileRow,
) -> Result<(), NoMemory>
    requires named { 0 < length names.now }
    requires there { is_there (seen_row (met_in visible.old.items names.now)) ≡ true }
    requires forest { IsForest visible.old.items }
    requires distinct { IsDistinct (grown 0 visible.old.items) }
    requires file { file_of file ≡ empty_file }
    ensures ok { OnOk result ((age : ℕ) →
        table_over visible.new.items trash.new.items (id.0 + 1) (age + 1) ≡
        emptied names.now (table_over visible.old.items trash.old.items id.0 age)
        (met_in visible.old.items names.now)) }
    ensures err { OnErr result ((visible.new.items ≡ visible.old.items) ×
        (trash.new.items ≡ trash.old.items)) }
    ensures visible_forest { IsForest visible.new.items }
    ensures trash_forest { IsForest trash.old.items → IsForest trash.new.items }
{
    let fresh = leaf(alloc, names, id, Some(file))?;
    remove(alloc, visible, trash, names)?;
    put_at(visible, names, fresh);
    Ok(())
}

/// Takes what stands at a path to another.
pub fn rename(
    alloc: Global,
    visible: &mut Vec<Item>,
    olds: &[Text],
    news: &[Text],
) -> Result<(), NoMemory>
    requires old_named { 0 < length olds.now }
    requires new_named { 0 < length news.now }
    requires there { is_there (seen_row (met_in visible.old.items olds.now)) ≡ true }
    requires parent { is_directory_seen
        (seen_row (met_in visible.old.items (parent news.now))) ≡ true }
    requires ahead { is_front olds.now news.now ≡ false }
    requires forest { IsForest visible.old.items }
    requires distinct { IsDistinct (grown 0 visible.old.items) }
    ensures ok { OnOk result ((trash : List Item) (next age : ℕ) →
        table_over visible.new.items trash next (age + 1) ≡ row_moved olds.now news.now
        (table_over visible.old.items trash next age) (met_in visible.old.items olds.now)) }
    ensures err { OnErr result (visible.new.items ≡ visible.old.items) }
    ensures visible_forest { IsForest visible.new.items }
{
    match resolve(visible.as_slice(), olds) {
        Stop::Standing(place) => {
            let depth = news.len() - 1;
            let name = news[depth].copy(alloc)?;
            let run = lift(visible, place, depth, name)?;
            put_at(visible, news, run);
            Ok(())
        }
        _ => Ok(()),
    }
}

/// Writes bytes over the file at a path.
pub fn write_at(
    alloc: Global,
    items: &mut [Item],
    names: &[Text],
    offset: u64,
    bytes: &[u8],
) -> Result<(), NoMemory>
    requires named { 0 < length names.now }
    requires some { 0 < length bytes.now }
    requires room { offset + length bytes.now ≤ 268435456 }
    requires counter { (file : File) →
        file_met (met_in items.old names.now) ≡ Some file → file.counter < 2 ^ 63 }
    requires file { is_file (seen_row (met_in items.old names.now)) ≡ true }
    ensures ok { OnOk result (grown 0 items.new ≡ at (parent names.now)
        (file_at (last names.now) (file_written offset bytes.now)) (grown 0 items.old)) }
    ensures err { OnErr result (items.new ≡ items.old) }
    ensures forest { IsForest items.old → IsForest items.new }
{
    match resolve(items, names) {
        Stop::Standing(place) => write_item(alloc, &mut items[place], offset, bytes),
        _ => Ok(()),
    }
}

// Writes bytes over the file of a row.
fn write_item(alloc: Global, item: &mut Item, offset: u64, bytes: &[u8]) -> Result<(), NoMemory>
    requires some { 0 < length bytes.now }
    requires room { offset + length bytes.now ≤ 268435456 }
    requires counter { (file : StoredPlaces) → item.old.file ≡ Some file → file.counter < 2 ^ 63 }
    ensures ok { OnOk result (IsFiled (file_written offset bytes.now) item.old item.new) }
    ensures depth { item.new.depth ≡ item.old.depth }
    ensures kind { is_some item.new.file ≡ is_some item.old.file }
    ensures err { OnErr result (item.new ≡ item.old) }
{
    match &mut item.file {
        Some(file) => file.write(alloc, offset, bytes),
        None => Ok(()),
    }
}

/// Gives the file at a path another length.
pub fn resize_at(
    alloc: Global,
    items: &mut [Item],
    names: &[Text],
    size: u64,
) -> Result<(), NoMemory>
    requires named { 0 < length names.now }
    requires room { size ≤ 268435456 }
    requires counter { (file : File) →
        file_met (met_in items.old names.now) ≡ Some file → file.counter < 2 ^ 63 }
    requires file { is_file (seen_row (met_in items.old names.now)) ≡ true }
    ensures ok { OnOk result (grown 0 items.new ≡
        at (parent names.now) (file_at (last names.now) (cut size)) (grown 0 items.old)) }
    ensures err { OnErr result (items.new ≡ items.old) }
    ensures forest { IsForest items.old → IsForest items.new }
{
    match resolve(items, names) {
        Stop::Standing(place) => resize_item(alloc, &mut items[place], size),
        _ => Ok(()),
    }
}

// Gives the file of a row another length.
fn resize_item(alloc: Global, item: &mut Item, size: u64) -> Result<(), NoMemory>
    requires room { size ≤ 268435456 }
    requires counter { (file : StoredPlaces) → item.old.file ≡ Some file → file.counter < 2 ^ 63 }
    ensures ok { OnOk result (IsFiled (cut size) item.old item.new) }
    ensures depth { item.new.depth ≡ item.old.depth }
    ensures kind { is_some item.new.file ≡ is_some item.old.file }
    ensures err { OnErr result (item.new ≡ item.old) }
{
    match &mut item.file {
        Some(file) => file.resize(alloc, size),
        None => Ok(()),
    }
}
