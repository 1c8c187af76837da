//! The rows of a directory, and their order.

ghost use Rattle.std.specs.Prelude.{◌≡◌, ◌≤◌, ◌<◌, ◌^◌, ℕ, length, take, drop, OnOk, IfOk};
ghost use Rattle.iris_shape.specs.Treap.{rows_with, keep, skip};
ghost use Rattle.iris_shape.specs.Order.{beside, less_name, outranks};
ghost use Rattle.iris_shape.specs.Rows.{name_at, id_at, in_order, has_priority_over};

use iris_mac::{Keys, priority};
use iris_name::{FileId, NoMemory, Text};
use std::alloc::Global;

/// A row of a directory.
#[derive(Drop)]
pub struct Row {
    pub id: FileId,
    pub name: Text,
}

// The name of the row at a place.
fn name_of(rows: &[Row], place: u32) -> &[u8]
    ensures { result.now ≡ name_at rows.now place }
{
    match rows.get(place as usize) {
        None => &[],
        Some(row) => row.name.as_str().as_bytes(),
    }
}

// The id of the row at a place.
fn id_of(rows: &[Row], place: u32) -> FileId
    ensures { result.0 ≡ id_at rows.now place }
{
    match rows.get(place as usize) {
        None => FileId(0),
        Some(row) => row.id,
    }
}

fn is_less(a: &[u8], b: &[u8]) -> bool
    ensures { result ≡ less_name a.now b.now }
{
    a < b
}

// Whether the first row's name is the lesser.
fn stands_before(rows: &[Row], first: u32, second: u32) -> bool
    ensures { result ≡ less_name (name_at rows.now first) (name_at rows.now second) }
{
    is_less(name_of(rows, first), name_of(rows, second))
}

/// Whether priority p of id a stands above priority q of id b.
pub fn outranks(p: u64, a: FileId, q: u64, b: FileId) -> bool
    ensures { result ≡ outranks p a.0 q b.0 }
{
    q < p || (p == q && a.0 < b.0)
}

/// Whether the first row stands above the second.
pub(crate) fn stands_above(keys: &Keys, rows: &[Row], first: u32, second: u32) -> bool
    ensures { result ≡ has_priority_over keys.now.order rows.now first second }
{
    let (a, b) = (id_of(rows, first), id_of(rows, second));
    outranks(priority(keys, a), a, priority(keys, b), b)
}

// How many rows of the order stand before a row.
fn count_before(rows: &[Row], order: &[u32], place: u32) -> usize
    ensures within { result ≤ length order.now }
    ensures before { keep (λ j.
        less_name (name_at rows.now j) (name_at rows.now place)) order.now ≡ take result order.now }
    ensures after { skip (λ j.
        less_name (name_at rows.now j) (name_at rows.now place)) order.now ≡ drop result order.now }
{
    for (i, other) in order.iter().enumerate() {
        if !stands_before(rows, *other, place) {
            return i;
        }
    }
    order.len()
}

// Puts a row into the order.
fn put_row(rows: &[Row], order: &mut Vec<u32>, place: u32) -> Result<(), NoMemory>
    ensures { OnOk result (order.new.items ≡ rows_with (λ j.
        less_name (name_at rows.now j) (name_at rows.now place)) place order.old.items) }
{
    let at = count_before(rows, order.as_slice(), place);
    order.insert(at, place)?;
    Ok(())
}

/// The places of the rows in order of names.
pub(crate) fn ordered(alloc: Global, rows: &[Row]) -> Result<Vec<u32>, NoMemory>
    ensures { IfOk result (λ order. order.items ≡ in_order rows.now (length rows.now)) }
{
    let Ok(count) = u32::try_from(rows.len()) else {
        return Err(NoMemory);
    };
    let mut order = Vec::new(alloc);
    for place in 0..count {
        put_row(rows, &mut order, place)?;
    }
    Ok(order)
}
