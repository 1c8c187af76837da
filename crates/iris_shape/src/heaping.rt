//! The treap of a directory's rows.

ghost use Rattle.std.specs.Prelude.{◌≡◌, ℕ, List, length, map, OnOk, IfOk};
ghost use Rattle.iris_shape.specs.Treap.{Treap, Over, IsHeap, with_first};
ghost use Rattle.iris_shape.specs.Rows.{DistinctIds, has_priority_over, treap_of};
ghost use Rattle.iris_shape.specs.Shaped.{made_treap, made_half, spine, Closes};

use crate::rows::{Row, ordered, stands_above};
use iris_mac::Keys;
use iris_name::NoMemory;
use sqlite_items::Boxed;
use std::alloc::Global;

/// The shape of a directory: no row, or a row above the shapes of the rows of lesser and of greater names. A row is named by
/// its place in the list of rows.
#[derive(Drop)]
pub enum Shape {
    Empty,
    Over {
        row: u32,
        less: Boxed<Shape>,
        more: Boxed<Shape>,
    },
}

// A row with its greater side; its lesser side is still open.
#[derive(Drop)]
struct Half {
    row: u32,
    more: Shape,
}

// A row with its lesser side.
fn closed(alloc: Global, half: Half, less: Shape) -> Result<Shape, NoMemory>
    ensures { IfOk result (λ s. (a : ℕ × Treap ℕ) (t : Treap ℕ) →
        half ≡ made_half a → less ≡ made_treap t → s ≡ made_treap (Over a.0 t a.1)) }
{
    let less = Boxed::new(alloc, less)?;
    let more = Boxed::new(alloc, half.more)?;
    Ok(Shape::Over {
        row: half.row,
        less,
        more,
    })
}

// Closes the open rows that a lesser row stands above, and answers their shape.
fn close_below(
    alloc: Global,
    keys: &Keys,
    rows: &[Row],
    opened: &mut Vec<Half>,
    place: u32,
) -> Result<Shape, NoMemory>
    ensures { IfOk result (λ below. (s : List (ℕ × Treap ℕ)) → opened.old.items ≡ map made_half s →
        Closes (has_priority_over keys.now.order rows.now) place s opened.new.items below) }
{
    let mut below = Shape::Empty;
    while let Some(half) = opened.pop() {
        if !stands_above(keys, rows, place, half.row) {
            opened.push(half)?;
            return Ok(below);
        }
        below = closed(alloc, half, below)?;
    }
    Ok(below)
}

// Opens a row that stands before all others so far.
fn open_row(
    alloc: Global,
    keys: &Keys,
    rows: &[Row],
    opened: &mut Vec<Half>,
    place: u32,
) -> Result<(), NoMemory>
    ensures { OnOk result ((s : List (ℕ × Treap ℕ)) → opened.old.items ≡ map made_half s →
        IsHeap (has_priority_over keys.now.order rows.now) (spine s) →
        (t : List (ℕ × Treap ℕ)) × (opened.new.items ≡ map made_half t) ×
        (spine t ≡ with_first (has_priority_over keys.now.order rows.now) place (spine s))) }
{
    let more = close_below(alloc, keys, rows, opened, place)?;
    opened.push(Half { row: place, more })?;
    Ok(())
}

// Closes all open rows.
fn close_all(alloc: Global, mut opened: Vec<Half>) -> Result<Shape, NoMemory>
    ensures { IfOk result (λ shape. (s : List (ℕ × Treap ℕ)) →
        opened.items ≡ map made_half s → shape ≡ made_treap (spine s)) }
{
    let mut shape = Shape::Empty;
    while let Some(half) = opened.pop() {
        shape = closed(alloc, half, shape)?;
    }
    Ok(shape)
}

/// The treap of the rows of a directory, from scratch: in order of names, the greater priority above, of equal ones the smaller
/// id. More than 4,294,967,295 rows are want of memory.
pub fn treap(alloc: Global, keys: &Keys, rows: &[Row]) -> Result<Shape, NoMemory>
    requires { DistinctIds rows.now }
    ensures { IfOk result (λ shape. shape ≡ made_treap (treap_of keys.now.order rows.now)) }
{
    let mut order = ordered(alloc, rows)?;
    let mut opened = Vec::new(alloc);
    while let Some(place) = order.pop() {
        open_row(alloc, keys, rows, &mut opened, place)?;
    }
    close_all(alloc, opened)
}
