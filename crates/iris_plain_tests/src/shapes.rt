//! Shapes worked out by hand from priorities that were computed apart.

ghost use Rattle.std.specs.Prelude.{◌≡◌, IfOk};
ghost use Rattle.iris_shape.specs.Rows.{DistinctIds};

use crate::lines::keys;
use iris_name::{FileId, Text};
use iris_shape::rows::outranks;
use iris_shape::{Folded, Row, Shape, fold, treap};
use std::alloc::Global;
use std::test::Fail;

fn row(alloc: Global, id: u64, name: &str) -> Result<Row, Fail>
    ensures { IfOk result (λ row. row.id.0 ≡ id) }
{
    let name = Text::of(String::from_str(alloc, name)?);
    Ok(Row {
        id: FileId(id),
        name,
    })
}

// By priority ids 3, 4, 2 from above; by name ids 3, 2, 4.
fn three_rows(alloc: Global) -> Result<Vec<Row>, Fail>
    ensures { IfOk result (λ rows. DistinctIds rows.items) }
{
    let mut rows = Vec::new(alloc);
    rows.push(row(alloc, 2, "b")?)?;
    rows.push(row(alloc, 3, "a")?)?;
    rows.push(row(alloc, 4, "ba")?)?;
    Ok(rows)
}

// The row above, if there is one.
fn top(shape: &Shape) -> Option<u32> {
    match shape {
        Shape::Empty => None,
        Shape::Over { row, .. } => Some(*row),
    }
}

// The rows of lesser names below it.
fn less(shape: &Shape) -> &Shape {
    match shape {
        Shape::Empty => shape,
        Shape::Over { less, .. } => less.get(),
    }
}

// The rows of greater names below it.
fn more(shape: &Shape) -> &Shape {
    match shape {
        Shape::Empty => shape,
        Shape::Over { more, .. } => more.get(),
    }
}

fn shape_of_three(alloc: Global) -> Result<Shape, Fail> {
    let rows = three_rows(alloc)?;
    Ok(treap(alloc, &keys(), rows.as_slice())?)
}

#[test]
fn the_greater_priority_stands_above(rt: HostRuntime) -> Result<(), Fail> {
    let shape = shape_of_three(rt.alloc())?;
    let below = more(&shape);
    assert_eq!(rt; (top(&shape), top(less(&shape))), (Some(1), None));
    assert_eq!(rt; (top(below), top(less(below))), (Some(2), Some(0)));
    assert_eq!(rt; top(more(below)), None);
    Ok(())
}

#[test]
fn of_equal_priorities_the_smaller_id_stands_above(rt: HostRuntime) -> Result<(), Fail> {
    assert!(rt; outranks(7, FileId(2), 7, FileId(3)));
    assert!(rt; !outranks(7, FileId(3), 7, FileId(2)));
    assert!(rt; outranks(8, FileId(3), 7, FileId(2)));
    Ok(())
}

// The one version, if there is one.
fn version(folded: &Folded) -> Option<u64> {
    match folded {
        Folded::One(version) => Some(*version),
        Folded::Two(_, _) => None,
    }
}

// The half of the lower places.
fn low(folded: &Folded) -> &Folded {
    match folded {
        Folded::One(_) => folded,
        Folded::Two(low, _) => low.get(),
    }
}

// The half of the higher places.
fn high(folded: &Folded) -> &Folded {
    match folded {
        Folded::One(_) => folded,
        Folded::Two(_, high) => high.get(),
    }
}

#[test]
fn folds_equal_halves(rt: HostRuntime) -> Result<(), Fail> {
    let even = fold(rt.alloc(), &[5, 5, 5, 5])?;
    let uneven = fold(rt.alloc(), &[5, 5, 5, 6])?;
    let single = fold(rt.alloc(), &[9])?;
    assert_eq!(rt; (version(&even), version(&single)), (Some(5), Some(9)));
    assert_eq!(rt; (version(&uneven), version(low(&uneven))), (None, Some(5)));
    assert_eq!(rt; version(low(high(&uneven))), Some(5));
    assert_eq!(rt; version(high(high(&uneven))), Some(6));
    Ok(())
}
