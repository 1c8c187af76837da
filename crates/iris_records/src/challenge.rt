//! Challenges: the block at a place of the walk over all blocks of a table. A search tree from left to right is in order of its
//! names, so the walk over the treaps of all directories goes over the rows as they stand in preorder.

ghost use Rattle.std.specs.Prelude.{◌++◌, ℕ, List, slice_get};
ghost use Rattle.iris_records.specs.Challenges.{table_walk, IsProbed};
ghost use Rattle.iris_rows.specs.Items.{IsForest, table_over};
ghost use Rattle.iris_records.specs.Strides.{WalkMeets, files_of};

use iris_name::{FileId, PlainError, Reply};
use iris_rows::item::Item;

/// What a walk over the blocks of rows meets at a place.
#[derive(Clone, Copy)]
pub enum Met {
    /// The block of a place of a file, with the version of the place.
    Block {
        file: FileId,
        place: u32,
        version: u64,
    },
    /// No block: after the last there are this many places to go.
    Past(u64),
}

/// What the walk over the blocks of rows meets at a place, counted from 0. Holes count.
pub fn meet(items: &[Item], at: u64) -> Met
    ensures { WalkMeets (files_of items.now) at result }
{
    let mut left = at;
    for item in items {
        if let Some(row) = &item.file {
            let places = row.places();
            let count = places.len() as u64;
            if left < count {
                return Met::Block {
                    file: item.id,
                    place: left as u32,
                    version: places[left as usize].version,
                };
            }
            left -= count;
        }
    }
    Met::Past(left)
}

// What the walk meets below the visible root, and then in the trash.
fn meet_both(visible: &[Item], trash: &[Item], at: u64) -> Met
    ensures { WalkMeets (files_of visible.now ++ files_of trash.now) at result }
{
    match meet(visible, at) {
        Met::Past(left) => meet(trash, left),
        block => block,
    }
}

/// The reply to a challenge for a place of the walk.
pub fn probe(visible: &[Item], trash: &[Item], at: u64) -> Reply
    requires visible { IsForest visible.now }
    requires trash { IsForest trash.now }
    ensures { (order : List ℕ) (next age : ℕ) → IsProbed (table_over visible.now trash.now next age)
        (slice_get (table_walk order (table_over visible.now trash.now next age)) at) result }
{
    match meet_both(visible, trash, at) {
        Met::Block {
            file,
            place,
            version,
        } => Reply::Probed {
            file,
            place,
            version,
        },
        Met::Past(_) => Reply::Plain(PlainError::NotFound),
    }
}
