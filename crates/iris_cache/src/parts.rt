//! The names of parts beside others in a version tree.

ghost use Rattle.std.specs.Prelude.{◌≡◌};
ghost use Rattle.iris_cache.specs.Rehash.{top_part, low_part, high_part};
ghost use Rattle.iris_cache.specs.Holders.{part_above};

use iris_name::{FileId, Name};
use iris_node::{MOST_LEVEL, PartNode};

// The part that covers all places of a file.
pub(crate) fn top_part(file: FileId) -> Name
    ensures { result ≡ top_part file }
{
    Name::Part {
        file,
        level: MOST_LEVEL,
        index: 0,
    }
}

// The part that covers the lower half of a part.
pub(crate) fn low_part(part: &PartNode) -> Name
    ensures { result ≡ low_part part.now }
{
    Name::Part {
        file: part.file,
        level: part.level - 1,
        index: 2 * part.index,
    }
}

// The part that covers the upper half of a part.
pub(crate) fn high_part(part: &PartNode) -> Name
    ensures { result ≡ high_part part.now }
{
    Name::Part {
        file: part.file,
        level: part.level - 1,
        index: 2 * part.index + 1,
    }
}

// The one node of a version tree that may hold a hash of a part.
pub(crate) fn part_above(file: FileId, level: u8, index: u32) -> Name
    ensures { result ≡ part_above file level index }
{
    if level < MOST_LEVEL {
        Name::Part {
            file,
            level: level + 1,
            index: index / 2,
        }
    } else {
        Name::Entry { id: file }
    }
}
