//! Names and nodes that the tests of the pool share.

ghost use Rattle.std.specs.Prelude.{◌≡◌, ◌+◌};
ghost use Rattle.iris_name.specs.declared.name.Name.{Name as SpecName};
ghost use Rattle.iris_node.specs.Nodes.{name_of};
ghost use Rattle.iris_node.specs.Unfolded.{id_of};

use iris_name::{FileId, Name};
use iris_node::{Node, PartNode, Side};

// The part of the first two places of a file, by the file's number.
pub(crate) fn part(number: u32) -> Name
    ensures { result ≡ Name.Part (id_of (2 + number)) 1 0 }
{
    Name::Part {
        file: FileId(2 + u64::from(number)),
        level: 1,
        index: 0,
    }
}

// Its node.
pub(crate) fn part_node(number: u32) -> Node
    ensures { name_of result ≡ Name.Part (id_of (2 + number)) 1 0 }
{
    Node::Part(PartNode {
        file: FileId(2 + u64::from(number)),
        level: 1,
        index: 0,
        low: Side::Fold(1),
        high: Side::Fold(2),
    })
}
