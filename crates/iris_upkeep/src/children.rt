//! The children of a node, by the hashes that it holds.

ghost use Rattle.std.specs.Prelude.{◌≡◌, ◌↔◌, Some};
ghost use Rattle.iris_name.specs.declared.name.Name.{Name as SpecName};
ghost use Rattle.iris_cache.specs.Pictures.{LinkHolds, SideHolds, BodyHolds, Holds};
ghost use Rattle.iris_cache.specs.Rehash.{low_part, high_part};
ghost use Rattle.iris_upkeep.specs.Children.{HasHash, HasChild};

use iris_name::{FileId, Name};
use iris_node::{Body, EntryNode, Link, MOST_LEVEL, Node, PartNode, Side};

/// The names of which a node holds a hash, at most three. Of a part, `left` and `right` are the halves.
#[derive(Clone, Copy)]
pub struct Children {
    pub left: Option<Name>,
    pub right: Option<Name>,
    pub top: Option<Name>,
}

// The entry that a link leads to.
fn linked_entry(link: Option<Link>) -> Option<Name>
    ensures { (n : SpecName) → result ≡ Some n ↔ HasHash (LinkHolds link n) }
{
    match link {
        Some(link) => Some(Name::Entry { id: link.id }),
        None => None,
    }
}

// The part of a side, where the side is no version.
fn part_of_side(side: Side, part: Name) -> Option<Name>
    ensures { (n : SpecName) → result ≡ Some n ↔ HasHash (SideHolds part side n) }
{
    match side {
        Side::Fold(_) => None,
        Side::Below(_) => Some(part),
    }
}

// The topmost entry inside a directory, or the topmost part of a file.
fn top_inside(id: FileId, body: Body) -> Option<Name>
    ensures { (n : SpecName) → result ≡ Some n ↔ HasHash (BodyHolds id body n) }
{
    match body {
        Body::Dir { top } => linked_entry(top),
        Body::File { versions, .. } => {
            let whole = Name::Part {
                file: id,
                level: MOST_LEVEL,
                index: 0,
            };
            part_of_side(versions, whole)
        }
    }
}

fn children_of_entry(entry: &EntryNode) -> Children
    ensures left { (n : SpecName) → result.left ≡ Some n ↔ HasHash (LinkHolds entry.now.left n) }
    ensures right { (n : SpecName) → result.right ≡ Some n ↔ HasHash (LinkHolds entry.now.right n) }
    ensures top { (n : SpecName) →
        result.top ≡ Some n ↔ HasHash (BodyHolds entry.now.id entry.now.body n) }
{
    Children {
        left: linked_entry(entry.left),
        right: linked_entry(entry.right),
        top: top_inside(entry.id, entry.body),
    }
}

fn children_of_part(part: &PartNode) -> Children
    ensures left { (n : SpecName) →
        result.left ≡ Some n ↔ HasHash (SideHolds (low_part part.now) part.now.low n) }
    ensures right { (n : SpecName) →
        result.right ≡ Some n ↔ HasHash (SideHolds (high_part part.now) part.now.high n) }
    ensures top { result.top ≡ None }
{
    let low = Name::Part {
        file: part.file,
        level: part.level - 1,
        index: 2 * part.index,
    };
    let high = Name::Part {
        file: part.file,
        level: part.level - 1,
        index: 2 * part.index + 1,
    };
    Children {
        left: part_of_side(part.low, low),
        right: part_of_side(part.high, high),
        top: None,
    }
}

/// The children of a node: the names of which it holds a hash.
pub fn children_of(node: &Node) -> Children
    ensures { (n : SpecName) → HasChild result n ↔ HasHash (Holds node.now n) }
{
    match node {
        Node::Entry(entry) => children_of_entry(entry),
        Node::Part(part) => children_of_part(part),
    }
}
