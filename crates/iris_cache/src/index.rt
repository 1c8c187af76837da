//! The links of a name's node, where it gets another.

ghost use Rattle.std.specs.Prelude.{◌≡◌, ◌+◌, ◌<◌, ◌^◌, false};
ghost use Rattle.std.specs.Option.{option_map};
ghost use Rattle.iris_name.specs.Names.{same_name};
ghost use Rattle.iris_name.specs.declared.name.FileId.{FileId as SpecId};
ghost use Rattle.indexmap.specs.IndexMap.{get};
ghost use Rattle.iris_links.specs.Links.{linked_count, linked_sum, IsSameSum};
ghost use Rattle.iris_cache.specs.Held.{with_node};
ghost use Rattle.iris_cache.specs.Indexed.{links_in, sums_in, IsInRanges};

use crate::held::Held;
use indexmap::IndexMap;
use iris_links::Links;
use iris_name::{FileId, Name};
use iris_node::Node;

// Where a name is resident, takes its links off and counts those of the node that it gets.
pub(crate) fn exchange_links(
    links: &mut Links,
    nodes: &IndexMap<Name, Held>,
    name: &Name,
    node: &Node,
)
    ensures partial { links.new.partial ≡ false → links.old.partial ≡ false }
    ensures counts { links.new.partial ≡ false → (q : SpecId) → linked_count links.new q +
        links_in q (get same_name nodes.now name.now) ≡ linked_count links.old q +
        links_in q (option_map (with_node node.now) (get same_name nodes.now name.now)) }
    ensures sums { links.new.partial ≡ false → (q : SpecId) → IsSameSum
        (linked_sum links.new q + sums_in q (get same_name nodes.now name.now))
        (linked_sum links.old q +
        sums_in q (option_map (with_node node.now) (get same_name nodes.now name.now))) }
{
    if let Some(held) = nodes.get(name) {
        links.exchange_node(&held.node, node);
    }
}

// proof only: its numbers are in the ranges of their types.
pub(crate) fn ranged(node: &Node)
    ensures { IsInRanges node.now }
{
    match node {
        Node::Entry(entry) => fits(entry.id),
        Node::Part(part) => {
            let _level = part.level;
        }
    }
}

// proof only: an id has 64 bits.
fn fits(id: FileId)
    ensures { id.0 < 2 ^ 64 }
{
    let _ = id.0;
}
