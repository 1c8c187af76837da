//! Records read as nodes.

ghost use Rattle.std.specs.Prelude.{◌≡◌, ℕ, IfOk, IfSome, Some};
ghost use Rattle.std.specs.Str.{IsUtf8};
ghost use Rattle.iris_node.specs.Nodes.{IsNode};
ghost use Rattle.iris_node.specs.Spelling.{spelling};
ghost use Rattle.iris_node.specs.Reading.{Reads};
ghost use Rattle.iris_node.specs.Whole.{whole_entry, whole_part, whole_node};
ghost use Rattle.iris_node.specs.declared.node.Node as nodes;

use crate::fields::{entry_of, part_of};
use crate::node::{EntryNode, Node, PartNode};
use crate::rules::{is_entry, is_part};
use iris_name::{FileId, NoMemory, Text};
use std::alloc::Global;

/// The format of all records.
pub const FORMAT: u8 = 1;

/// The kind of a part's record.
pub const PART: u8 = 3;

#[tactic(auto, unfolding(crate::specs::Whole::whole_part), using(crate::proofs::Deciding::part_kept))]
fn part_node(format: u8, bytes: &[u8]) -> Option<PartNode>
    ensures { Reads (λ p. p) result (whole_part format bytes.now) }
{
    let (part, rest) = part_of(bytes)?;
    if format != FORMAT || !rest.is_empty() || !is_part(&part) {
        return None;
    }
    Some(PartNode {
        file: FileId(part.file),
        level: part.level,
        index: part.index,
        low: part.low,
        high: part.high,
    })
}

fn text(alloc: Global, name: &str) -> Result<Text, NoMemory>
    ensures same { IfOk result (λ text. text ≡ name.now) }
    ensures utf8 { IfOk result (λ _. IsUtf8 name.now) }
{
    Ok(Text::of(String::from_str(alloc, name)?))
}

#[tactic(auto, unfolding(crate::specs::Whole::whole_entry))]
fn entry_node(
    alloc: Global,
    format: u8,
    kind: u8,
    bytes: &[u8],
) -> Result<Option<EntryNode>, NoMemory>
    ensures { IfOk result (λ o. Reads (λ e. e) o (whole_entry format kind bytes.now)) }
{
    let Some((entry, rest)) = entry_of(kind, bytes) else {
        return Ok(None);
    };
    if format != FORMAT || !rest.is_empty() || !is_entry(&entry) {
        return Ok(None);
    }
    let name = text(alloc, entry.name)?;
    Ok(Some(EntryNode {
        id: FileId(entry.id),
        name,
        left: entry.left,
        right: entry.right,
        body: entry.body,
    }))
}

#[tactic(auto, unfolding(crate::specs::Whole::whole_node))]
fn node_of(alloc: Global, bytes: &[u8]) -> Result<Option<Node>, NoMemory>
    ensures { IfOk result (λ o. Reads (λ n. n) o (whole_node bytes.now)) }
{
    match bytes {
        [format, PART, rest @ ..] => match part_node(*format, rest) {
            Some(part) => Ok(Some(Node::Part(part))),
            None => Ok(None),
        },
        [format, kind, rest @ ..] => match entry_node(alloc, *format, *kind, rest)? {
            Some(entry) => Ok(Some(Node::Entry(entry))),
            None => Ok(None),
        },
        _ => Ok(None),
    }
}

/// The node that the bytes spell, all of the bytes. None where they spell none: where a byte is missing or one more
/// stands at the end, or where a rule of entries or parts is broken.
pub fn decode(alloc: Global, bytes: &[u8]) -> Result<Option<Node>, NoMemory>
    // What is read is a node that is spelled so.
    ensures found { IfOk result (λ o. IfSome o (λ n. IsNode n × (bytes.now ≡ spelling n))) }
    // What spells a node is read as that node.
    ensures only { (n : nodes.Node) →
        IsNode n → bytes.now ≡ spelling n → IfOk result (λ o. o ≡ Some n) }
{
    node_of(alloc, bytes)
}
