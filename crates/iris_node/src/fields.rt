//! The fields of a record, read from the front of the bytes.

ghost use Rattle.std.specs.Prelude.{◌≡◌, List, ℕ, length};
ghost use Rattle.std.specs.Int.{w32, w64};
ghost use Rattle.iris_node.specs.Fields.{EntryFields, PartFields};
ghost use Rattle.iris_node.specs.Reading.{Reads, number_at, hash_at, link_at, side_at, named_at, body_at, read_entry, read_byte, part_at, text_in};
ghost use Rattle.iris_node.specs.Unfolded.{id_of};
ghost use Rattle.iris_node.specs.Views.{entry_read, part_read};

use crate::node::{Body, Link, Side};
use iris_name::{FileId, Hash32};

fn byte_of(bytes: &[u8]) -> Option<(u8, &[u8])>
    ensures { Reads (λ x. (x.0, x.1.now)) result (read_byte bytes.now) }
{
    match bytes {
        [] => None,
        [first, rest @ ..] => Some((*first, rest)),
    }
}

fn u32_of(bytes: &[u8]) -> Option<(u32, &[u8])>
    ensures { Reads (λ x. (x.0, x.1.now)) result (number_at w32 bytes.now) }
{
    if bytes.len() < 4 {
        return None;
    }
    let (front, rest) = bytes.split_at(4);
    let number = u32::from_be_bytes([front[0], front[1], front[2], front[3]]);
    Some((number, rest))
}

fn u64_of(bytes: &[u8]) -> Option<(u64, &[u8])>
    ensures { Reads (λ x. (x.0, x.1.now)) result (number_at w64 bytes.now) }
{
    if bytes.len() < 8 {
        return None;
    }
    let (front, rest) = bytes.split_at(8);
    let number = u64::from_be_bytes([
        front[0], front[1], front[2], front[3], front[4], front[5], front[6], front[7],
    ]);
    Some((number, rest))
}

#[tactic(auto, unfolding(crate::specs::Reading::hash_at))]
fn hash_from(bytes: &[u8]) -> Option<(Hash32, &[u8])>
    ensures { Reads (λ x. (x.0, x.1.now)) result (hash_at bytes.now) }
{
    if bytes.len() < 32 {
        return None;
    }
    let (front, rest) = bytes.split_at(32);
    let mut hash = [0u8; 32];
    hash.copy_from_slice(front);
    Some((Hash32(hash), rest))
}

#[tactic(auto, unfolding(crate::specs::Reading::link_at))]
fn link_of(bytes: &[u8]) -> Option<(Option<Link>, &[u8])>
    ensures { Reads (λ x. (x.0, x.1.now)) result (link_at bytes.now) }
{
    match bytes {
        [0, rest @ ..] => Some((None, rest)),
        [1, rest @ ..] => {
            let (id, rest) = u64_of(rest)?;
            let (hash, rest) = hash_from(rest)?;
            let (blocks, rest) = u64_of(rest)?;
            let link = Link {
                id: FileId(id),
                hash,
                blocks,
            };
            Some((Some(link), rest))
        }
        _ => None,
    }
}

#[tactic(auto, unfolding(crate::specs::Reading::side_at))]
fn side_of(bytes: &[u8]) -> Option<(Side, &[u8])>
    ensures { Reads (λ x. (x.0, x.1.now)) result (side_at bytes.now) }
{
    match bytes {
        [0, rest @ ..] => {
            let (version, rest) = u64_of(rest)?;
            Some((Side::Fold(version), rest))
        }
        [1, rest @ ..] => {
            let (hash, rest) = hash_from(rest)?;
            Some((Side::Below(hash), rest))
        }
        _ => None,
    }
}

// The bytes as a text, where they are one.
#[tactic(auto, using(crate::proofs::Texts::is_text, crate::proofs::Texts::is_no_text))]
fn text_of(bytes: &[u8]) -> Option<&str>
    ensures { Reads (λ x. x.now) result (text_in bytes.now) }
{
    str::from_utf8(bytes).ok()
}

// A text, after the byte that says how long it is.
#[tactic(auto, unfolding(crate::specs::Reading::named_at))]
fn named_of(bytes: &[u8]) -> Option<(&str, &[u8])>
    ensures { Reads (λ x. (x.0.now, x.1.now)) result (named_at bytes.now) }
{
    let (len, rest) = byte_of(bytes)?;
    let len = usize::from(len);
    if rest.len() < len {
        return None;
    }
    let (front, rest) = rest.split_at(len);
    let name = text_of(front)?;
    Some((name, rest))
}

// A directory's or a file's, by its kind.
#[tactic(auto, unfolding(crate::specs::Reading::body_at))]
fn body_of(kind: u8, bytes: &[u8]) -> Option<(Body, &[u8])>
    ensures { Reads (λ x. (x.0, x.1.now)) result (body_at kind bytes.now) }
{
    match kind {
        1 => {
            let (top, rest) = link_of(bytes)?;
            Some((Body::Dir { top }, rest))
        }
        2 => {
            let (length, rest) = u64_of(bytes)?;
            let (counter, rest) = u64_of(rest)?;
            let (versions, rest) = side_of(rest)?;
            let body = Body::File {
                length,
                counter,
                versions,
            };
            Some((body, rest))
        }
        _ => None,
    }
}

/// What an entry's record says, its name still in the record.
#[derive(Drop)]
pub(crate) struct EntryRead<'a> {
    pub id: u64,
    pub name: &'a str,
    pub left: Option<Link>,
    pub right: Option<Link>,
    pub body: Body,
}

/// The fields of an entry of this kind, and the bytes after them.
#[tactic(auto, unfolding(crate::specs::Reading::read_entry))]
pub(crate) fn entry_of(kind: u8, bytes: &[u8]) -> Option<(EntryRead<'_>, &[u8])>
    ensures { Reads (λ x. (entry_read x.0, x.1.now)) result (read_entry kind bytes.now) }
{
    let (id, rest) = u64_of(bytes)?;
    let (name, rest) = named_of(rest)?;
    let (left, rest) = link_of(rest)?;
    let (right, rest) = link_of(rest)?;
    let (body, rest) = body_of(kind, rest)?;
    let entry = EntryRead {
        id,
        name,
        left,
        right,
        body,
    };
    Some((entry, rest))
}

/// What a part's record says.
#[derive(Drop)]
pub(crate) struct PartRead {
    pub file: u64,
    pub level: u8,
    pub index: u32,
    pub low: Side,
    pub high: Side,
}

/// The fields of a part, and the bytes after them.
#[tactic(auto, unfolding(crate::specs::Reading::part_at))]
pub(crate) fn part_of(bytes: &[u8]) -> Option<(PartRead, &[u8])>
    ensures { Reads (λ x. (part_read x.0, x.1.now)) result (part_at bytes.now) }
{
    let (file, rest) = u64_of(bytes)?;
    let (level, rest) = byte_of(rest)?;
    let (index, rest) = u32_of(rest)?;
    let (low, rest) = side_of(rest)?;
    let (high, rest) = side_of(rest)?;
    let part = PartRead {
        file,
        level,
        index,
        low,
        high,
    };
    Some((part, rest))
}
