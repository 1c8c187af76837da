//! Records of nodes written out by hand, and hashes computed apart.

use iris_name::{FileId, Hash32, Name};
use iris_node::{
    Body, EntryNode, Node, PartNode, RECORD_MOST, Side, decode, encode, encode_into, hash_of,
    is_same_node,
};
use sha2::{Digest, Sha256};
use std::alloc::Global;
use std::test::Fail;

// The empty file 2 named `a`, with no links.
const FILE: [u8; 39] = [
    1, 2, 0, 0, 0, 0, 0, 0, 0, 2, 1, b'a', 0, 0, 0, 0, 0, 0, 0, 0, 0, 0, 0, 0, 0, 0, 0, 0, 0, 0, 0,
    0, 0, 0, 0, 0, 0, 0, 0,
];

// The part of file 2, level 1, index 1, with the folds 1 and 0.
const PART: [u8; 33] = [
    1, 3, 0, 0, 0, 0, 0, 0, 0, 2, 1, 0, 0, 0, 1, 0, 0, 0, 0, 0, 0, 0, 0, 1, 0, 0, 0, 0, 0, 0, 0, 0,
    0,
];

// The entry of a record.
fn entry_of(alloc: Global, record: &[u8]) -> Result<EntryNode, Fail> {
    match decode(alloc, record)?.ok_or("a node")? {
        Node::Entry(entry) => Ok(entry),
        Node::Part(_) => Err("an entry".into()),
    }
}

// Whether an entry is that empty file.
fn is_the_file(entry: &EntryNode) -> bool {
    let empty = Body::File {
        length: 0,
        counter: 0,
        versions: Side::Fold(0),
    };
    entry.id == FileId(2)
        && entry.name.as_str() == "a"
        && entry.left.is_none()
        && entry.right.is_none()
        && entry.body == empty
}

// Whether a record is read as a node of that name, and the node written as the record.
fn spells(alloc: Global, record: &[u8], name: Name) -> Result<bool, Fail> {
    let node = decode(alloc, record)?.ok_or("a node")?;
    let bytes = encode(alloc, &node)?;
    Ok(node.name() == name && bytes.as_slice() == record)
}

#[test]
fn writes_an_empty_file(rt: HostRuntime) -> Result<(), Fail> {
    let alloc = rt.alloc();
    assert!(rt; is_the_file(&entry_of(alloc, &FILE)?));
    assert!(rt; spells(alloc, &FILE, Name::Entry { id: FileId(2) })?);
    Ok(())
}

// Whether bytes are read as the part of file 2, level 1, index 1.
fn is_the_part(alloc: Global, record: &[u8]) -> Result<bool, Fail> {
    let part = PartNode {
        file: FileId(2),
        level: 1,
        index: 1,
        low: Side::Fold(1),
        high: Side::Fold(0),
    };
    let node = decode(alloc, record)?.ok_or("a part")?;
    Ok(is_same_node(&node, &Node::Part(part)))
}

// A record in which the byte at a place is another.
fn with_byte(alloc: Global, record: &[u8], at: usize, byte: u8) -> Result<Vec<u8>, Fail> {
    let mut bytes = record.to_vec(alloc)?;
    match bytes.get_mut(at) {
        Some(old) => *old = byte,
        None => bytes.push(byte)?,
    }
    Ok(bytes)
}

// Whether a record with another byte is no record.
fn refuses(alloc: Global, record: &[u8], at: usize, byte: u8) -> Result<bool, Fail> {
    let bytes = with_byte(alloc, record, at, byte)?;
    Ok(decode(alloc, bytes.as_slice())?.is_none())
}

// A reader that takes bytes for a node that are none.
#[test]
fn reads_a_part_and_refuses_what_is_none(rt: HostRuntime) -> Result<(), Fail> {
    let alloc = rt.alloc();
    let name = Name::Part {
        file: FileId(2),
        level: 1,
        index: 1,
    };
    assert!(rt; is_the_part(alloc, &PART)? && spells(alloc, &PART, name)?);
    let cases: [(&[u8], usize, u8, &str); 8] = [
        (&PART, 32, 1, "two equal folds"),
        (&FILE, 39, 0, "a byte more"),
        (&FILE[..37], 37, 0, "a byte less"),
        (&PART, 0, 2, "another format"),
        (&PART, 10, 17, "a level too high"),
        (&PART, 12, 1, "an index too high"),
        (&FILE, 9, 1, "a name for id 1"),
        (&FILE, 11, b'/', "a slash in a name"),
    ];
    for (record, at, byte, why) in cases {
        assert!(rt; refuses(alloc, record, at, byte)?, "{why}");
    }
    Ok(())
}

// The record of a fresh directory without a name.
fn empty_dir(id: u8) -> [u8; 14] {
    [1, 1, 0, 0, 0, 0, 0, 0, 0, id, 0, 0, 0, 0]
}

// The root hash of a fresh table, from the records.
fn fresh_root() -> [u8; 32] {
    let mut hasher = Sha256::new();
    hasher.update(hash_of(&empty_dir(0)).0);
    hasher.update(hash_of(&empty_dir(1)).0);
    hasher.update(2u64.to_be_bytes());
    hasher.finalize()
}

#[test]
fn meets_the_fresh_root(rt: HostRuntime) -> Result<(), Fail> {
    let alloc = rt.alloc();
    for id in 0..2u8 {
        let name = Name::Entry {
            id: FileId(id as u64),
        };
        assert!(rt; spells(alloc, &empty_dir(id), name)?);
    }
    let digits = hex::encode(alloc, fresh_root().as_slice())?;
    assert_eq!(rt;
        digits.as_str(),
        "e4916185013ac8cb08ceca3ce0c211b863c37d0eb03d40e3bd1822179b5460c7"
    );
    Ok(())
}

// The bytes of a link to an id over 7 blocks, whose hash is that byte.
fn link_bytes(id: u8) -> [u8; 49] {
    let mut bytes = [id; 49];
    bytes[0] = 1;
    for k in 0..8 {
        bytes[1 + k] = 0;
        bytes[41 + k] = 0;
    }
    bytes[8] = id;
    bytes[48] = 7;
    bytes
}

// The record of file 3 whose name and links have their full size: 268,435,456 bytes long, written 9 times.
fn widest(alloc: Global) -> Result<Vec<u8>, Fail> {
    let head = [1, 2, 0, 0, 0, 0, 0, 0, 0, 3, 255];
    let tail = [0, 0, 0, 0, 16, 0, 0, 0, 0, 0, 0, 0, 0, 0, 0, 9, 1];
    let pieces: [&[u8]; 6] = [
        &head,
        &[b'n'; 255],
        &link_bytes(4),
        &link_bytes(5),
        &tail,
        &[8; 32],
    ];
    let mut bytes = Vec::new(alloc);
    for piece in pieces {
        bytes.extend_from_slice(piece)?;
    }
    Ok(bytes)
}

// Whether the widest record is written into a room, and nothing after it.
fn writes_the_widest(alloc: Global) -> Result<bool, Fail> {
    let bytes = widest(alloc)?;
    let node = decode(alloc, bytes.as_slice())?.ok_or("an entry")?;
    let mut room = [0xee; 415];
    let len = encode_into(&node, &mut room);
    let (front, after) = room.split_at(413);
    Ok(len == 413 && front == bytes.as_slice() && after == [0xee, 0xee].as_slice())
}

// How long the record of the widest part is.
fn widest_part() -> usize {
    let part = PartNode {
        file: FileId(2),
        level: 16,
        index: 0,
        low: Side::Below(Hash32([1; 32])),
        high: Side::Below(Hash32([1; 32])),
    };
    encode_into(&Node::Part(part), &mut [0; 415])
}

#[test]
fn holds_the_largest_records(rt: HostRuntime) -> Result<(), Fail> {
    assert_eq!(rt; RECORD_MOST, 413);
    assert_eq!(rt; widest_part(), 81);
    let bytes = widest(rt.alloc())?;
    assert!(rt; spells(rt.alloc(), bytes.as_slice(), Name::Entry { id: FileId(3) })?);
    assert!(rt; writes_the_widest(rt.alloc())?);
    Ok(())
}
