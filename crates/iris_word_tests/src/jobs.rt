//! Jobs and chores with enough memory.

use iris_desk::Record;
use iris_jobs::{Brought, Job, Sealed, Unsealed};
use iris_mac::Keys;
use iris_name::{Answer, Bytes, Expect, FileId, Name, Page, Text};
use iris_node::{Body, EntryNode, Node, encode, hash_of};
use std::alloc::Global;
use std::test::Fail;

const MASTER: [u8; 32] = [7; 32];

const PLACE: Name = Name::Block {
    file: FileId(2),
    place: 9,
};

// A put of a block, with its tag.
fn sealed(alloc: Global, fill: u8) -> Result<Sealed, Fail> {
    let page = Page::of(alloc, &[fill; 4096])?;
    let put = Unsealed::page(alloc, 3, PLACE, 5, MASTER, 11, &page)?;
    Ok(put.seal(&Keys::of(&MASTER)))
}

// The first byte of a page.
fn first_of(brought: &Brought) -> Option<u8> {
    match brought {
        Brought::Page { page, .. } => Some(page.as_slice()[0]),
        Brought::Node(_) | Brought::Nothing => None,
    }
}

// What bytes bring to a get of the block in a version: the first byte of its page, none where they bring nothing.
fn brought(alloc: Global, bytes: Bytes, version: u64) -> Result<Option<u8>, Fail> {
    let job = Job::new(3, PLACE, 5, Expect::Version(version), MASTER);
    match job.check(alloc, &Keys::of(&MASTER), Answer::Given(bytes)) {
        Ok(checked) => {
            let (_, brought) = checked.into_parts();
            Ok(first_of(&brought))
        }
        Err(_) => Err("out of memory".into()),
    }
}

// The record of a block with one bit turned.
fn turned(alloc: Global, at: usize) -> Result<Bytes, Fail> {
    let mut bytes = sealed(alloc, 4)?.into_bytes().into_vec();
    if at < bytes.len() {
        bytes[at] ^= 1;
    }
    Ok(Bytes::of(bytes))
}

// Version, byte whose lowest bit is turned, and what it brings. 4,128 turns none.
const BLOCKS: [(u64, usize, Option<u8>); 5] = [
    (11, 4128, Some(4)),
    (12, 4128, None),
    (11, 0, None),
    (11, 4095, None),
    (11, 4127, None),
];

// A check that gives up, or that doesn't tell a record from one with a bit turned.
#[test]
fn seals_what_it_checks(rt: HostRuntime) -> Result<(), Fail> {
    for (version, at, wanted) in BLOCKS {
        let bytes = turned(rt.alloc(), at)?;
        assert_eq!(rt; brought(rt.alloc(), bytes, version)?, wanted);
    }
    Ok(())
}

fn entry(alloc: Global, id: u64) -> Result<Node, Fail> {
    Ok(Node::Entry(EntryNode {
        id: FileId(id),
        name: Text::of(String::from_str(alloc, if id < 2 { "" } else { "a" })?),
        left: None,
        right: None,
        body: Body::Dir { top: None },
    }))
}

// Whether the record of an entry brings a node to a get of another.
fn brings_node(alloc: Global, own: u64, asked: u64) -> Result<bool, Fail> {
    let bytes = encode(alloc, &entry(alloc, own)?)?;
    let name = Name::Entry { id: FileId(asked) };
    let expect = Expect::Hash(hash_of(bytes.as_slice()));
    let job = Job::new(3, name, 5, expect, MASTER);
    match job.check(alloc, &Keys::of(&MASTER), Answer::Given(bytes)) {
        Ok(checked) => {
            let (_, brought) = checked.into_parts();
            Ok(matches!(&brought, Brought::Node(_)))
        }
        Err(_) => Err("out of memory".into()),
    }
}

// A node is taken for another's that has the hash which is expected.
#[test]
fn reads_nodes_of_their_names(rt: HostRuntime) -> Result<(), Fail> {
    assert!(rt; brings_node(rt.alloc(), 0, 0)?);
    assert!(rt; !brings_node(rt.alloc(), 0, 1)?);
    Ok(())
}

// An older page, or one under another key, is taken for the put that is out.
#[test]
fn knows_its_record(rt: HostRuntime) -> Result<(), Fail> {
    let put = sealed(rt.alloc(), 4)?;
    for (fill, version, first) in [(4, 11, 7), (4, 10, 7), (5, 11, 7), (4, 11, 8)] {
        let page = Page::of(rt.alloc(), &[fill; 4096])?;
        let mut master = MASTER;
        master[0] = first;
        let same = put.is_of(&master, &Record::Page { version, page });
        assert_eq!(rt; same, fill == 4 && version == 11 && first == 7);
    }
    Ok(())
}
