//! An honest store, its failures, and what is told of it.

use crate::asking::{Ask, Step, Want, run};
use iris_name::{Answer, Bytes, FileId, Name};
use iris_store::{MemStore, Told, Transfer};
use std::alloc::Global;
use std::test::Fail;

const ONE: Name = Name::Block {
    file: FileId(2),
    place: 1,
};

const TWO: Name = Name::Entry { id: FileId(2) };

static LONG: [u8; 9000] = [7; 9000];

static FRONT: [u8; 8192] = [7; 8192];

fn bytes(alloc: Global, bytes: &[u8]) -> Result<Bytes, Fail> {
    Ok(Bytes::of(bytes.to_vec(alloc)?))
}

fn put(alloc: Global, name: Name, given: &[u8], ok: bool) -> Result<Transfer, Fail> {
    let bytes = bytes(alloc, given)?;
    Ok(Transfer::Put { name, bytes, ok })
}

fn got(name: Name, answer: Answer) -> Transfer {
    Transfer::Got { name, answer }
}

// A store whose fourth and seventh calls fail.
fn failing(alloc: Global) -> Result<Told<MemStore>, Fail> {
    let fail = vec![in alloc; 4u64, 7]?;
    Ok(Told::new(alloc, MemStore::new(alloc, fail)))
}

fn traffic(alloc: Global) -> Result<Vec<Transfer>, Fail> {
    let first = put(alloc, ONE, b"abc", true)?;
    let given = Answer::Given(bytes(alloc, b"abc")?);
    let last = put(alloc, TWO, b"d", false)?;
    let dropped = Transfer::Dropped {
        name: ONE,
        ok: true,
    };
    let all = [
        first,
        got(ONE, given),
        got(TWO, Answer::Absent),
        got(ONE, Answer::Failed),
        dropped,
        got(ONE, Answer::Absent),
        last,
    ];
    Ok(Vec::from_array(alloc, all)?)
}

// A failure that isn't told, a record that is kept after its discard, or a call that is told otherwise.
#[test]
fn keeps_and_tells(rt: HostRuntime) -> Result<(), Fail> {
    let mut store = failing(rt.alloc())?;
    let steps = [
        Step::of(ONE, Ask::Put(b"abc"), Want::Done),
        Step::of(ONE, Ask::Get, Want::Given(b"abc")),
        Step::of(TWO, Ask::Get, Want::Absent),
        Step::of(ONE, Ask::Get, Want::Failed),
        Step::of(ONE, Ask::Discard, Want::Done),
        Step::of(ONE, Ask::Get, Want::Absent),
        Step::of(TWO, Ask::Put(b"d"), Want::Failed),
    ];
    assert_eq!(rt; run(rt.alloc(), &mut store, steps.as_slice()), None);
    assert!(rt; store.traffic() == traffic(rt.alloc())?.as_slice());
    Ok(())
}

// A long record that is given whole, or not at all.
#[test]
fn gives_the_front_of_a_long_record(rt: HostRuntime) {
    let mut store = MemStore::new(rt.alloc(), Vec::new(rt.alloc()));
    let steps = [
        Step::of(TWO, Ask::Put(LONG.as_slice()), Want::Done),
        Step::of(TWO, Ask::Get, Want::Given(FRONT.as_slice())),
        Step::of(TWO, Ask::Discard, Want::Done),
        Step::of(TWO, Ask::Get, Want::Absent),
    ];
    assert_eq!(rt; run(rt.alloc(), &mut store, steps.as_slice()), None);
}
