//! Deeds that answer in a store's place.

use crate::asking::{Ask, Step, Want, run};
use iris_name::{Bytes, FileId, Name};
use iris_store::{Act, Deed, Kind, MemStore, ScriptStore};
use std::alloc::Global;
use std::test::Fail;

const ONE: Name = Name::Entry { id: FileId(1) };

const TWO: Name = Name::Entry { id: FileId(2) };

static FRONT: [u8; 8192] = [7; 8192];

fn deed(call: Kind, name: Option<Name>, nth: u32, act: Act) -> Deed {
    Deed {
        call,
        name,
        nth,
        act,
    }
}

fn scripted(alloc: Global) -> Result<ScriptStore<MemStore>, Fail> {
    let long = Bytes::of(vec![in alloc; 7u8; 9000]?);
    let deeds = [
        deed(Kind::Get, None, 2, Act::Absent),
        deed(Kind::Get, Some(ONE), 0, Act::Give(long)),
        deed(Kind::Get, None, 2, Act::Fail),
        deed(Kind::Get, None, 4, Act::Fail),
        deed(Kind::Put, Some(ONE), 1, Act::Fail),
        deed(Kind::Put, None, 0, Act::Absent),
        deed(Kind::Discard, None, 2, Act::Fail),
    ];
    let deeds = Vec::from_array(alloc, deeds)?;
    Ok(ScriptStore::new(MemStore::new(alloc, Vec::new(alloc)), deeds))
}

// A deed that counts only what it answers, a spent one that answers again, an answer to a put.
#[test]
fn deeds_answer_in_turn(rt: HostRuntime) -> Result<(), Fail> {
    let mut store = scripted(rt.alloc())?;
    let steps = [
        Step::of(TWO, Ask::Put(b"abc"), Want::Done),
        Step::of(ONE, Ask::Put(b"abc"), Want::Failed),
        Step::of(ONE, Ask::Get, Want::Given(FRONT.as_slice())),
        Step::of(TWO, Ask::Get, Want::Absent),
        Step::of(TWO, Ask::Get, Want::Given(b"abc")),
        Step::of(TWO, Ask::Get, Want::Failed),
        Step::of(ONE, Ask::Discard, Want::Done),
        Step::of(TWO, Ask::Discard, Want::Failed),
        Step::of(TWO, Ask::Discard, Want::Done),
        Step::of(TWO, Ask::Get, Want::Absent),
    ];
    assert_eq!(rt; run(rt.alloc(), &mut store, steps.as_slice()), None);
    Ok(())
}
