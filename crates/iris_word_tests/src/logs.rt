//! Notes are kept in order.

use iris_log::{Log, MemLog, NullLog};
use iris_name::{Note, Reply, Request};
use std::alloc::Global;
use std::test::Fail;

// The note of a call of `sync`.
fn call(who: u32) -> Note {
    Note::Call {
        who,
        request: Request::Sync,
        reply: Reply::Synced,
    }
}

fn noted(alloc: Global) -> Result<MemLog, Fail> {
    let mut log = MemLog::new(alloc);
    log.ready(2)?;
    log.note(call(1));
    log.note(call(2));
    Ok(log)
}

// A note that is lost or goes first.
#[test]
fn keeps_notes_in_order(rt: HostRuntime) -> Result<(), Fail> {
    let log = noted(rt.alloc())?;
    assert!(rt; log.notes() == [call(1), call(2)].as_slice());
    let mut quiet = NullLog::new();
    quiet.ready(1)?;
    quiet.note(call(1));
    Ok(())
}
