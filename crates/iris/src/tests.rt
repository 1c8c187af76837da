//! Whole runs over stores in memory, honest ones and others. Expected lines are written by hand.

use crate::memory::{MemSink, MemSource};
use crate::outcome::Registers;
use crate::outside::{Sink, Source};
use crate::top::registers;
use iris_log::MemLog;
use iris_mac::{Keys, tag};
use iris_name::{Bytes, FileId, Name, Note};
use iris_store::{Act, Deed, Kind, MemStore, ScriptStore, Told};
use std::alloc::Global;
use std::test::Fail;

const KEY: &str = "0000000000000000000000000000000000000000000000000000000000000000";

const FIRST: Name = Name::Block {
    file: FileId(2),
    place: 0,
};

// What a run ended with: what it printed; its status, its line, how many gets and how many notes there were.
#[derive(Drop)]
struct Ran {
    output: Vec<u8>,
    ends: (u8, u64, usize, usize),
}

// How many of these notes are of gets.
fn count_gets(notes: &[Note]) -> usize {
    let mut gets = 0usize;
    for note in notes {
        if matches!(note, Note::Got { .. }) {
            gets = gets.saturating_add(1);
        }
    }
    gets
}

// Runs a script over an honest store in whose place the deeds answer.
fn run_over(alloc: Global, script: &[u8], deeds: Vec<Deed>) -> Result<Ran, Fail> {
    let inner = MemStore::new(alloc, Vec::new(alloc));
    let link = Told::new(alloc, ScriptStore::new(inner, deeds));
    let mut source = MemSource::new(script.to_vec(alloc)?, 7, Vec::new(alloc));
    let mut out = MemSink::new(alloc, 65536, Vec::new(alloc))?;
    let Registers {
        status,
        line,
        link: _,
        log,
    } = registers(
        alloc,
        &["registers", KEY],
        &mut source,
        &mut out,
        link,
        MemLog::new(alloc),
    );
    Ok(Ran {
        output: out.bytes().to_vec(alloc)?,
        ends: (status, line, count_gets(log.notes()), log.notes().len()),
    })
}

// A deed on each call of a kind on the first place's block.
fn each(alloc: Global, call: Kind, act: Act) -> Result<Vec<Deed>, Fail> {
    let deed = Deed {
        call,
        name: Some(FIRST),
        nth: 0,
        act,
    };
    Ok(vec![in alloc; deed]?)
}

// The record of a block that begins with a byte and has zeros behind it, made by the tag alone.
fn record_of(alloc: Global, place: u32, version: u64, first: u8) -> Result<Bytes, Fail> {
    let mut block = [0u8; 4096];
    block[0] = first;
    let mac = tag(&Keys::of(&[0; 32]), FileId(2), place, version, &block);
    let mut record = block.to_vec(alloc)?;
    record.extend_from_slice(&mac)?;
    Ok(Bytes::of(record))
}

// The text of replies whose last is a block that begins with these digits and has zeros behind.
fn with_block(alloc: Global, front: &str, digits: &str) -> Result<String, Fail> {
    let zeros = "0".repeat(alloc, 8192usize.saturating_sub(digits.len()))?;
    Ok(format!(in alloc; "{front}{digits}{zeros}\n")?)
}

// Whether a run over an honest store prints this and ends so.
fn goes(
    alloc: Global,
    script: &[u8],
    output: &str,
    ends: (u8, u64, usize, usize),
) -> Result<bool, Fail> {
    let ran = run_over(alloc, script, Vec::new(alloc))?;
    Ok(ran.output.as_slice() == output.as_bytes() && ran.ends == ends)
}

// A run that loses bytes, or notes another number of calls and transfers than it makes.
#[test]
fn writes_and_reads(rt: HostRuntime) -> Result<(), Fail> {
    let alloc = rt.alloc();
    let written = with_block(alloc, "1 1 done\n1 2 bytes ", "6869")?;
    let unwritten = with_block(alloc, "1 1 bytes ", "")?;
    let cases: [(&[u8], &str, (u8, u64, usize, usize)); 4] = [
        (b"write 0 6869\nread 0\n", written.as_str(), (0, 0, 1, 4)),
        (b"", "", (0, 0, 0, 0)),
        (b"read 65535", unwritten.as_str(), (0, 0, 0, 1)),
        (b"write 65536 00\n", "", (2, 1, 0, 0)),
    ];
    for (script, output, ends) in cases {
        assert!(rt; goes(alloc, script, output, ends)?, "{script:?}");
    }
    Ok(())
}

#[test]
fn refuses_an_older_record(rt: HostRuntime) -> Result<(), Fail> {
    let old = record_of(rt.alloc(), 0, 1, 0x61)?;
    let deeds = each(rt.alloc(), Kind::Get, Act::Give(old))?;
    let ran = run_over(rt.alloc(), b"write 0 61\nwrite 0 61\nread 0\n", deeds)?;
    assert_eq!(rt;
        ran.output.as_slice(),
        b"1 1 done\n1 2 done\n1 3 refused BadAnswer block-2-0\n".as_slice()
    );
    assert_eq!(rt; ran.ends, (1, 0, 1, 6));
    Ok(())
}

#[test]
fn answers_from_a_kept_block(rt: HostRuntime) -> Result<(), Fail> {
    let deeds = each(rt.alloc(), Kind::Put, Act::Fail)?;
    let ran = run_over(rt.alloc(), b"write 0 6869\nread 0\n", deeds)?;
    let want = with_block(rt.alloc(), "1 1 done\n1 2 bytes ", "6869")?;
    assert_eq!(rt; ran.output.as_slice(), want.as_bytes());
    assert_eq!(rt; ran.ends, (0, 0, 0, 3));
    Ok(())
}

// Whether a read to which the store answers so is refused by this cause.
fn refuses(alloc: Global, act: Act, cause: &str) -> Result<bool, Fail> {
    let deeds = each(alloc, Kind::Get, act)?;
    let ran = run_over(alloc, b"write 0 68\nread 0\n", deeds)?;
    let want = format!(in alloc; "1 1 done\n1 2 refused {cause} block-2-0\n")?;
    Ok(ran.output.as_slice() == want.as_bytes() && ran.ends == (1, 0, 1, 4))
}

#[test]
fn refuses_other_records(rt: HostRuntime) -> Result<(), Fail> {
    let other = record_of(rt.alloc(), 1, 1, 0x68)?;
    assert!(rt; refuses(rt.alloc(), Act::Give(other), "BadAnswer")?);
    assert!(rt; refuses(rt.alloc(), Act::Absent, "BadAnswer")?);
    assert!(rt; refuses(rt.alloc(), Act::Fail, "StoreFailed")?);
    Ok(())
}

// The status of a run of one read whose source fails at one call and whose sink at another.
fn status_of(alloc: Global, source_fails: u64, sink_fails: u64) -> Result<u8, Fail> {
    let fails = vec![in alloc; source_fails]?;
    let mut source = MemSource::new(b"read 1\n".to_vec(alloc)?, 100, fails);
    let mut out = MemSink::new(alloc, 65536, vec![in alloc; sink_fails]?)?;
    let Registers {
        status,
        line: _,
        link: _,
        log: _,
    } = registers(
        alloc,
        &["registers", KEY],
        &mut source,
        &mut out,
        MemStore::new(alloc, Vec::new(alloc)),
        MemLog::new(alloc),
    );
    Ok(status)
}

#[test]
fn ends_by_the_outside(rt: HostRuntime) -> Result<(), Fail> {
    for (source_fails, sink_fails, status) in [(1, 0, 3), (2, 0, 3), (0, 1, 4), (0, 0, 0)] {
        assert_eq!(rt; status_of(rt.alloc(), source_fails, sink_fails)?, status);
    }
    Ok(())
}
