//! Short files, written, read and cut.

ghost use Rattle.std.specs.Prelude.{◌≤◌};

use crate::filling::{Filled, empty_file, reads, resize, some_bytes, write};
use iris_name::Bytes;
use std::alloc::Global;
use std::test::Fail;

// What is read of a file of three bytes.
const READS: [(u64, u64, &[u8]); 4] = [(3, 5, &[]), (9, 1, &[]), (0, 0, &[]), (2, 5, &[3])];

fn three_bytes(alloc: Global) -> Result<Filled, Fail> {
    let mut filled = empty_file(alloc)?;
    let bytes = Bytes::of(vec![in alloc; 1, 2, 3]?);
    write(alloc, &mut filled, 0, &bytes)?;
    Ok(filled)
}

#[test]
fn reads_end_with_the_file(rt: HostRuntime) -> Result<(), Fail> {
    let filled = three_bytes(rt.alloc())?;
    for (offset, count, expected) in READS {
        assert!(rt; reads(rt.alloc(), &filled, offset, count, expected)?);
    }
    Ok(())
}

// Two bytes at 5,000, and what is read over the gap.
fn fills_the_gap(alloc: Global, filled: &mut Filled) -> Result<bool, Fail> {
    let bytes = Bytes::of(vec![in alloc; 255, 1]?);
    let count = write(alloc, filled, 5000, &bytes)?;
    Ok(count == 1 && reads(alloc, filled, 4998, 10, &[0, 0, 255, 1])?)
}

// A cut inside the block, and more length than before: the byte that was cut off reads as zero.
fn cuts_and_grows(alloc: Global, filled: &mut Filled) -> Result<bool, Fail> {
    let cut = resize(alloc, filled, 5001)?;
    let grown = resize(alloc, filled, 9000)?;
    let zeros = reads(alloc, filled, 4999, 4, &[0, 255, 0, 0])?;
    Ok(cut == 1 && grown == 0 && zeros)
}

// A cut to one block, which is a hole.
fn cuts_to_a_hole(alloc: Global, filled: &mut Filled) -> Result<bool, Fail> {
    Ok(resize(alloc, filled, 4096)? == 1 && filled.blocks.count() == 0)
}

// A file whose gap was filled, and whether it read so.
fn gapped(alloc: Global) -> Result<(Filled, bool), Fail> {
    let mut filled = empty_file(alloc)?;
    let fills = fills_the_gap(alloc, &mut filled)?;
    Ok((filled, fills))
}

#[test]
fn writes_reads_and_cuts(rt: HostRuntime) -> Result<(), Fail> {
    let (mut filled, fills) = gapped(rt.alloc())?;
    assert!(rt; fills);
    assert!(rt; cuts_and_grows(rt.alloc(), &mut filled)?);
    assert!(rt; cuts_to_a_hole(rt.alloc(), &mut filled)?);
    Ok(())
}

fn write_last(alloc: Global, filled: &mut Filled) -> Result<u32, Fail> {
    let bytes = some_bytes(alloc, 255, 1)?;
    write(alloc, filled, 268_435_455, &bytes)
}

// The last byte that a file may have.
fn ends_at_the_limit(alloc: Global) -> Result<bool, Fail> {
    let mut filled = empty_file(alloc)?;
    let count = write_last(alloc, &mut filled)?;
    Ok(count == 1 && reads(alloc, &filled, 268_435_455, 9, &[255])?)
}

#[test]
fn writes_the_last_byte(rt: HostRuntime) -> Result<(), Fail> {
    assert!(rt; ends_at_the_limit(rt.alloc())?);
    Ok(())
}
