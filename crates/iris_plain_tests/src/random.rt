//! The table beside the plain file system, over requests drawn from a fixed seed.

ghost use Rattle.std.specs.Prelude.{◌<◌};

use crate::lines::keys;
use iris_name::{Bytes, Request, Text};
use iris_plain::Plain;
use iris_table::Table;
use std::alloc::Global;
use std::test::Fail;

const PATHS: [&str; 10] = [
    "/", "/a", "/b", "/a/a", "/a/b", "/b/a", "/a/a/b", "/b/a/b", "/a/a/b/a", "bad",
];

const OFFSETS: [u64; 8] = [
    0,
    1,
    4095,
    4096,
    5000,
    9000,
    268_435_456,
    18_446_744_073_709_551_615,
];

const LENGTHS: [u64; 9] = [
    0,
    1,
    4095,
    4096,
    4097,
    12_288,
    270_336,
    300_000,
    268_435_457,
];

// A linear congruential generator.
#[derive(Drop)]
struct Draws {
    state: u64,
}

impl Draws {
    // A number below another.
    fn below(&mut self, count: usize) -> usize
        requires { 0 < count }
        ensures { result < count }
    {
        self.state = self
            .state
            .wrapping_mul(6_364_136_223_846_793_005)
            .wrapping_add(1_442_695_040_888_963_407);
        (self.state >> 33) as usize % count
    }

    // A path of a few.
    fn path(&mut self, alloc: Global) -> Result<Text, Fail> {
        Ok(Text::of(PATHS[self.below(PATHS.len())].to_string(alloc)?))
    }
}

// What a request may be over: two paths, an offset and a length.
#[derive(Drop)]
struct Drawn {
    path: Text,
    other: Text,
    offset: u64,
    length: u64,
}

fn draw(alloc: Global, draws: &mut Draws) -> Result<Drawn, Fail> {
    Ok(Drawn {
        path: draws.path(alloc)?,
        other: draws.path(alloc)?,
        offset: OFFSETS[draws.below(OFFSETS.len())],
        length: LENGTHS[draws.below(LENGTHS.len())],
    })
}

// So many bytes of one value.
fn filled(alloc: Global, byte: u64, count: u64) -> Result<Bytes, Fail> {
    let mut bytes = Vec::new(alloc);
    bytes.resize(count as usize, (byte % 256) as u8)?;
    Ok(Bytes::of(bytes))
}

// A write, or a look at what stands.
fn write_or_look(alloc: Global, kind: usize, drawn: Drawn) -> Result<Request, Fail> {
    let Drawn {
        path,
        other,
        offset,
        length,
    } = drawn;
    Ok(match kind {
        4..=6 => Request::Write {
            path,
            offset,
            bytes: filled(alloc, offset / 7, length % 262_146)?,
        },
        7 | 8 => Request::Read {
            path,
            offset,
            length,
        },
        11 => Request::Stat { path },
        _ => Request::List { path, after: other },
    })
}

// A change of what stands at a path.
fn change(kind: usize, drawn: Drawn) -> Request {
    let Drawn {
        path,
        other,
        offset: _,
        length,
    } = drawn;
    match kind {
        0 | 1 => Request::Mkdir { path },
        2 | 3 => Request::Create { path },
        9 | 10 => Request::Resize { path, length },
        13 => Request::Rename {
            from: path,
            to: other,
        },
        _ => Request::Remove { path },
    }
}

// The next request of the plain file system.
fn drawn_request(alloc: Global, draws: &mut Draws) -> Result<Request, Fail> {
    let drawn = draw(alloc, draws)?;
    let kind = draws.below(15);
    match kind {
        4..=8 | 11 | 12 => write_or_look(alloc, kind, drawn),
        _ => Ok(change(kind, drawn)),
    }
}

// Whether both have the same reply to a request.
fn serve_alike(
    alloc: Global,
    plain: &mut Plain,
    table: &mut Table,
    request: &Request,
) -> Result<bool, Fail> {
    match request {
        Request::Sync | Request::Root | Request::Reclaim | Request::Probe { .. } => Ok(true),
        _ => Ok(plain.step(alloc, request)? == table.step(alloc, request)?),
    }
}

// The first of so many requests at which they differ. A step of reclaiming comes after each.
fn differs(alloc: Global, count: u32) -> Result<Option<u32>, Fail> {
    let mut plain = Plain::new(alloc)?;
    let mut table = Table::new(alloc, &keys())?;
    let mut draws = Draws { state: 1 };
    for k in 0..count {
        let request = drawn_request(alloc, &mut draws)?;
        if !serve_alike(alloc, &mut plain, &mut table, &request)? {
            return Ok(Some(k));
        }
        table.step(alloc, &Request::Reclaim)?;
    }
    Ok(None)
}

// A definition of the table that differs from that of the plain file system, in a check or in what a change leaves.
#[test]
fn serves_as_the_plain_file_system(rt: HostRuntime) -> Result<(), Fail> {
    assert_eq!(rt; differs(rt.alloc(), 3000)?, None);
    Ok(())
}
