//! Requests by choices from a fixed seed, over a few names.

ghost use Rattle.std.specs.Prelude.{◌≤◌, ◌<◌};

use crate::filling::some_bytes;
use iris_name::{Request, Text};
use iris_testing::dice::Dice;
use iris_testing::planning::text;
use std::alloc::Global;
use std::test::Fail;

fn some_letter(dice: &mut Dice) -> char {
    (b'a' + dice.roll(6) as u8) as char
}

// A name of one letter.
fn some_name(alloc: Global, dice: &mut Dice) -> Result<Text, Fail> {
    let mut words = String::new(alloc);
    words.push(some_letter(dice))?;
    Ok(Text::of(words))
}

// One of the last few paths that were there once, or the root's, as an empty text.
fn some_past<'a>(dice: &mut Dice, met: &'a [Text]) -> &'a str {
    let back = dice.roll(met.len().saturating_add(1).min(9) as u32) as usize;
    if back > 0 && back <= met.len() {
        return met[met.len() - back].as_str();
    }
    ""
}

// One of the last few paths that were there once, or one more step from there, or from the root.
fn some_path(alloc: Global, dice: &mut Dice, met: &[Text]) -> Result<Text, Fail> {
    let past = some_past(dice, met);
    if !past.is_empty() && dice.roll(4) > 0 {
        return text(alloc, past);
    }
    let words = format!(in alloc; "{past}/{}", some_letter(dice))?;
    Ok(Text::of(words))
}

// An offset near one of a few places, or inside the first blocks.
fn some_offset(dice: &mut Dice) -> u64
    ensures { result < 100000 }
{
    u64::from(dice.roll(3)) * 24_000 + u64::from(dice.roll(9000))
}

// So many bytes, of which some fill a block, some a few, and some less than one.
fn some_count(dice: &mut Dice) -> usize
    ensures { result ≤ 20001 }
{
    match dice.roll(4) {
        0 => 4096,
        1 => dice.roll(20_000) as usize + 1,
        _ => dice.roll(3000) as usize + 1,
    }
}

// A write, often of whole blocks.
fn some_write(alloc: Global, dice: &mut Dice, path: Text) -> Result<Request, Fail> {
    let offset = some_offset(dice);
    let offset = if dice.roll(3) == 0 {
        offset / 4096 * 4096
    } else {
        offset
    };
    let count = some_count(dice);
    Ok(Request::Write {
        path,
        offset,
        bytes: some_bytes(alloc, dice.roll(256) as u8, count)?,
    })
}

// A change of a file's bytes, or a look at them.
fn of_bytes(alloc: Global, dice: &mut Dice, path: Text) -> Result<Request, Fail> {
    match dice.roll(6) {
        0 => Ok(Request::Resize {
            path,
            length: some_offset(dice) + 1,
        }),
        1 | 2 => Ok(Request::Read {
            path,
            offset: some_offset(dice),
            length: u64::from(dice.roll(40_000)),
        }),
        _ => some_write(alloc, dice, path),
    }
}

// A change of what stands at a path, or a look at it.
fn of_rows(alloc: Global, dice: &mut Dice, path: Text, met: &[Text]) -> Result<Request, Fail> {
    Ok(match dice.roll(7) {
        0 => Request::Mkdir { path },
        1 => Request::Create { path },
        2 => Request::Stat { path },
        3 => Request::List {
            path,
            after: some_name(alloc, dice)?,
        },
        4 => Request::Probe {
            at: u64::from(dice.roll(300)),
        },
        _ => Request::Rename {
            from: path,
            to: some_path(alloc, dice, met)?,
        },
    })
}

pub(crate) fn some_request(alloc: Global, dice: &mut Dice, met: &[Text]) -> Result<Request, Fail> {
    let path = some_path(alloc, dice, met)?;
    if dice.roll(2) == 0 {
        of_bytes(alloc, dice, path)
    } else {
        of_rows(alloc, dice, path, met)
    }
}

// Something for the table to have before there is a cache.
pub(crate) fn some_filling(alloc: Global, dice: &mut Dice, met: &[Text]) -> Result<Request, Fail> {
    let path = some_path(alloc, dice, met)?;
    Ok(match dice.roll(3) {
        0 => Request::Mkdir { path },
        1 => Request::Create { path },
        _ => Request::Resize {
            path,
            length: u64::from(dice.roll(20_000)),
        },
    })
}

// The path that there is once a request is done.
fn made_by<'a>(request: &'a Request) -> Option<&'a Text> {
    match request {
        Request::Mkdir { path } => Some(path),
        Request::Create { path } => Some(path),
        Request::Rename { to, .. } => Some(to),
        _ => None,
    }
}

// Keeps the path of a request that was done.
pub(crate) fn keep(alloc: Global, met: &mut Vec<Text>, request: &Request) -> Result<(), Fail> {
    if let Some(path) = made_by(request) {
        met.push(path.copy(alloc)?)?;
    }
    Ok(())
}
