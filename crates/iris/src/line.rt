//! The lines of a script of block registers.

ghost use Rattle.std.specs.Prelude.{◌≡◌, ◌≤◌, ◌++◌, ℕ, List, IfOk, IfErr, IfSome, IfNone, codes, map, length, vec_len};
ghost use Rattle.std.specs.List.{All};
ghost use Rattle.iris_script.specs.Cuts.{lines_of};
ghost use Rattle.iris.specs.Lines.{AllSpell, IsLineFault, IsInRange, IsRegisterNumber, IsWriteLine, SpellsLine, SpellsNone, request_of};

use iris_name::{Bytes, NoMemory, PAGE_LEN};
use iris_script::{cut_at, first_line, read_hex, read_number};
use std::alloc::{AllocFailed, Global};
use thiserror::Error;

/// How many registers there are.
pub const PLACES: u64 = 65536;

/// A line that was read. The bytes of a write are as spelled, not yet filled up to a block.
#[derive(Debug, Drop)]
pub enum Line {
    Write { place: u32, bytes: Bytes },
    Read { place: u32 },
}

/// Why the lines of a script aren't all read. Lines count from 1.
#[derive(Clone, Copy, Debug, PartialEq, Eq, Error)]
pub enum LineError {
    #[error("line {line} is no request")]
    NotRequest { line: u64 },
    #[error("out of memory")]
    NoMemory,
}

impl From<NoMemory> for LineError {
    ghost use Rattle.std.specs.Prelude.{◌≡◌};
    ghost use Rattle.iris.specs.declared.line.LineError.TheVariants.{NoMemory as OutOfMemory};

    ghost from_gives = { λ _ e. e ≡ OutOfMemory };

    fn from(_error: NoMemory) -> LineError {
        LineError::NoMemory
    }
}

impl<T: Drop> From<AllocFailed<T>> for LineError {
    ghost use Rattle.std.specs.Prelude.{◌≡◌};
    ghost use Rattle.iris.specs.declared.line.LineError.TheVariants.{NoMemory as OutOfMemory};

    ghost from_gives = { λ _ e. e ≡ OutOfMemory };

    fn from(_error: AllocFailed<T>) -> LineError {
        LineError::NoMemory
    }
}

fn read_place(word: &[u8]) -> Option<u32>
    ensures some { IfSome result (λ place. IsRegisterNumber word.now place) }
    ensures none { IfNone result ((place : ℕ) → IsRegisterNumber word.now place → ⊥) }
{
    let Some(number) = read_number(word) else {
        return None;
    };
    if number < PLACES {
        Some(number as u32)
    } else {
        None
    }
}

fn read_write(alloc: Global, words: &[u8]) -> Result<Option<(u32, Bytes)>, NoMemory>
    ensures some { IfOk result (λ read. IfSome read (λ found.
        IsWriteLine (codes "write " ++ words.now) found.0 found.1)) }
    ensures none { IfOk result (λ read. IfNone read ((place : ℕ) (bytes : List ℕ) →
        IsWriteLine (codes "write " ++ words.now) place bytes → ⊥)) }
{
    let Some((word, digits)) = cut_at(words, b' ') else {
        return Ok(None);
    };
    let Some(place) = read_place(word) else {
        return Ok(None);
    };
    if digits.len() > 2 * PAGE_LEN {
        return Ok(None);
    }
    match read_hex(alloc, digits)? {
        Some(bytes) => Ok(Some((place, bytes))),
        None => Ok(None),
    }
}

fn after<'a>(line: &'a [u8], front: &[u8]) -> Option<&'a [u8]>
    ensures some { IfSome result (λ rest. line.now ≡ front.now ++ rest.now) }
    ensures none { IfNone result ((rest : List ℕ) → line.now ≡ front.now ++ rest → ⊥) }
{
    line.strip_prefix(front)
}

/// Reads a line, without its line feed: `write PLACE HEX` or `read PLACE` with single blanks. PLACE is below
/// 65,536 in decimal, and HEX is 1 to 4,096 bytes in digits of either case.
pub fn read_line(alloc: Global, line: &[u8]) -> Result<Option<Line>, NoMemory>
    ensures some { IfOk result (λ read.
        IfSome read (λ found. SpellsLine line.now (request_of found))) }
    ensures range { IfOk result (λ read. IfSome read IsInRange) }
    ensures none { IfOk result (λ read. IfNone read (SpellsNone line.now)) }
{
    if let Some(words) = after(line, b"write ") {
        match read_write(alloc, words)? {
            Some((place, bytes)) => Ok(Some(Line::Write { place, bytes })),
            None => Ok(None),
        }
    } else if let Some(word) = after(line, b"read ") {
        match read_place(word) {
            Some(place) => Ok(Some(Line::Read { place })),
            None => Ok(None),
        }
    } else {
        Ok(None)
    }
}

/// Reads the lines of a script. Blanks more or less, empty lines, carriage returns and comments make a line no
/// request.
pub fn read_lines(alloc: Global, script: &[u8]) -> Result<Vec<Line>, LineError>
    ensures lines { IfOk result (λ lines.
        AllSpell (lines_of script.now) (map request_of lines.items)) }
    ensures range { IfOk result (λ lines. All IsInRange lines.items) }
    ensures count { IfOk result (λ lines. vec_len lines ≤ length script.now) }
    ensures bad { IfErr result (IsLineFault (lines_of script.now)) }
{
    let mut lines = Vec::new(alloc);
    let mut rest = script;
    while !rest.is_empty() {
        let (line, next) = first_line(rest);
        let Some(found) = read_line(alloc, line)? else {
            let line = lines.len() as u64 + 1;
            return Err(LineError::NotRequest { line });
        };
        lines.push(found)?;
        rest = next;
    }
    Ok(lines)
}

#[cfg(test)]
mod tests {
    use super::*;
    use std::test::Fail;

    // A form more than the two, which the definition would share.
    #[test]
    fn refuses_other_lines(rt: HostRuntime) -> Result<(), Fail> {
        let lines: [&[u8]; 11] = [
            b"write 65536 00",
            b"write 0  00",
            b" read 0",
            b"read 0 ",
            b"read 00",
            b"read 0\r",
            b"",
            b"# x",
            b"write 0 -",
            b"write 0",
            b"1 read 0",
        ];
        for line in lines {
            assert!(rt; read_line(rt.alloc(), line)?.is_none(), "{line:?}");
        }
        Ok(())
    }

    // The line that writes so many zeros at the last place.
    fn zeros(alloc: Global, count: usize) -> Result<String, Fail> {
        let digits = "00".repeat(alloc, count)?;
        Ok(format!(in alloc; "write 65535 {digits}")?)
    }

    // The place and the count of bytes of the write that a line is, if it is one.
    fn size_of_write(alloc: Global, line: &[u8]) -> Result<Option<(u32, usize)>, Fail> {
        match read_line(alloc, line)? {
            Some(Line::Write { place, bytes }) => Ok(Some((place, bytes.as_slice().len()))),
            Some(Line::Read { .. }) | None => Ok(None),
        }
    }

    // Whether a line writes these bytes at place 0.
    fn writes(alloc: Global, line: &[u8], wanted: &[u8]) -> Result<bool, Fail> {
        match read_line(alloc, line)? {
            Some(Line::Write { place, bytes }) => Ok(place == 0 && bytes.as_slice() == wanted),
            Some(Line::Read { .. }) | None => Ok(false),
        }
    }

    // A block of one byte more or less, and the case of digits.
    #[test]
    fn reads_blocks(rt: HostRuntime) -> Result<(), Fail> {
        for (count, wanted) in [(4096, Some((65535, 4096))), (4097, None)] {
            let line = zeros(rt.alloc(), count)?;
            assert_eq!(rt; size_of_write(rt.alloc(), line.as_bytes())?, wanted);
        }
        assert!(rt; writes(rt.alloc(), b"write 0 6A6b", b"jk")?);
        Ok(())
    }

    // How many lines a script has, or the fault that it is refused by.
    fn count(alloc: Global, script: &[u8]) -> Result<usize, LineError> {
        match read_lines(alloc, script) {
            Ok(lines) => Ok(lines.len()),
            Err(fault) => Err(fault),
        }
    }

    // Whether the second line of a script reads place 7.
    fn reads_seven(alloc: Global, script: &[u8]) -> Result<bool, Fail> {
        let lines = read_lines(alloc, script)?;
        Ok(matches!(lines.as_slice().get(1), Some(Line::Read { place: 7 })))
    }

    // A line counted from 0, or the last line lost.
    #[test]
    fn reads_scripts(rt: HostRuntime) -> Result<(), Fail> {
        let scripts: [(&[u8], Result<usize, LineError>); 5] = [
            (b"", Ok(0)),
            (b"write 0 6869\nread 7", Ok(2)),
            (b"read 0\nread 1\n", Ok(2)),
            (
                b"read 0\n\nread 1\n",
                Err(LineError::NotRequest { line: 2 }),
            ),
            (b"write 65536 00\n", Err(LineError::NotRequest { line: 1 })),
        ];
        for (script, wanted) in scripts {
            assert_eq!(rt; count(rt.alloc(), script), wanted);
        }
        assert!(rt; reads_seven(rt.alloc(), b"write 0 6869\nread 7")?);
        Ok(())
    }
}
