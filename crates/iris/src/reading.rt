//! A whole source, read to its end.

ghost use Rattle.std.specs.Prelude.{◌≡◌, ◌≤◌, ◌<◌, IfOk, IfErr, length};
ghost use Rattle.iris.specs.Reading.{IsAllOf, MayEnd};

use crate::outside::Source;
use iris_name::{Failed, NoMemory};
use std::alloc::{AllocError, AllocFailed, Global};
use thiserror::Error;

/// How many bytes a script has at most.
pub const SCRIPT_LEN: usize = 16_777_216;

// How many bytes a read asks for at most.
const PIECE_LEN: usize = 65_536;

/// Why a source isn't read.
#[derive(Clone, Copy, Debug, PartialEq, Eq, Error)]
pub enum ReadError {
    #[error("the source failed")]
    Failed,
    #[error("the source is too long")]
    TooLong,
    #[error("out of memory")]
    NoMemory,
}

impl From<AllocError> for ReadError {
    ghost use Rattle.std.specs.Prelude.{◌≡◌};
    ghost use Rattle.iris.specs.declared.reading.ReadError.TheVariants.{NoMemory};

    ghost from_gives = { λ _ e. e ≡ NoMemory };

    fn from(_error: AllocError) -> ReadError {
        ReadError::NoMemory
    }
}

impl<T: Drop> From<AllocFailed<T>> for ReadError {
    ghost use Rattle.std.specs.Prelude.{◌≡◌};
    ghost use Rattle.iris.specs.declared.reading.ReadError.TheVariants.{NoMemory};

    ghost from_gives = { λ _ e. e ≡ NoMemory };

    fn from(_error: AllocFailed<T>) -> ReadError {
        ReadError::NoMemory
    }
}

impl From<Failed> for ReadError {
    ghost use Rattle.std.specs.Prelude.{◌≡◌};
    ghost use Rattle.iris.specs.declared.reading.ReadError.TheVariants.{Failed as HasFailed};

    ghost from_gives = { λ _ e. e ≡ HasFailed };

    fn from(_error: Failed) -> ReadError {
        ReadError::Failed
    }
}

// Room for a piece.
fn room(alloc: Global, len: usize) -> Result<Vec<u8>, ReadError>
    ensures len { IfOk result (λ room. length room.items ≡ len) }
    ensures err { IfErr result (λ e. e ≡ ReadError.NoMemory) }
{
    Ok(vec![in alloc; 0u8; len]?)
}

// Reads a source to its end by way of a piece, at most so many bytes.
#[tactic(auto, using(crate::proofs::Sources::taken_none, crate::proofs::Sources::taken_more, crate::proofs::Sources::taken_all, crate::proofs::Sources::taken_over))]
fn read_within<R: Source>(
    alloc: Global,
    source: &mut R,
    piece: &mut [u8],
    most: usize,
) -> Result<Vec<u8>, ReadError>
    requires piece { 0 < length piece.old }
    requires most { most < usize.MAX }
    ensures whole { IfOk result (λ bytes.
        IsAllOf (R.left source.old) (R.left source.new) bytes.items) }
    ensures len { IfOk result (λ bytes. length bytes.items ≤ most) }
    ensures cause { IfErr result (λ e.
        MayEnd (R.left source.old) (R.faults source.old) (R.faults source.new) most e) }
    ensures later { R.faults source.old ≤ R.faults source.new }
{
    let mut bytes = Vec::new(alloc);
    for i in 0..most + 1 {
        let len = source.read(piece)?;
        if len == 0 {
            return Ok(bytes);
        }
        if len > most - bytes.len() {
            return Err(ReadError::TooLong);
        }
        bytes.extend_from_slice(&piece[..len])?;
    }
    Err(ReadError::TooLong)
}

/// Reads a source to its end, at most `SCRIPT_LEN` bytes. After an error it isn't said how many bytes the source still has.
pub fn read_all<R: Source>(alloc: Global, source: &mut R) -> Result<Vec<u8>, ReadError>
    ensures whole { IfOk result (λ bytes.
        IsAllOf (R.left source.old) (R.left source.new) bytes.items) }
    ensures len { IfOk result (λ bytes. length bytes.items ≤ SCRIPT_LEN) }
    ensures cause { IfErr result (λ e.
        MayEnd (R.left source.old) (R.faults source.old) (R.faults source.new) SCRIPT_LEN e) }
    ensures later { R.faults source.old ≤ R.faults source.new }
{
    let mut piece = room(alloc, PIECE_LEN)?;
    read_within(alloc, source, piece.as_mut_slice(), SCRIPT_LEN)
}

#[cfg(test)]
mod tests {
    use super::*;
    use crate::memory::MemSource;
    use std::test::Fail;

    // A short read taken for the end, a limit that is one off.
    #[test]
    fn reads_to_the_end(rt: HostRuntime) -> Result<(), Fail> {
        let alloc = rt.alloc();
        let bytes = b"a script".to_vec(alloc)?;
        let mut source = MemSource::new(bytes, 3, Vec::new(alloc));
        let read = read_all(alloc, &mut source)?;
        assert_eq!(rt; read.as_slice(), b"a script".as_slice());
        let fail = vec![in alloc; 3u64]?;
        let mut source = MemSource::new(b"a script".to_vec(alloc)?, 3, fail);
        assert!(rt; read_all(alloc, &mut source) == Err(ReadError::Failed));
        Ok(())
    }

    // The longest script, and one byte more.
    #[test]
    fn keeps_the_limit(rt: HostRuntime) -> Result<(), Fail> {
        let alloc = rt.alloc();
        let mut source = MemSource::new(room(alloc, SCRIPT_LEN)?, 65_536, Vec::new(alloc));
        let read = read_all(alloc, &mut source)?;
        assert_eq!(rt; read.len(), 16_777_216);
        let bytes = room(alloc, SCRIPT_LEN + 1)?;
        let mut source = MemSource::new(bytes, 65_536, Vec::new(alloc));
        assert!(rt; read_all(alloc, &mut source) == Err(ReadError::TooLong));
        Ok(())
    }
}
