//! Bytes in hexadecimal digits as words of a line.

ghost use Rattle.std.specs.Prelude.{ℕ, List, IfOk, IfSome, IfNone};
ghost use Rattle.iris_script.specs.Words.{IsBytesWord, IsHexOf};

use hex::FromHexError;
use iris_name::{Bytes, NoMemory};
use std::alloc::Global;

/// Reads an even number, at least two, of hexadecimal digits of either case.
pub fn read_hex(alloc: Global, word: &[u8]) -> Result<Option<Bytes>, NoMemory>
    ensures some { IfOk result (λ read. IfSome read (λ bytes. IsHexOf word.now bytes)) }
    ensures none { IfOk result (λ read.
        IfNone read ((bytes : List ℕ) → IsHexOf word.now bytes → ⊥)) }
{
    if word.is_empty() {
        return Ok(None);
    }
    match hex::decode(alloc, word) {
        Ok(bytes) => Ok(Some(Bytes::of(bytes))),
        Err(FromHexError::OutOfMemory) => Err(NoMemory),
        Err(_) => Ok(None),
    }
}

/// Reads `-` for no bytes, or an even number, at least two, of hexadecimal digits of either case.
pub fn read_bytes(alloc: Global, word: &[u8]) -> Result<Option<Bytes>, NoMemory>
    ensures some { IfOk result (λ read. IfSome read (λ bytes. IsBytesWord word.now bytes)) }
    ensures none { IfOk result (λ read.
        IfNone read ((bytes : List ℕ) → IsBytesWord word.now bytes → ⊥)) }
{
    if word == b"-".as_slice() {
        Ok(Some(Bytes::of(Vec::new(alloc))))
    } else {
        read_hex(alloc, word)
    }
}
