//! The bytes of a file, written over and cut.

ghost use Rattle.std.specs.Prelude.{◌≡◌, ◌+◌, ◌<◌, ◌≤◌, ◌^◌, ◌++◌, [], length, take, drop, IfOk, OnOk, OnErr};
ghost use Rattle.iris_plain.specs.Files.{wrote, resized_bytes};

use iris_name::{Bytes, NoMemory};
use std::alloc::Global;

// Takes the bytes out.
fn taken(alloc: Global, bytes: &mut Bytes) -> Vec<u8>
    ensures { result.items ≡ bytes.old }
{
    std::mem::replace(bytes, Bytes::of(Vec::new(alloc))).into_vec()
}

/// Writes a piece over bytes that it fits in.
pub fn copy_at(held: &mut [u8], at: usize, piece: &[u8])
    requires { at + length piece.now ≤ length held.old }
    ensures { held.new ≡ take at held.old ++ (piece.now ++ drop (at + length piece.now) held.old) }
{
    held[at..at + piece.len()].copy_from_slice(piece);
}

// Writes a piece over the bytes at a place; a gap is filled with zeros.
fn write_over(held: &mut Vec<u8>, at: usize, piece: &[u8]) -> Result<(), NoMemory>
    requires { at + length piece.now < 2 ^ 63 }
    ensures ok { OnOk result (held.new.items ≡ wrote at piece.now held.old.items) }
    ensures err { OnErr result (held.new.items ≡ held.old.items) }
{
    let end = at + piece.len();
    if held.len() < end {
        held.resize(end, 0)?;
    }
    copy_at(held.as_mut_slice(), at, piece);
    Ok(())
}

/// Writes a piece over the bytes of a file at an offset; a gap is filled with zeros.
pub fn overwrite(
    alloc: Global,
    bytes: &mut Bytes,
    offset: u64,
    piece: &[u8],
) -> Result<(), NoMemory>
    requires { offset + length piece.now < 2 ^ 63 }
    ensures ok { OnOk result (bytes.new ≡ wrote offset piece.now bytes.old) }
    ensures err { OnErr result (bytes.new ≡ bytes.old) }
{
    let mut held = taken(alloc, bytes);
    let outcome = write_over(&mut held, offset as usize, piece);
    *bytes = Bytes::of(held);
    outcome
}

// Cuts the bytes, or fills them with zeros.
fn resize_held(held: &mut Vec<u8>, size: usize) -> Result<(), NoMemory>
    ensures ok { OnOk result (held.new.items ≡ resized_bytes size held.old.items) }
    ensures err { OnErr result (held.new.items ≡ held.old.items) }
{
    held.resize(size, 0)?;
    Ok(())
}

/// Cuts the bytes of a file, or fills them with zeros.
pub fn resize(alloc: Global, bytes: &mut Bytes, size: u64) -> Result<(), NoMemory>
    requires { size < 2 ^ 63 }
    ensures ok { OnOk result (bytes.new ≡ resized_bytes size bytes.old) }
    ensures err { OnErr result (bytes.new ≡ bytes.old) }
{
    let mut held = taken(alloc, bytes);
    let outcome = resize_held(&mut held, size as usize);
    *bytes = Bytes::of(held);
    outcome
}

/// The bytes of a file from an offset, so many or to its end.
pub fn piece(alloc: Global, bytes: &Bytes, offset: u64, count: u64) -> Result<Bytes, NoMemory>
    ensures { IfOk result (λ piece. piece ≡ take count (drop offset bytes.now)) }
{
    let all = bytes.as_slice();
    let rest = if offset < all.len() as u64 {
        &all[offset as usize..]
    } else {
        &[]
    };
    let piece = if (count as usize) < rest.len() {
        &rest[..count as usize]
    } else {
        rest
    };
    Ok(Bytes::of(piece.to_vec(alloc)?))
}
