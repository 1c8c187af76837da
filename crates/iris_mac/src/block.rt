//! The tags of blocks.

ghost use Rattle.std.specs.Prelude.{◌≡◌, ◌↔◌, length, IsTrue};
ghost use Rattle.iris_name.specs.Hmac.{tag, Passes};

use crate::code::{begin, finish};
use crate::keys::Keys;
use iris_name::{FileId, PAGE_LEN};
use sha2::Digest;

/// How many bytes a block's record has: the block and its tag.
pub const RECORD_LEN: usize = 4128;

/// The tag of a block: the HMAC of its file, place, version and bytes under the block key. The block isn't copied.
pub fn tag(keys: &Keys, file: FileId, place: u32, version: u64, block: &[u8]) -> [u8; 32]
    requires { length block.now ≡ PAGE_LEN }
    ensures { result ≡ tag keys.now.block file.0 place version block.now }
{
    let mut inner = begin(&keys.block);
    inner.update(file.0.to_be_bytes());
    inner.update(place.to_be_bytes());
    inner.update(version.to_be_bytes());
    inner.update(block);
    finish(&keys.block, inner)
}

/// Whether the bytes are a block's record for this file, place and version.
pub fn passes(keys: &Keys, file: FileId, place: u32, version: u64, bytes: &[u8]) -> bool
    ensures { IsTrue result ↔ Passes keys.now.block file.0 place version bytes.now }
{
    if bytes.len() != RECORD_LEN {
        return false;
    }
    let (block, mac) = bytes.split_at(PAGE_LEN);
    let want = tag(keys, file, place, version, block);
    is_code(mac, &want)
}

// Whether the bytes are this code. All of them are compared, so the time doesn't depend on where they differ.
fn is_code(bytes: &[u8], code: &[u8; 32]) -> bool
    requires { length bytes.now ≡ 32 }
    ensures { IsTrue result ↔ (bytes.now ≡ code.now) }
{
    let mut differences = 0u8;
    for (i, byte) in code.iter().enumerate() {
        differences |= byte ^ bytes[i];
    }
    differences == 0
}
