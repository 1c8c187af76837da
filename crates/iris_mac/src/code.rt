//! HMAC by RFC 2104.

ghost use Rattle.std.specs.Prelude.{◌≡◌, ◌++◌, ◌≤◌, ℕ, List, length, drop};
ghost use Rattle.iris_name.specs.Hmac.{hmac, key_block, padded_with};
ghost use Rattle.sha2.specs.Hashers.{Holds256};

use sha2::{Digest, Sha256};

const INNER_PAD: u8 = 0x36;

const OUTER_PAD: u8 = 0x5c;

// Writes bytes over the front.
fn put_front(to: &mut [u8], from: &[u8])
    requires { length from.now ≤ length to.old }
    ensures { to.new ≡ from.now ++ drop (length from.now) to.old }
{
    to[..from.len()].copy_from_slice(from);
}

// The key of 64 bytes.
#[tactic(auto, unfolding(iris_name::specs::Hmac::key_block))]
fn block_of(key: &[u8]) -> [u8; 64]
    ensures { result ≡ key_block key.now }
{
    let mut block = [0u8; 64];
    if key.len() <= 64 {
        put_front(&mut block, key);
    } else {
        let digest: [u8; 32] = Sha256::digest(key);
        put_front(&mut block, &digest);
    }
    block
}

// Adds a pad's byte to each byte, bit by bit.
fn add_pad(block: &mut [u8], pad: u8)
    ensures { block.new ≡ padded_with pad block.old }
{
    for b in block.iter_mut() {
        *b ^= pad;
    }
}

// The key's block with a pad.
fn padded_key(key: &[u8], pad: u8) -> [u8; 64]
    ensures { result ≡ padded_with pad (key_block key.now) }
{
    let mut block = block_of(key);
    add_pad(&mut block, pad);
    block
}

// A hasher that holds the key's block with the inner pad: the text comes next.
pub(crate) fn begin(key: &[u8]) -> Sha256
    ensures { Holds256 result (padded_with 0x36 (key_block key.now)) }
{
    let mut inner = Sha256::new();
    inner.update(padded_key(key, INNER_PAD));
    inner
}

// The code of the text that the hasher has after the key's block.
#[tactic(auto, unfolding(iris_name::specs::Hmac::hmac))]
pub(crate) fn finish(key: &[u8], inner: Sha256) -> [u8; 32]
    ensures { (text : List ℕ) →
        Holds256 inner (padded_with 0x36 (key_block key.now) ++ text) → result ≡ hmac key.now text }
{
    let digest: [u8; 32] = inner.finalize();
    let mut outer = Sha256::new();
    outer.update(padded_key(key, OUTER_PAD));
    outer.update(digest);
    outer.finalize()
}

/// The code of a text under a key of any length: RFC 2104 with SHA-256.
pub fn hmac(key: &[u8], text: &[u8]) -> [u8; 32]
    ensures { result ≡ hmac key.now text.now }
{
    let mut inner = begin(key);
    inner.update(text);
    finish(key, inner)
}
