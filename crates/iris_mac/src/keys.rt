//! The keys that are made of the master key.

ghost use Rattle.std.specs.Prelude.{◌≡◌};
ghost use Rattle.iris_name.specs.Hmac.{block_key, order_key, layout_key, audit_key};

use crate::code::hmac;

/// The keys of a portal: each is the HMAC of its own name under the master key.
#[derive(Clone, Copy)]
pub struct Keys {
    /// Tags blocks.
    pub block: [u8; 32],
    /// Orders the entries of a directory.
    pub order: [u8; 32],
    /// Lays blocks out in stripes.
    pub layout: [u8; 32],
    /// Draws challenges.
    pub audit: [u8; 32],
}

impl Keys {
    /// The keys of a master key.
    pub fn of(master: &[u8; 32]) -> Keys
        ensures block { result.block ≡ block_key master.now }
        ensures order { result.order ≡ order_key master.now }
        ensures layout { result.layout ≡ layout_key master.now }
        ensures audit { result.audit ≡ audit_key master.now }
    {
        Keys {
            block: hmac(master, b"block"),
            order: hmac(master, b"order"),
            layout: hmac(master, b"layout"),
            audit: hmac(master, b"audit"),
        }
    }
}
