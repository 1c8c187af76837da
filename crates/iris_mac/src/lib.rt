//! HMAC by RFC 2104 with SHA-256, the keys made of a master key, the tags of blocks, and the priorities of entries.
//! Nothing here takes memory.
#![tactic(auto)]

pub mod block;
pub mod code;
pub mod keys;
pub mod order;

pub use block::{RECORD_LEN, passes, tag};
pub use code::hmac;
pub use keys::Keys;
pub use order::priority;
