//! The order of a directory's entries.

ghost use Rattle.std.specs.Prelude.{◌≡◌, take};
ghost use Rattle.std.specs.Int.{w64, from_be_bytes};
ghost use Rattle.iris_name.specs.Hmac.{priority};

use crate::code::hmac;
use crate::keys::Keys;
use iris_name::FileId;

// The first eight bytes as a number.
fn front_number(code: &[u8; 32]) -> u64
    ensures { result ≡ from_be_bytes w64 (take 8 code.now) }
{
    u64::from_be_bytes([
        code[0], code[1], code[2], code[3], code[4], code[5], code[6], code[7],
    ])
}

/// The priority of an entry among those of its directory: the first eight bytes, as a big-endian number, of the HMAC of
/// its id under the order key. The greater priority stands above, and of equal ones the smaller id.
#[tactic(auto, unfolding(iris_name::specs::Hmac::priority))]
pub fn priority(keys: &Keys, id: FileId) -> u64
    ensures { result ≡ priority keys.now.order id.0 }
{
    front_number(&hmac(&keys.order, &id.0.to_be_bytes()))
}
