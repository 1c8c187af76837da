//! The name of an entry in the trash.

ghost use Rattle.std.specs.Prelude.{◌≡◌, ◌<◌, ◌-◌, IfOk, ℕ, slice_index};
ghost use Rattle.iris_rows.specs.Changes.{trash_name, hex_digit};

use iris_name::{FileId, NoMemory, Text};
use std::alloc::Global;

// The digit of a number below 16.
fn digit(number: u8) -> u8
    requires { number < 16 }
    ensures value { result ≡ hex_digit number }
    ensures ascii { result < 128 }
{
    if number < 10 {
        b'0' + number
    } else {
        b'a' - 10 + number
    }
}

// The 16 digits of a number.
fn digits(number: u64) -> [u8; 16]
    ensures value { result ≡ trash_name number }
    ensures ascii { (k : ℕ) → k < 16 → slice_index result k < 128 }
{
    let mut digits = [0; 16];
    let mut left = number;
    for k in 0..16 {
        digits[15 - k] = digit((left % 16) as u8);
        left /= 16;
    }
    digits
}

/// The name of an entry in the trash: the 16 digits of its id.
pub fn trash_name(alloc: Global, id: FileId) -> Result<Text, NoMemory>
    ensures { IfOk result (λ name. name ≡ trash_name id.0) }
{
    let digits = digits(id.0);
    let mut text = String::new(alloc);
    for k in 0..16 {
        text.push(char::from(digits[k]))?;
    }
    Ok(Text::of(text))
}
