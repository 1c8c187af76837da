//! Numbers as words of a line.

ghost use Rattle.std.specs.Prelude.{ℕ, IfSome, IfNone};
ghost use Rattle.iris_script.specs.Words.{IsNumber};

use itoa::Buffer;

/// Reads `0`, or decimal digits without a leading zero, as a number of 64 bits.
pub fn read_number(word: &[u8]) -> Option<u64>
    ensures some { IfSome result (λ n. IsNumber word.now n) }
    ensures none { IfNone result ((n : ℕ) → IsNumber word.now n → ⊥) }
{
    let Ok(text) = str::from_utf8(word) else {
        return None;
    };
    let Ok(number) = text.parse::<u64>() else {
        return None;
    };
    let mut buffer = Buffer::new();
    if buffer.format(number).as_bytes() == word {
        Some(number)
    } else {
        None
    }
}
