//! Paths as words of a line.

ghost use Rattle.std.specs.Prelude.{◌<◌, ℕ, List, length, IsTrue, ◌↔◌, IfOk, IfSome, IfNone};
ghost use Rattle.iris_script.specs.Paths.{Begins, IsPathWord, IsUnescaped, Unescapes};

use iris_name::{NoMemory, Text};
use std::alloc::Global;

fn is_plain(byte: u8) -> bool
    ensures { IsTrue result ↔ IsUnescaped byte }
{
    byte > b' ' && byte != b'%' && byte != 0x7f
}

fn first_byte(word: &[u8]) -> Option<(u8, &[u8])>
    ensures some { IfSome result (λ found. Begins word.now found.0 found.1.now) }
    ensures none { IfNone result ((b : ℕ) (rest : List ℕ) → Begins word.now b rest → ⊥) }
{
    if word.len() >= 3 && word[0] == b'%' {
        let mut byte = [0u8];
        match hex::decode_to_slice(&word[1..3], &mut byte) {
            Ok(()) => Some((byte[0], &word[3..])),
            Err(_) => None,
        }
    } else if !word.is_empty() && is_plain(word[0]) {
        Some((word[0], &word[1..]))
    } else {
        None
    }
}

fn unescape(alloc: Global, word: &[u8]) -> Result<Option<Vec<u8>>, NoMemory>
    ensures some { IfOk result (λ read. IfSome read (λ bytes. Unescapes word.now bytes.items)) }
    ensures none { IfOk result (λ read.
        IfNone read ((bytes : List ℕ) → Unescapes word.now bytes → ⊥)) }
{
    let mut bytes = Vec::new(alloc);
    let mut rest = word;
    while !rest.is_empty() {
        let Some((byte, next)) = first_byte(rest) else {
            return Ok(None);
        };
        bytes.push(byte)?;
        rest = next;
    }
    Ok(Some(bytes))
}

/// Reads a path word: at least one byte of UTF-8, in which `%` and two digits stand for a byte. Whether the text
/// is a path is not asked.
pub fn read_path(alloc: Global, word: &[u8]) -> Result<Option<Text>, NoMemory>
    ensures some { IfOk result (λ read. IfSome read (λ path. IsPathWord word.now path)) }
    ensures none { IfOk result (λ read.
        IfNone read ((path : List ℕ) → IsPathWord word.now path → ⊥)) }
{
    let Some(bytes) = unescape(alloc, word)? else {
        return Ok(None);
    };
    if bytes.is_empty() {
        return Ok(None);
    }
    let Ok(text) = str::from_utf8(bytes.as_slice()) else {
        return Ok(None);
    };
    let text = String::from_str(alloc, text)?;
    Ok(Some(Text::of(text)))
}
