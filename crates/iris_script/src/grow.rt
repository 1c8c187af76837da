//! Pieces of text put at the end of a text.

ghost use Rattle.std.specs.Prelude.{◌≡◌, ◌∷◌, ◌++◌, [], OnOk, decimal};
ghost use Rattle.hex.specs.Hex.{encode_lower};
ghost use Rattle.iris_name.specs.NameText.{name_text};
ghost use Rattle.iris_script.specs.Growing.{Grows};

use iris_name::{Name, NoMemory};

const DIGITS: &[u8; 16] = b"0123456789abcdef";

/// Puts these bytes last.
pub fn push_bytes(text: &mut Vec<u8>, bytes: &[u8]) -> Result<(), NoMemory>
    ensures ok { OnOk result (text.new.items ≡ text.old.items ++ bytes.now) }
    ensures grows { Grows text.old.items text.new.items }
{
    text.extend_from_slice(bytes)?;
    Ok(())
}

/// Puts a number last, in decimal.
pub fn push_number(text: &mut Vec<u8>, number: u64) -> Result<(), NoMemory>
    ensures ok { OnOk result (text.new.items ≡ text.old.items ++ decimal number) }
    ensures grows { Grows text.old.items text.new.items }
{
    let mut buffer = itoa::Buffer::new();
    push_bytes(text, buffer.format(number).as_bytes())
}

/// Puts a byte last, as two lower-case digits.
pub fn push_hex_byte(text: &mut Vec<u8>, byte: u8) -> Result<(), NoMemory>
    ensures ok { OnOk result (text.new.items ≡ text.old.items ++ encode_lower (byte ∷ [])) }
    ensures grows { Grows text.old.items text.new.items }
{
    let digits = [DIGITS[(byte / 16) as usize], DIGITS[(byte % 16) as usize]];
    push_bytes(text, digits.as_slice())
}

/// Puts bytes last, two lower-case digits a byte.
pub fn push_hex(text: &mut Vec<u8>, bytes: &[u8]) -> Result<(), NoMemory>
    ensures ok { OnOk result (text.new.items ≡ text.old.items ++ encode_lower bytes.now) }
    ensures grows { Grows text.old.items text.new.items }
{
    for byte in bytes {
        push_hex_byte(text, *byte)?;
    }
    Ok(())
}

/// Puts a number last, and a piece of text before it.
pub fn push_numbered(text: &mut Vec<u8>, front: &[u8], number: u64) -> Result<(), NoMemory>
    ensures ok { OnOk result (text.new.items ≡ text.old.items ++ (front.now ++ decimal number)) }
    ensures grows { Grows text.old.items text.new.items }
{
    push_bytes(text, front)?;
    push_number(text, number)
}

/// Puts the text of a name last.
pub fn push_name(text: &mut Vec<u8>, name: Name) -> Result<(), NoMemory>
    ensures ok { OnOk result (text.new.items ≡ text.old.items ++ name_text name) }
    ensures grows { Grows text.old.items text.new.items }
{
    match name {
        Name::Entry { id } => push_numbered(text, b"entry-", id.0),
        Name::Part { file, level, index } => {
            push_numbered(text, b"part-", file.0)?;
            push_numbered(text, b"-", u64::from(level))?;
            push_numbered(text, b"-", u64::from(index))
        }
        Name::Block { file, place } => {
            push_numbered(text, b"block-", file.0)?;
            push_numbered(text, b"-", u64::from(place))
        }
    }
}
