//! The words of the command line.

ghost use Rattle.std.specs.Prelude.{ℕ, List, map, IfSome, IfNone};
ghost use Rattle.iris.specs.Words.{AreWords, IsCommand, IsKey};

use hex::FromHex;

// The master key that these digits spell.
fn read_key(digits: &str) -> Option<[u8; 32]>
    ensures some { IfSome result (λ master. IsKey digits.now master) }
    ensures none { IfNone result ((master : List ℕ) → IsKey digits.now master → ⊥) }
{
    <[u8; 32] as FromHex>::from_hex(digits).ok()
}

/// The master key that a command's words give: they are the command and the key's 64 hexadecimal digits of either case.
pub fn read_command(command: &str, words: &[&str]) -> Option<[u8; 32]>
    ensures some { IfSome result (λ master.
        IsCommand command.now (map (λ word. word.now) words.now) master) }
    ensures none { IfNone result ((master : List ℕ) →
        IsCommand command.now (map (λ word. word.now) words.now) master → ⊥) }
{
    match words {
        [first, digits] if *first == command => read_key(digits),
        _ => None,
    }
}

/// The master key that the words give: they are `registers` and its digits.
pub fn read_words(words: &[&str]) -> Option<[u8; 32]>
    ensures some { IfSome result (λ master. AreWords (map (λ word. word.now) words.now) master) }
    ensures none { IfNone result ((master : List ℕ) →
        AreWords (map (λ word. word.now) words.now) master → ⊥) }
{
    read_command("registers", words)
}

#[cfg(test)]
mod tests {
    use super::*;
    use std::test::Fail;

    // Digits of one case, another count of words or digits.
    #[test]
    fn reads_a_key(rt: HostRuntime) -> Result<(), Fail> {
        let digits = "000102030405060708090a0B0c0D0e0F101112131415161718191A1b1C1d1E1f";
        let key = read_words(&["registers", digits]).ok_or("words")?;
        assert_eq!(rt; key[10], 10);
        assert_eq!(rt; key[31], 31);
        assert!(rt; read_words(&["registers", digits, ""]).is_none());
        assert!(rt; read_words(&["register", digits]).is_none());
        assert!(rt; read_words(&["registers", "00"]).is_none());
        assert!(rt; read_words(&["registers"]).is_none());
        Ok(())
    }
}
