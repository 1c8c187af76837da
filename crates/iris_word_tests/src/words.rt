//! Numbers, bytes, paths and blanks in the lines of a script.

use iris_script::{read_bytes, read_hex, read_number, read_path, split_words, strip_return};
use std::alloc::Global;
use std::test::Fail;

// Another spelling of a number, or a number past 64 bits.
#[test]
fn reads_one_spelling(rt: HostRuntime) {
    let table = [
        (b"0".as_slice(), Some(0)),
        (b"65536".as_slice(), Some(65536)),
        (b"18446744073709551615".as_slice(), Some(u64::MAX)),
        (b"18446744073709551616".as_slice(), None),
        (b"".as_slice(), None),
        (b"00".as_slice(), None),
        (b"+1".as_slice(), None),
        (b"1\xb2".as_slice(), None),
    ];
    for (word, want) in table {
        assert_eq!(rt; read_number(word), want, "{word:?}");
    }
}

fn has_bytes(alloc: Global, word: &[u8], want: Option<&[u8]>) -> Result<bool, Fail> {
    let read = read_bytes(alloc, word)?;
    match want {
        Some(due) => Ok(read.is_some_and(|bytes| bytes.as_slice() == due)),
        None => Ok(read.is_none()),
    }
}

// A digit or a half byte more or less.
#[test]
fn reads_both_cases(rt: HostRuntime) -> Result<(), Fail> {
    let table = [
        (b"6bC0fF".as_slice(), Some([0x6bu8, 0xc0, 0xff].as_slice())),
        (b"6b".as_slice(), Some([0x6bu8].as_slice())),
        (b"-".as_slice(), Some([].as_slice())),
        (b"".as_slice(), None),
        (b"6bc".as_slice(), None),
        (b"0g".as_slice(), None),
    ];
    for (word, want) in table {
        assert!(rt; has_bytes(rt.alloc(), word, want)?, "{word:?}");
    }
    assert!(rt; read_hex(rt.alloc(), b"-")?.is_none());
    Ok(())
}

fn has_path(alloc: Global, word: &[u8], want: Option<&str>) -> Result<bool, Fail> {
    let read = read_path(alloc, word)?;
    match want {
        Some(due) => Ok(read.is_some_and(|path| path.as_str() == due)),
        None => Ok(read.is_none()),
    }
}

// A byte that needs no escape, or one that does.
#[test]
fn reads_path_words(rt: HostRuntime) -> Result<(), Fail> {
    let table = [
        (b"/docs/a.txt".as_slice(), Some("/docs/a.txt")),
        (b"/a%20b%2F%25%0a".as_slice(), Some("/a b/%\n")),
        (b"/%c3%bC\xc3\xbc".as_slice(), Some("/üü")),
        (b"".as_slice(), None),
        (b"/a b".as_slice(), None),
        (b"/\x7f".as_slice(), None),
        (b"/%2".as_slice(), None),
        (b"/%g0".as_slice(), None),
        (b"/\xc3".as_slice(), None),
    ];
    for (word, want) in table {
        assert!(rt; has_path(rt.alloc(), word, want)?, "{word:?}");
    }
    Ok(())
}

// A blank more or less, which the definition would share.
#[test]
fn splits_words(rt: HostRuntime) -> Result<(), Fail> {
    let words = split_words(rt.alloc(), b"1 read  /a")?;
    let want = [
        b"1".as_slice(),
        b"read".as_slice(),
        b"".as_slice(),
        b"/a".as_slice(),
    ];
    assert!(rt; words.as_slice() == want.as_slice());
    assert!(rt; strip_return(b"a\r\r") == b"a\r".as_slice());
    Ok(())
}
