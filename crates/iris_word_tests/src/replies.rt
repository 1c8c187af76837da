//! The printed lines of replies.

use iris_name::{Bytes, Cause, FileId, Hash32, Name, PlainError, Reply, Text, Texts};
use iris_script::{append_reply, print_reply};
use std::alloc::Global;
use std::test::Fail;

// Whether client 1's second reply is printed so.
fn prints(alloc: Global, reply: &Reply, line: &str) -> Result<bool, Fail> {
    let printed = print_reply(alloc, 1, 2, reply)?;
    Ok(printed.as_slice() == line.as_bytes())
}

const BLOCK: Name = Name::Block {
    file: FileId(2),
    place: 0,
};

const ENTRY: Name = Name::Entry { id: FileId(0) };

const PROBED: Reply = Reply::Probed {
    file: FileId(2),
    place: 0,
    version: 1,
};

fn stat(dir: bool, length: u64) -> Reply {
    Reply::Stat { dir, length }
}

// A wrong word, digit or blank, which the definition would share.
#[test]
fn prints_short_replies(rt: HostRuntime) -> Result<(), Fail> {
    let bad = Reply::Refused(Cause::BadAnswer { name: BLOCK });
    let failed = Reply::Refused(Cause::StoreFailed { name: ENTRY });
    let table = [
        (Reply::Done, "1 2 done\n"),
        (stat(true, 0), "1 2 stat dir 0\n"),
        (stat(false, 10000), "1 2 stat file 10000\n"),
        (Reply::Synced, "1 2 synced\n"),
        (Reply::Reclaimed { left: true }, "1 2 reclaimed left\n"),
        (Reply::Reclaimed { left: false }, "1 2 reclaimed empty\n"),
        (PROBED, "1 2 probed 2 0 1\n"),
        (bad, "1 2 refused BadAnswer block-2-0\n"),
        (failed, "1 2 refused StoreFailed entry-0\n"),
    ];
    for (reply, line) in table.as_slice() {
        assert!(rt; prints(rt.alloc(), reply, line)?, "{line}");
    }
    Ok(())
}

// An error's number or word.
#[test]
fn prints_errors(rt: HostRuntime) -> Result<(), Fail> {
    let table = [
        (PlainError::NotFound, "1 2 error 1 NotFound\n"),
        (PlainError::Exists, "1 2 error 2 Exists\n"),
        (PlainError::NotDir, "1 2 error 3 NotDir\n"),
        (PlainError::IsDir, "1 2 error 4 IsDir\n"),
        (PlainError::BadPath, "1 2 error 5 BadPath\n"),
        (PlainError::TooLong, "1 2 error 6 TooLong\n"),
        (PlainError::TooMuch, "1 2 error 7 TooMuch\n"),
        (PlainError::IntoSelf, "1 2 error 8 IntoSelf\n"),
        (PlainError::Full, "1 2 error 9 Full\n"),
    ];
    for (error, line) in table {
        assert!(rt; prints(rt.alloc(), &Reply::Plain(error), line)?, "{line}");
    }
    Ok(())
}

fn digest() -> Reply {
    let mut hash = [0u8; 32];
    hash[0] = 0xba;
    Reply::Digest(Hash32(hash))
}

fn some_bytes(alloc: Global, bytes: &[u8]) -> Result<Reply, Fail> {
    Ok(Reply::Bytes(Bytes::of(bytes.to_vec(alloc)?)))
}

fn text(alloc: Global, text: &str) -> Result<Text, Fail> {
    Ok(Text::of(text.to_string(alloc)?))
}

fn some_names(alloc: Global) -> Result<Reply, Fail> {
    let mut names = Texts::new(alloc);
    names.push(text(alloc, "a b")?)?;
    names.push(text(alloc, "%\u{7f}ü.txt")?)?;
    Ok(Reply::Names(names))
}

// A digit of a byte, a blank in a name, or no bytes.
#[test]
fn prints_bytes_and_names(rt: HostRuntime) -> Result<(), Fail> {
    let table = [
        (some_bytes(rt.alloc(), &[])?, "1 2 bytes -\n"),
        (
            some_bytes(rt.alloc(), &[0x61, 0x0f, 0xa0])?,
            "1 2 bytes 610fa0\n",
        ),
        (
            digest(),
            "1 2 digest ba00000000000000000000000000000000000000000000000000000000000000\n",
        ),
        (some_names(rt.alloc())?, "1 2 names 2 a%20b %25%7fü.txt\n"),
    ];
    for (reply, line) in table.as_slice() {
        assert!(rt; prints(rt.alloc(), reply, line)?, "{line}");
    }
    Ok(())
}

// A line that overwrites what was there.
#[test]
fn appends_lines(rt: HostRuntime) -> Result<(), Fail> {
    let mut text = Vec::new(rt.alloc());
    append_reply(&mut text, 1, 1, &Reply::Done)?;
    append_reply(&mut text, 16, u64::MAX, &Reply::Synced)?;
    let lines = "1 1 done\n16 18446744073709551615 synced\n";
    assert!(rt; text.as_slice() == lines.as_bytes());
    Ok(())
}
