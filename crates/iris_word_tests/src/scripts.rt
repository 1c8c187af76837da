//! Scripts, line by line.

use iris_name::Request;
use iris_script::{ScriptError, Service, read_script, read_script_for};
use std::alloc::Global;
use std::test::Fail;

// A request that is wanted.
#[derive(Clone, Copy)]
enum Want {
    Mkdir(&'static str),
    Create(&'static str),
    Write(&'static str, u64, &'static [u8]),
    Read(&'static str, u64, u64),
    Resize(&'static str, u64),
    Stat(&'static str),
    List(&'static str, &'static str),
    Rename(&'static str, &'static str),
    Remove(&'static str),
    Sync,
    Root,
    Reclaim,
}

// Whether a request that isn't a write is the wanted one.
fn is_other(request: &Request, want: Want) -> bool {
    match request {
        Request::Mkdir { path } => matches!(want, Want::Mkdir(due) if path.as_str() == due),
        Request::Create { path } => matches!(want, Want::Create(due) if path.as_str() == due),
        Request::Stat { path } => matches!(want, Want::Stat(due) if path.as_str() == due),
        Request::Remove { path } => matches!(want, Want::Remove(due) if path.as_str() == due),
        Request::Sync => matches!(want, Want::Sync),
        Request::Root => matches!(want, Want::Root),
        Request::Reclaim => matches!(want, Want::Reclaim),
        _ => false,
    }
}

// Whether a request is the wanted one.
fn is_wanted(request: &Request, want: Want) -> bool {
    match (request, want) {
        (
            Request::Write {
                path,
                offset,
                bytes,
            },
            Want::Write(due, at, written),
        ) => path.as_str() == due && *offset == at && bytes.as_slice() == written,
        (
            Request::Read {
                path,
                offset,
                length,
            },
            Want::Read(due, at, most),
        ) => path.as_str() == due && *offset == at && *length == most,
        (Request::Resize { path, length }, Want::Resize(due, most)) => {
            path.as_str() == due && *length == most
        }
        (Request::List { path, after }, Want::List(due, name)) => {
            path.as_str() == due && after.as_str() == name
        }
        (Request::Rename { from, to }, Want::Rename(first, second)) => {
            from.as_str() == first && to.as_str() == second
        }
        _ => is_other(request, want),
    }
}

// Whether a line is client 3's wanted request.
fn asks(alloc: Global, line: &[u8], want: Want) -> Result<bool, Fail> {
    let script = read_script(alloc, line)?;
    match script.as_slice() {
        [(client, request)] => Ok(*client == 3 && is_wanted(request, want)),
        _ => Ok(false),
    }
}

// A command word or an argument that the definition would confuse with another.
#[test]
fn reads_each_command(rt: HostRuntime) -> Result<(), Fail> {
    let table = [
        (b"3 mkdir /d".as_slice(), Want::Mkdir("/d")),
        (b"3 create /d".as_slice(), Want::Create("/d")),
        (b"3 read /d 7 9".as_slice(), Want::Read("/d", 7, 9)),
        (b"3 resize /d 0".as_slice(), Want::Resize("/d", 0)),
        (b"3 stat /d".as_slice(), Want::Stat("/d")),
        (b"3 list /d".as_slice(), Want::List("/d", "")),
        (b"3 list /d e".as_slice(), Want::List("/d", "e")),
        (b"3 rename /d /e".as_slice(), Want::Rename("/d", "/e")),
        (b"3 remove /d".as_slice(), Want::Remove("/d")),
        (b"3 sync".as_slice(), Want::Sync),
        (b"3 root".as_slice(), Want::Root),
        (b"3 reclaim".as_slice(), Want::Reclaim),
    ];
    for (line, want) in table {
        assert!(rt; asks(rt.alloc(), line, want)?, "{line:?}");
    }
    Ok(())
}

// An escape, the case of digits, or no bytes.
#[test]
fn reads_arguments(rt: HostRuntime) -> Result<(), Fail> {
    let table = [
        (
            b"3 write /a%20b%2Fc%25 12 6A6bfF".as_slice(),
            Want::Write("/a b/c%", 12, b"jk\xff"),
        ),
        (
            b"3 write a%0a 18446744073709551615 -".as_slice(),
            Want::Write("a\n", u64::MAX, b""),
        ),
    ];
    for (line, want) in table {
        assert!(rt; asks(rt.alloc(), line, want)?, "{line:?}");
    }
    Ok(())
}

fn count(alloc: Global, script: &[u8]) -> Result<usize, Fail> {
    Ok(read_script(alloc, script)?.as_slice().len())
}

// Whether these are calls of the clients 1 and 16, the second for the root.
fn are_two(alloc: Global, script: &[u8]) -> Result<bool, Fail> {
    let script = read_script(alloc, script)?;
    match script.as_slice() {
        [(first, _), (second, request)] => {
            Ok(*first == 1 && *second == 16 && is_wanted(request, Want::Root))
        }
        _ => Ok(false),
    }
}

// A line that is taken for a call, or a carriage return more or less.
#[test]
fn reads_lines(rt: HostRuntime) -> Result<(), Fail> {
    assert_eq!(rt; count(rt.alloc(), b"")?, 0);
    let script = b"# \x01\x7f \r\r\n\n\r\n1 sync\r\n#\n16 root\r";
    assert!(rt; are_two(rt.alloc(), script)?);
    Ok(())
}

const FIRST: ScriptError = ScriptError::NotRequest { line: 1 };

// A line that is skipped but not counted, or a later fault that is told first.
#[test]
fn tells_the_first_fault(rt: HostRuntime) {
    let table = [
        (
            b"1 stat /\n1 read /f 0\n".as_slice(),
            ScriptError::NotRequest { line: 2 },
        ),
        (
            b"#\n\n1 sync\n2  sync\nx".as_slice(),
            ScriptError::NotRequest { line: 4 },
        ),
        (b"17 sync".as_slice(), ScriptError::Client { line: 1 }),
        (
            b"1 sync\r\n\n17 stat /\nx".as_slice(),
            ScriptError::Client { line: 3 },
        ),
        (b"x\n17 sync".as_slice(), FIRST),
        (b"17 nothing".as_slice(), FIRST),
        (b"1 sync\r\r\n".as_slice(), FIRST),
        (b"\r\r\n".as_slice(), FIRST),
        (b"1 sy\rnc".as_slice(), FIRST),
    ];
    for (script, want) in table {
        assert!(rt;
            read_script(rt.alloc(), script).err() == Some(want),
            "{script:?}"
        );
    }
}

// No request is served.
struct Nothing;

impl Service for Nothing {
    ghost use Rattle.std.specs.Prelude.{◌≡◌, false};

    ghost serves = { λ _. false };

    fn is_served(_request: &Request) -> bool {
        false
    }
}

// A request that is served though none is, or a client above 16 that is told before.
#[test]
fn tells_the_first_unserved_line(rt: HostRuntime) {
    let table = [
        (b"".as_slice(), None),
        (b"#\r\n\n".as_slice(), None),
        (b"#\n\n1 sync\nx".as_slice(), Some(3)),
        (b"x\n1 sync".as_slice(), Some(1)),
        (b"17 sync".as_slice(), Some(1)),
    ];
    for (script, line) in table {
        let want = line.map(|line| ScriptError::NotRequest { line });
        assert!(rt;
            read_script_for::<Nothing>(rt.alloc(), script).err() == want,
            "{script:?}"
        );
    }
}

// A line that the definition would take for a request.
#[test]
fn refuses_other_lines(rt: HostRuntime) {
    let table = [
        b"sync".as_slice(),
        b"1",
        b" ",
        b" # x",
        b"0 sync",
        b"01 sync",
        b"18446744073709551616 sync",
        b" 1 sync",
        b"1 sync ",
        b"1 Sync",
        b"1 sync\0",
        b"1 root /",
        b"1 probe 0",
        b"1 mkdir",
        b"1 mkdir ",
        b"1 mkdir /%",
        b"1 stat /\x7f",
        b"1 resize / 00",
        b"1 list / a b",
        b"1 write / 0",
        b"1 write / 0 ",
        b"1 write / 0 6",
        b"1 write / 0 6g",
    ];
    for line in table {
        assert!(rt;
            read_script(rt.alloc(), line).err() == Some(FIRST),
            "{line:?}"
        );
    }
}

// So many lines of calls.
fn long(alloc: Global, lines: u32) -> Result<Vec<u8>, Fail> {
    let mut script = Vec::new(alloc);
    for _ in 0..lines {
        script.extend_from_slice(b"1 sync\n")?;
    }
    Ok(script)
}

// The fault of a line after so many.
fn fault_after(alloc: Global, lines: u32) -> Result<Option<ScriptError>, Fail> {
    let mut script = long(alloc, lines)?;
    script.extend_from_slice(b"x")?;
    Ok(read_script(alloc, script.as_slice()).err())
}

// A reader that gives up at a number of lines, or counts them in 16 bits.
#[test]
fn reads_a_long_script(rt: HostRuntime) -> Result<(), Fail> {
    assert_eq!(rt;
        count(rt.alloc(), long(rt.alloc(), 70_000)?.as_slice())?,
        70_000
    );
    let fault = ScriptError::NotRequest { line: 70_001 };
    assert!(rt; fault_after(rt.alloc(), 70_000)? == Some(fault));
    Ok(())
}
