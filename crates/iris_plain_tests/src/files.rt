//! Requests and replies worked out by hand, for the plain file system and for the table beneath it. The proof ties each program
//! to its definition; these tie the definition to what is meant.

use crate::lines::{Row, keys, plain_differs, plain_says, table_differs, table_says};
use iris_plain::Plain;
use iris_table::Table;
use std::alloc::Global;
use std::test::Fail;

// The first line to which either has another reply.
fn either_differs(alloc: Global, rows: &[Row]) -> Result<Option<&'static str>, Fail> {
    Ok(plain_differs(alloc, rows)?.or(table_differs(alloc, rows)?))
}

// A write that adds nothing, a read past what stands, a listing that shows the wrong level.
#[test]
fn writes_and_reads_a_document(rt: HostRuntime) -> Result<(), Fail> {
    let rows = [
        ("mkdir /docs", "done"),
        ("create /docs/a.txt", "done"),
        ("write /docs/a.txt 0 61*10000", "done"),
        ("read /docs/a.txt 9998 10", "bytes 6161"),
        ("list /docs", "names 1 a.txt"),
        ("list /", "names 1 docs"),
        ("stat /docs/a.txt", "stat file 10000"),
        ("stat /docs", "stat dir 0"),
    ];
    assert_eq!(rt; either_differs(rt.alloc(), &rows)?, None);
    Ok(())
}

// An end of a range that is off by one, and a gap, or bytes past a cut, that aren't zeros.
#[test]
fn reads_to_the_end_and_fills_gaps(rt: HostRuntime) -> Result<(), Fail> {
    let rows = [
        ("create /f", "done"),
        ("write /f 0 01", "done"),
        ("write /f 1 02", "done"),
        ("write /f 2 03", "done"),
        ("read /f 3 5", "bytes -"),
        ("read /f 9 1", "bytes -"),
        ("read /f 0 0", "bytes -"),
        ("read /f 2 5", "bytes 03"),
        ("read /f 0 9", "bytes 010203"),
        ("create /g", "done"),
        ("write /g 5000 ff", "done"),
        ("read /g 4998 10", "bytes 0000ff"),
        ("stat /g", "stat file 5001"),
        ("resize /g 4999", "done"),
        ("resize /g 5001", "done"),
        ("read /g 4998 10", "bytes 000000"),
        ("create /h", "done"),
        ("write /h 4095 0102", "done"),
        ("stat /h", "stat file 4097"),
        ("read /h 4094 9", "bytes 000102"),
    ];
    assert_eq!(rt; either_differs(rt.alloc(), &rows)?, None);
    Ok(())
}

// Limits that are off by one, a sum of offset and length that wraps, and bytes that don't come back from 65 blocks.
#[test]
fn keeps_the_limits(rt: HostRuntime) -> Result<(), Fail> {
    let rows = [
        ("create /f", "done"),
        ("write /f 0 aa*262144", "done"),
        ("write /f 1 bb*262144", "done"),
        ("stat /f", "stat file 262145"),
        ("read /f 0 1", "bytes aa"),
        ("read /f 1 262144", "bytes bb*262144"),
        ("write /f 0 aa*262145", "error 7 TooMuch"),
        ("write /none 0 aa*262145", "error 7 TooMuch"),
        ("read /f 0 262145", "error 7 TooMuch"),
        ("read /none 0 262145", "error 7 TooMuch"),
        ("write /f 268435456 ff", "error 6 TooLong"),
        ("write /f 18446744073709551615 ff", "error 6 TooLong"),
        ("write /f 18446744073709551615 -", "done"),
        ("write /none 18446744073709551615 ff", "error 1 NotFound"),
        ("resize /f 268435457", "error 6 TooLong"),
        ("resize /none 268435457", "error 1 NotFound"),
        ("stat /f", "stat file 262145"),
    ];
    assert_eq!(rt; either_differs(rt.alloc(), &rows)?, None);
    Ok(())
}

// A resize that may lose any number of blocks, or none, and one that checks the loss before the same length.
#[test]
fn cuts_at_most_64_blocks(rt: HostRuntime) -> Result<(), Fail> {
    let rows = [
        ("create /f", "done"),
        ("resize /f 4096000", "done"),
        ("resize /f 4096", "error 7 TooMuch"),
        ("resize /f 3829760", "error 7 TooMuch"),
        ("resize /f 3833856", "done"),
        ("resize /f 3833856", "done"),
        ("resize /f 0", "done"),
        ("stat /f", "stat file 0"),
    ];
    assert_eq!(rt; either_differs(rt.alloc(), &rows)?, None);
    Ok(())
}

// What lies below left behind, a name that is lost on the way, or a file that doesn't keep its bytes.
#[test]
fn takes_along_what_lies_below(rt: HostRuntime) -> Result<(), Fail> {
    let rows = [
        ("mkdir /a", "done"),
        ("mkdir /b", "done"),
        ("create /a/g", "done"),
        ("write /a/g 5000 ff", "done"),
        ("rename /a /b/a", "done"),
        ("list /b/a", "names 1 g"),
        ("read /b/a/g 4998 10", "bytes 0000ff"),
        ("stat /a/g", "error 1 NotFound"),
        ("rename /b/a /b/a/e", "error 8 IntoSelf"),
        ("remove /b", "done"),
        ("stat /b/a/g", "error 1 NotFound"),
        ("mkdir /b", "done"),
        ("list /b", "names 0"),
    ];
    assert_eq!(rt; either_differs(rt.alloc(), &rows)?, None);
    Ok(())
}

// The plain file system, and the table beneath it.
#[derive(Drop)]
struct Both {
    plain: Plain,
    table: Table,
}

// Whether both have this reply to a line.
fn both_say(alloc: Global, both: &mut Both, line: &str, wanted: &str) -> Result<bool, Fail> {
    Ok(
        plain_says(alloc, &mut both.plain, line, wanted)?
            && table_says(alloc, &mut both.table, line, wanted)?,
    )
}

// Makes 65 files, the first name first.
fn fill(alloc: Global, both: &mut Both) -> Result<bool, Fail> {
    for i in 0..65u32 {
        let line = format!(in alloc; "create /f{}{}", i / 10, i % 10)?;
        if !both_say(alloc, both, line.as_str(), "done")? {
            return Ok(false);
        }
    }
    Ok(true)
}

// The reply that lists the first 64 of them.
fn first_page(alloc: Global) -> Result<String, Fail> {
    let mut page = format!(in alloc; "names 64")?;
    for i in 0..64u32 {
        let name = format!(in alloc; " f{}{}", i / 10, i % 10)?;
        page.push_str(name.as_str())?;
    }
    Ok(page)
}

// Whether both list 65 files page by page, and then two whose names have a blank and a percent sign.
fn lists_pages(alloc: Global, both: &mut Both) -> Result<bool, Fail> {
    let first = first_page(alloc)?;
    let rows = [
        ("list /", first.as_str()),
        ("list / f63", "names 1 f64"),
        ("create /a%2520b", "done"),
        ("list / f64", "names 0"),
        ("create /q%20r", "done"),
        ("list / f64", "names 1 q%20r"),
    ];
    for (line, wanted) in rows {
        if !both_say(alloc, both, line, wanted)? {
            return Ok(false);
        }
    }
    Ok(true)
}

// A page of another length, and a name that is read as if it were escaped.
#[test]
fn lists_pages_of_64(rt: HostRuntime) -> Result<(), Fail> {
    let alloc = rt.alloc();
    let plain = Plain::new(alloc)?;
    let table = Table::new(alloc, &keys())?;
    let mut both = Both { plain, table };
    assert!(rt; fill(alloc, &mut both)?);
    assert!(rt; lists_pages(alloc, &mut both)?);
    Ok(())
}
