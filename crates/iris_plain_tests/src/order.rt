//! The order of checks: at each pair of neighbouring checks that can apply at once, the first is the reply.

use crate::lines::{keys, plain_says, table_says};
use iris_plain::Plain;
use iris_table::Table;
use std::alloc::Global;
use std::test::Fail;

// The last age, at which no change is taken.
const LAST_AGE: u64 = 1_099_511_627_776;

// A directory with one inside, a file of one byte, and one of 66 blocks.
const BEFORE: [(&str, &str); 6] = [
    ("mkdir /d", "done"),
    ("mkdir /d/e", "done"),
    ("create /f", "done"),
    ("write /f 0 61", "done"),
    ("create /g", "done"),
    ("resize /g 270336", "done"),
];

// A line, its reply at a low age and its reply at the last.
type Row = (&'static str, &'static str, &'static str);

const BAD_PATH: &str = "error 5 BadPath";

const NOT_FOUND: &str = "error 1 NotFound";

const EXISTS: &str = "error 2 Exists";

const NOT_DIR: &str = "error 3 NotDir";

const IS_DIR: &str = "error 4 IsDir";

const TOO_LONG: &str = "error 6 TooLong";

const TOO_MUCH: &str = "error 7 TooMuch";

const INTO_SELF: &str = "error 8 IntoSelf";

const FULL: &str = "error 9 Full";

// BadPath; the root is there; the way to the directory; a file in its place; the name is there; the age.
const NEW_NAMES: [Row; 16] = [
    ("mkdir f", BAD_PATH, BAD_PATH),
    ("mkdir /none/a/", BAD_PATH, BAD_PATH),
    ("mkdir /f/g/./a", BAD_PATH, BAD_PATH),
    ("mkdir /", EXISTS, EXISTS),
    ("mkdir /none/a", NOT_FOUND, NOT_FOUND),
    ("mkdir /f/g/h", NOT_DIR, NOT_DIR),
    ("mkdir /f/g", NOT_DIR, NOT_DIR),
    ("mkdir /f", EXISTS, EXISTS),
    ("mkdir /d", EXISTS, EXISTS),
    ("mkdir /a", "done", FULL),
    ("create /d/", BAD_PATH, BAD_PATH),
    ("create /", EXISTS, EXISTS),
    ("create /none/a", NOT_FOUND, NOT_FOUND),
    ("create /f/g", NOT_DIR, NOT_DIR),
    ("create /d/e", EXISTS, EXISTS),
    ("create /d/a", "done", FULL),
];

// BadPath; more bytes than a request has; the way; a directory; no bytes; too long a file; the age.
const WRITES: [Row; 19] = [
    ("write f 0 61*262145", BAD_PATH, BAD_PATH),
    ("write /none/ 0 61", BAD_PATH, BAD_PATH),
    ("write /none 0 61*262145", TOO_MUCH, TOO_MUCH),
    ("write /f/g 0 61*262145", TOO_MUCH, TOO_MUCH),
    ("write /d 0 61*262145", TOO_MUCH, TOO_MUCH),
    ("write /f 268435456 61*262145", TOO_MUCH, TOO_MUCH),
    ("write /none 0 -", NOT_FOUND, NOT_FOUND),
    ("write /f/g 0 -", NOT_DIR, NOT_DIR),
    ("write /none 268435456 61", NOT_FOUND, NOT_FOUND),
    ("write /f/g 268435456 61", NOT_DIR, NOT_DIR),
    ("write /none 0 61", NOT_FOUND, NOT_FOUND),
    ("write / 0 -", IS_DIR, IS_DIR),
    ("write /d 268435456 61", IS_DIR, IS_DIR),
    ("write /d 0 61", IS_DIR, IS_DIR),
    ("write /f 18446744073709551615 -", "done", "done"),
    ("write /f 0 -", "done", "done"),
    ("write /f 268435456 61", TOO_LONG, TOO_LONG),
    ("write /f 268435455 6162", TOO_LONG, TOO_LONG),
    ("write /f 1 61", "done", FULL),
];

// BadPath; more bytes than a request has; the way; a directory.
const READS: [Row; 10] = [
    ("read f 0 262145", BAD_PATH, BAD_PATH),
    ("read /f/ 0 262145", BAD_PATH, BAD_PATH),
    ("read /none/ 0 1", BAD_PATH, BAD_PATH),
    ("read /none 0 262145", TOO_MUCH, TOO_MUCH),
    ("read /f/g 0 262145", TOO_MUCH, TOO_MUCH),
    ("read / 0 262145", TOO_MUCH, TOO_MUCH),
    ("read /none 0 1", NOT_FOUND, NOT_FOUND),
    ("read /f/g 0 1", NOT_DIR, NOT_DIR),
    ("read / 0 1", IS_DIR, IS_DIR),
    ("read /f 0 262144", "bytes 61", "bytes 61"),
];

// BadPath; the way; a directory; too long; the same length; too many blocks fewer; the age.
const RESIZES: [Row; 16] = [
    ("resize f 268435457", BAD_PATH, BAD_PATH),
    ("resize /f/g/ 0", BAD_PATH, BAD_PATH),
    ("resize /none 268435457", NOT_FOUND, NOT_FOUND),
    ("resize /f/g 268435457", NOT_DIR, NOT_DIR),
    ("resize /none 0", NOT_FOUND, NOT_FOUND),
    ("resize / 268435457", IS_DIR, IS_DIR),
    ("resize /d 0", IS_DIR, IS_DIR),
    ("resize / 1", IS_DIR, IS_DIR),
    ("resize /f 268435457", TOO_LONG, TOO_LONG),
    ("resize /g 268435457", TOO_LONG, TOO_LONG),
    ("resize /f 1", "done", "done"),
    ("resize /g 270336", "done", "done"),
    ("resize /g 4096", TOO_MUCH, TOO_MUCH),
    ("resize /g 4097", "done", FULL),
    ("resize /g 0", "done", FULL),
    ("resize /f 2", "done", FULL),
];

// BadPath; the way; for a page a file in the directory's place.
const LOOKS: [Row; 11] = [
    ("stat f", BAD_PATH, BAD_PATH),
    ("stat /none/", BAD_PATH, BAD_PATH),
    ("stat /f/g/", BAD_PATH, BAD_PATH),
    ("stat /none/a", NOT_FOUND, NOT_FOUND),
    ("stat /f/g/h", NOT_DIR, NOT_DIR),
    ("stat /f", "stat file 1", "stat file 1"),
    ("list /f/", BAD_PATH, BAD_PATH),
    ("list /none", NOT_FOUND, NOT_FOUND),
    ("list /f/g", NOT_DIR, NOT_DIR),
    ("list /f", NOT_DIR, NOT_DIR),
    ("list / e", "names 2 f g", "names 2 f g"),
];

// BadPath of the first, of the second; the first is the root; its way; below itself; the second is the root; the way to its
// directory; a file in its place; the name is there; the age.
const RENAMES: [Row; 27] = [
    ("rename f c", BAD_PATH, BAD_PATH),
    ("rename /none/ /a", BAD_PATH, BAD_PATH),
    ("rename / c", BAD_PATH, BAD_PATH),
    ("rename /none c", BAD_PATH, BAD_PATH),
    ("rename /f/g c", BAD_PATH, BAD_PATH),
    ("rename /d c", BAD_PATH, BAD_PATH),
    ("rename / /c", BAD_PATH, BAD_PATH),
    ("rename / /", BAD_PATH, BAD_PATH),
    ("rename / /none/a", BAD_PATH, BAD_PATH),
    ("rename /none /none/a", NOT_FOUND, NOT_FOUND),
    ("rename /f/g /f/g/a", NOT_DIR, NOT_DIR),
    ("rename /none /", NOT_FOUND, NOT_FOUND),
    ("rename /f/g /none/a", NOT_DIR, NOT_DIR),
    ("rename /none /f/a", NOT_FOUND, NOT_FOUND),
    ("rename /none /d", NOT_FOUND, NOT_FOUND),
    ("rename /none /a", NOT_FOUND, NOT_FOUND),
    ("rename /d /d/none/a", INTO_SELF, INTO_SELF),
    ("rename /f /f/a", INTO_SELF, INTO_SELF),
    ("rename /d /d/e", INTO_SELF, INTO_SELF),
    ("rename /d /d/c", INTO_SELF, INTO_SELF),
    ("rename /d /", EXISTS, EXISTS),
    ("rename /d /none/a", NOT_FOUND, NOT_FOUND),
    ("rename /d /f/g/a", NOT_DIR, NOT_DIR),
    ("rename /d /f/a", NOT_DIR, NOT_DIR),
    ("rename /d /f", EXISTS, EXISTS),
    ("rename /d /d", EXISTS, EXISTS),
    ("rename /d /a", "done", FULL),
];

// BadPath; the root; the way; the age.
const REMOVALS: [Row; 7] = [
    ("remove f", BAD_PATH, BAD_PATH),
    ("remove /none/", BAD_PATH, BAD_PATH),
    ("remove /f/g/", BAD_PATH, BAD_PATH),
    ("remove /", BAD_PATH, BAD_PATH),
    ("remove /none", NOT_FOUND, NOT_FOUND),
    ("remove /f/g", NOT_DIR, NOT_DIR),
    ("remove /d", "done", FULL),
];

// The plain file system with what stands before, at an age.
fn plain_before(alloc: Global, age: u64) -> Result<Plain, Fail> {
    let mut plain = Plain::new(alloc)?;
    for (line, wanted) in BEFORE {
        if !plain_says(alloc, &mut plain, line, wanted)? {
            return Err(line.into());
        }
    }
    Ok(plain.with_age(age))
}

// The table with what stands before.
fn table_before(alloc: Global) -> Result<Table, Fail> {
    let mut table = Table::new(alloc, &keys())?;
    for (line, wanted) in BEFORE {
        if !table_says(alloc, &mut table, line, wanted)? {
            return Err(line.into());
        }
    }
    Ok(table)
}

// The plain file system at a low age and at the last, and the table at a low age.
#[derive(Drop)]
struct Ages {
    low: Plain,
    last: Plain,
    table: Table,
}

fn at_ages(alloc: Global) -> Result<Ages, Fail> {
    Ok(Ages {
        low: plain_before(alloc, 6)?,
        last: plain_before(alloc, LAST_AGE)?,
        table: table_before(alloc)?,
    })
}

// Whether a line has its replies.
fn say(alloc: Global, ages: &mut Ages, row: Row) -> Result<bool, Fail> {
    let (line, low, last) = row;
    Ok(
        plain_says(alloc, &mut ages.low, line, low)?
            && plain_says(alloc, &mut ages.last, line, last)?
            && table_says(alloc, &mut ages.table, line, low)?,
    )
}

// The first line that has another reply.
fn differs(alloc: Global, rows: &[Row]) -> Result<Option<&'static str>, Fail> {
    let mut ages = at_ages(alloc)?;
    for row in rows {
        if !say(alloc, &mut ages, *row)? {
            return Ok(Some(row.0));
        }
    }
    Ok(None)
}

// Two checks of a request in the other order, in the definition and the program alike.
#[test]
fn checks_in_order(rt: HostRuntime) -> Result<(), Fail> {
    let requests: [&[Row]; 7] = [
        &NEW_NAMES, &WRITES, &READS, &RESIZES, &LOOKS, &RENAMES, &REMOVALS,
    ];
    for rows in requests {
        assert_eq!(rt; differs(rt.alloc(), rows)?, None);
    }
    Ok(())
}

// Whether the one change before the last age is taken, and what changes nothing after it.
fn ends_at_the_last_age(alloc: Global) -> Result<Option<&'static str>, Fail> {
    let mut plain = plain_before(alloc, LAST_AGE - 1)?;
    let rows = [
        ("write /f 0 -", "done"),
        ("resize /f 1", "done"),
        ("write /f 0 62", "done"),
        ("write /f 0 63", FULL),
        ("read /f 0 1", "bytes 62"),
        ("remove /f", FULL),
        ("stat /f", "stat file 1"),
    ];
    for (line, wanted) in rows {
        if !plain_says(alloc, &mut plain, line, wanted)? {
            return Ok(Some(line));
        }
    }
    Ok(None)
}

// An age at which one change more or less is taken.
#[test]
fn takes_changes_up_to_the_last_age(rt: HostRuntime) -> Result<(), Fail> {
    assert_eq!(rt; ends_at_the_last_age(rt.alloc())?, None);
    Ok(())
}
