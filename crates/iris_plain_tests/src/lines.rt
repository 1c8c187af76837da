//! Requests as lines of a script and replies as their printed texts, over the plain file system and over the table.

use iris_mac::Keys;
use iris_name::{Reply, Request};
use iris_plain::Plain;
use iris_script::{Script, print_reply, read_script};
use iris_table::Table;
use std::alloc::Global;
use std::test::Fail;

/// A line, and its reply.
pub type Row = (&'static str, &'static str);

/// The keys of a master key of zeros.
pub fn keys() -> Keys {
    Keys::of(&[0; 32])
}

// A text in which the digits before `*N` stand N times.
fn written_out(alloc: Global, line: &str) -> Result<String, Fail> {
    let Some((front, count)) = line.split_once('*') else {
        return Ok(format!(in alloc; "1 {line}\n")?);
    };
    let (front, digits) = front.rsplit_once(' ').unwrap_or((front, ""));
    let digits = digits.repeat(alloc, count.parse::<usize>().unwrap_or(0))?;
    Ok(format!(in alloc; "1 {front} {digits}\n")?)
}

/// A script of the one line.
pub fn script(alloc: Global, line: &str) -> Result<Script, Fail> {
    let text = written_out(alloc, line)?;
    Ok(read_script(alloc, text.as_bytes())?)
}

// Whether a reply is printed as this text.
fn is_printed(alloc: Global, reply: &Reply, wanted: &str) -> Result<bool, Fail> {
    let line = print_reply(alloc, 1, 1, reply)?;
    let numbered = format!(in alloc; "1 {wanted}")?;
    let wanted = written_out(alloc, numbered.as_str())?;
    Ok(line.as_slice() == wanted.as_bytes())
}

// The reply of the plain file system to a request of files.
fn plain_step(alloc: Global, plain: &mut Plain, request: &Request) -> Result<Reply, Fail> {
    match request {
        Request::Sync | Request::Root | Request::Reclaim | Request::Probe { .. } => {
            Err("no request of files".into())
        }
        _ => Ok(plain.step(alloc, request)?),
    }
}

/// Whether the plain file system has this reply to a line.
pub fn plain_says(
    alloc: Global,
    plain: &mut Plain,
    line: &str,
    wanted: &str,
) -> Result<bool, Fail> {
    let script = script(alloc, line)?;
    let Some((_, request)) = script.as_slice().first() else {
        return Ok(false);
    };
    let reply = plain_step(alloc, plain, request)?;
    is_printed(alloc, &reply, wanted)
}

// The reply of the table to a line; `probe N` is a challenge.
fn table_step(alloc: Global, table: &mut Table, line: &str) -> Result<Reply, Fail> {
    if let Some(at) = line.strip_prefix("probe ") {
        let at = at.parse::<u64>().unwrap_or(0);
        return Ok(table.step(alloc, &Request::Probe { at })?);
    }
    let script = script(alloc, line)?;
    match script.as_slice().first() {
        Some((_, request)) => Ok(table.step(alloc, request)?),
        None => Err("no request".into()),
    }
}

/// Whether the table has this reply to a line.
pub fn table_says(
    alloc: Global,
    table: &mut Table,
    line: &str,
    wanted: &str,
) -> Result<bool, Fail> {
    let reply = table_step(alloc, table, line)?;
    is_printed(alloc, &reply, wanted)
}

/// The first of these lines to which a new plain file system has another reply.
pub fn plain_differs(alloc: Global, rows: &[Row]) -> Result<Option<&'static str>, Fail> {
    let mut plain = Plain::new(alloc)?;
    for (line, wanted) in rows {
        if !plain_says(alloc, &mut plain, line, wanted)? {
            return Ok(Some(*line));
        }
    }
    Ok(None)
}

/// The first of these lines to which a new table has another reply.
pub fn table_differs(alloc: Global, rows: &[Row]) -> Result<Option<&'static str>, Fail> {
    let mut table = Table::new(alloc, &keys())?;
    for (line, wanted) in rows {
        if !table_says(alloc, &mut table, line, wanted)? {
            return Ok(Some(*line));
        }
    }
    Ok(None)
}
