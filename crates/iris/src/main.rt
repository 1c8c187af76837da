//! `iris FOLDER WORDS`: the portal over a folder of records.
#![tactic(auto)]

ghost use Rattle.std.specs.Prelude.{◌≡◌, ◌≤◌, ◌⊎◌, ◌↔◌, IfOk, map, string_bytes};
ghost use Rattle.std.specs.Option.{option_map};
ghost use Rattle.iris.specs.Complaints.{complaint_of};
ghost use Rattle.iris.specs.Commands.{IsStatus, HasNoCommand};
ghost use Rattle.iris.specs.Top.{HasNoKey};

mod blocks;
mod disk;
mod line;
mod link;
mod memory;
mod outcome;
mod outside;
mod places;
mod plain;
mod reading;
mod replies;
mod session;
#[cfg(test)]
mod tests;
mod top;
mod words;

use disk::{FileStore, StdSink, StdSource};
use iris_log::MemLog;
use iris_name::Text;
use iris_store::Told;
use outcome::Registers;
use plain::plain_run;
use std::alloc::{AllocError, Global};
use std::process::ExitCode;
use std::{env, io};
use top::registers;
use words::read_command;

const HELP: &str = "\
iris FOLDER registers KEY    serves block registers over the records in FOLDER/blocks
iris FOLDER plain KEY        serves a plain file system in memory, with no store

KEY is the master key, 64 hexadecimal digits: use it for one session only, and where no other
user of the machine can list its processes. The script comes on standard input: for registers
lines `write PLACE HEX` and `read PLACE`, for plain lines of up to 16 clients, as `1 mkdir /docs`
and `2 write /docs/a.txt 0 6869`. The replies go to standard output once all lines are served.
The status is 0, or 1 if a reply is refused, 2 for bad words or a bad line, 3 if the script can't
be read, 4 if the output can't be written, 7 if the script is too long or names a client above
16, 8 if memory runs out.";

const VERSION: &str = "iris 0.1.0";

// What the run printed nothing for, as a line on standard error.
fn complaint(alloc: Global, status: u8, line: u64) -> Result<Option<String>, AllocError>
    ensures { IfOk result (λ told.
        option_map (λ text. string_bytes text) told ≡ complaint_of status line) }
{
    let text = match (status, line) {
        (2, 0) => String::from_str(alloc, "iris: bad words")?,
        (2, line) => format!(in alloc; "iris: line {line} is no request")?,
        (3, _) => String::from_str(alloc, "iris: the script can't be read")?,
        (4, _) => String::from_str(alloc, "iris: the output can't be written")?,
        (7, 0) => String::from_str(alloc, "iris: the script is too long")?,
        (7, line) => format!(in alloc; "iris: line {line} names a client above 16")?,
        (8, _) => String::from_str(alloc, "iris: out of memory")?,
        _ => return Ok(None),
    };
    Ok(Some(text))
}

// The words after the program's own name.
fn arguments(rt: &HostRuntime) -> io::Result<Vec<String>> {
    let mut words = Vec::new(rt.alloc());
    for word in env::args(rt)?.skip(1) {
        words.push(word)?;
    }
    Ok(words)
}

// The words as texts that are lent.
fn lent<'a>(alloc: Global, words: &'a [String]) -> Result<Vec<&'a str>, AllocError>
    ensures { IfOk result (λ texts.
        map (λ text. text.now) texts.items ≡ map (λ word. string_bytes word) words.now) }
{
    let mut texts = Vec::new(alloc);
    for word in words {
        texts.push(word.as_str())?;
    }
    Ok(texts)
}

// Serves block registers over a folder, and answers status and line.
fn serve_registers(rt: &HostRuntime, folder: &str, words: &[&str]) -> Result<(u8, u64), AllocError>
    ensures statuses { IfOk result (λ ended. IsStatus ended.0) }
    ensures bad_words { IfOk result (λ ended. ((ended.0 ≡ 2) × (ended.1 ≡ 0)) ↔
        HasNoKey (map (λ w. w.now) words.now)) }
{
    let alloc = rt.alloc();
    let folder = Text::of(String::from_str(alloc, folder)?);
    let link = Told::new(alloc, FileStore::at(*rt, folder));
    let mut script = StdSource::new(*rt);
    let mut out = StdSink::new(*rt);
    let ended = registers(
        alloc,
        words,
        &mut script,
        &mut out,
        link,
        MemLog::new(alloc),
    );
    let Registers {
        status,
        line,
        link: _,
        log: _,
    } = ended;
    Ok((status, line))
}

// Serves the words over a folder, and answers status and line.
fn serve(rt: &HostRuntime, folder: &str, words: &[&str]) -> Result<(u8, u64), AllocError>
    ensures statuses { IfOk result (λ ended. IsStatus ended.0) }
    ensures bad_words { IfOk result (λ ended. ((ended.0 ≡ 2) × (ended.1 ≡ 0)) ↔
        HasNoCommand (map (λ w. w.now) words.now)) }
{
    let Some(_) = read_command("plain", words) else {
        return serve_registers(rt, folder, words);
    };
    let mut script = StdSource::new(*rt);
    let mut out = StdSink::new(*rt);
    Ok(plain_run(rt.alloc(), words, &mut script, &mut out))
}

// Status and line of a command line.
fn start(rt: &HostRuntime) -> (u8, u64)
    ensures { (result.0 ≤ 4) ⊎ (result.0 ≡ 7) ⊎ (result.0 ≡ 8) }
{
    let alloc = rt.alloc();
    let Ok(owned) = arguments(rt) else {
        return (2, 0);
    };
    let Ok(all) = lent(alloc, owned.as_slice()) else {
        return (8, 0);
    };
    let printed = match all.as_slice() {
        ["--help"] => println!(rt; "{HELP}"),
        ["--version"] => println!(rt; "{VERSION}"),
        [] => return serve(rt, ".", &[]).unwrap_or((8, 0)),
        [folder, words @ ..] => return serve(rt, folder, words).unwrap_or((8, 0)),
    };
    match printed {
        Ok(()) => (0, 0),
        Err(_) => (4, 0),
    }
}

fn main(rt: HostRuntime) -> ExitCode {
    let (status, line) = start(&rt);
    if let Ok(Some(text)) = complaint(rt.alloc(), status, line) {
        // Nothing is left to tell where even standard error is closed.
        let _ = eprintln!(rt; "{text}");
    }
    ExitCode::from(status)
}
