//! The printed lines of replies.

ghost use Rattle.std.specs.Prelude.{◌≡◌, ◌++◌, List, ℕ, OnOk, OnErr, IfOk, length, decimal, codes};
ghost use Rattle.std.specs.List.{flat_map};
ghost use Rattle.iris_script.specs.Growing.{Grows};
ghost use Rattle.iris_script.specs.Printing.{cause_text, error_text, escaped, escaped_byte, hex_text, reply_line, reply_text};

use crate::grow::{push_bytes, push_hex, push_hex_byte, push_name, push_number, push_numbered};
use iris_name::{Bytes, Cause, NoMemory, PlainError, Reply, Text};
use std::alloc::Global;

fn push_blob(text: &mut Vec<u8>, bytes: &[u8]) -> Result<(), NoMemory>
    ensures ok { OnOk result (text.new.items ≡ text.old.items ++ hex_text bytes.now) }
    ensures grows { Grows text.old.items text.new.items }
{
    if bytes.is_empty() {
        push_bytes(text, b"-")
    } else {
        push_hex(text, bytes)
    }
}

fn push_escaped_byte(text: &mut Vec<u8>, byte: u8) -> Result<(), NoMemory>
    ensures ok { OnOk result (text.new.items ≡ text.old.items ++ escaped_byte byte) }
    ensures grows { Grows text.old.items text.new.items }
{
    if byte <= 0x20 || byte == 0x25 || byte == 0x7f {
        push_bytes(text, b"%")?;
        push_hex_byte(text, byte)
    } else {
        push_bytes(text, [byte].as_slice())
    }
}

#[tactic(auto, using(crate::proofs::Growth::growing))]
fn push_escaped(text: &mut Vec<u8>, name: &[u8]) -> Result<(), NoMemory>
    ensures ok { OnOk result (text.new.items ≡ text.old.items ++ escaped name.now) }
    ensures grows { Grows text.old.items text.new.items }
{
    for byte in name {
        push_escaped_byte(text, *byte)?;
    }
    Ok(())
}

#[tactic(auto, using(crate::proofs::Growth::growing))]
fn push_names(text: &mut Vec<u8>, names: &[Text]) -> Result<(), NoMemory>
    ensures ok { OnOk result (text.new.items ≡ text.old.items
        ++ flat_map (λ (name : List ℕ). codes " " ++ escaped name) names.now) }
    ensures grows { Grows text.old.items text.new.items }
{
    for name in names {
        push_bytes(text, b" ")?;
        push_escaped(text, name.as_str().as_bytes())?;
    }
    Ok(())
}

fn push_error(text: &mut Vec<u8>, error: PlainError) -> Result<(), NoMemory>
    ensures ok { OnOk result (text.new.items ≡ text.old.items ++ error_text error) }
    ensures grows { Grows text.old.items text.new.items }
{
    match error {
        PlainError::NotFound => push_bytes(text, b"1 NotFound"),
        PlainError::Exists => push_bytes(text, b"2 Exists"),
        PlainError::NotDir => push_bytes(text, b"3 NotDir"),
        PlainError::IsDir => push_bytes(text, b"4 IsDir"),
        PlainError::BadPath => push_bytes(text, b"5 BadPath"),
        PlainError::TooLong => push_bytes(text, b"6 TooLong"),
        PlainError::TooMuch => push_bytes(text, b"7 TooMuch"),
        PlainError::IntoSelf => push_bytes(text, b"8 IntoSelf"),
        PlainError::Full => push_bytes(text, b"9 Full"),
    }
}

fn push_cause(text: &mut Vec<u8>, cause: Cause) -> Result<(), NoMemory>
    ensures ok { OnOk result (text.new.items ≡ text.old.items ++ cause_text cause) }
    ensures grows { Grows text.old.items text.new.items }
{
    match cause {
        Cause::StoreFailed { name } => {
            push_bytes(text, b"StoreFailed ")?;
            push_name(text, name)
        }
        Cause::BadAnswer { name } => {
            push_bytes(text, b"BadAnswer ")?;
            push_name(text, name)
        }
    }
}

fn push_reply(text: &mut Vec<u8>, reply: &Reply) -> Result<(), NoMemory>
    ensures ok { OnOk result (text.new.items ≡ text.old.items ++ reply_text reply.now) }
    ensures grows { Grows text.old.items text.new.items }
{
    match reply {
        Reply::Done => push_bytes(text, b"done"),
        Reply::Bytes(bytes) => {
            push_bytes(text, b"bytes ")?;
            push_blob(text, bytes.as_slice())
        }
        Reply::Names(names) => {
            let names = names.as_slice();
            push_numbered(text, b"names ", names.len() as u64)?;
            push_names(text, names)
        }
        Reply::Stat { dir: true, .. } => push_bytes(text, b"stat dir 0"),
        Reply::Stat { dir: false, length } => push_numbered(text, b"stat file ", *length),
        Reply::Digest(hash) => {
            push_bytes(text, b"digest ")?;
            push_hex(text, hash.0.as_slice())
        }
        Reply::Synced => push_bytes(text, b"synced"),
        Reply::Reclaimed { left: true } => push_bytes(text, b"reclaimed left"),
        Reply::Reclaimed { left: false } => push_bytes(text, b"reclaimed empty"),
        Reply::Probed {
            file,
            place,
            version,
        } => {
            push_numbered(text, b"probed ", file.0)?;
            push_numbered(text, b" ", u64::from(*place))?;
            push_numbered(text, b" ", *version)
        }
        Reply::Plain(error) => {
            push_bytes(text, b"error ")?;
            push_error(text, *error)
        }
        Reply::Refused(cause) => {
            push_bytes(text, b"refused ")?;
            push_cause(text, *cause)
        }
    }
}

fn push_line(text: &mut Vec<u8>, client: u32, number: u64, reply: &Reply) -> Result<(), NoMemory>
    ensures ok { OnOk result (text.new.items ≡
        text.old.items ++ reply_line client number reply.now) }
    ensures grows { Grows text.old.items text.new.items }
{
    push_number(text, u64::from(client))?;
    push_numbered(text, b" ", number)?;
    push_bytes(text, b" ")?;
    push_reply(text, reply)?;
    push_bytes(text, b"\n")
}

/// Puts the line of a client's reply last, with its line feed. `number` counts the client's replies from 1.
pub fn append_reply(
    text: &mut Vec<u8>,
    client: u32,
    number: u64,
    reply: &Reply,
) -> Result<(), NoMemory>
    ensures ok { OnOk result (text.new.items ≡
        text.old.items ++ reply_line client number reply.now) }
    ensures err { OnErr result (text.new.items ≡ text.old.items) }
{
    let before = text.len();
    let result = push_line(text, client, number, reply);
    if result.is_err() {
        text.truncate(before);
    }
    result
}

/// The line of a client's reply, with its line feed. `number` counts the client's replies from 1.
pub fn print_reply(
    alloc: Global,
    client: u32,
    number: u64,
    reply: &Reply,
) -> Result<Bytes, NoMemory>
    ensures { IfOk result (λ line. line ≡ reply_line client number reply.now) }
{
    let mut text = Vec::new(alloc);
    append_reply(&mut text, client, number, reply)?;
    Ok(Bytes::of(text))
}
