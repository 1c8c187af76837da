//! Scripts: who asks what, line by line.

ghost use Rattle.std.specs.Prelude.{◌≡◌, ℕ, ◌≤◌, ◌↔◌, Bool, true, IsTrue, IfOk, IfErr, IfSome, IfNone, map};
ghost use Rattle.iris_name.specs.declared.request.Request.{Request as SpecRequest};
ghost use Rattle.iris_script.specs.Words.{IsNumber};
ghost use Rattle.iris_script.specs.Script.{AllAsk, AreServed, IsCallLine, IsScriptFault, IsServiceFault, IsFaultOf, IsSkipped, LineAsks, LineAsksNothing, WordsAsk, script_lines};

use crate::cut::{first_line, split_words, strip_return};
use crate::number::read_number;
use crate::request::read_request;
use iris_name::{NoMemory, Request};
use std::alloc::{AllocFailed, Global};
use std::marker::Model;
use thiserror::Error;

/// The greatest number of a client.
pub const MAX_CLIENT: u64 = 16;

/// The requests of a script in order, each with the number of its client, from 1 to 16.
#[derive(Drop)]
pub struct Script {
    calls: Vec<(u32, Request)>,
}

impl Model for Script {
    ghost use Rattle.std.specs.Prelude.{List, ℕ};
    ghost use Rattle.iris_name.specs.declared.request.Request.{Request};

    ghost Value = { List (ℕ × Request) };

    ghost view = { λ a. a.calls.items };
}

impl Script {
    /// Lends the requests.
    pub fn as_slice(&self) -> &[(u32, Request)]
        ensures { result.now ≡ self.now }
    {
        self.calls.as_slice()
    }

    /// Hands the requests out.
    pub fn into_vec(self) -> Vec<(u32, Request)>
        ensures { result.items ≡ self }
    {
        self.calls
    }
}

/// Which requests a program serves.
pub trait Service {
    ghost use Rattle.std.specs.Prelude.{◌≡◌, Bool};

    ghost serves: { SpecRequest → Bool };

    /// Whether it serves this one.
    fn is_served(request: &Request) -> bool
        ensures { result ≡ serves request.now };
}

/// Every request is served.
#[derive(Clone, Copy, Debug)]
pub struct Everything;

impl Service for Everything {
    ghost serves = { λ _. true };

    fn is_served(_request: &Request) -> bool {
        true
    }
}

/// Why a script isn't read. Lines count from 1, skipped ones too.
#[derive(Clone, Copy, Debug, PartialEq, Eq, Error)]
pub enum ScriptError {
    #[error("line {line} is no request")]
    NotRequest { line: u64 },
    #[error("line {line} names a client above 16")]
    Client { line: u64 },
    #[error("out of memory")]
    NoMemory,
}

impl From<NoMemory> for ScriptError {
    ghost use Rattle.std.specs.Prelude.{◌≡◌};
    ghost use Rattle.iris_script.specs.declared.script.ScriptError.TheVariants.{NoMemory as OutOfMemory};

    ghost from_gives = { λ _ e. e ≡ OutOfMemory };

    fn from(_error: NoMemory) -> ScriptError {
        ScriptError::NoMemory
    }
}

impl<T: Drop> From<AllocFailed<T>> for ScriptError {
    ghost use Rattle.std.specs.Prelude.{◌≡◌};
    ghost use Rattle.iris_script.specs.declared.script.ScriptError.TheVariants.{NoMemory as OutOfMemory};

    ghost from_gives = { λ _ e. e ≡ OutOfMemory };

    fn from(_error: AllocFailed<T>) -> ScriptError {
        ScriptError::NoMemory
    }
}

fn is_skipped(line: &[u8]) -> bool
    ensures { IsTrue result ↔ IsSkipped line.now }
{
    line.is_empty() || line[0] == b'#'
}

fn read_client(word: &[u8]) -> Option<u64>
    ensures some { IfSome result (λ client. IsNumber word.now client × (1 ≤ client)) }
    ensures none { IfNone result ((client : ℕ) → IsNumber word.now client → 1 ≤ client → ⊥) }
{
    let Some(client) = read_number(word) else {
        return None;
    };
    if client == 0 { None } else { Some(client) }
}

fn read_words(alloc: Global, words: &[&[u8]]) -> Result<Option<(u64, Request)>, NoMemory>
    ensures some { IfOk result (λ read. IfSome read (λ call.
        WordsAsk (map (λ word. word.now) words.now) call.0 call.1)) }
    ensures none { IfOk result (λ read. IfNone read ((client : ℕ) (request : SpecRequest) →
        WordsAsk (map (λ word. word.now) words.now) client request → ⊥)) }
{
    let [word, rest @ ..] = words else {
        return Ok(None);
    };
    let Some(client) = read_client(word) else {
        return Ok(None);
    };
    match read_request(alloc, rest)? {
        Some(request) => Ok(Some((client, request))),
        None => Ok(None),
    }
}

/// Reads a line without its line feed and carriage return.
fn read_line(alloc: Global, line: &[u8]) -> Result<Option<(u64, Request)>, NoMemory>
    ensures some { IfOk result (λ read. IfSome read (λ call. LineAsks line.now call.0 call.1)) }
    ensures none { IfOk result (λ read. IfNone read (LineAsksNothing line.now)) }
{
    let words = split_words(alloc, line)?;
    read_words(alloc, words.as_slice())
}

/// Reads the line of this number, which isn't skipped.
fn read_call<S: Service>(
    alloc: Global,
    line: &[u8],
    number: u64,
) -> Result<(u32, Request), ScriptError>
    requires { IsSkipped line.now → ⊥ }
    ensures ok { IfOk result (IsCallLine line.now) }
    ensures served { IfOk result (λ call. S.serves call.1 ≡ true) }
    ensures err { IfErr result (IsFaultOf S.serves line.now number) }
{
    match read_line(alloc, line)? {
        None => Err(ScriptError::NotRequest { line: number }),
        Some((client, request)) => {
            if !S::is_served(&request) {
                return Err(ScriptError::NotRequest { line: number });
            }
            if client > MAX_CLIENT {
                return Err(ScriptError::Client { line: number });
            }
            Ok((client as u32, request))
        }
    }
}

/// Reads a script of which every request is served. Lines without bytes and lines that begin with `#` are skipped but
/// counted, and one carriage return at the end of a line is dropped.
pub fn read_script(alloc: Global, bytes: &[u8]) -> Result<Script, ScriptError>
    ensures ok { IfOk result (AllAsk (script_lines bytes.now)) }
    ensures err { IfErr result (IsScriptFault (script_lines bytes.now)) }
{
    read_script_for::<Everything>(alloc, bytes)
}

/// Reads a script as `read_script` does. A line that asks something that isn't served is `NotRequest` too, also where it
/// names a client above 16.
pub fn read_script_for<S: Service>(alloc: Global, bytes: &[u8]) -> Result<Script, ScriptError>
    ensures ok { IfOk result (AllAsk (script_lines bytes.now)) }
    ensures served { IfOk result (AreServed S.serves) }
    ensures err { IfErr result (IsServiceFault S.serves (script_lines bytes.now)) }
{
    let mut calls = Vec::new(alloc);
    let mut number: u64 = 0;
    let mut rest = bytes;
    while !rest.is_empty() {
        let (line, next) = first_line(rest);
        let line = strip_return(line);
        number += 1;
        rest = next;
        if is_skipped(line) {
            continue;
        }
        let call = read_call::<S>(alloc, line, number)?;
        calls.push(call)?;
    }
    Ok(Script { calls })
}
