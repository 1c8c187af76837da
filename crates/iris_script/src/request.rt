//! Requests as words of a line.

ghost use Rattle.std.specs.Prelude.{◌≡◌, ℕ, List, ◌∷◌, [], ◌↔◌, map, IsTrue, IfOk, IfSome, IfNone};
ghost use Rattle.iris_script.specs.Paths.{IsPathWord};
ghost use Rattle.iris_script.specs.Script.{AskNothing, Asks};
ghost use Rattle.iris_script.specs.Words.{IsNumber};

use crate::digits::read_bytes;
use crate::number::read_number;
use crate::path::read_path;
use iris_name::{NoMemory, Request, Text};
use std::alloc::Global;

fn is_word(word: &[u8], text: &[u8]) -> bool
    ensures { IsTrue result ↔ (word.now ≡ text.now) }
{
    word == text
}

fn read_bare(command: &[u8]) -> Option<Request>
    ensures some { IfSome result (λ request. Asks (command.now ∷ []) request) }
    ensures none { IfNone result (AskNothing (command.now ∷ [])) }
{
    if is_word(command, b"sync") {
        Some(Request::Sync)
    } else if is_word(command, b"root") {
        Some(Request::Root)
    } else if is_word(command, b"reclaim") {
        Some(Request::Reclaim)
    } else {
        None
    }
}

fn read_with_path(alloc: Global, command: &[u8], word: &[u8]) -> Result<Option<Request>, NoMemory>
    ensures some { IfOk result (λ read. IfSome read (λ request.
        Asks (command.now ∷ word.now ∷ []) request)) }
    ensures none { IfOk result (λ read. IfNone read (AskNothing (command.now ∷ word.now ∷ []))) }
{
    let Some(path) = read_path(alloc, word)? else {
        return Ok(None);
    };
    if is_word(command, b"mkdir") {
        Ok(Some(Request::Mkdir { path }))
    } else if is_word(command, b"create") {
        Ok(Some(Request::Create { path }))
    } else if is_word(command, b"stat") {
        Ok(Some(Request::Stat { path }))
    } else if is_word(command, b"list") {
        let after = Text::of(String::new(alloc));
        Ok(Some(Request::List { path, after }))
    } else if is_word(command, b"remove") {
        Ok(Some(Request::Remove { path }))
    } else {
        Ok(None)
    }
}

fn read_paths(alloc: Global, first: &[u8], second: &[u8]) -> Result<Option<(Text, Text)>, NoMemory>
    ensures some { IfOk result (λ read. IfSome read (λ paths.
        IsPathWord first.now paths.0 × IsPathWord second.now paths.1)) }
    ensures none { IfOk result (λ read. IfNone read ((p : List ℕ) (q : List ℕ) →
        IsPathWord first.now p → IsPathWord second.now q → ⊥)) }
{
    let Some(front) = read_path(alloc, first)? else {
        return Ok(None);
    };
    match read_path(alloc, second)? {
        Some(back) => Ok(Some((front, back))),
        None => Ok(None),
    }
}

fn read_place(alloc: Global, path: &[u8], number: &[u8]) -> Result<Option<(Text, u64)>, NoMemory>
    ensures some { IfOk result (λ read. IfSome read (λ place.
        IsPathWord path.now place.0 × IsNumber number.now place.1)) }
    ensures none { IfOk result (λ read. IfNone read ((p : List ℕ) (n : ℕ) →
        IsPathWord path.now p → IsNumber number.now n → ⊥)) }
{
    let Some(number) = read_number(number) else {
        return Ok(None);
    };
    match read_path(alloc, path)? {
        Some(path) => Ok(Some((path, number))),
        None => Ok(None),
    }
}

fn read_with_two(
    alloc: Global,
    command: &[u8],
    first: &[u8],
    second: &[u8],
) -> Result<Option<Request>, NoMemory>
    ensures some { IfOk result (λ read. IfSome read (λ request.
        Asks (command.now ∷ first.now ∷ second.now ∷ []) request)) }
    ensures none { IfOk result (λ read. IfNone read
        (AskNothing (command.now ∷ first.now ∷ second.now ∷ []))) }
{
    if is_word(command, b"resize") {
        match read_place(alloc, first, second)? {
            Some((path, length)) => Ok(Some(Request::Resize { path, length })),
            None => Ok(None),
        }
    } else if is_word(command, b"list") {
        match read_paths(alloc, first, second)? {
            Some((path, after)) => Ok(Some(Request::List { path, after })),
            None => Ok(None),
        }
    } else if is_word(command, b"rename") {
        match read_paths(alloc, first, second)? {
            Some((from, to)) => Ok(Some(Request::Rename { from, to })),
            None => Ok(None),
        }
    } else {
        Ok(None)
    }
}

fn read_with_three(
    alloc: Global,
    command: &[u8],
    path: &[u8],
    offset: &[u8],
    last: &[u8],
) -> Result<Option<Request>, NoMemory>
    ensures some { IfOk result (λ read. IfSome read (λ request.
        Asks (command.now ∷ path.now ∷ offset.now ∷ last.now ∷ []) request)) }
    ensures none { IfOk result (λ read. IfNone read
        (AskNothing (command.now ∷ path.now ∷ offset.now ∷ last.now ∷ []))) }
{
    let Some((path, offset)) = read_place(alloc, path, offset)? else {
        return Ok(None);
    };
    if is_word(command, b"write") {
        match read_bytes(alloc, last)? {
            Some(bytes) => Ok(Some(Request::Write {
                path,
                offset,
                bytes,
            })),
            None => Ok(None),
        }
    } else if is_word(command, b"read") {
        match read_number(last) {
            Some(length) => Ok(Some(Request::Read {
                path,
                offset,
                length,
            })),
            None => Ok(None),
        }
    } else {
        Ok(None)
    }
}

/// Reads the words of a request, without the client's number. `root`, `remove` and `reclaim` are requests here,
/// also where the file system doesn't serve them yet.
pub fn read_request(alloc: Global, words: &[&[u8]]) -> Result<Option<Request>, NoMemory>
    ensures some { IfOk result (λ read. IfSome read (λ request.
        Asks (map (λ word. word.now) words.now) request)) }
    ensures none { IfOk result (λ read. IfNone read
        (AskNothing (map (λ word. word.now) words.now))) }
{
    match words {
        [command] => Ok(read_bare(command)),
        [command, path] => read_with_path(alloc, command, path),
        [command, first, second] => read_with_two(alloc, command, first, second),
        [command, path, offset, last] => read_with_three(alloc, command, path, offset, last),
        _ => Ok(None),
    }
}
