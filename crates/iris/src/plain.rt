//! The plain file system over a table that no store holds: a script of many clients, from bytes in to bytes out.

ghost use Rattle.std.specs.Prelude.{◌≡◌, ◌≢◌, ◌⊎◌, ◌↔◌, ◌++◌, ◌≤◌, ◌<◌, ℕ, List, [], length, map, Option, Some, IfOk, IfSome, OnOk};
ghost use Rattle.iris_name.specs.Hmac.{order_key};
ghost use Rattle.iris_name.specs.declared.request.Request.{Request as SpecRequest};
ghost use Rattle.iris_script.specs.Script.{AllAsk, IsFirst, IsNoRequest, NamesFarClient, script_lines};
ghost use Rattle.iris_rows.specs.Rows.{empty_table};
ghost use Rattle.iris.specs.Commands.{IsStatus};
ghost use Rattle.iris.specs.Notes.{printed};
ghost use Rattle.iris.specs.Outside.{IsFault};
ghost use Rattle.iris.specs.Plain.{ArePlain, AreNotPlain, AreRight, IsPlainEnd, IsPlainPrinted, IsCutShort, FirstLine, said_to, printed_to, ended_as};
ghost use Rattle.iris.specs.Reading.{HasMoreThan};

use crate::outside::{Sink, Source};
use crate::reading::{ReadError, SCRIPT_LEN, read_all};
use crate::top::{Stop, line, status};
use crate::words::read_command;
use iris_mac::Keys;
use iris_name::{Failed, NoMemory, Reply, Request};
use iris_script::{ScriptError, append_reply, read_script};
use iris_table::Table;
use std::alloc::Global;

// Why a run stops before its replies are printed.
#[derive(Clone, Copy, Debug)]
enum Halt {
    Stopped(Stop),
    FarClient { line: u64 },
}

impl From<ReadError> for Halt {
    ghost use Rattle.std.specs.Prelude.{◌≡◌};
    ghost use Rattle.iris.specs.Plain.{halt_of_read};

    ghost from_gives = { λ error halt. halt ≡ halt_of_read error };

    fn from(error: ReadError) -> Halt {
        Halt::Stopped(Stop::from(error))
    }
}

impl From<ScriptError> for Halt {
    ghost use Rattle.std.specs.Prelude.{◌≡◌};
    ghost use Rattle.iris.specs.Plain.{halt_of_script};

    ghost from_gives = { λ error halt. halt ≡ halt_of_script error };

    fn from(error: ScriptError) -> Halt {
        match error {
            ScriptError::NotRequest { line } => Halt::Stopped(Stop::BadLine { line }),
            ScriptError::Client { line } => Halt::FarClient { line },
            ScriptError::NoMemory => Halt::Stopped(Stop::NoMemory),
        }
    }
}

impl From<NoMemory> for Halt {
    ghost use Rattle.std.specs.Prelude.{◌≡◌};
    ghost use Rattle.iris.specs.declared.plain.Halt.TheVariants.{Stopped};
    ghost use Rattle.iris.specs.declared.top.Stop.TheVariants.{NoMemory as OutOfMemory};

    ghost from_gives = { λ _ halt. halt ≡ Stopped OutOfMemory };

    fn from(_error: NoMemory) -> Halt {
        Halt::Stopped(Stop::NoMemory)
    }
}

// Serves calls in their order by one table, and answers each with its client's number and the reply.
fn serve_calls(
    alloc: Global,
    keys: &Keys,
    calls: &[(u32, Request)],
) -> Result<Vec<(u32, Reply)>, NoMemory>
    ensures { IfOk result (λ replies. AreRight keys.now.order empty_table calls.now replies.items) }
{
    let mut table = Table::new(alloc, keys)?;
    let mut replies = Vec::new(alloc);
    for call in calls {
        let reply = table.step(alloc, &call.1)?;
        replies.push((call.0, reply))?;
    }
    Ok(replies)
}

// Appends the lines of one client's replies, numbered from 1.
fn print_client(text: &mut Vec<u8>, client: u32, replies: &[(u32, Reply)]) -> Result<(), NoMemory>
    ensures { OnOk result (text.new.items ≡
        text.old.items ++ printed client (said_to client replies.now)) }
{
    let mut number: u64 = 0;
    for reply in replies {
        if reply.0 == client {
            number += 1;
            append_reply(text, client, number, &reply.1)?;
        }
    }
    Ok(())
}

// The lines of all replies, client by client.
fn print_all(alloc: Global, replies: &[(u32, Reply)]) -> Result<Vec<u8>, NoMemory>
    ensures { IfOk result (λ text. text.items ≡ printed_to 16 replies.now) }
{
    let mut text = Vec::new(alloc);
    for client in 0..16u32 {
        print_client(&mut text, client + 1, replies)?;
    }
    Ok(text)
}

// Runs a script.
fn run<R: Source, W: Sink>(
    alloc: Global,
    words: &[&str],
    source: &mut R,
    out: &mut W,
) -> Result<(), Halt>
    ensures { IsPlainEnd (map (λ w. w.now) words.now)
        (R.left source.old) (R.left source.new) (R.faults source.old) (R.faults source.new)
        (W.written out.old) (W.written out.new) (W.faults out.old) (W.faults out.new) result }
{
    let Some(master) = read_command("plain", words) else {
        return Err(Halt::Stopped(Stop::BadWords));
    };
    let bytes = read_all(alloc, source)?;
    let script = read_script(alloc, bytes.as_slice())?;
    let replies = serve_calls(alloc, &Keys::of(&master), script.as_slice())?;
    let text = print_all(alloc, replies.as_slice())?;
    match out.write(text.as_slice()) {
        Ok(()) => Ok(()),
        Err(Failed) => Err(Halt::Stopped(Stop::Unwritten)),
    }
}

// Status and line by which a run ends.
fn told(ended: Result<(), Halt>) -> (u8, u64)
    ensures { result ≡ ended_as ended }
{
    match ended {
        Ok(()) => (0, 0),
        Err(Halt::Stopped(stop)) => (status(&Err(stop)), line(&Err(stop))),
        Err(Halt::FarClient { line }) => (7, line),
    }
}

/// Serves a script by the plain file system, with no store: all lines in their order by one table, and then the replies
/// are printed client by client. Answers the status and the line.
///
/// The words are `plain` and the master key in hexadecimal digits; the key orders directories, which only the reply to
/// `root` shows. The statuses are 0, 2 (the words with line 0, or the line that is no request), 3 (the source failed),
/// 4 (the sink failed), 7 (the script is too long with line 0, or the line that names a client above 16) and 8 (want of
/// memory). It always returns.
pub fn plain_run<R: Source, W: Sink>(
    alloc: Global,
    words: &[&str],
    script: &mut R,
    out: &mut W,
) -> (u8, u64)
    // The script was read to its end, each reply is the table's at its place, and what was written is their printing.
    ensures printed { result.0 ≡ 0 → IsPlainPrinted (map (λ w. w.now) words.now)
        (R.left script.old) (R.left script.new) (W.written out.old) (W.written out.new) }
    ensures cut { result.0 ≡ 4 → IsCutShort (map (λ w. w.now) words.now)
        (R.left script.old) (R.left script.new) (W.written out.old) (W.written out.new) }
    ensures silent { result.0 ≢ 0 → result.0 ≢ 4 → W.written out.new ≡ W.written out.old }

    // Each status, by its cause.
    ensures bad_words { ((result.0 ≡ 2) × (result.1 ≡ 0)) ↔
        AreNotPlain (map (λ w. w.now) words.now) }
    ensures bad_line { result.0 ≡ 2 →
        result.1 ≢ 0 → FirstLine IsNoRequest (R.left script.old) result.1 }
    ensures far_client { result.0 ≡ 7 →
        result.1 ≢ 0 → FirstLine NamesFarClient (R.left script.old) result.1 }
    ensures too_long { result ≡ (7, 0) → HasMoreThan (R.left script.old) SCRIPT_LEN }
    ensures unread { result.0 ≡ 3 → IsFault (R.faults script.old) (R.faults script.new) }
    ensures unwritten { result.0 ≡ 4 → IsFault (W.faults out.old) (W.faults out.new) }
    ensures statuses { IsStatus result.0 × (result.0 ≢ 1) }

    // Over an outside without faults: a script of calls is served, a first bad line is told, and so is a script that is too
    // long; want of memory aside.
    ensures served { (master bytes : List ℕ) (calls : List (ℕ × SpecRequest)) →
        ArePlain (map (λ w. w.now) words.now) master → R.left script.old ≡ Some bytes →
        length bytes ≤ SCRIPT_LEN → AllAsk (script_lines bytes) calls →
        (IsFault (R.faults script.old) (R.faults script.new) → ⊥) →
        (IsFault (W.faults out.old) (W.faults out.new) → ⊥) → (result.0 ≡ 0) ⊎ (result.0 ≡ 8) }
    ensures tells_line { (master bytes : List ℕ) (n : ℕ) →
        ArePlain (map (λ w. w.now) words.now) master → R.left script.old ≡ Some bytes →
        length bytes ≤ SCRIPT_LEN → IsFirst IsNoRequest (script_lines bytes) n →
        (IsFault (R.faults script.old) (R.faults script.new) → ⊥) →
        (result ≡ (2, n)) ⊎ (result.0 ≡ 8) }
    ensures tells_client { (master bytes : List ℕ) (n : ℕ) →
        ArePlain (map (λ w. w.now) words.now) master → R.left script.old ≡ Some bytes →
        length bytes ≤ SCRIPT_LEN → IsFirst NamesFarClient (script_lines bytes) n →
        (IsFault (R.faults script.old) (R.faults script.new) → ⊥) →
        (result ≡ (7, n)) ⊎ (result.0 ≡ 8) }
    ensures tells_length { (master bytes : List ℕ) →
        ArePlain (map (λ w. w.now) words.now) master → R.left script.old ≡ Some bytes →
        SCRIPT_LEN < length bytes → (IsFault (R.faults script.old) (R.faults script.new) → ⊥) →
        (result ≡ (7, 0)) ⊎ (result.0 ≡ 8) }
{
    told(run(alloc, words, script, out))
}

#[cfg(test)]
mod tests {
    use super::*;
    use crate::memory::{MemSink, MemSource};
    use std::test::Fail;

    const KEY: &str = "0000000000000000000000000000000000000000000000000000000000000000";

    // A reply at another client's place or under another number, a line of another number.
    #[test]
    fn prints_client_by_client(rt: HostRuntime) -> Result<(), Fail> {
        let alloc = rt.alloc();
        let script = b"2 mkdir /b\n#\n1 mkdir /a\n2 stat /a\n".to_vec(alloc)?;
        let mut source = MemSource::new(script, 5, Vec::new(alloc));
        let mut out = MemSink::new(alloc, 100, Vec::new(alloc))?;
        let ended = plain_run(alloc, &["plain", KEY], &mut source, &mut out);
        assert_eq!(rt; ended, (0, 0));
        assert_eq!(rt;
            out.bytes(),
            b"1 1 done\n2 1 done\n2 2 stat dir 0\n".as_slice()
        );
        Ok(())
    }
}
