//! The top call: a script of the block registers, from bytes in to bytes out.

ghost use Rattle.std.specs.Prelude.{◌≡◌, ◌≢◌, ◌⊎◌, ◌↔◌, ◌≤◌, ℕ, List, map, take, IfSome, IsTrue};
ghost use Rattle.iris_name.specs.Told.{extended};
ghost use Rattle.iris.specs.Notes.{AllBy, AnyGetFailed, requests_of, replies_of, transfers_of, any_refused, printed};
ghost use Rattle.iris.specs.Outside.{IsFault};
ghost use Rattle.iris.specs.Run.{IsEnd, status_of, line_of};
ghost use Rattle.iris.specs.Top.{IsEmptyLog, IsPrinted, IsServed, IsUnbegun, IsSilent, WasRead, WentOn, AreFirst, IsBadOrLegal, HasItsTransfers, HasNoKey, HasBadLine, IsTooLong, IsInForm, IsDoneIfHonest};
ghost use Rattle.iris.specs.Words.{AreWords};

use crate::line::{LineError, read_lines};
use crate::outcome::Registers;
use crate::outside::{Sink, Source};
use crate::reading::{ReadError, read_all};
use crate::session::serve_all;
use crate::words::read_words;
use iris_log::Log;
use iris_mac::Keys;
use iris_name::{Failed, NoMemory};
use iris_store::Store;
use std::alloc::Global;

// Why a run stops before its replies are printed.
#[derive(Clone, Copy, Debug)]
pub enum Stop {
    BadWords,
    BadLine { line: u64 },
    Unread,
    Unwritten,
    TooLong,
    NoMemory,
}

impl From<ReadError> for Stop {
    ghost use Rattle.std.specs.Prelude.{◌≡◌};
    ghost use Rattle.iris.specs.Run.{stop_of_read};

    ghost from_gives = { λ error stop. stop ≡ stop_of_read error };

    fn from(error: ReadError) -> Stop {
        match error {
            ReadError::Failed => Stop::Unread,
            ReadError::TooLong => Stop::TooLong,
            ReadError::NoMemory => Stop::NoMemory,
        }
    }
}

impl From<LineError> for Stop {
    ghost use Rattle.std.specs.Prelude.{◌≡◌};
    ghost use Rattle.iris.specs.Run.{stop_of_line};

    ghost from_gives = { λ error stop. stop ≡ stop_of_line error };

    fn from(error: LineError) -> Stop {
        match error {
            LineError::NotRequest { line } => Stop::BadLine { line },
            LineError::NoMemory => Stop::NoMemory,
        }
    }
}

impl From<NoMemory> for Stop {
    ghost use Rattle.std.specs.Prelude.{◌≡◌};
    ghost use Rattle.iris.specs.declared.top.Stop.TheVariants.{NoMemory as OutOfMemory};

    ghost from_gives = { λ _ stop. stop ≡ OutOfMemory };

    fn from(_error: NoMemory) -> Stop {
        Stop::NoMemory
    }
}

// Runs a script, and tells whether a reply was refused.
fn run<R: Source, W: Sink, S: Store, G: Log>(
    alloc: Global,
    words: &[&str],
    script: &mut R,
    out: &mut W,
    link: &mut S,
    log: &mut G,
) -> Result<bool, Stop>
    requires fresh { IsEmptyLog (G.notes log.old) }
    ensures { IsEnd (map (λ w. w.now) words.now) (R.left script.old) (R.left script.new)
        (R.faults script.old) (R.faults script.new) (W.written out.old) (W.written out.new)
        (W.faults out.old) (W.faults out.new) (S.traffic link.old) (S.traffic link.new)
        (S.faults link.old) (S.faults link.new) (G.notes log.old) (G.notes log.new) result }
{
    let Some(master) = read_words(words) else {
        return Err(Stop::BadWords);
    };
    let bytes = read_all(alloc, script)?;
    let lines = read_lines(alloc, bytes.as_slice())?;
    let replies = serve_all(alloc, &Keys::of(&master), link, log, lines)?;
    match out.write(replies.text()) {
        Ok(()) => Ok(replies.any_refused()),
        Err(Failed) => Err(Stop::Unwritten),
    }
}

// The status by which a run ends.
pub fn status(ended: &Result<bool, Stop>) -> u8
    ensures { result ≡ status_of ended.now }
{
    match ended {
        Ok(false) => 0,
        Ok(true) => 1,
        Err(Stop::BadWords | Stop::BadLine { .. }) => 2,
        Err(Stop::Unread) => 3,
        Err(Stop::Unwritten) => 4,
        Err(Stop::TooLong) => 7,
        Err(Stop::NoMemory) => 8,
    }
}

// The line that is no request, or 0.
pub fn line(ended: &Result<bool, Stop>) -> u64
    ensures { result ≡ line_of ended.now }
{
    match ended {
        Err(Stop::BadLine { line }) => *line,
        _ => 0,
    }
}

/// Serves a script of the block registers over a store that may answer anything.
///
/// The words are `registers` and the master key in hexadecimal digits. The script is read to its end, all its lines are
/// checked, then they are served in order, and only then the replies are printed. The statuses are 0 (no reply is refused),
/// 1 (some reply is refused), 2 (the words, or a line), 3 (the source failed), 4 (the sink failed), 7 (the script is too
/// long) and 8 (want of memory). It always returns.
pub fn registers<R: Source, W: Sink, S: Store, G: Log>(
    alloc: Global,
    words: &[&str],
    script: &mut R,
    out: &mut W,
    link: S,
    log: G,
) -> Registers<S, G>
    requires fresh { IsEmptyLog (G.notes log) }

    // The source was read to its end, and spells the requests of the calls.
    ensures read { IsServed result.status → IfSome (G.notes result.log) (λ notes.
        WasRead (R.left script.old) (R.left script.new) (requests_of notes)) }
    // Each note is the one client's.
    ensures asked { IfSome (G.notes result.log) (AllBy 1) }
    // What was written is the printing of the replies, and nothing else.
    ensures printed { IsPrinted result.status → IfSome (G.notes result.log) (λ notes.
        W.written out.new ≡ extended (W.written out.old) (printed 1 (replies_of notes))) }
    // The link's traffic grew by the log's transfers, in order, at every status.
    ensures traffic { IfSome (G.notes result.log) (λ notes.
        S.traffic result.link ≡ extended (S.traffic link) (transfers_of notes)) }
    // Status 1 comes exactly where a reply is refused.
    ensures refused { IsPrinted result.status → IfSome (G.notes result.log) (λ notes.
        (result.status ≡ 1) ↔ IsTrue (any_refused (replies_of notes))) }
    // The history is bad, or legal, at every status.
    ensures judged { IfSome (G.notes result.log) (IsBadOrLegal (map (λ w. w.now) words.now)) }
    // One put after each write's call, one get before the call of each read of a place that is clean there, and no other.
    ensures shaped { IsServed result.status →
        IfSome (G.notes result.log) (HasItsTransfers (map (λ w. w.now) words.now)) }

    // Each status, by its cause. A source that failed and want of memory come before a bad line and a long script, which
    // else come exactly where they stand.
    ensures bad_words { ((result.status ≡ 2) × (result.line ≡ 0)) ↔
        HasNoKey (map (λ w. w.now) words.now) }
    ensures bad_line { IfSome (R.left script.old) (λ bytes. (n : ℕ) →
        n ≢ 0 → WentOn result.status → ((result.status ≡ 2) × (result.line ≡ n)) ↔
        HasBadLine (map (λ w. w.now) words.now) bytes n) }
    ensures other_lines { result.status ≢ 2 → result.line ≡ 0 }
    ensures unread { result.status ≡ 3 → IsFault (R.faults script.old) (R.faults script.new) }
    ensures unwritten { result.status ≡ 4 → IsFault (W.faults out.old) (W.faults out.new) }
    ensures failed { IsServed result.status → IfSome (G.notes result.log) (λ notes.
        AnyGetFailed notes → IsFault (S.faults link) (S.faults result.link)) }
    ensures too_long { IfSome (R.left script.old) (λ bytes. WentOn result.status →
        (result.status ≡ 7) ↔ IsTooLong (map (λ w. w.now) words.now) bytes) }
    ensures statuses { (result.status ≤ 4) ⊎ (result.status ≡ 7) ⊎ (result.status ≡ 8) }
    ensures honest { (master : List ℕ) → AreWords (map (λ w. w.now) words.now) master →
        IsInForm (R.left script.old) → ¬ IsFault (R.faults script.old) (R.faults script.new) →
        ¬ IsFault (W.faults out.old) (W.faults out.new) →
        ¬ IsFault (S.faults link) (S.faults result.link) →
        IfSome (G.notes result.log) (IsDoneIfHonest master result.status) }

    // What a run leaves that ends early.
    ensures unbegun { IsUnbegun result.status →
        (G.notes result.log ≡ G.notes log) × (S.traffic result.link ≡ S.traffic link) }
    ensures silent { IsSilent result.status → W.written out.new ≡ W.written out.old }
    ensures cut { result.status ≡ 4 →
        IfSome (G.notes result.log) (λ notes. (n : ℕ) × (W.written out.new ≡
        extended (W.written out.old) (take n (printed 1 (replies_of notes))))) }
    ensures stopped { result.status ≡ 8 →
        IfSome (G.notes result.log) (λ notes. AreFirst (R.left script.old) (requests_of notes)) }
{
    let mut link = link;
    let mut log = log;
    let ended = run(alloc, words, script, out, &mut link, &mut log);
    Registers {
        status: status(&ended),
        line: line(&ended),
        link,
        log,
    }
}
