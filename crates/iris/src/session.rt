//! One session: the lines of a script, served in order.

ghost use Rattle.std.specs.Prelude.{◌≡◌, ◌+◌, ◌*◌, ◌<◌, ◌≤◌, ◌^◌, ◌==◌, ◌≢◌, ℕ, [], ◌∷◌, OnOk, OnErr, IfOk, IfSome, length, map, if◌then◌else◌, Some, None, slice_index, slice_index_or, vec_len};
ghost use Rattle.std.specs.List.{All};
ghost use Rattle.iris_name.specs.Told.{appended};
ghost use Rattle.iris_name.specs.declared.note.Note.TheVariants.{Call};
ghost use Rattle.iris_history.specs.Values.{AreBytes, IsRequest, IsReply};
ghost use Rattle.iris.specs.Agrees.{Keeps};
ghost use Rattle.iris.specs.Lines.{IsInRange, request_of, write_of, read_of};
ghost use Rattle.iris_rows.specs.Rows.{zeros as block_of_zeros};
ghost use Rattle.iris.specs.Said.{saying, silent};
ghost use Rattle.iris.specs.Session.{Serves, Stops, IsSessionReady, IsFew, IsOneMore, IsJudged, HasShape};
ghost use Rattle.iris.specs.Top.{IsEmptyLog};

use crate::blocks::{
    block_name, bytes_of, fill, judge, kept_unless, read_request, record, write_request, zeros,
};
use crate::line::Line;
use crate::link::{get, put};
use crate::places::Places;
use crate::replies::Replies;
use iris_log::Log;
use iris_mac::Keys;
use iris_name::{Bytes, NoMemory, Note, PAGE_LEN, Reply, Request};
use iris_store::Store;
use std::alloc::Global;

/// Who asks: the one client.
const CLIENT: u32 = 1;

/// What a session keeps while it runs: the registers, the replies, and the number of its notes.
#[derive(Drop)]
pub struct Session {
    places: Places,
    replies: Replies,
    noted: u64,
}

impl Session {
    fn new(alloc: Global) -> Result<Session, NoMemory>
        ensures sizes { IfOk result (λ s. (length s.places.versions.items ≡ 65536) ×
            (length s.places.kept.items ≡ 65536)) }
        ensures counts { IfOk result (λ s. (s.places.counter ≡ 0) × (s.noted ≡ 0)) }
        ensures versions { IfOk result (λ s. (p : ℕ) → slice_index s.places.versions.items p ≡ 0) }
        ensures kept { IfOk result (λ s. (p : ℕ) →
            slice_index_or s.places.kept.items p None ≡ None) }
        ensures replies { IfOk result (λ s. s.replies ≡ silent) }
    {
        Ok(Session {
            places: Places::new(alloc)?,
            replies: Replies::new(alloc),
            noted: 0,
        })
    }

    // Enters a call with its reply.
    fn enter<G: Log>(&mut self, log: &mut G, request: Request, reply: Reply) -> Result<(), NoMemory>
        requires room { 0 < G.spare log.old }
        requires few { (self.old.replies.count < 2 ^ 32) × (self.old.noted < 2 ^ 32) }
        ensures notes { OnOk result (G.notes log.new ≡
            appended (G.notes log.old) (Call 1 request reply)) }
        ensures replies { OnOk result (self.new.replies ≡ saying self.old.replies reply) }
        ensures noted { OnOk result (self.new.noted ≡ self.old.noted + 1) }
        ensures room_left { OnOk result (G.spare log.new + 1 ≡ G.spare log.old) }
        ensures places { self.new.places ≡ self.old.places }
        ensures err { OnErr result (G.notes log.new ≡ G.notes log.old) }
    {
        self.replies.say(&reply)?;
        log.note(Note::Call {
            who: CLIENT,
            request,
            reply,
        });
        self.noted += 1;
        Ok(())
    }

    #[tactic(auto, using(crate::proofs::Fillings::bytes_zeros))]
    // The block of a place, where no get is needed: it was never written, or the store failed to take it.
    fn at_hand(&self, alloc: Global, place: u32) -> Result<Option<Bytes>, NoMemory>
        requires place { place < 65536 }
        requires sizes { (length self.now.places.versions.items ≡ 65536) ×
            (length self.now.places.kept.items ≡ 65536) }
        ensures bytes { IfOk result (λ found. IfSome found AreBytes) }
        ensures found { IfOk result (λ found.
            found ≡ (if slice_index self.now.places.versions.items place == 0
            then Some block_of_zeros else slice_index_or self.now.places.kept.items place None)) }
    {
        if self.places.versions[place as usize] == 0 {
            return Ok(Some(zeros(alloc)?));
        }
        match &self.places.kept[place as usize] {
            None => Ok(None),
            Some(page) => Ok(Some(bytes_of(alloc, page)?)),
        }
    }
}

// Serves a write: its call, and then the put of the block.
fn write_place<S: Store, G: Log>(
    alloc: Global,
    keys: &Keys,
    session: &mut Session,
    link: &mut S,
    log: &mut G,
    place: u32,
    bytes: Bytes,
) -> Result<(), NoMemory>
    requires place { place < 65536 }
    requires fits { length bytes ≤ PAGE_LEN }
    requires bytes { AreBytes bytes }
    requires ready { IsSessionReady keys.now.block session.old (G.notes log.old) }
    requires few { IsFew session.old }
    ensures ready { OnOk result (IsSessionReady keys.now.block session.new (G.notes log.new)) }
    ensures more { OnOk result (IsOneMore session.old session.new) }
    ensures serves { OnOk result (Serves (write_of place bytes ∷ []) (G.notes log.old)
        (G.notes log.new) (S.traffic link.old) (S.traffic link.new)
        (S.faults link.old) (S.faults link.new) session.old.replies session.new.replies) }
    ensures stops { OnErr result (Stops keys.now.block (write_of place bytes ∷ []) (G.notes log.old)
        (G.notes log.new) (S.traffic link.old) (S.traffic link.new)) }
{
    log.ready(2)?;
    let block = fill(bytes)?;
    let version = session.places.counter + 1;
    let made = record(alloc, keys, place, version, block.as_slice())?;
    let request = write_request(alloc, place, block)?;
    session.enter(log, request, Reply::Done)?;
    let name = block_name(place);
    let since = session.noted;
    let ok = put(alloc, link, &name, made.as_slice())?;
    let kept = kept_unless(alloc, ok, made.as_slice());
    log.note(Note::Put {
        who: CLIENT,
        since,
        name,
        bytes: Bytes::of(made),
        ok,
    });
    session.noted += 1;
    session.places.set(place, version, kept?);
    Ok(())
}

// Serves a read of a place whose block the store was given: a get, and then its call.
fn fetch_place<S: Store, G: Log>(
    alloc: Global,
    keys: &Keys,
    session: &mut Session,
    link: &mut S,
    log: &mut G,
    place: u32,
    request: Request,
) -> Result<(), NoMemory>
    requires place { place < 65536 }
    requires asked { request ≡ read_of place }
    requires room { 2 ≤ G.spare log.old }
    requires written { slice_index session.old.places.versions.items place ≢ 0 }
    requires absent { slice_index_or session.old.places.kept.items place None ≡ None }
    requires ready { IsSessionReady keys.now.block session.old (G.notes log.old) }
    requires few { IsFew session.old }
    ensures ready { OnOk result (IsSessionReady keys.now.block session.new (G.notes log.new)) }
    ensures more { OnOk result (IsOneMore session.old session.new) }
    ensures serves { OnOk result (Serves (read_of place ∷ []) (G.notes log.old)
        (G.notes log.new) (S.traffic link.old) (S.traffic link.new)
        (S.faults link.old) (S.faults link.new) session.old.replies session.new.replies) }
    ensures stops { OnErr result (Stops keys.now.block (read_of place ∷ []) (G.notes log.old)
        (G.notes log.new) (S.traffic link.old) (S.traffic link.new)) }
{
    let version = session.places.versions[place as usize];
    let name = block_name(place);
    let since = session.noted;
    let answer = get(alloc, link, &name)?;
    let reply = judge(alloc, keys, place, version, &answer);
    log.note(Note::Got {
        who: CLIENT,
        since,
        name,
        answer,
    });
    session.noted += 1;
    session.enter(log, request, reply?)?;
    Ok(())
}

// Serves a read.
fn read_place<S: Store, G: Log>(
    alloc: Global,
    keys: &Keys,
    session: &mut Session,
    link: &mut S,
    log: &mut G,
    place: u32,
) -> Result<(), NoMemory>
    requires place { place < 65536 }
    requires ready { IsSessionReady keys.now.block session.old (G.notes log.old) }
    requires few { IsFew session.old }
    ensures ready { OnOk result (IsSessionReady keys.now.block session.new (G.notes log.new)) }
    ensures more { OnOk result (IsOneMore session.old session.new) }
    ensures serves { OnOk result (Serves (read_of place ∷ []) (G.notes log.old)
        (G.notes log.new) (S.traffic link.old) (S.traffic link.new)
        (S.faults link.old) (S.faults link.new) session.old.replies session.new.replies) }
    ensures stops { OnErr result (Stops keys.now.block (read_of place ∷ []) (G.notes log.old)
        (G.notes log.new) (S.traffic link.old) (S.traffic link.new)) }
{
    log.ready(2)?;
    let request = read_request(alloc, place)?;
    let Some(block) = session.at_hand(alloc, place)? else {
        return fetch_place(alloc, keys, session, link, log, place, request);
    };
    session.enter(log, request, Reply::Bytes(block))?;
    Ok(())
}

// Serves a line.
fn serve<S: Store, G: Log>(
    alloc: Global,
    keys: &Keys,
    session: &mut Session,
    link: &mut S,
    log: &mut G,
    line: Line,
) -> Result<(), NoMemory>
    requires range { IsInRange line }
    requires ready { IsSessionReady keys.now.block session.old (G.notes log.old) }
    requires few { IsFew session.old }
    ensures ready { OnOk result (IsSessionReady keys.now.block session.new (G.notes log.new)) }
    ensures more { OnOk result (IsOneMore session.old session.new) }
    ensures serves { OnOk result (Serves (request_of line ∷ []) (G.notes log.old)
        (G.notes log.new) (S.traffic link.old) (S.traffic link.new)
        (S.faults link.old) (S.faults link.new) session.old.replies session.new.replies) }
    ensures stops { OnErr result (Stops keys.now.block (request_of line ∷ []) (G.notes log.old)
        (G.notes log.new) (S.traffic link.old) (S.traffic link.new)) }
{
    match line {
        Line::Write { place, bytes } => write_place(alloc, keys, session, link, log, place, bytes),
        Line::Read { place } => read_place(alloc, keys, session, link, log, place),
    }
}

/// Serves the lines of a script in order, and answers what is to be printed.
pub fn serve_all<S: Store, G: Log>(
    alloc: Global,
    keys: &Keys,
    link: &mut S,
    log: &mut G,
    lines: Vec<Line>,
) -> Result<Replies, NoMemory>
    requires ranges { All IsInRange lines.items }
    requires few { vec_len lines < 2 ^ 30 }
    requires fresh { IsEmptyLog (G.notes log.old) }
    ensures serves { IfOk result (λ replies.
        Serves (map request_of lines.items) (G.notes log.old) (G.notes log.new) (S.traffic link.old)
        (S.traffic link.new) (S.faults link.old) (S.faults link.new) silent replies) }
    ensures judged { OnOk result (IsJudged keys.now.block (G.notes log.new)) }
    ensures shaped { OnOk result (HasShape keys.now.block (G.notes log.new)) }
    ensures stops { OnErr result (Stops keys.now.block (map request_of lines.items)
        (G.notes log.old) (G.notes log.new) (S.traffic link.old) (S.traffic link.new)) }
{
    let mut session = Session::new(alloc)?;
    for line in lines {
        serve(alloc, keys, &mut session, link, log, line)?;
    }
    Ok(session.replies)
}
