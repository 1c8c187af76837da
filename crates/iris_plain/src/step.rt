//! The step of the plain file system.

ghost use Rattle.std.specs.Prelude.{◌≡◌, ◌==◌, ◌∷◌, [], ℕ, List, Option, None, length, drop, take, is_none, if◌then◌else◌, IfOk, OnOk, OnErr};
ghost use Rattle.iris_name.specs.Paths.{names_of};
ghost use Rattle.iris_plain.specs.Routes.{is_top, is_front, parent};
ghost use Rattle.iris_plain.specs.Checks.{on_names, no_place, write_checks, read_checks, resize_checks, move_checks, remove_checks, unresolved, then_error, error_if, is_file, is_directory_seen, size_of, is_full};
ghost use Rattle.iris_plain.specs.Files.{fresh_state, seen_at, set, cleared, shifted, bytes_changed, wrote, resized_bytes};
ghost use Rattle.iris_plain.specs.Steps.{IsPlainRequest, PlainReplies, plain_step, Judged, OnNames, by_names, aged, bytes_of, has_entry_named};
ghost use Rattle.iris_plain.specs.Entries.{kind_at, state_of_list};
ghost use Rattle.iris_name.specs.declared.request.Reply.TheVariants.{Done, Bytes as BytesAre, Names, Stat as StatIs};
ghost use Rattle.iris_name.specs.declared.request.PlainError.TheVariants.{NotDir};
ghost use Rattle.iris_plain.specs.Pages.{IsPage};

use crate::bytes::piece;
use crate::checks::{
    Seen, is_dir, is_full, list_checks, move_checks, new_name, read_checks, remove_checks,
    resize_checks, size_of, stat_checks, write_checks,
};
use crate::files::{
    Entry, Kind, add, clear, is_below, look_at, page, resize_at, seen_at, shift, write_at,
};
use iris_name::{Bytes, NoMemory, Path, PathError, PlainError, Reply, Request, Text};
use std::alloc::Global;
use std::marker::Model;

/// The plain file system: what stands at each path, and the age.
#[derive(Drop)]
pub struct Plain {
    entries: Vec<Entry>,
    age: u64,
}

impl Model for Plain {
    ghost use Rattle.iris_plain.specs.Entries.{ListedEntries};

    ghost Value = { ListedEntries };

    ghost view = { λ a. record { entries = a.entries.items; age = a.age } };
}

/// The path of a text, none where it has none.
pub fn read_path(alloc: Global, text: &Text) -> Result<Option<Path>, NoMemory>
    ensures { IfOk result (λ path. names_of text.now ≡ path) }
{
    match Path::read(alloc, text) {
        Ok(path) => Ok(Some(path)),
        Err(PathError::BadPath) => Ok(None),
        Err(PathError::NoMemory) => Err(NoMemory),
    }
}

/// The path of the directory above.
pub fn above(names: &[Text]) -> &[Text]
    ensures { result.now ≡ parent names.now }
{
    if names.is_empty() {
        names
    } else {
        &names[..names.len() - 1]
    }
}

impl Plain {
    /// The root alone, at age 0.
    pub fn new(alloc: Global) -> Result<Plain, NoMemory>
        ensures { IfOk result (λ plain. state_of_list plain ≡ fresh_state) }
    {
        let path = Path::joined(alloc, &[], &[])?;
        let mut entries = Vec::new(alloc);
        entries.push(Entry {
            path,
            kind: Kind::Dir,
        })?;
        Ok(Plain { entries, age: 0 })
    }

    /// The same files and directories at another age.
    pub fn with_age(self, age: u64) -> Plain
        ensures { state_of_list result ≡ record { files = kind_at self.entries; age = age } }
    {
        Plain {
            entries: self.entries,
            age,
        }
    }

    // The checks of a new name at a path.
    fn new_at(&self, names: &[Text]) -> Option<PlainError>
        ensures { result ≡
            no_place (seen_at (kind_at self.now.entries)) (is_full self.now.age) names.now }
    {
        let directory = seen_at(self.entries.as_slice(), above(names));
        let here = seen_at(self.entries.as_slice(), names);
        new_name(names.is_empty(), directory, here, is_full(self.age))
    }

    // What resolving a path meets.
    fn seen(&self, names: &[Text]) -> Seen
        ensures { result ≡ seen_at (kind_at self.now.entries) names.now }
    {
        seen_at(self.entries.as_slice(), names)
    }

    // Whether no change is taken.
    fn is_full(&self) -> bool
        ensures { result ≡ is_full self.now.age }
    {
        is_full(self.age)
    }

    // A new file or directory at the path of a text.
    fn make(&mut self, alloc: Global, path: &Text, kind: Kind) -> Result<Reply, NoMemory>
        ensures reply { IfOk result (λ reply.
            Judged (on_names (names_of path.now) (no_place (seen_at (kind_at self.old.entries))
            (is_full self.old.age))) (reply ≡ Done) reply) }
        ensures step { OnOk result (state_of_list self.new ≡ (if is_none (on_names (names_of
            path.now) (no_place (seen_at (kind_at self.old.entries)) (is_full self.old.age)))
            then by_names (state_of_list self.old) (names_of path.now) (λ names.
            aged (set names kind) (state_of_list self.old)) else state_of_list self.old)) }
        ensures err { OnErr result (self.new ≡ self.old) }
    {
        let Some(path) = read_path(alloc, path)? else {
            return Ok(Reply::Plain(PlainError::BadPath));
        };
        if let Some(error) = self.new_at(path.names()) {
            return Ok(Reply::Plain(error));
        }
        add(&mut self.entries, path, kind)?;
        self.age += 1;
        Ok(Reply::Done)
    }

    // Writes bytes over the file at the path of a text.
    fn write(
        &mut self,
        alloc: Global,
        path: &Text,
        offset: u64,
        bytes: &[u8],
    ) -> Result<Reply, NoMemory>
        ensures reply { IfOk result (λ reply. Judged (on_names (names_of path.now) (λ names.
            write_checks (seen_at (kind_at self.old.entries) names) offset
            (length bytes.now) (is_full self.old.age))) (reply ≡ Done) reply) }
        ensures step { OnOk result (state_of_list self.new ≡
            (if is_none (on_names (names_of path.now) (λ names. write_checks (seen_at
            (kind_at self.old.entries) names) offset (length bytes.now) (is_full self.old.age)))
            then by_names (state_of_list self.old) (names_of path.now) (λ names.
            if length bytes.now == 0 then state_of_list self.old
            else aged (bytes_changed names (wrote offset bytes.now)) (state_of_list self.old))
            else state_of_list self.old)) }
        ensures err { OnErr result (self.new ≡ self.old) }
    {
        let Some(path) = read_path(alloc, path)? else {
            return Ok(Reply::Plain(PlainError::BadPath));
        };
        let here = self.seen(path.names());
        if let Some(error) = write_checks(here, offset, bytes.len() as u64, self.is_full()) {
            return Ok(Reply::Plain(error));
        }
        if bytes.is_empty() {
            return Ok(Reply::Done);
        }
        write_at(alloc, &mut self.entries, path.names(), offset, bytes)?;
        self.age += 1;
        Ok(Reply::Done)
    }

    // Bytes of the file at the path of a text.
    fn read(&self, alloc: Global, path: &Text, offset: u64, count: u64) -> Result<Reply, NoMemory>
        ensures { IfOk result (λ reply. Judged (on_names (names_of path.now) (λ names.
            read_checks (seen_at (kind_at self.now.entries) names) count))
            (OnNames (names_of path.now) (λ names. reply ≡ BytesAre (take count
            (drop offset (bytes_of (kind_at self.now.entries names)))))) reply) }
    {
        let Some(path) = read_path(alloc, path)? else {
            return Ok(Reply::Plain(PlainError::BadPath));
        };
        if let Some(error) = read_checks(self.seen(path.names()), count) {
            return Ok(Reply::Plain(error));
        }
        match look_at(self.entries.as_slice(), path.names()) {
            Some(Kind::Bytes(bytes)) => Ok(Reply::Bytes(piece(alloc, bytes, offset, count)?)),
            _ => Ok(Reply::Bytes(Bytes::of(Vec::new(alloc)))),
        }
    }

    // A new length of the file at the path of a text.
    fn resize(&mut self, alloc: Global, path: &Text, size: u64) -> Result<Reply, NoMemory>
        ensures reply { IfOk result (λ reply. Judged (on_names (names_of path.now) (λ names.
            resize_checks (seen_at (kind_at self.old.entries) names) size (is_full self.old.age)))
            (reply ≡ Done) reply) }
        ensures step { OnOk result (state_of_list self.new ≡
            (if is_none (on_names (names_of path.now) (λ names.
            resize_checks (seen_at (kind_at self.old.entries) names) size (is_full self.old.age)))
            then by_names (state_of_list self.old) (names_of path.now) (λ names. if size ==
            size_of (seen_at (kind_at self.old.entries) names) then state_of_list self.old
            else aged (bytes_changed names (resized_bytes size)) (state_of_list self.old))
            else state_of_list self.old)) }
        ensures err { OnErr result (self.new ≡ self.old) }
    {
        let Some(path) = read_path(alloc, path)? else {
            return Ok(Reply::Plain(PlainError::BadPath));
        };
        let here = self.seen(path.names());
        if let Some(error) = resize_checks(here, size, self.is_full()) {
            return Ok(Reply::Plain(error));
        }
        if size == size_of(here) {
            return Ok(Reply::Done);
        }
        resize_at(alloc, &mut self.entries, path.names(), size)?;
        self.age += 1;
        Ok(Reply::Done)
    }

    // The kind and the length of what stands at the path of a text.
    fn stat(&self, alloc: Global, path: &Text) -> Result<Reply, NoMemory>
        ensures { IfOk result (λ reply. Judged (on_names (names_of path.now) (λ names.
            unresolved (seen_at (kind_at self.now.entries) names))) (OnNames (names_of path.now)
            (λ names. reply ≡ StatIs (is_directory_seen (seen_at (kind_at self.now.entries) names))
            (size_of (seen_at (kind_at self.now.entries) names)))) reply) }
    {
        let Some(path) = read_path(alloc, path)? else {
            return Ok(Reply::Plain(PlainError::BadPath));
        };
        let here = self.seen(path.names());
        if let Some(error) = stat_checks(here) {
            return Ok(Reply::Plain(error));
        }
        Ok(Reply::Stat {
            dir: is_dir(here),
            length: size_of(here),
        })
    }

    // A page of the names of the directory at the path of a text.
    fn list(&self, alloc: Global, path: &Text, after: &Text) -> Result<Reply, NoMemory>
        ensures { IfOk result (λ reply. Judged (on_names (names_of path.now) (λ names.
            then_error (unresolved (seen_at (kind_at self.now.entries) names))
            (error_if (is_file (seen_at (kind_at self.now.entries) names)) NotDir)))
            (OnNames (names_of path.now) (λ names. (page : List (List ℕ)) × ((reply ≡ Names page) ×
            IsPage (has_entry_named (kind_at self.now.entries) names) 64 after.now page))) reply) }
    {
        let Some(path) = read_path(alloc, path)? else {
            return Ok(Reply::Plain(PlainError::BadPath));
        };
        if let Some(error) = list_checks(self.seen(path.names())) {
            return Ok(Reply::Plain(error));
        }
        let page = page(alloc, self.entries.as_slice(), path.names(), after)?;
        Ok(Reply::Names(page))
    }

    // Replaces the path of one text by that of another.
    fn rename(&mut self, alloc: Global, from: &Text, to: &Text) -> Result<Reply, NoMemory>
        ensures reply { IfOk result (λ reply.
            Judged (on_names (names_of from.now) (λ olds. on_names (names_of to.now) (λ news.
            move_checks (is_top olds) (seen_at (kind_at self.old.entries) olds) (is_front olds news)
            (no_place (seen_at (kind_at self.old.entries)) (is_full self.old.age) news))))
            (reply ≡ Done) reply) }
        ensures step { OnOk result (state_of_list self.new ≡
            (if is_none (on_names (names_of from.now) (λ olds. on_names (names_of to.now) (λ news.
            move_checks (is_top olds) (seen_at (kind_at self.old.entries) olds) (is_front olds news)
            (no_place (seen_at (kind_at self.old.entries)) (is_full self.old.age) news))))
            then by_names (state_of_list self.old) (names_of from.now) (λ olds.
            by_names (state_of_list self.old) (names_of to.now) (λ news.
            aged (shifted olds news) (state_of_list self.old))) else state_of_list self.old)) }
        ensures err { OnErr result (self.new ≡ self.old) }
    {
        let Some(from) = read_path(alloc, from)? else {
            return Ok(Reply::Plain(PlainError::BadPath));
        };
        let Some(to) = read_path(alloc, to)? else {
            return Ok(Reply::Plain(PlainError::BadPath));
        };
        let olds = from.names();
        let news = to.names();
        let new = self.new_at(news);
        if let Some(error) = move_checks(
            olds.is_empty(),
            self.seen(olds),
            is_below(olds, news),
            new,
        ) {
            return Ok(Reply::Plain(error));
        }
        shift(alloc, &mut self.entries, olds, news)?;
        self.age += 1;
        Ok(Reply::Done)
    }

    // Takes the path of a text and all below it out.
    fn remove(&mut self, alloc: Global, path: &Text) -> Result<Reply, NoMemory>
        ensures reply { IfOk result (λ reply. Judged (on_names (names_of path.now) (λ names.
            remove_checks (is_top names) (seen_at (kind_at self.old.entries) names)
            (is_full self.old.age))) (reply ≡ Done) reply) }
        ensures step { OnOk result (state_of_list self.new ≡
            (if is_none (on_names (names_of path.now) (λ names. remove_checks (is_top names)
            (seen_at (kind_at self.old.entries) names) (is_full self.old.age)))
            then by_names (state_of_list self.old) (names_of path.now) (λ names.
            aged (cleared names) (state_of_list self.old)) else state_of_list self.old)) }
        ensures err { OnErr result (self.new ≡ self.old) }
    {
        let Some(path) = read_path(alloc, path)? else {
            return Ok(Reply::Plain(PlainError::BadPath));
        };
        let names = path.names();
        if let Some(error) = remove_checks(names.is_empty(), self.seen(names), self.is_full()) {
            return Ok(Reply::Plain(error));
        }
        clear(&mut self.entries, names);
        self.age += 1;
        Ok(Reply::Done)
    }

    /// One request of the plain file system: the reply by its checks, and the next state. A plain error changes nothing.
    pub fn step(&mut self, alloc: Global, request: &Request) -> Result<Reply, NoMemory>
        requires { IsPlainRequest request.now }
        ensures reply { IfOk result (λ reply.
            PlainReplies (state_of_list self.old) request.now reply) }
        ensures step { OnOk result (state_of_list self.new ≡
            plain_step (state_of_list self.old) request.now) }
        ensures err { OnErr result (self.new ≡ self.old) }
    {
        match request {
            Request::Mkdir { path } => self.make(alloc, path, Kind::Dir),
            Request::Create { path } => {
                self.make(alloc, path, Kind::Bytes(Bytes::of(Vec::new(alloc))))
            }
            Request::Write {
                path,
                offset,
                bytes,
            } => self.write(alloc, path, *offset, bytes.as_slice()),
            Request::Read {
                path,
                offset,
                length,
            } => self.read(alloc, path, *offset, *length),
            Request::Resize { path, length } => self.resize(alloc, path, *length),
            Request::Stat { path } => self.stat(alloc, path),
            Request::List { path, after } => self.list(alloc, path, after),
            Request::Rename { from, to } => self.rename(alloc, from, to),
            Request::Remove { path } => self.remove(alloc, path),
            Request::Sync | Request::Root | Request::Reclaim | Request::Probe { .. } => {
                unreachable!()
            }
        }
    }
}
