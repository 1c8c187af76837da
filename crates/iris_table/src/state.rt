//! One request at a time over the rows.

ghost use Rattle.std.specs.Prelude.{◌≡◌, ◌+◌, ℕ, List, length, is_none, if◌then◌else◌, slice_get, OnOk, OnErr, IfOk};
ghost use Rattle.iris_name.specs.Paths.{names_of};
ghost use Rattle.iris_name.specs.declared.request.Request.TheVariants.{Mkdir, Write, Read, Resize, Stat, List as ListNames, Rename, Remove, Reclaim};
ghost use Rattle.iris_name.specs.declared.request.Reply.TheVariants.{Reclaimed};
ghost use Rattle.iris_plain.specs.Checks.{is_full, no_place};
ghost use Rattle.iris_rows.specs.Rows.{empty_table};
ghost use Rattle.iris_rows.specs.Changes.{made, seen_in, stepped, table_verdict};
ghost use Rattle.iris_plain.specs.Steps.{by_names};
ghost use Rattle.iris_records.specs.Challenges.{table_walk, IsProbed};
ghost use Rattle.iris_rows.specs.Items.{kept_file};
ghost use Rattle.iris_table.specs.Served.{State, table_in, AreForests, IsServedWhole};
ghost use Rattle.iris_records.specs.Records.{AreLive, root_hash};
ghost use Rattle.iris_table.specs.Replies.{Told, is_left};

use crate::moving::{empty, insert, remove, rename, resize_at, write_at};
use crate::rows::{file_at, page, seen};
use crate::trash::reclaim;
use iris_mac::Keys;
use iris_name::{Bytes, FileId, Hash32, Name, NoMemory, PlainError, Reply, Text};
use iris_plain::Seen;
use iris_plain::checks::{
    is_dir, is_full, list_checks, move_checks, new_name, read_checks, remove_checks, resize_checks,
    size_of, stat_checks, write_checks,
};
use iris_plain::files::is_below;
use iris_plain::step::{above, read_path};
use iris_records::{probe, records_of, root_of};
use iris_rows::file::FileRow;
use iris_rows::item::Item;
use std::alloc::Global;
use std::marker::Model;

/// The rows below the visible root and in the trash, the next id and the age.
#[derive(Drop)]
pub struct State {
    visible: Vec<Item>,
    trash: Vec<Item>,
    next: u64,
    age: u64,
}

impl Model for State {
    ghost use Rattle.iris_table.specs.Served.{State};

    ghost Value = { State };

    ghost view = { λ s.
        record { visible = s.visible.items; trash = s.trash.items; next = s.next; age = s.age } };
}

impl State {
    /// No rows.
    pub fn new(alloc: Global) -> State
        ensures table { table_in result ≡ empty_table }
        ensures whole { IsServedWhole result }
    {
        State {
            visible: Vec::new(alloc),
            trash: Vec::new(alloc),
            next: 2,
            age: 0,
        }
    }

    /// The records of all live names.
    pub fn records_of(&self, alloc: Global, keys: &Keys) -> Result<Vec<(Name, Bytes)>, NoMemory>
        requires { IsServedWhole self.now }
        ensures { IfOk result (λ records. AreLive keys.now (table_in self.now) records.items) }
    {
        records_of(alloc, keys, self.visible.as_slice(), self.trash.as_slice())
    }

    /// The root hash.
    pub fn root_of(&self, alloc: Global, keys: &Keys) -> Result<Hash32, NoMemory>
        requires { IsServedWhole self.now }
        ensures { IfOk result (λ hash. hash.0 ≡ root_hash keys.now.order (table_in self.now)) }
    {
        root_of(
            alloc,
            keys,
            self.visible.as_slice(),
            self.trash.as_slice(),
            self.next,
        )
    }

    /// The block at a place of the walk over all blocks.
    pub fn probe(&self, at: u64) -> Reply
        requires { IsServedWhole self.now }
        ensures { (order : List ℕ) → IsProbed (table_in self.now)
            (slice_get (table_walk order (table_in self.now)) at) result }
    {
        probe(self.visible.as_slice(), self.trash.as_slice(), at)
    }

    // What resolving a path meets.
    fn seen(&self, names: &[Text]) -> Seen
        ensures { result ≡ seen_in (table_in self.now) names.now }
    {
        seen(self.visible.as_slice(), names)
    }

    // The checks of a new name at a path.
    fn new_at(&self, names: &[Text]) -> Option<PlainError>
        ensures { result ≡ no_place (seen_in (table_in self.now)) (is_full self.now.age) names.now }
    {
        let directory = seen(self.visible.as_slice(), above(names));
        let here = seen(self.visible.as_slice(), names);
        new_name(names.is_empty(), directory, here, is_full(self.age))
    }

    // Whether no change is taken.
    fn is_full(&self) -> bool
        ensures { result ≡ is_full self.now.age }
    {
        is_full(self.age)
    }

    /// A new file or directory at the path of a text.
    pub fn make(
        &mut self,
        alloc: Global,
        path: &Text,
        file: Option<FileRow>,
    ) -> Result<Reply, NoMemory>
        requires { IsServedWhole self.old }
        ensures reply { IfOk result (λ reply. Told (table_in self.old) (Mkdir path.now) reply) }
        ensures step { OnOk result (table_in self.new ≡
            (if is_none (table_verdict (table_in self.old) (Mkdir path.now))
            then by_names (table_in self.old) (names_of path.now) (λ names.
            made (kept_file file) names (table_in self.old)) else table_in self.old)) }
        ensures err { OnErr result (self.new ≡ self.old) }
        ensures forests { AreForests self.new }
    {
        let Some(path) = read_path(alloc, path)? else {
            return Ok(Reply::Plain(PlainError::BadPath));
        };
        if let Some(error) = self.new_at(path.names()) {
            return Ok(Reply::Plain(error));
        }
        let id = FileId(self.next);
        insert(alloc, &mut self.visible, path.names(), id, file)?;
        self.next += 1;
        self.age += 1;
        Ok(Reply::Done)
    }

    /// Writes bytes over the file at the path of a text.
    pub fn write(
        &mut self,
        alloc: Global,
        path: &Text,
        offset: u64,
        bytes: &Bytes,
    ) -> Result<Reply, NoMemory>
        requires { IsServedWhole self.old }
        ensures reply { IfOk result (λ reply.
            Told (table_in self.old) (Write path.now offset bytes.now) reply) }
        ensures step { OnOk result (table_in self.new ≡
            stepped (table_in self.old) (Write path.now offset bytes.now)) }
        ensures err { OnErr result (self.new ≡ self.old) }
        ensures forests { AreForests self.new }
    {
        let Some(path) = read_path(alloc, path)? else {
            return Ok(Reply::Plain(PlainError::BadPath));
        };
        let bytes = bytes.as_slice();
        let here = self.seen(path.names());
        if let Some(error) = write_checks(here, offset, bytes.len() as u64, self.is_full()) {
            return Ok(Reply::Plain(error));
        }
        if bytes.is_empty() {
            return Ok(Reply::Done);
        }
        write_at(
            alloc,
            self.visible.as_mut_slice(),
            path.names(),
            offset,
            bytes,
        )?;
        self.age += 1;
        Ok(Reply::Done)
    }

    /// Bytes of the file at the path of a text.
    pub fn read(
        &self,
        alloc: Global,
        path: &Text,
        offset: u64,
        count: u64,
    ) -> Result<Reply, NoMemory>
        ensures { IfOk result (λ reply.
            Told (table_in self.now) (Read path.now offset count) reply) }
    {
        let Some(path) = read_path(alloc, path)? else {
            return Ok(Reply::Plain(PlainError::BadPath));
        };
        if let Some(error) = read_checks(self.seen(path.names()), count) {
            return Ok(Reply::Plain(error));
        }
        match file_at(self.visible.as_slice(), path.names()) {
            Some(file) => Ok(Reply::Bytes(file.read(alloc, offset, count)?)),
            None => Ok(Reply::Bytes(Bytes::of(Vec::new(alloc)))),
        }
    }

    /// A new length of the file at the path of a text.
    pub fn resize(&mut self, alloc: Global, path: &Text, size: u64) -> Result<Reply, NoMemory>
        requires { IsServedWhole self.old }
        ensures reply { IfOk result (λ reply.
            Told (table_in self.old) (Resize path.now size) reply) }
        ensures step { OnOk result (table_in self.new ≡
            stepped (table_in self.old) (Resize path.now size)) }
        ensures err { OnErr result (self.new ≡ self.old) }
        ensures forests { AreForests self.new }
    {
        let Some(path) = read_path(alloc, path)? else {
            return Ok(Reply::Plain(PlainError::BadPath));
        };
        let here = self.seen(path.names());
        if let Some(error) = resize_checks(here, size, self.is_full()) {
            return Ok(Reply::Plain(error));
        }
        if size == size_of(here) {
            return Ok(Reply::Done);
        }
        if size == 0 {
            let id = FileId(self.next);
            let file = FileRow::new(alloc);
            empty(
                alloc,
                &mut self.visible,
                &mut self.trash,
                path.names(),
                id,
                file,
            )?;
            self.next += 1;
            self.age += 1;
            return Ok(Reply::Done);
        }
        resize_at(alloc, self.visible.as_mut_slice(), path.names(), size)?;
        self.age += 1;
        Ok(Reply::Done)
    }

    /// The kind and the length of what stands at the path of a text.
    pub fn stat(&self, alloc: Global, path: &Text) -> Result<Reply, NoMemory>
        requires { IsServedWhole self.now }
        ensures { IfOk result (λ reply. Told (table_in self.now) (Stat path.now) reply) }
    {
        let Some(path) = read_path(alloc, path)? else {
            return Ok(Reply::Plain(PlainError::BadPath));
        };
        let here = self.seen(path.names());
        if let Some(error) = stat_checks(here) {
            return Ok(Reply::Plain(error));
        }
        Ok(Reply::Stat {
            dir: is_dir(here),
            length: size_of(here),
        })
    }

    /// A page of the names of the directory at the path of a text.
    pub fn list(&self, alloc: Global, path: &Text, after: &Text) -> Result<Reply, NoMemory>
        ensures { IfOk result (λ reply.
            Told (table_in self.now) (ListNames path.now after.now) reply) }
    {
        let Some(path) = read_path(alloc, path)? else {
            return Ok(Reply::Plain(PlainError::BadPath));
        };
        if let Some(error) = list_checks(self.seen(path.names())) {
            return Ok(Reply::Plain(error));
        }
        let page = page(alloc, self.visible.as_slice(), path.names(), after)?;
        Ok(Reply::Names(page))
    }

    /// Takes what stands at the path of one text to that of another.
    pub fn rename(&mut self, alloc: Global, from: &Text, to: &Text) -> Result<Reply, NoMemory>
        requires { IsServedWhole self.old }
        ensures reply { IfOk result (λ reply.
            Told (table_in self.old) (Rename from.now to.now) reply) }
        ensures step { OnOk result (table_in self.new ≡
            stepped (table_in self.old) (Rename from.now to.now)) }
        ensures err { OnErr result (self.new ≡ self.old) }
        ensures forests { AreForests self.new }
    {
        let Some(from) = read_path(alloc, from)? else {
            return Ok(Reply::Plain(PlainError::BadPath));
        };
        let Some(to) = read_path(alloc, to)? else {
            return Ok(Reply::Plain(PlainError::BadPath));
        };
        let olds = from.names();
        let news = to.names();
        let new = self.new_at(news);
        if let Some(error) = move_checks(
            olds.is_empty(),
            self.seen(olds),
            is_below(olds, news),
            new,
        ) {
            return Ok(Reply::Plain(error));
        }
        rename(alloc, &mut self.visible, olds, news)?;
        self.age += 1;
        Ok(Reply::Done)
    }

    /// Takes what stands at the path of a text into the trash.
    pub fn remove(&mut self, alloc: Global, path: &Text) -> Result<Reply, NoMemory>
        requires { IsServedWhole self.old }
        ensures reply { IfOk result (λ reply. Told (table_in self.old) (Remove path.now) reply) }
        ensures step { OnOk result (table_in self.new ≡
            stepped (table_in self.old) (Remove path.now)) }
        ensures err { OnErr result (self.new ≡ self.old) }
        ensures forests { AreForests self.new }
    {
        let Some(path) = read_path(alloc, path)? else {
            return Ok(Reply::Plain(PlainError::BadPath));
        };
        let names = path.names();
        if let Some(error) = remove_checks(names.is_empty(), self.seen(names), self.is_full()) {
            return Ok(Reply::Plain(error));
        }
        remove(alloc, &mut self.visible, &mut self.trash, names)?;
        self.age += 1;
        Ok(Reply::Done)
    }

    /// One step on the trash.
    pub fn reclaim(&mut self, alloc: Global) -> Result<Reply, NoMemory>
        requires { IsServedWhole self.old }
        ensures reply { IfOk result (λ reply.
            reply ≡ Reclaimed (is_left (table_in self.new).trash)) }
        ensures step { OnOk result (table_in self.new ≡ stepped (table_in self.old) Reclaim) }
        ensures err { OnErr result (self.new ≡ self.old) }
        ensures forests { AreForests self.new }
    {
        reclaim(alloc, &mut self.trash)?;
        Ok(Reply::Reclaimed {
            left: !self.trash.is_empty(),
        })
    }
}
