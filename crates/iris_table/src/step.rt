//! The step of the table.

ghost use Rattle.std.specs.Prelude.{◌≡◌, ℕ, List, OnOk, OnErr, IfOk};
ghost use Rattle.iris_rows.specs.Rows.{empty_table};
ghost use Rattle.iris_rows.specs.Changes.{stepped};
ghost use Rattle.iris_table.specs.Served.{served_table, table_in, AreForests, IsServedWhole};
ghost use Rattle.iris_records.specs.Records.{AreLive, root_hash};
ghost use Rattle.iris_table.specs.Replies.{TableReplies};

use crate::state::State;
use iris_mac::Keys;
use iris_name::{Bytes, Hash32, Name, NoMemory, Reply, Request};
use iris_rows::file::FileRow;
use std::alloc::Global;
use std::marker::Model;

/// The table, served slowly and from memory.
#[derive(Drop)]
pub struct Table {
    keys: Keys,
    state: State,
}

impl Model for Table {
    ghost use Rattle.iris_table.specs.Served.{Served, IsServedWhole};

    ghost Value = { Served };

    ghost view = { λ t. record {
      keys = t.keys;
      visible = t.state.visible;
      trash = t.state.trash;
      next = t.state.next;
      age = t.state.age;
    } };

    ghost invariant = { λ t. IsServedWhole t.state };
}

// The reply to a request over rows, and the next rows.
fn serve(
    alloc: Global,
    keys: &Keys,
    state: &mut State,
    request: &Request,
) -> Result<Reply, NoMemory>
    requires whole { IsServedWhole state.old }
    ensures reply { IfOk result (λ reply.
        TableReplies keys.now.order (table_in state.old) request.now reply) }
    ensures step { OnOk result (table_in state.new ≡ stepped (table_in state.old) request.now) }
    ensures err { OnErr result (state.new ≡ state.old) }
    ensures forests { AreForests state.new }
{
    match request {
        Request::Mkdir { path } => state.make(alloc, path, None),
        Request::Create { path } => state.make(alloc, path, Some(FileRow::new(alloc))),
        Request::Write {
            path,
            offset,
            bytes,
        } => state.write(alloc, path, *offset, bytes),
        Request::Read {
            path,
            offset,
            length,
        } => state.read(alloc, path, *offset, *length),
        Request::Resize { path, length } => state.resize(alloc, path, *length),
        Request::Stat { path } => state.stat(alloc, path),
        Request::List { path, after } => state.list(alloc, path, after),
        Request::Rename { from, to } => state.rename(alloc, from, to),
        Request::Remove { path } => state.remove(alloc, path),
        Request::Sync => Ok(Reply::Synced),
        Request::Reclaim => state.reclaim(alloc),
        Request::Root => Ok(Reply::Digest(state.root_of(alloc, keys)?)),
        Request::Probe { at } => Ok(state.probe(*at)),
    }
}

impl Table {
    /// The table of the beginning. It keeps a copy of the keys.
    pub fn new(alloc: Global, keys: &Keys) -> Result<Table, NoMemory>
        ensures keys { IfOk result (λ table. table.keys ≡ keys.now) }
        ensures table { IfOk result (λ table. served_table table ≡ empty_table) }
    {
        Ok(Table {
            keys: *keys,
            state: State::new(alloc),
        })
    }

    /// One request: the reply by its checks, and the next table. A plain error changes nothing.
    pub fn step(&mut self, alloc: Global, request: &Request) -> Result<Reply, NoMemory>
        ensures reply { IfOk result (λ reply.
            TableReplies self.old.keys.order (served_table self.old) request.now reply) }
        ensures step { OnOk result (served_table self.new ≡
            stepped (served_table self.old) request.now) }
        ensures keys { self.new.keys ≡ self.old.keys }
        ensures err { OnErr result (self.new ≡ self.old) }
    {
        serve(alloc, &self.keys, &mut self.state, request)
    }

    /// The records of all live names in order of names, each with its true record. Slow: all hashes and tags are made anew.
    pub fn records_of(&self, alloc: Global, keys: &Keys) -> Result<Vec<(Name, Bytes)>, NoMemory>
        ensures { IfOk result (λ records. AreLive keys.now (served_table self.now) records.items) }
    {
        self.state.records_of(alloc, keys)
    }

    /// The root hash. Slow, as the records.
    pub fn root_of(&self, alloc: Global, keys: &Keys) -> Result<Hash32, NoMemory>
        ensures { IfOk result (λ hash. hash.0 ≡ root_hash keys.now.order (served_table self.now)) }
    {
        self.state.root_of(alloc, keys)
    }
}
