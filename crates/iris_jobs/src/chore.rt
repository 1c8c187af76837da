//! Puts and discards that are to be made.

ghost use Rattle.std.specs.Prelude.{◌≡◌, ◌↔◌, ℕ, IsTrue, IfOk, length, take};
ghost use Rattle.iris_desk.specs.declared.out.Record.TheVariants as Record;
ghost use Rattle.iris_jobs.specs.Chores.{AreBytesOf, FitsName, HasRoom, put_bytes, discard_task, put_task, record_by, record_in};
ghost use Rattle.iris_name.specs.Hmac.{record_of};
ghost use Rattle.iris_jobs.specs.Keyed.{keys_of};

use iris_desk::{Doing, Record, Task};
use iris_mac::{Keys, RECORD_LEN, tag};
use iris_name::{Bytes, FileId, Name, NoMemory, PAGE_LEN, Page};
use std::alloc::Global;
use std::marker::Model;

// How many bytes a tag has.
const TAG_LEN: usize = RECORD_LEN - PAGE_LEN;

/// A discard that is to be made.
#[derive(Clone, Copy)]
pub struct Away {
    pub who: u32,
    pub name: Name,
    /// How many notes its session had when it began.
    pub since: u64,
}

impl Away {
    /// What it is at its caller's desk.
    pub fn task(&self) -> Task
        ensures { result ≡ discard_task self.now }
    {
        Task {
            doing: Doing::Discard,
            name: self.name,
            since: self.since,
        }
    }
}

// What is to be put of a name: a node's record, or a block with room for its tag.
#[derive(Drop)]
pub(crate) enum Content {
    Node(Bytes),
    Page { version: u64, bytes: Vec<u8> },
}

/// A put that is to be made, without the tag of a block.
#[derive(Drop)]
pub struct Unsealed {
    who: u32,
    name: Name,
    since: u64,
    master: [u8; 32],
    content: Content,
}

impl Model for Unsealed {
    ghost use Rattle.iris_jobs.specs.Chores.{PutState, FitsName, HasRoom, record_in};

    ghost Value = { PutState };

    ghost view = { λ a. record {
      who = a.who;
      name = a.name;
      since = a.since;
      master = a.master;
      record_ = record_in a.content;
    } };

    ghost invariant = { λ a. FitsName a.name (record_in a.content) × HasRoom a.content };
}

/// A put that is to be made, with the bytes of its record.
#[derive(Drop)]
pub struct Sealed {
    who: u32,
    name: Name,
    since: u64,
    master: [u8; 32],
    // The version of a block.
    version: Option<u64>,
    bytes: Bytes,
}

impl Model for Sealed {
    ghost use Rattle.iris_jobs.specs.Chores.{PutState, AreBytesOf, record_by};
    ghost use Rattle.iris_name.specs.Hmac.{block_key};

    ghost Value = { PutState };

    ghost view = { λ a. record {
      who = a.who;
      name = a.name;
      since = a.since;
      master = a.master;
      record_ = record_by a.version a.bytes;
    } };

    ghost invariant = { λ a. AreBytesOf (block_key a.master) a.name a.version a.bytes };
}

/// What is to be done next for the store.
#[derive(Drop)]
pub enum Chore {
    Put(Unsealed),
    Discard(Away),
}

impl Unsealed {
    /// A put of a node for a caller, by the portal of a master key.
    pub fn node(who: u32, name: Name, since: u64, master: [u8; 32], bytes: Bytes) -> Unsealed
        requires { FitsName name (Record.Node bytes) }
        ensures { result ≡ record {
          who = who;
          name = name;
          since = since;
          master = master;
          record_ = Record.Node bytes;
        } }
    {
        Unsealed {
            who,
            name,
            since,
            master,
            content: Content::Node(bytes),
        }
    }

    /// A put of a block, whose page is copied.
    pub fn page(
        alloc: Global,
        who: u32,
        name: Name,
        since: u64,
        master: [u8; 32],
        version: u64,
        page: &Page,
    ) -> Result<Unsealed, NoMemory>
        requires { FitsName name (Record.Page version page.now) }
        ensures { IfOk result (λ put. put ≡ record {
          who = who;
          name = name;
          since = since;
          master = master;
          record_ = Record.Page version page.now;
        }) }
    {
        let bytes = block_with_room(alloc, page)?;
        Ok(Unsealed {
            who,
            name,
            since,
            master,
            content: Content::Page { version, bytes },
        })
    }

    /// The caller's number.
    pub fn who(&self) -> u32
        ensures { result ≡ self.now.who }
    {
        self.who
    }

    /// The name to be put.
    pub fn name(&self) -> &Name
        ensures { result.now ≡ self.now.name }
    {
        &self.name
    }

    /// What it is at its caller's desk.
    pub fn task(&self) -> Task
        ensures { result ≡ put_task self.now }
    {
        Task {
            doing: Doing::Put,
            name: self.name,
            since: self.since,
        }
    }

    /// The whole record: a block gets its tag. It takes no memory.
    pub fn seal(self, keys: &Keys) -> Sealed
        requires { keys.now ≡ keys_of self.master }
        ensures { result ≡ self }
    {
        let Unsealed {
            who,
            name,
            since,
            master,
            content,
        } = self;
        let (version, bytes) = seal_content(keys, &name, content);
        Sealed {
            who,
            name,
            since,
            master,
            version,
            bytes,
        }
    }
}

// The bytes of a page, with room for a tag.
fn block_with_room(alloc: Global, page: &Page) -> Result<Vec<u8>, NoMemory>
    ensures page { IfOk result (λ bytes. take 4096 bytes.items ≡ page.now) }
    ensures size { IfOk result (λ bytes. length bytes.items ≡ 4128) }
{
    let mut bytes = Vec::with_capacity(alloc, RECORD_LEN)?;
    bytes.extend_from_slice(page.as_slice())?;
    bytes.extend_from_slice(&[0; TAG_LEN])?;
    Ok(bytes)
}

// The bytes of a record, and the version of a block's.
fn seal_content(keys: &Keys, name: &Name, content: Content) -> (Option<u64>, Bytes)
    requires fits { FitsName name.now (record_in content) }
    requires room { HasRoom content }
    ensures record_ { record_by result.0 result.1 ≡ record_in content }
    ensures bytes { AreBytesOf keys.now.block name.now result.0 result.1 }
{
    match content {
        Content::Node(bytes) => (None, bytes),
        Content::Page { version, bytes } => match *name {
            Name::Block { file, place } => {
                (Some(version), tagged(keys, file, place, version, bytes))
            }
            Name::Entry { .. } | Name::Part { .. } => unreachable!(),
        },
    }
}

// A block's bytes with its tag.
fn tagged(keys: &Keys, file: FileId, place: u32, version: u64, mut bytes: Vec<u8>) -> Bytes
    requires { length bytes.items ≡ 4128 }
    ensures bytes { result ≡
        record_of keys.now.block file.0 place version (take 4096 bytes.items) }
    ensures size { length result ≡ 4128 }
{
    let (block, end) = bytes.as_mut_slice().split_at_mut(PAGE_LEN);
    let mac = tag(keys, file, place, version, block);
    end.copy_from_slice(&mac);
    Bytes::of(bytes)
}

impl Sealed {
    /// The caller's number.
    pub fn who(&self) -> u32
        ensures { result ≡ self.now.who }
    {
        self.who
    }

    /// The name to be put.
    pub fn name(&self) -> &Name
        ensures { result.now ≡ self.now.name }
    {
        &self.name
    }

    /// The bytes to be put.
    pub fn bytes(&self) -> &[u8]
        ensures { result.now ≡ put_bytes self.now }
    {
        self.bytes.as_slice()
    }

    /// What it is at its caller's desk.
    pub fn task(&self) -> Task
        ensures { result ≡ put_task self.now }
    {
        Task {
            doing: Doing::Put,
            name: self.name,
            since: self.since,
        }
    }

    /// Whether this is the record, under this master key.
    pub fn is_of(&self, master: &[u8; 32], record_: &Record) -> bool
        ensures { IsTrue result ↔
            ((self.now.record_ ≡ record_.now) × (self.now.master ≡ master.now)) }
    {
        is_same_key(&self.master, master) && self.has_record(record_)
    }

    fn has_record(&self, record_: &Record) -> bool
        ensures { IsTrue result ↔ (self.now.record_ ≡ record_.now) }
    {
        match (self.version, record_) {
            (None, Record::Node(bytes)) => self.bytes == *bytes,
            (
                Some(version),
                Record::Page {
                    version: kept,
                    page,
                },
            ) => { is_same_page(version, self.bytes.as_slice(), *kept, page) }
            _ => false,
        }
    }

    /// Hands the bytes out.
    pub fn into_bytes(self) -> Bytes
        ensures { result ≡ put_bytes self }
    {
        self.bytes
    }
}

// Whether a block's record has this page in this version.
fn is_same_page(version: u64, bytes: &[u8], kept: u64, page: &Page) -> bool
    requires { length bytes.now ≡ 4128 }
    ensures { IsTrue result ↔
        (Record.Page version (take 4096 bytes.now) ≡ Record.Page kept page.now) }
{
    if version != kept {
        return false;
    }
    let (block, _) = bytes.split_at(PAGE_LEN);
    block == page.as_slice()
}

fn is_same_key(one: &[u8; 32], other: &[u8; 32]) -> bool
    ensures { IsTrue result ↔ (one.now ≡ other.now) }
{
    one == other
}
