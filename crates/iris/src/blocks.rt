//! Blocks, their records, and the requests that name them.

ghost use Rattle.std.specs.Prelude.{◌≡◌, ◌*◌, ◌<◌, ◌≤◌, IfOk, length, take, None, Some, if◌then◌else◌, codes};
ghost use Rattle.iris_name.specs.Hmac.{record_of};
ghost use Rattle.iris_history.specs.Values.{AreBytes, IsRequest, IsReply};
ghost use Rattle.iris.specs.Answers.{IsRightReply};
ghost use Rattle.iris.specs.Lines.{filled_block, read_of};
ghost use Rattle.iris.specs.Registers.{block_name as name_of};
ghost use Rattle.iris_rows.specs.Rows.{zeros};

use iris_mac::{Keys, passes, tag};
use iris_name::{
    Answer, Bytes, Cause, FileId, Name, NoMemory, PAGE_LEN, Page, Reply, Request, Text,
};
use std::alloc::Global;

/// The one file of the registers.
pub const FILE: FileId = FileId(2);

/// The name of a place's block.
pub fn block_name(place: u32) -> Name
    ensures { result ≡ name_of place }
{
    Name::Block { file: FILE, place }
}

/// The bytes, filled up with zeros to a block. Whole blocks aren't copied.
pub fn fill(bytes: Bytes) -> Result<Bytes, NoMemory>
    requires { length bytes ≤ PAGE_LEN }
    ensures filled { IfOk result (λ block. block ≡ filled_block bytes) }
    ensures len { IfOk result (λ block. length block ≡ PAGE_LEN) }
{
    let mut block = bytes.into_vec();
    block.resize(PAGE_LEN, 0)?;
    Ok(Bytes::of(block))
}

/// A block of zeros.
#[tactic(auto, unfolding(iris_rows::specs::Rows::zeros))]
pub fn zeros(alloc: Global) -> Result<Bytes, NoMemory>
    ensures { IfOk result (λ block. block ≡ zeros) }
{
    Ok(Bytes::of(vec![in alloc; 0u8; 4096]?))
}

/// The bytes of a page.
pub fn bytes_of(alloc: Global, page: &Page) -> Result<Bytes, NoMemory>
    ensures same { IfOk result (λ bytes. bytes ≡ page.now) }
    ensures bytes { IfOk result AreBytes }
{
    let block = page.as_slice();
    Ok(Bytes::of(Vec::from_slice(alloc, block)?))
}

/// The record of a block.
pub fn record(
    alloc: Global,
    keys: &Keys,
    place: u32,
    version: u64,
    block: &[u8],
) -> Result<Vec<u8>, NoMemory>
    requires { length block.now ≡ PAGE_LEN }
    ensures { IfOk result (λ made.
        made.items ≡ record_of keys.now.block 2 place version block.now) }
{
    let mut record = Vec::with_capacity(alloc, 4128)?;
    record.extend_from_slice(block)?;
    let mac = tag(keys, FILE, place, version, block);
    record.extend_from_slice(&mac)?;
    Ok(record)
}

/// The block that a record carries, where the store failed to take it.
pub fn kept_unless(alloc: Global, ok: bool, bytes: &[u8]) -> Result<Option<Page>, NoMemory>
    requires { PAGE_LEN ≤ length bytes.now }
    ensures { IfOk result (λ kept. kept ≡ (if ok then None else Some (take PAGE_LEN bytes.now))) }
{
    if ok {
        return Ok(None);
    }
    let (block, _mac) = bytes.split_at(PAGE_LEN);
    Ok(Some(Page::of(alloc, block)?))
}

// The path of the one file.
fn path(alloc: Global) -> Result<Text, NoMemory>
    ensures { IfOk result (λ path. path ≡ codes "/f") }
{
    Ok(Text::of(String::from_str(alloc, "/f")?))
}

/// The request that writes a block.
pub fn write_request(alloc: Global, place: u32, block: Bytes) -> Result<Request, NoMemory>
    ensures { IfOk result (λ request. request ≡ Request.Write (codes "/f") (place * 4096) block) }
{
    Ok(Request::Write {
        path: path(alloc)?,
        offset: u64::from(place) * 4096,
        bytes: block,
    })
}

/// The request that reads a block.
pub fn read_request(alloc: Global, place: u32) -> Result<Request, NoMemory>
    ensures { IfOk result (λ request. request ≡ read_of place) }
{
    Ok(Request::Read {
        path: path(alloc)?,
        offset: u64::from(place) * 4096,
        length: 4096,
    })
}

/// The reply to a read that a store's answer gives.
pub fn judge(
    alloc: Global,
    keys: &Keys,
    place: u32,
    version: u64,
    answer: &Answer,
) -> Result<Reply, NoMemory>
    ensures fits { IfOk result (λ reply.
        IsRightReply keys.now.block place version answer.now reply) }
    ensures value { IfOk result IsReply }
{
    let name = block_name(place);
    match answer {
        Answer::Absent => Ok(Reply::Refused(Cause::BadAnswer { name })),
        Answer::Failed => Ok(Reply::Refused(Cause::StoreFailed { name })),
        Answer::Given(bytes) => {
            let bytes = bytes.as_slice();
            if passes(keys, FILE, place, version, bytes) {
                let (block, _mac) = bytes.split_at(PAGE_LEN);
                Ok(Reply::Bytes(Bytes::of(block.to_vec(alloc)?)))
            } else {
                Ok(Reply::Refused(Cause::BadAnswer { name }))
            }
        }
    }
}
