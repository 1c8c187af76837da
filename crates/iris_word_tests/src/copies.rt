//! Each call that takes memory, with enough of it.

use iris_name::{Answer, Bytes, Cause, FileId, Name, PAGE_LEN, Page, Reply, Request, Text, Texts};
use std::alloc::Global;
use std::test::Fail;

// The text of a literal.
fn text(alloc: Global, text: &str) -> Result<Text, Fail> {
    Ok(Text::of(text.to_string(alloc)?))
}

// The bytes of a literal.
fn bytes(alloc: Global, bytes: &[u8]) -> Result<Bytes, Fail> {
    Ok(Bytes::of(bytes.to_vec(alloc)?))
}

// Whether a copy of these bytes is the same.
fn copies_bytes(alloc: Global, given: &[u8]) -> Result<bool, Fail> {
    let copy = bytes(alloc, given)?.copy(alloc)?;
    Ok(copy.as_slice() == given)
}

fn copies_text(alloc: Global, given: &str) -> Result<bool, Fail> {
    let copy = text(alloc, given)?.copy(alloc)?;
    Ok(copy.as_str() == given)
}

fn two(alloc: Global) -> Result<Texts, Fail> {
    let mut texts = Texts::new(alloc);
    texts.push(text(alloc, "b")?)?;
    texts.push(text(alloc, "a")?)?;
    Ok(texts)
}

fn copies_texts(alloc: Global) -> Result<bool, Fail> {
    let texts = two(alloc)?;
    let copy = texts.copy(alloc)?;
    Ok(copy.as_slice().len() == 2 && copy == texts)
}

fn has_zeros(alloc: Global) -> Result<bool, Fail> {
    let zeros = Page::zero(alloc)?;
    Ok(zeros.as_slice() == [0; PAGE_LEN].as_slice())
}

fn copies_page(alloc: Global) -> Result<bool, Fail> {
    let ones = Page::of(alloc, &[1; PAGE_LEN])?.copy(alloc)?;
    Ok(ones.as_slice() == [1; PAGE_LEN].as_slice())
}

// A list that is refused though there is memory.
#[test]
fn copies_lists(rt: HostRuntime) -> Result<(), Fail> {
    let alloc = rt.alloc();
    assert!(rt; copies_bytes(alloc, b"abc")?);
    assert!(rt; copies_text(alloc, "caf\u{e9}")?);
    assert!(rt; copies_texts(alloc)?);
    assert!(rt; has_zeros(alloc)?);
    assert!(rt; copies_page(alloc)?);
    Ok(())
}

fn write(alloc: Global) -> Result<Request, Fail> {
    let path = text(alloc, "/f")?;
    let bytes = bytes(alloc, b"abc")?;
    Ok(Request::Write {
        path,
        offset: 7,
        bytes,
    })
}

fn list(alloc: Global) -> Result<Request, Fail> {
    let path = text(alloc, "/d")?;
    let after = text(alloc, "f")?;
    Ok(Request::List { path, after })
}

fn rename(alloc: Global) -> Result<Request, Fail> {
    let from = text(alloc, "/f")?;
    let to = text(alloc, "/g")?;
    Ok(Request::Rename { from, to })
}

fn copies_request(alloc: Global, request: Request) -> Result<bool, Fail> {
    Ok(request.copy(alloc)? == request)
}

// A request that is refused though there is memory.
#[test]
fn copies_requests(rt: HostRuntime) -> Result<(), Fail> {
    let alloc = rt.alloc();
    assert!(rt; copies_request(alloc, write(alloc)?)?);
    assert!(rt; copies_request(alloc, list(alloc)?)?);
    assert!(rt; copies_request(alloc, rename(alloc)?)?);
    Ok(())
}

fn copies_reply(alloc: Global, reply: Reply) -> Result<bool, Fail> {
    Ok(reply.copy(alloc)? == reply)
}

fn bad_answer() -> Reply {
    Reply::Refused(Cause::BadAnswer {
        name: Name::Entry { id: FileId(2) },
    })
}

// A reply that is refused though there is memory.
#[test]
fn copies_replies(rt: HostRuntime) -> Result<(), Fail> {
    let alloc = rt.alloc();
    assert!(rt; copies_reply(alloc, Reply::Bytes(bytes(alloc, b"abc")?))?);
    assert!(rt; copies_reply(alloc, Reply::Names(two(alloc)?))?);
    assert!(rt; copies_reply(alloc, bad_answer())?);
    Ok(())
}

fn copies_answer(alloc: Global) -> Result<bool, Fail> {
    let given = Answer::Given(bytes(alloc, b"abc")?);
    let copy = given.copy(alloc)?;
    Ok(copy == given && given != Answer::Absent)
}

// An answer that is refused though there is memory.
#[test]
fn copies_answers(rt: HostRuntime) -> Result<(), Fail> {
    assert!(rt; copies_answer(rt.alloc())?);
    Ok(())
}
