//! The records of nodes.

ghost use Rattle.std.specs.Prelude.{◌≡◌, ◌≤◌, ◌+◌, ◌∷◌, ◌++◌, length, drop, IfOk};
ghost use Rattle.sha2.specs.Sha256.{sha256};
ghost use Rattle.iris_node.specs.Nodes.{IsNode, FitsLink, FitsSide, FitsBody, FitsEntry, FitsPart};
ghost use Rattle.iris_node.specs.Rules.{IsEntry, IsPart};
ghost use Rattle.iris_node.specs.Spelling.{link, spelled_side, kind_byte, body, entry_format, part_format, spelled_entry, part, spelling};
ghost use Rattle.iris_node.specs.Unfolded.{hash};

use crate::node::{Body, EntryNode, Link, Node, PartNode, Side};
use crate::reading::{FORMAT, PART};
use crate::sheet::{RECORD_MOST, Sheet};
use iris_name::{Bytes, Hash32, NoMemory};
use sha2::{Digest, Sha256};
use std::alloc::Global;

// Writes over the front.
fn put_front(to: &mut [u8], from: &[u8])
    requires { length from.now ≤ length to.old }
    ensures { to.new ≡ from.now ++ drop (length from.now) to.old }
{
    to[..from.len()].copy_from_slice(from);
}

fn put_link(sheet: &mut Sheet, l: &Option<Link>)
    requires { length sheet.old + 49 ≤ RECORD_MOST }
    ensures bytes { sheet.new ≡ sheet.old ++ link l.now }
    ensures len { length sheet.new ≤ length sheet.old + 49 }
    ensures fits { FitsLink l.now }
{
    match l {
        None => sheet.put(&[0]),
        Some(l) => {
            sheet.put(&[1]);
            sheet.put(&l.id.0.to_be_bytes());
            sheet.put(&l.hash.0);
            sheet.put(&l.blocks.to_be_bytes());
        }
    }
}

fn put_side(sheet: &mut Sheet, s: &Side)
    requires { length sheet.old + 33 ≤ RECORD_MOST }
    ensures bytes { sheet.new ≡ sheet.old ++ spelled_side s.now }
    ensures len { length sheet.new ≤ length sheet.old + 33 }
    ensures fits { FitsSide s.now }
{
    match s {
        Side::Fold(version) => {
            sheet.put(&[0]);
            sheet.put(&version.to_be_bytes());
        }
        Side::Below(hash) => {
            sheet.put(&[1]);
            sheet.put(&hash.0);
        }
    }
}

fn kind_of(b: &Body) -> u8
    ensures { result ≡ kind_byte b.now }
{
    match b {
        Body::Dir { .. } => 1,
        Body::File { .. } => 2,
    }
}

fn put_body(sheet: &mut Sheet, b: &Body)
    requires { length sheet.old + 49 ≤ RECORD_MOST }
    ensures bytes { sheet.new ≡ sheet.old ++ body b.now }
    ensures len { length sheet.new ≤ length sheet.old + 49 }
    ensures fits { FitsBody b.now }
{
    match b {
        Body::Dir { top } => put_link(sheet, top),
        Body::File {
            length,
            counter,
            versions,
        } => {
            sheet.put(&length.to_be_bytes());
            sheet.put(&counter.to_be_bytes());
            put_side(sheet, versions);
        }
    }
}

// An entry's record; its name has at most 255 bytes.
fn put_entry(sheet: &mut Sheet, e: &EntryNode)
    requires { length sheet.old ≡ 0 }
    ensures bytes { sheet.new ≡
        sheet.old ++ (entry_format e.now ∷ kind_byte e.now.body ∷ spelled_entry e.now) }
    ensures fits { IsEntry e.now × FitsEntry e.now }
{
    let name = e.name.as_str().as_bytes();
    sheet.put(&[FORMAT, kind_of(&e.body)]);
    sheet.put(&e.id.0.to_be_bytes());
    sheet.put(&[name.len() as u8]);
    sheet.put(name);
    put_link(sheet, &e.left);
    put_link(sheet, &e.right);
    put_body(sheet, &e.body);
}

fn put_part(sheet: &mut Sheet, p: &PartNode)
    requires { length sheet.old ≡ 0 }
    ensures bytes { sheet.new ≡ sheet.old ++ (part_format p.now ∷ 3 ∷ part p.now) }
    ensures fits { IsPart p.now × FitsPart p.now }
{
    sheet.put(&[FORMAT, PART]);
    sheet.put(&p.file.0.to_be_bytes());
    sheet.put(&[p.level]);
    sheet.put(&p.index.to_be_bytes());
    put_side(sheet, &p.low);
    put_side(sheet, &p.high);
}

#[tactic(auto, unfolding(crate::specs::Spelling::spelling))]
fn written(node: &Node) -> Sheet
    ensures bytes { result ≡ spelling node.now }
    ensures node { IsNode node.now }
{
    let mut sheet = Sheet::new();
    match node {
        Node::Entry(entry) => put_entry(&mut sheet, entry),
        Node::Part(part) => put_part(&mut sheet, part),
    }
    sheet
}

/// Writes the one spelling of a node at the front, leaves the other bytes, and answers the spelling's length.
pub fn encode_into(node: &Node, to: &mut [u8]) -> usize
    requires { RECORD_MOST ≤ length to.old }
    ensures bytes { to.new ≡ spelling node.now ++ drop result to.old }
    ensures len { result ≡ length (spelling node.now) }
    ensures most { result ≤ RECORD_MOST }
    ensures node { IsNode node.now }
{
    let sheet = written(node);
    let bytes = sheet.as_slice();
    put_front(to, bytes);
    bytes.len()
}

/// The one spelling of a node.
pub fn encode(alloc: Global, node: &Node) -> Result<Bytes, NoMemory>
    ensures bytes { IfOk result (λ bytes. bytes ≡ spelling node.now) }
    ensures node { IsNode node.now }
{
    let sheet = written(node);
    let bytes = sheet.as_slice().to_vec(alloc)?;
    Ok(Bytes::of(bytes))
}

/// The SHA-256 of the bytes.
pub fn hash_of(bytes: &[u8]) -> Hash32
    ensures { result.0 ≡ sha256 bytes.now }
{
    Hash32(Sha256::digest(bytes))
}

/// The hash of a node's record, as its parent holds it.
pub fn node_hash(node: &Node) -> Hash32
    ensures { result ≡ hash node.now }
{
    hash_of(written(node).as_slice())
}
