//! What a plan has changed of blocks, beside the records before and after.

use iris_blocks::{Blocks, Change, PageDraft};
use iris_mac::{Keys, passes};
use iris_name::{Bytes, FileId, Name, PAGE_LEN};
use iris_testing::fetching::record_of;
use std::test::Fail;

// The block in a record, where there is one.
pub(crate) fn block_in(record: &[u8]) -> Option<&[u8]> {
    if record.len() < PAGE_LEN {
        return None;
    }
    let (block, _) = record.split_at(PAGE_LEN);
    Some(block)
}

fn is_block(name: &Name) -> bool {
    match name {
        Name::Block { .. } => true,
        Name::Entry { .. } | Name::Part { .. } => false,
    }
}

// How many blocks of the first records are missing in the second, or have another record there.
fn count_changed(records: &[(Name, Bytes)], others: &[(Name, Bytes)]) -> u32 {
    let mut changed = 0u32;
    for (name, record) in records {
        if is_block(name) && record_of(others, name) != Some(record.as_slice()) {
            changed = changed.saturating_add(1);
        }
    }
    changed
}

// How many blocks of the first records are missing in the second.
fn count_missing(records: &[(Name, Bytes)], others: &[(Name, Bytes)]) -> u32 {
    let mut missing = 0u32;
    for (name, _) in records {
        if is_block(name) && record_of(others, name).is_none() {
            missing = missing.saturating_add(1);
        }
    }
    missing
}

// Whether a record is that of a block in this version and with these bytes.
pub(crate) fn is_record_of(
    keys: &Keys,
    record: Option<&[u8]>,
    file: FileId,
    place: u32,
    version: u64,
    bytes: &[u8],
) -> bool {
    match record {
        Some(record) => {
            passes(keys, file, place, version, record) && block_in(record) == Some(bytes)
        }
        None => false,
    }
}

// Whether a change is that from the one record to the other.
fn is_change(keys: &Keys, change: &Change, old: Option<&[u8]>, new: Option<&[u8]>) -> bool {
    let was = match change.old {
        Some(page) => old.is_some_and(|record| block_in(record) == Some(page.as_slice())),
        None => old.is_none(),
    };
    let is = match change.new {
        Some((version, page)) => {
            is_record_of(
                keys,
                new,
                change.file,
                change.place,
                version,
                page.as_slice(),
            )
        }
        None => new.is_none(),
    };
    was && is && old != new
}

// Whether a draft has exactly the blocks whose records differ, each as it was and as it is.
pub(crate) fn are_changes(
    keys: &Keys,
    pages: &PageDraft,
    before: &[(Name, Bytes)],
    after: &[(Name, Bytes)],
) -> bool {
    for i in 0..pages.count() {
        let change = pages.at(i);
        let name = Name::Block {
            file: change.file,
            place: change.place,
        };
        if !is_change(
            keys,
            &change,
            record_of(before, &name),
            record_of(after, &name),
        ) {
            return false;
        }
    }
    let gone = count_changed(before, after);
    pages.count() == gone.saturating_add(count_missing(after, before))
}

// Whether each resident block has its record among these.
pub(crate) fn are_blocks_recorded(keys: &Keys, blocks: &Blocks, records: &[(Name, Bytes)]) -> bool {
    for i in 0..blocks.count() {
        let (file, place, held) = blocks.at(i);
        let record = record_of(records, &Name::Block { file, place });
        if !is_record_of(
            keys,
            record,
            file,
            place,
            held.version,
            held.page.as_slice(),
        ) {
            return false;
        }
    }
    true
}

// Says what is wrong where this isn't so.
pub(crate) fn holds(so: bool, wrong: &'static str) -> Result<(), Fail> {
    if so { Ok(()) } else { Err(wrong.into()) }
}
