//! Blocks are taken in, sent out and taken back.

ghost use Rattle.std.specs.Prelude.{◌≤◌};

use iris_blocks::Blocks;
use iris_name::{FileId, Page};
use std::test::Fail;

/// Takes in a block that isn't resident, with a pin of a caller.
pub fn put_block(
    blocks: &mut Blocks,
    file: FileId,
    place: u32,
    version: u64,
    page: Page,
    who: u32,
) -> Result<(), Fail>
    requires { who ≤ 16 }
{
    blocks.room(file, place)?;
    if blocks.held(file, place).is_some() {
        return Err("it is resident".into());
    }
    blocks.insert(file, place, version, page, who);
    Ok(())
}

/// A put of a block begins, for a caller.
pub fn send_block(blocks: &mut Blocks, file: FileId, place: u32, who: u32) -> Result<(), Fail>
    requires { who ≤ 16 }
{
    match blocks.held(file, place) {
        Some(held) if held.out.is_none() => blocks.begin(file, place, who),
        _ => return Err("something is out for it".into()),
    }
    Ok(())
}

/// The put of a block ends well.
pub fn take_block_back(blocks: &mut Blocks, file: FileId, place: u32) -> Result<(), Fail> {
    match blocks.held(file, place) {
        Some(held) if held.out.is_some() => blocks.finish(file, place, true),
        _ => return Err("nothing is out for it".into()),
    }
    Ok(())
}
