//! Room for links, with ample memory.

use iris_links::{Holders, Links};
use iris_name::FileId;
use std::test::Fail;

// Room that isn't made.
#[test]
fn makes_room_for_links(rt: HostRuntime) -> Result<(), Fail> {
    let mut links = Links::new(rt.alloc());
    links.reserve(1000)?;
    for id in 0..1000u64 {
        links.add(FileId(id), FileId(7));
    }
    assert_eq!(rt; links.holders(FileId(999)), Holders::One(FileId(7)));
    assert_eq!(rt; links.holders(FileId(1000)), Holders::Nobody);
    Ok(())
}
