//! The table of rows: ids, versions, challenges, trash and root hashes. The replies are those of `Table(bytes(32))` of
//! tests/table_model.py, which is written by the rules of docs/FORMATS.md alone.

use crate::lines::{keys, plain_says, table_differs, table_says};
use iris_plain::Plain;
use iris_table::Table;
use std::alloc::Global;
use std::test::Fail;

// A step of reclaiming that takes a whole directory, or says wrongly whether trash is left.
#[test]
fn reclaims_row_by_row(rt: HostRuntime) -> Result<(), Fail> {
    let rows = [
        ("mkdir /a", "done"),
        ("mkdir /a/b", "done"),
        ("create /a/b/c", "done"),
        ("remove /a", "done"),
        ("mkdir /a", "done"),
        ("reclaim", "reclaimed left"),
        ("reclaim", "reclaimed left"),
        ("reclaim", "reclaimed left"),
        ("reclaim", "reclaimed left"),
        ("reclaim", "reclaimed empty"),
        ("reclaim", "reclaimed empty"),
        ("sync", "synced"),
        ("list /", "names 1 a"),
    ];
    assert_eq!(rt; table_differs(rt.alloc(), &rows)?, None);
    Ok(())
}

// A limit on the places of one step of reclaiming that is off by one, or a resize to no bytes that keeps the blocks.
#[test]
fn reclaims_sixteen_places(rt: HostRuntime) -> Result<(), Fail> {
    let rows = [
        ("create /f", "done"),
        ("resize /f 4096000", "done"),
        ("resize /f 4096", "error 7 TooMuch"),
        ("resize /f 0", "done"),
        ("stat /f", "stat file 0"),
        ("reclaim", "reclaimed empty"),
        ("write /f 0 aa*65537", "done"),
        ("resize /f 0", "done"),
        ("reclaim", "reclaimed left"),
        ("reclaim", "reclaimed left"),
        ("reclaim", "reclaimed empty"),
    ];
    assert_eq!(rt; table_differs(rt.alloc(), &rows)?, None);
    Ok(())
}

// A file in the trash that loses its length or its count of blocks when its places are freed.
#[test]
fn reclaiming_keeps_length_and_count(rt: HostRuntime) -> Result<(), Fail> {
    let rows = [
        ("create /f", "done"),
        ("write /f 0 61*69632", "done"),
        ("create /g", "done"),
        ("write /g 0 62", "done"),
        ("remove /f", "done"),
        (
            "root",
            "digest 02ebae513d9b6d31dfafca1c329c55851727ee90e7593275d6ae7e648715369f",
        ),
        ("probe 1", "probed 2 0 1"),
        ("probe 17", "probed 2 16 1"),
        ("reclaim", "reclaimed left"),
        (
            "root",
            "digest 7f58c66cbe089d53ddd4ff88975c9058f46026aae494344cdae0cae3da836b88",
        ),
        ("probe 1", "probed 2 0 0"),
        ("probe 16", "probed 2 15 0"),
        ("probe 17", "probed 2 16 1"),
        ("probe 18", "error 1 NotFound"),
        ("reclaim", "reclaimed left"),
        (
            "root",
            "digest 203ce752bcd65df347d46230fa64d8a86c23e68347b70f883d8a123523342866",
        ),
        ("probe 17", "probed 2 16 0"),
        ("reclaim", "reclaimed empty"),
        (
            "root",
            "digest 85517389c2bcd11c9388e45dc936971a38148c5b8d3be034b41e3e6bbbc53d72",
        ),
        ("probe 1", "error 1 NotFound"),
    ];
    assert_eq!(rt; table_differs(rt.alloc(), &rows)?, None);
    Ok(())
}

// A renaming that leaves something in the root, or gives an id or a version anew.
#[test]
fn renaming_there_and_back_keeps_the_root(rt: HostRuntime) -> Result<(), Fail> {
    let rows = [
        ("mkdir /d", "done"),
        ("create /d/a", "done"),
        ("write /d/a 0 61*5000", "done"),
        ("create /b", "done"),
        (
            "root",
            "digest 46f00d2a70a3abea7a4ce7c7b3d1d4731737b4b329c2c657fbd23ccb6f003bbd",
        ),
        ("rename /d/a /c", "done"),
        (
            "root",
            "digest 55be0ffa050412f850ebff74c819cdee954b9f396fd60601deffb5afdaf5e62e",
        ),
        ("rename /c /d/a", "done"),
        (
            "root",
            "digest 46f00d2a70a3abea7a4ce7c7b3d1d4731737b4b329c2c657fbd23ccb6f003bbd",
        ),
        ("rename /d /e", "done"),
        (
            "root",
            "digest 442869800070b9864979dd023418452082aa24d1433884ec15fd26dcf7de2fa4",
        ),
        ("rename /e /d", "done"),
        (
            "root",
            "digest 46f00d2a70a3abea7a4ce7c7b3d1d4731737b4b329c2c657fbd23ccb6f003bbd",
        ),
    ];
    assert_eq!(rt; table_differs(rt.alloc(), &rows)?, None);
    Ok(())
}

// A cut that leaves the last kept place its version where the bytes that went were zeros, or gives one to a hole or to a place
// that is kept whole.
#[test]
fn a_cut_of_zeros_gives_a_version(rt: HostRuntime) -> Result<(), Fail> {
    let rows = [
        ("create /f", "done"),
        ("write /f 0 61", "done"),
        ("resize /f 4096", "done"),
        (
            "root",
            "digest ee5d3f9f9e1fc138ce446648221b3e93ae793d0799a1f840914af99344a06cfe",
        ),
        ("resize /f 100", "done"),
        ("probe 0", "probed 2 0 3"),
        (
            "root",
            "digest dac8a69725ab0aecafd33a0947fa140e3d700abfa503675067fdace57eb118c8",
        ),
        ("create /g", "done"),
        ("write /g 0 62*8192", "done"),
        ("resize /g 4096", "done"),
        ("probe 1", "probed 3 0 1"),
        ("create /h", "done"),
        ("resize /h 5000", "done"),
        ("resize /h 4500", "done"),
        ("probe 3", "probed 4 1 0"),
        (
            "root",
            "digest 84ca1a2aa8ae8b74fde5e41061bf909a97fa1b7bc5c2ae627ca8392eb1cc2982",
        ),
        ("create /y", "done"),
        ("write /y 0 00*5000", "done"),
        ("resize /y 4500", "done"),
        ("probe 4", "probed 5 0 1"),
        ("probe 5", "probed 5 1 2"),
        ("create /z", "done"),
        ("write /z 0 00*5000", "done"),
        ("resize /z 9000", "done"),
        ("probe 6", "probed 6 0 1"),
        ("probe 7", "probed 6 1 1"),
        ("probe 8", "probed 6 2 0"),
    ];
    assert_eq!(rt; table_differs(rt.alloc(), &rows)?, None);
    Ok(())
}

// A trash in another order than that of the 16 digits: id 2 comes before id 16, though it went there later, and id 9 before both.
#[test]
fn reclaims_in_order_of_digits(rt: HostRuntime) -> Result<(), Fail> {
    let rows = [
        ("create /old", "done"),
        ("write /old 0 61", "done"),
        ("create /n0", "done"),
        ("create /n1", "done"),
        ("create /n2", "done"),
        ("create /n3", "done"),
        ("create /n4", "done"),
        ("create /n5", "done"),
        ("create /n6", "done"),
        ("create /n7", "done"),
        ("create /n8", "done"),
        ("create /n9", "done"),
        ("create /n10", "done"),
        ("create /n11", "done"),
        ("create /n12", "done"),
        ("mkdir /d", "done"),
        ("rename /old /d/old", "done"),
        ("remove /n7", "done"),
        ("remove /d", "done"),
        (
            "root",
            "digest 20459a8e9694f59a3361666f6dfcd4c2595fe99859fda62ef475d1afdbe18cb2",
        ),
        ("probe 0", "probed 2 0 1"),
        ("reclaim", "reclaimed left"),
        (
            "root",
            "digest 35c26f2ca587b2f4102c7a034c33f98ce303ed5fc49cdd535f5e940c0b865971",
        ),
        ("reclaim", "reclaimed left"),
        (
            "root",
            "digest a2a1498a002bcf080ae96d38eafa2aacb6e931307a35e69c1e2ab3ce047c1a5d",
        ),
        ("reclaim", "reclaimed left"),
        ("probe 0", "probed 2 0 0"),
        (
            "root",
            "digest 0729fae5764bbba2d45f2ba53f61ad75b75ed47ae0959eab2f0697cf33322662",
        ),
        ("reclaim", "reclaimed left"),
        (
            "root",
            "digest 42def55657233992b063fae17984fe12586511d28c50c8a27006f82627603dc7",
        ),
        ("reclaim", "reclaimed empty"),
        (
            "root",
            "digest 66f2b406da7e21a50ed20321f292f907c42104486bf41801237f807e61b96889",
        ),
    ];
    assert_eq!(rt; table_differs(rt.alloc(), &rows)?, None);
    Ok(())
}

// A walk that isn't in order of names, leaves holes or the trash out, or begins with it; a version of another place or file; an
// end one block late.
#[test]
fn answers_challenges(rt: HostRuntime) -> Result<(), Fail> {
    let rows = [
        ("probe 0", "error 1 NotFound"),
        ("mkdir /d", "done"),
        ("create /d/b", "done"),
        ("create /d/a", "done"),
        ("create /c", "done"),
        ("mkdir /e", "done"),
        ("create /e/x", "done"),
        ("write /d/b 0 01*5000", "done"),
        ("write /d/a 4096 01", "done"),
        ("write /c 0 01", "done"),
        ("write /c 8192 01", "done"),
        ("resize /e/x 4097", "done"),
        ("mkdir /d/s", "done"),
        ("create /d/s/y", "done"),
        ("write /d/s/y 0 01", "done"),
        ("remove /d/s", "done"),
        ("create /z", "done"),
        ("write /z 0 01*4097", "done"),
        ("remove /z", "done"),
        ("probe 0", "probed 5 0 1"),
        ("probe 1", "probed 5 1 0"),
        ("probe 2", "probed 5 2 2"),
        ("probe 3", "probed 4 0 0"),
        ("probe 4", "probed 4 1 1"),
        ("probe 5", "probed 3 0 1"),
        ("probe 6", "probed 3 1 1"),
        ("probe 7", "probed 7 0 0"),
        ("probe 8", "probed 7 1 0"),
        ("probe 9", "probed 9 0 1"),
        ("probe 10", "probed 10 0 1"),
        ("probe 11", "probed 10 1 1"),
        ("probe 12", "error 1 NotFound"),
        ("probe 18446744073709551615", "error 1 NotFound"),
    ];
    assert_eq!(rt; table_differs(rt.alloc(), &rows)?, None);
    Ok(())
}

// The root hash of what 65 blocks, written at once, make.
#[test]
fn writes_65_blocks(rt: HostRuntime) -> Result<(), Fail> {
    let rows = [
        ("create /f", "done"),
        ("write /f 1 62*262144", "done"),
        ("probe 64", "probed 2 64 1"),
        (
            "root",
            "digest ec5bff87673e7a598cf273d0f3e64bfca094cf95b408cb0fba1406437f50ef94",
        ),
    ];
    assert_eq!(rt; table_differs(rt.alloc(), &rows)?, None);
    Ok(())
}

// The plain file system, and the table beneath it.
#[derive(Drop)]
struct Both {
    plain: Plain,
    table: Table,
}

// Whether both have this reply to a request of a path.
fn both_say(
    alloc: Global,
    both: &mut Both,
    kind: &str,
    path: &str,
    wanted: &str,
) -> Result<bool, Fail> {
    let line = format!(in alloc; "{kind} {path}")?;
    Ok(
        plain_says(alloc, &mut both.plain, line.as_str(), wanted)?
            && table_says(alloc, &mut both.table, line.as_str(), wanted)?,
    )
}

// Makes directories one in the other, as many as names of this length go into 4,096 bytes, and answers the path.
fn deepest(alloc: Global, both: &mut Both, name: &str) -> Result<String, Fail> {
    let mut path = String::new(alloc);
    for _ in 0..16u32 {
        path.push_str(name)?;
        if !both_say(alloc, both, "mkdir", path.as_str(), "done")? {
            return Err("a directory".into());
        }
    }
    Ok(path)
}

// Whether a path of 4,096 bytes is served, and one byte more is no path.
fn serves_deepest(alloc: Global, both: &mut Both, name: &str) -> Result<bool, Fail> {
    let mut path = deepest(alloc, both, name)?;
    let there = path.len() == 4096 && both_say(alloc, both, "stat", path.as_str(), "stat dir 0")?;
    path.push('d')?;
    Ok(there && both_say(alloc, both, "stat", path.as_str(), "error 5 BadPath")?)
}

// Whether a name of 255 bytes is listed, and one of 256 is no name.
fn serves_longest(alloc: Global, both: &mut Both, name: &str) -> Result<bool, Fail> {
    let listed = format!(in alloc; "names 1 {}", name.trim_start_matches('/'))?;
    let longer = format!(in alloc; "{name}d")?;
    Ok(
        both_say(alloc, both, "list", name, listed.as_str())?
            && both_say(alloc, both, "mkdir", longer.as_str(), "error 5 BadPath")?,
    )
}

// Whether both serve the longest names and paths, and the root hash is this.
fn serves_longest_paths(alloc: Global, root: &str) -> Result<bool, Fail> {
    let plain = Plain::new(alloc)?;
    let table = Table::new(alloc, &keys())?;
    let mut both = Both { plain, table };
    let name = format!(in alloc; "/{}", "d".repeat(alloc, 255)?)?;
    Ok(
        serves_deepest(alloc, &mut both, name.as_str())?
            && serves_longest(alloc, &mut both, name.as_str())?
            && table_says(alloc, &mut both.table, "root", root)?,
    )
}

// A call that gives up at a path of 4,096 bytes or a name of 255, or takes one more.
#[test]
fn serves_the_longest_paths(rt: HostRuntime) -> Result<(), Fail> {
    let root = "digest 5ac2a7be4cf7e93757cd98212c089fc2d494ee7cd00ac4e00daa77104a364bad";
    assert!(rt; serves_longest_paths(rt.alloc(), root)?);
    Ok(())
}
