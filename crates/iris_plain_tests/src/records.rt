//! Records and roots of a table computed apart.

use crate::lines::{Row, keys, table_says};
use iris_name::{Bytes, Name, Reply, Request};
use iris_table::Table;
use std::alloc::Global;
use std::test::Fail;

// A table after these lines.
fn table_after(alloc: Global, rows: &[Row]) -> Result<Table, Fail> {
    let mut table = Table::new(alloc, &keys())?;
    for (line, wanted) in rows {
        if !table_says(alloc, &mut table, line, wanted)? {
            return Err("another reply".into());
        }
    }
    Ok(table)
}

// The names of records, a blank after each.
fn listed(alloc: Global, records: &[(Name, Bytes)]) -> Result<String, Fail> {
    let mut names = String::new(alloc);
    for (name, _) in records {
        let word = format!(in alloc; "{name} ")?;
        names.push_str(word.as_str())?;
    }
    Ok(names)
}

// The names of a table's records.
fn names_in(alloc: Global, table: &Table) -> Result<String, Fail> {
    let records = table.records_of(alloc, &keys())?;
    listed(alloc, records.as_slice())
}

// The digits of a table's root hash.
fn root_in(alloc: Global, table: &Table) -> Result<String, Fail> {
    let root = table.root_of(alloc, &keys())?;
    Ok(hex::encode(alloc, root.0.as_slice())?)
}

// The record of a name, as digits.
fn record_in(alloc: Global, table: &Table, place: usize) -> Result<String, Fail> {
    let records = table.records_of(alloc, &keys())?;
    match records.as_slice().get(place) {
        Some((_, record)) => Ok(hex::encode(alloc, record.as_slice())?),
        None => Err("no record".into()),
    }
}

// The root hash, and the records of both roots, written out by hand: format, kind, id, an empty name, and three absent links.
#[test]
fn meets_the_fresh_root_and_records(rt: HostRuntime) -> Result<(), Fail> {
    let table = Table::new(rt.alloc(), &keys())?;
    assert_eq!(rt;
        root_in(rt.alloc(), &table)?.as_str(),
        "e4916185013ac8cb08ceca3ce0c211b863c37d0eb03d40e3bd1822179b5460c7"
    );
    assert_eq!(rt; names_in(rt.alloc(), &table)?.as_str(), "entry-0 entry-1 ");
    for (place, wanted) in [
        (0usize, "0101000000000000000000000000"),
        (1, "0101000000000000000100000000"),
    ] {
        assert_eq!(rt; record_in(rt.alloc(), &table, place)?.as_str(), wanted);
    }
    Ok(())
}

// A part kept whose sides are equal, a part or a block left out, or a version of another place.
#[test]
fn lists_the_parts_and_blocks_of_a_file(rt: HostRuntime) -> Result<(), Fail> {
    let rows = [
        ("mkdir /docs", "done"),
        ("create /docs/a.txt", "done"),
        ("write /docs/a.txt 0 61*10000", "done"),
    ];
    let table = table_after(rt.alloc(), &rows)?;
    assert_eq!(rt;
        names_in(rt.alloc(), &table)?.as_str(),
        "entry-0 entry-1 entry-2 entry-3 part-3-1-1 part-3-2-0 part-3-3-0 part-3-4-0 part-3-5-0 part-3-6-0 part-3-7-0 part-3-8-0 part-3-9-0 part-3-10-0 part-3-11-0 part-3-12-0 part-3-13-0 part-3-14-0 part-3-15-0 part-3-16-0 block-3-0 block-3-1 block-3-2 "
    );
    assert_eq!(rt;
        root_in(rt.alloc(), &table)?.as_str(),
        "8c9f1888cf4e150e8de2e22d1dc584a14c928542428e28ebe2802c8f86d522b4"
    );
    Ok(())
}

const B_FIRST: [Row; 2] = [("mkdir /b", "done"), ("mkdir /a", "done")];

const A_FIRST: [Row; 2] = [("mkdir /a", "done"), ("mkdir /b", "done")];

// Whether `Root` and `root_of` say the same of one table, and of another something else.
fn tells_order(alloc: Global) -> Result<bool, Fail> {
    let mut table = table_after(alloc, &B_FIRST)?;
    let other = table_after(alloc, &A_FIRST)?;
    let same = table.root_of(alloc, &keys())?;
    let reply = table.step(alloc, &Request::Root)?;
    Ok(reply == Reply::Digest(same) && reply != Reply::Digest(other.root_of(alloc, &keys())?))
}

// A root that tells nothing of ids, or that `Root` and `root_of` make of different tables.
#[test]
fn root_tells_the_order_of_ids(rt: HostRuntime) -> Result<(), Fail> {
    assert!(rt; tells_order(rt.alloc())?);
    for (rows, root) in [
        (
            &B_FIRST,
            "719967282b47239ca49ddaea8566e29718031f768cbc9d27ab84035e8a38f95a",
        ),
        (
            &A_FIRST,
            "e7524f9aa9f521df58fa2026322407eefdc499e89701a22158de3b6cb8bd035c",
        ),
    ] {
        let table = table_after(rt.alloc(), rows)?;
        assert_eq!(rt; root_in(rt.alloc(), &table)?.as_str(), root);
    }
    Ok(())
}
