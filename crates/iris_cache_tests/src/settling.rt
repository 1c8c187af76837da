//! Nodes are settled by a call for each, in passes over all that is resident.

use iris_cache::Cache;
use iris_name::Name;
use std::alloc::Global;
use std::test::Fail;

// The names of what isn't settled.
fn unsettled_in(alloc: Global, cache: &Cache) -> Result<Vec<Name>, Fail> {
    let mut names = Vec::new(alloc);
    for i in 0..cache.count() {
        let (name, held) = cache.at(i);
        if !held.settled {
            names.push(*name)?;
        }
    }
    Ok(names)
}

// Settles those whose children are settled. Tells whether there were any to settle.
fn settle_lowest(alloc: Global, cache: &mut Cache) -> Result<bool, Fail> {
    let names = unsettled_in(alloc, cache)?;
    for name in names.as_slice() {
        cache.settle(name);
    }
    Ok(!names.is_empty())
}

// Settles all nodes, from the leaves up.
pub(crate) fn settle_each(alloc: Global, cache: &mut Cache) -> Result<(), Fail> {
    for _ in 0..1000 {
        if !settle_lowest(alloc, cache)? {
            return Ok(());
        }
    }
    Err("it goes on settling".into())
}
