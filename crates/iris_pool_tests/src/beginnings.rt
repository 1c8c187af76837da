//! Puts and discards of many names begin, and gets for what callers ask.

ghost use Rattle.std.specs.Prelude.{◌≤◌};

use crate::names::{part, part_node};
use iris_desk::{CALLERS, Doing, Record};
use iris_name::{Bytes, Expect, Hash32, NoMemory, Request};
use iris_pool::Pool;
use std::alloc::Global;
use std::test::Fail;

// So many of each.
const MANY: u32 = 300;

// A part that isn't there yet is held, and dirty.
fn admit(pool: &mut Pool, number: u32) -> Result<(), Fail> {
    let name = part(number);
    if pool.cache().find(&name).is_some() || pool.desks().holder(&name).is_some() {
        return Err("it is there".into());
    }
    pool.admit(None, part_node(number))?;
    Ok(())
}

// A caller for whom nothing is out asks, and the get of a part that is absent begins for it.
fn ask(pool: &mut Pool, who: u32) -> Result<(), Fail>
    requires { who ≤ 16 }
{
    let name = part(1000 + who);
    if pool.cache().find(&name).is_some() || pool.desks().holder(&name).is_some() {
        return Err("it is there".into());
    }
    if !pool.desks().desk(who).is_idle() {
        return Err("the caller waits for something else".into());
    }
    pool.ask_for(who, Request::Sync, &name, 5, Expect::Hash(Hash32([7; 32])))?;
    Ok(())
}

// A put of a part that is held begins.
fn put(alloc: Global, pool: &mut Pool, number: u32) -> Result<(), Fail> {
    let name = part(number);
    if pool.cache().find(&name).is_none() || pool.desks().holder(&name).is_some() {
        return Err("it isn't there".into());
    }
    let bytes = Bytes::of(Vec::new(alloc));
    pool.begin_put(2, &name, 6, true, Record::Node(bytes))?;
    Ok(())
}

// A discard of a part that is absent begins.
fn discard(pool: &mut Pool, number: u32) -> Result<(), Fail> {
    let name = part(number);
    if pool.cache().find(&name).is_some() || pool.desks().holder(&name).is_some() {
        return Err("it is there".into());
    }
    pool.begin_discard(3, &name, 7, false)?;
    Ok(())
}

// One of each, for names of their own.
fn begin_each(alloc: Global, pool: &mut Pool, number: u32) -> Result<(), Fail>
    requires { number ≤ 300 }
{
    admit(pool, number)?;
    put(alloc, pool, number)?;
    discard(pool, number + 2000)
}

// Whether a caller asks, and a get is out for it, and nothing else.
fn is_asked(pool: &Pool, who: u32) -> bool
    requires { who ≤ 16 }
{
    let desk = pool.desks().desk(who);
    let outs = desk.outs();
    desk.asks(&Request::Sync) && outs.len() == 1 && outs[0].doing == Doing::Get
}

// Whether so many of a kind are out at a caller's desk, and nothing else.
fn are_out(pool: &Pool, who: u32, doing: Doing) -> bool
    requires { who ≤ 16 }
{
    let outs = pool.desks().desk(who).outs();
    outs.len() == MANY as usize && outs.iter().all(|out| out.doing == doing)
}

// A beginning that gives up, or that is out at another desk, as something else, or for another request.
#[test]
fn begins_many(rt: HostRuntime) -> Result<(), Fail> {
    let mut pool = Pool::new(rt.alloc())?;
    for number in 0..MANY {
        begin_each(rt.alloc(), &mut pool, number)?;
    }
    for who in 4..CALLERS as u32 {
        ask(&mut pool, who)?;
        assert!(rt; is_asked(&pool, who));
    }
    assert!(rt; are_out(&pool, 2, Doing::Put) && are_out(&pool, 3, Doing::Discard));
    assert_eq!(rt; pool.cache().dirty(), MANY);
    Ok(())
}
