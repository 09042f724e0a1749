// Runs that are refused memory: nothing is changed, or the calls before the refused one are made, each with its reply.
// A run of the remaining calls is right.
use crate::expect::{expect, expect_eq};
use crate::kinds::{CALLS, Cache, Index, Map, Set, Tried, What, count_after};
use crate::opened::shared;
use scc_calls::{Calls, MapCall, Reply, run};
use std::io::Print;
use std::process::Abort;
use test_kit::refusals::{Refusal, TRIES};
use test_kit::zero::Zero;

/// Returns a list with room for the calls, or `None` if memory is refused each time.
fn listed<T: Drop, R: AllocGlobal + Print>(rt: &R, refusal: &mut Refusal) -> Option<Vec<T>> {
    for _ in 0..TRIES {
        match Vec::with_capacity(rt.alloc(), 8) {
            Ok(list) => return Some(list),
            Err(_) => refusal.meet(rt, "a list of the test"),
        }
    }
    None
}

/// Adds the calls of a kind and their replies, and returns whether there was room.
fn list_calls<C: Tried>(calls: &mut Vec<C::Call>, wanted: &mut Vec<C::Reply>) -> bool
where
    C::Call: Drop,
    C::Reply: Drop,
{
    for number in 0..CALLS {
        let (call, reply) = C::call_of(number);
        if calls.push(call).is_err() || wanted.push(reply).is_err() {
            return false;
        }
    }
    true
}

/// Runs the calls that have no reply yet, and returns whether all calls are made.
fn run_rest<C: Tried, R: Abort + Print>(
    rt: &R,
    refusal: &mut Refusal,
    container: &mut C,
    calls: &[C::Call],
    wanted: &[C::Reply],
    replies: &mut Vec<C::Reply>,
) -> bool {
    let ended = run(
        container,
        calls.get(replies.len()..).unwrap_or(&[]),
        replies,
    );
    let made = replies.len();
    expect_eq(rt, container.count(), count_after(made));
    expect(rt, wanted.get(..made) == Some(replies.as_slice()));
    if ended.is_err() {
        C::meet(rt, refusal, What::Run);
    }
    ended.is_ok()
}

/// Runs all calls, and if the run is refused, the calls that weren't made. Returns the number of calls made.
fn run_all<C: Tried, R: Abort + Print>(
    rt: &R,
    refusal: &mut Refusal,
    container: &mut C,
    calls: &[C::Call],
    wanted: &[C::Reply],
    replies: &mut Vec<C::Reply>,
) -> u64 {
    for _ in 0..TRIES {
        if run_rest(rt, refusal, container, calls, wanted, replies) {
            break;
        }
    }
    replies.len() as u64
}

/// Runs the calls of a kind on `container`.
fn expect_run<C: Tried, R: AllocGlobal + Abort + Print>(
    rt: &R,
    refusal: &mut Refusal,
    container: &mut C,
)
where
    C::Call: Drop,
    C::Reply: Drop,
{
    let Some(mut calls) = listed(rt, refusal) else {
        return expect(rt, false);
    };
    let Some(mut wanted) = listed(rt, refusal) else {
        return expect(rt, false);
    };
    expect(rt, list_calls::<C>(&mut calls, &mut wanted));
    let mut replies = Vec::new(rt.alloc());
    let made = run_all(
        rt,
        refusal,
        container,
        calls.as_slice(),
        wanted.as_slice(),
        &mut replies,
    );
    expect_eq(rt, made, CALLS);
}

/// Runs the calls of a kind on a new container, whose hasher has several owners.
fn expect_run_on_new<C: Tried, R: AllocGlobal + Abort + Print>(rt: &R)
where
    C::Call: Drop,
    C::Reply: Drop,
{
    let mut refusal = Refusal::new();
    match shared(rt, &mut refusal) {
        Some(hasher) => expect_run(rt, &mut refusal, &mut C::made(rt.alloc(), hasher)),
        None => expect(rt, false),
    }
}

/// Makes the call with this number once. Returns whether its reply is right, or `None` if the call was refused.
fn ask<C: Tried, R: Print>(
    rt: &R,
    refusal: &mut Refusal,
    container: &mut C,
    number: u64,
) -> Option<bool> {
    let (call, wanted) = C::call_of(number);
    match container.call(call) {
        Ok(reply) => Some(reply == wanted),
        Err(_) => {
            C::meet(rt, refusal, What::Single);
            None
        }
    }
}

/// Makes the call with this number until it isn't refused. A refused call must leave the number of keys.
fn expect_call<C: Tried, R: Abort + Print>(
    rt: &R,
    refusal: &mut Refusal,
    container: &mut C,
    number: u64,
) {
    let before = container.count();
    for _ in 0..TRIES {
        if let Some(is_right) = ask(rt, refusal, container, number) {
            return expect(rt, is_right);
        }
        expect_eq(rt, container.count(), before);
    }
    expect(rt, false);
}

/// Makes each call of a kind on a new container, whose hasher has several owners.
fn expect_each<C: Tried, R: AllocGlobal + Abort + Print>(rt: &R) {
    let mut refusal = Refusal::new();
    let Some(hasher) = shared(rt, &mut refusal) else {
        return expect(rt, false);
    };
    let mut container = C::made(rt.alloc(), hasher);
    for number in 0..CALLS {
        expect_call(rt, &mut refusal, &mut container, number);
        let made = (number as usize).saturating_add(1);
        expect_eq(rt, container.count(), count_after(made));
    }
}

#[test]
fn a_refused_run_on_a_map_made_the_calls_before(rt: HostRuntime) {
    expect_run_on_new::<Map, HostRuntime>(&rt);
}

#[test]
fn a_refused_run_on_a_set_made_the_calls_before(rt: HostRuntime) {
    expect_run_on_new::<Set, HostRuntime>(&rt);
}

#[test]
fn a_refused_run_on_an_index_made_the_calls_before(rt: HostRuntime) {
    expect_run_on_new::<Index, HostRuntime>(&rt);
}

#[test]
fn a_refused_run_on_a_cache_made_the_calls_before(rt: HostRuntime) {
    expect_run_on_new::<Cache, HostRuntime>(&rt);
}

#[test]
fn a_refused_call_of_a_map_changes_nothing(rt: HostRuntime) {
    expect_each::<Map, HostRuntime>(&rt);
}

#[test]
fn a_refused_call_of_a_set_changes_nothing(rt: HostRuntime) {
    expect_each::<Set, HostRuntime>(&rt);
}

#[test]
fn a_refused_call_of_an_index_changes_nothing(rt: HostRuntime) {
    expect_each::<Index, HostRuntime>(&rt);
}

#[test]
fn a_refused_call_of_a_cache_changes_nothing(rt: HostRuntime) {
    expect_each::<Cache, HostRuntime>(&rt);
}

type Numbers = scc_owned::map::Owned<u64, u64, Zero>;

/// Returns a map of 128 slots, or `None` if memory is refused each time.
fn sized<R: AllocGlobal + Print>(rt: &R, refusal: &mut Refusal) -> Option<Numbers> {
    for _ in 0..TRIES {
        match scc_owned::map::Owned::with_capacity_and_hasher(rt.alloc(), 128, Zero) {
            Ok(map) => return Some(map),
            Err(_) => refusal.meet(rt, "a map of 128 slots"),
        }
    }
    None
}

/// Inserts the keys below 31, and returns whether each went in.
fn fill(map: &mut Numbers) -> bool {
    for key in 0..31u64 {
        if map.insert_sync(key, !key).is_err() {
            return false;
        }
    }
    true
}

/// Runs the calls that weren't made, of two insertions and a count, and returns whether all three are made.
fn insert_rest<R: Abort + Print>(
    rt: &R,
    refusal: &mut Refusal,
    map: &mut Numbers,
    replies: &mut Vec<Reply<u64, u64>>,
) -> bool {
    let calls = [
        MapCall::Insert(31, !31),
        MapCall::Upsert(32, !32),
        MapCall::Len,
    ];
    let all = [Reply::Inserted, Reply::Old(None), Reply::Count(33)];
    let ended = run(map, calls.get(replies.len()..).unwrap_or(&[]), replies);
    let made = replies.len();
    expect_eq(rt, Some(replies.as_slice()), all.get(..made));
    let left = made.min(2).saturating_add(31);
    expect_eq(rt, (map.len(), map.capacity()), (left, 128));
    if ended.is_err() {
        match made {
            0 => refusal.meet(rt, "room for replies"),
            _ => refusal.meet(rt, "an overflow list in a run"),
        }
    }
    ended.is_ok()
}

/// A run inserts two keys into a bucket that is nearly full, in a map with less than half of its slots in use. The
/// second insertion wants the overflow list, so it may be refused after the first was made.
#[test]
fn a_refused_run_ends_at_its_overflow_list(rt: HostRuntime) {
    let mut refusal = Refusal::new();
    let Some(mut map) = sized(&rt, &mut refusal) else {
        return expect(&rt, false);
    };
    expect(&rt, fill(&mut map));
    let mut replies = Vec::new(rt.alloc());
    for _ in 0..TRIES {
        if insert_rest(&rt, &mut refusal, &mut map, &mut replies) {
            break;
        }
    }
    expect_eq(&rt, replies.len(), 3);
}
