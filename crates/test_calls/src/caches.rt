// What the calls of a cache return, and which of them keep the order of a bucket.
use crate::expect::{expect, expect_eq};
use crate::rows::{Call, expect_answers, expect_sizes};
use scc::hash_cache::Owned;
use std::process::Abort;
use test_forms::answers::{Answer, Rule};
use test_forms::form::{Act, At, Form, Way};
use test_kit::masked::{SAME, ZERO};

type Row = (Call, Answer);

/// A put of `key` with itself as value, which evicts the pair `evicted`.
fn puts(key: u64, evicted: (u64, u64)) -> Row {
    let pair = (evicted.0, 0, evicted.1);
    (
        Call::Add(Way::Insert, key, 0, key),
        Answer::Added(Some(pair)),
    )
}

/// Makes the calls on a cache whose keys share a bucket of 32 slots.
fn expect_in_one_bucket<R: AllocGlobal + Abort>(rt: &R, rows: &[Row]) {
    match Owned::with_capacity_and_hasher(rt.alloc(), 0, 64, ZERO) {
        Ok(mut cache) => expect_answers(rt, &mut cache, rows),
        Err(_) => expect(rt, false),
    }
}

#[test]
fn cache_which_calls_leave_the_order(rt: HostRuntime) {
    let rows = [
        (Call::Fill(0, 32), Answer::Yes(true)),
        (Call::Read(0), Answer::Found(Some((0, 0, 0)))),
        (Call::Passes(40), Answer::Yes(true)),
        (Call::Add(Way::Insert, 0, 1, 9), Answer::Exists((0, 1, 9))),
        (Call::RemoveIf(0), Answer::Found(None)),
        puts(32, (0, 1)),
    ];
    expect_in_one_bucket(&rt, &rows);
}

/// A declined removal keeps the value that its condition wrote, and an accepted removal returns it.
#[test]
fn cache_false_remove_if_keeps_what_it_wrote(rt: HostRuntime) {
    let rows = [
        (Call::Fill(0, 32), Answer::Yes(true)),
        (Call::RemoveIf(0), Answer::Found(None)),
        puts(32, (0, 1)),
        (Call::RemoveIf(1), Answer::Found(Some((1, 0, 2)))),
        (Call::RemoveIf(1), Answer::Found(None)),
    ];
    expect_in_one_bucket(&rt, &rows);
}

/// Walks add 1 to each value that they come to, and keep the order of the pairs that stay.
#[test]
fn cache_walks_keep_the_order(rt: HostRuntime) {
    let rows = [
        (Call::Fill(0, 32), Answer::Yes(true)),
        (Call::Retain(0), Answer::Yes(true)),
        (Call::Fill(32, 36), Answer::Yes(true)),
        puts(36, (1, 2)),
        (Call::Take(Rule::Rest(2)), Answer::Yes(true)),
        (Call::Fill(37, 41), Answer::Yes(true)),
        (Call::Read(2), Answer::Found(None)),
        (Call::Fill(41, 42), Answer::Yes(true)),
        puts(42, (3, 5)),
    ];
    expect_in_one_bucket(&rt, &rows);
}

/// A put evicts a pair of its own bucket alone.
#[test]
fn cache_evicts_from_the_keys_own_bucket(rt: HostRuntime) {
    let other = 1 << 63;
    let rows = [
        (Call::Fill(other, other + 1), Answer::Yes(true)),
        (Call::Fill(0, 32), Answer::Yes(true)),
        puts(32, (0, 0)),
        (Call::Read(other), Answer::Found(Some((other, 0, other)))),
    ];
    match Owned::with_capacity_and_hasher(rt.alloc(), 64, 64, SAME) {
        Ok(mut cache) => {
            expect_answers(&rt, &mut cache, &rows);
            let sizes = cache.sizes();
            expect_eq(&rt, (sizes.len, sizes.capacity), (33, 64));
        }
        Err(_) => expect(&rt, false),
    }
}

/// A cleared cache shrinks at once to the array of its minimum, however much smaller that is.
#[test]
fn cache_shrinks_from_its_maximum_to_its_minimum(rt: HostRuntime) {
    let rows = [
        (Call::Spread(1024), (1024, 1024, 0)),
        (Call::Clear, (0, 64, 2)),
    ];
    match Owned::with_capacity_and_hasher(rt.alloc(), 0, 1024, SAME) {
        Ok(mut cache) => expect_sizes(&rt, &mut cache, &rows),
        Err(_) => expect(&rt, false),
    }
}

#[test]
fn cache_entries_do_what_they_say(rt: HostRuntime) {
    let rows = [
        (
            Call::Add(Way::OrInsert, 1, 7, 10),
            Answer::Entry(None, (1, 7, 10)),
        ),
        (
            Call::Add(Way::OrInsertWith, 1, 8, 11),
            Answer::Entry(None, (1, 7, 10)),
        ),
        (
            Call::Add(Way::OrInsertWithKey, 2, 0, 9),
            Answer::Entry(None, (2, 0, 2)),
        ),
        (
            Call::Add(Way::OrDefault, 3, 0, 9),
            Answer::Entry(None, (3, 0, 0)),
        ),
        (Call::Modify(3, 7), Answer::Found(Some((3, 0, 7)))),
        (
            Call::Add(Way::InsertEntry, 3, 1, 8),
            Answer::Entry(None, (3, 0, 8)),
        ),
        (Call::On(At::Key, Act::Set, 3, 9), Answer::Old(Some(8))),
        (
            Call::On(At::Key, Act::Write, 3, 30),
            Answer::Found(Some((3, 0, 30))),
        ),
        (
            Call::On(At::Key, Act::RemoveEntry, 3, 0),
            Answer::Found(Some((3, 0, 30))),
        ),
        (Call::On(At::Key, Act::Remove, 2, 0), Answer::Old(Some(2))),
        (Call::Modify(3, 7), Answer::Vacant(3, 1)),
        (
            Call::Replace(1, 9),
            Answer::Swapped(Some(7), Some((1, 9, 10))),
        ),
        (Call::Replace(3, 9), Answer::Swapped(None, None)),
        (Call::Clear, Answer::Yes(true)),
        (Call::Read(1), Answer::Found(None)),
    ];
    expect_answers(&rt, &mut Owned::with_hasher(rt.alloc(), SAME), &rows);
}
