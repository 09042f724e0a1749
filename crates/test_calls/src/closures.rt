// How often each call of a map calls its closure.
use crate::expect::expect_eq;
use scc::hash_map::Owned;
use scc::{TryInsertError, Verdict};
use std::process::Abort;
use test_kit::zero::Zero;

type Map = Owned<u64, u64, Zero>;

/// Inserts the keys below `end`, all in one bucket. Returns whether each went in.
fn fill(map: &mut Map, end: u64) -> bool {
    for key in 0..end {
        if map.insert_sync(key, key).is_err() {
            return false;
        }
    }
    true
}

/// Walks until the closure's call number `last`, or to the end. Returns the result and the number of calls.
fn walk(map: &Map, last: u64) -> (bool, u64) {
    let mut calls = 0u64;
    let ended = map.iter_sync(|_, _| {
        calls = calls.wrapping_add(1);
        calls != last
    });
    (ended, calls)
}

#[test]
fn map_iter_calls_up_to_its_first_false(rt: HostRuntime) {
    let mut map = Owned::with_hasher(rt.alloc(), Zero);
    let is_filled = fill(&mut map, 40);
    expect_eq(
        &rt,
        (is_filled, walk(&map, 0), walk(&map, 7)),
        (true, (true, 40), (false, 7)),
    );
}

/// Searches for the pair of the closure's call number `last`, or for none. Returns whether a pair is found, and the
/// number of calls.
fn search(map: &mut Map, last: u64) -> (bool, u64) {
    let mut calls = 0u64;
    let is_found = map
        .any_sync(|_, _| {
            calls = calls.wrapping_add(1);
            calls == last
        })
        .is_some();
    (is_found, calls)
}

#[test]
fn map_any_calls_up_to_the_pair_that_passes(rt: HostRuntime) {
    let mut map = Owned::with_hasher(rt.alloc(), Zero);
    let is_filled = fill(&mut map, 40);
    expect_eq(
        &rt,
        (is_filled, search(&mut map, 0), search(&mut map, 7)),
        (true, (false, 40), (true, 7)),
    );
}

/// Walks and keeps every second key. Returns the number of calls and of pairs left.
fn retain(map: &mut Map) -> (u64, usize) {
    let mut calls = 0u64;
    map.retain_sync(|key, _| {
        calls = calls.wrapping_add(1);
        *key % 2 == 0
    });
    (calls, map.len())
}

#[test]
fn map_retain_calls_once_a_pair(rt: HostRuntime) {
    let mut map = Owned::with_hasher(rt.alloc(), Zero);
    let is_filled = fill(&mut map, 40);
    expect_eq(&rt, (is_filled, retain(&mut map)), (true, (40, 20)));
}

/// Walks with a closure that returns `seventh` at its call number 7 and `each` at the others. Returns whether the walk
/// came to its end, and the numbers of calls, of pairs taken and of pairs left.
fn take(
    map: &mut Map,
    taken: &mut Vec<(u64, u64)>,
    each: Verdict,
    seventh: Verdict,
) -> (bool, u64, usize, usize) {
    let mut calls = 0u64;
    let ended = map.iter_mut_sync(
        |_, _| {
            calls = calls.wrapping_add(1);
            if calls == 7 { seventh } else { each }
        },
        taken,
    );
    (ended == Ok(true), calls, taken.len(), map.len())
}

#[test]
fn map_iter_mut_calls_up_to_each_stop(rt: HostRuntime) {
    let mut map = Owned::with_hasher(rt.alloc(), Zero);
    let mut taken = Vec::new(rt.alloc());
    let is_filled = fill(&mut map, 40);
    let walks = [
        take(&mut map, &mut taken, Verdict::Keep, Verdict::KeepStop),
        take(&mut map, &mut taken, Verdict::Take, Verdict::TakeStop),
        take(&mut map, &mut taken, Verdict::Keep, Verdict::Keep),
    ];
    let wanted = [(false, 7, 0, 40), (false, 7, 7, 33), (true, 33, 7, 33)];
    expect_eq(&rt, (is_filled, walks), (true, wanted));
}

/// Inserts a key with closures in two ways. Returns the value of the key, and how often the closures were called.
fn insert(map: &mut Map, key: u64) -> (Option<u64>, u64) {
    let mut calls = 0u64;
    let with = map
        .entry_sync(key)
        .or_insert_with(|| {
            calls = calls.wrapping_add(1);
            7
        })
        .is_ok();
    let with_key = map
        .entry_sync(key)
        .or_insert_with_key(|_| {
            calls = calls.wrapping_add(1);
            8
        })
        .is_ok();
    if with && with_key {
        (map.read_sync(&key, |_, value| *value), calls)
    } else {
        (None, calls)
    }
}

#[test]
fn map_entries_call_only_where_the_key_is_missing(rt: HostRuntime) {
    let mut map = Owned::with_hasher(rt.alloc(), Zero);
    expect_eq(
        &rt,
        (insert(&mut map, 1), insert(&mut map, 1)),
        ((Some(7), 1), (Some(7), 0)),
    );
}

/// Tries to insert a key with closures in two ways, which fail with 7 if `fails`, else make the value 9. Returns how
/// many of the calls returned an entry and how many the error, how often the closures were called, and the length.
fn try_insert(map: &mut Map, key: u64, fails: bool) -> (u64, u64, u64, usize) {
    let mut calls = 0u64;
    let made = if fails { Err(7u64) } else { Ok(9u64) };
    let with = map
        .entry_sync(key)
        .or_try_insert_with(|| {
            calls = calls.wrapping_add(1);
            made
        })
        .map(|entry| *entry.get());
    let with_key = map
        .entry_sync(key)
        .or_try_insert_with_key(|_| {
            calls = calls.wrapping_add(1);
            made
        })
        .map(|entry| *entry.get());
    let mut entries = 0u64;
    let mut errors = 0u64;
    for answer in [with, with_key] {
        match answer {
            Ok(9) => entries = entries.wrapping_add(1),
            Err(TryInsertError::Failed(7)) => errors = errors.wrapping_add(1),
            _ => {}
        }
    }
    (entries, errors, calls, map.len())
}

#[test]
fn map_entries_try_only_where_the_key_is_missing(rt: HostRuntime) {
    let mut map = Owned::with_hasher(rt.alloc(), Zero);
    let tries = [
        try_insert(&mut map, 1, true),
        try_insert(&mut map, 1, false),
        try_insert(&mut map, 1, true),
    ];
    expect_eq(&rt, tries, [(0, 2, 2, 0), (2, 0, 1, 1), (2, 0, 0, 1)]);
}

/// Removes the key if a condition returns `holds`. Returns the result, and how often the condition was called.
fn remove_if(map: &mut Map, key: u64, holds: bool) -> (Option<(u64, u64)>, u64) {
    let mut calls = 0u64;
    let removed = map.remove_if_sync(&key, |_| {
        calls = calls.wrapping_add(1);
        holds
    });
    (removed, calls)
}

#[test]
fn map_asks_the_condition_only_for_a_key_that_is_there(rt: HostRuntime) {
    let mut map = Owned::with_hasher(rt.alloc(), Zero);
    let is_filled = fill(&mut map, 2);
    let removed = [
        remove_if(&mut map, 2, true),
        remove_if(&mut map, 1, false),
        remove_if(&mut map, 1, true),
    ];
    let wanted = [(None, 0), (None, 1), (Some((1, 1)), 1)];
    expect_eq(&rt, (is_filled, removed), (true, wanted));
}
