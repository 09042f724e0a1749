// Maps whose keys share a bucket of 32 slots, and whose new array, overflow list or list of taken pairs is
// refused.
use crate::expect::{expect, expect_eq};
use scc::hash_map::Owned;
use scc::{InsertError, Verdict, WalkError};
use std::io::Print;
use std::process::Abort;
use test_kit::refusals::{Refusal, TRIES};
use test_kit::zero::Zero;

type Map = Owned<u64, u64, Zero>;

/// Inserts a key with its complement as value. If memory is refused, returns the pair, and `None` if an equal key is
/// present.
fn insert(map: &mut Map, key: u64) -> Result<(), Option<(u64, u64)>> {
    match map.insert_sync(key, !key) {
        Ok(()) => Ok(()),
        Err(InsertError::Memory(pair)) => Err(Some(pair)),
        Err(InsertError::Exists(_)) => Err(None),
    }
}

/// Returns whether the map holds the keys below `end`, each with its complement as value, and no other key.
fn holds_below(map: &Map, end: u64) -> bool {
    for key in 0..end {
        if map.read_sync(&key, |_, value| *value) != Some(!key) {
            return false;
        }
    }
    map.len() as u64 == end
}

/// Inserts the keys 1 to 31, and returns whether each went in.
fn insert_after_the_first(map: &mut Map) -> bool {
    for key in 1..32 {
        if insert(map, key).is_err() {
            return false;
        }
    }
    true
}

/// Inserts the keys 0 to 31. Only the first insertion allocates, for the array, and it is made again until it succeeds.
fn fill<R: Abort + Print>(rt: &R, refusal: &mut Refusal, map: &mut Map) {
    for _ in 0..TRIES {
        match insert(map, 0) {
            Err(Some(pair)) => {
                refusal.meet(rt, "the first array");
                expect_eq(rt, (pair, map.len(), map.capacity()), ((0, !0), 0, 0));
            }
            _ => break,
        }
    }
    expect(rt, insert_after_the_first(map));
    expect_eq(rt, (map.capacity(), holds_below(map, 32)), (64, true));
}

/// Inserts `key` once, after the keys below it, and returns whether it went in. A refused insertion hands its pair back
/// and leaves the other keys as they are.
fn insert_next<R: Abort + Print>(rt: &R, map: &mut Map, key: u64) -> bool {
    let answer = insert(map, key);
    if answer.is_ok() {
        expect(rt, holds_below(map, key.saturating_add(1)));
        return true;
    }
    expect_eq(
        rt,
        (answer, holds_below(map, key)),
        (Err(Some((key, !key))), true),
    );
    false
}

/// Reports what an insertion of a due growth was refused: the new array, if the old one is still there, and the
/// overflow list, if the key didn't go in.
fn meet_insertion<R: Abort + Print>(rt: &R, refusal: &mut Refusal, map: &Map, is_in: bool) {
    match (map.capacity() == 64, is_in) {
        (true, true) => refusal.meet(rt, "a new array alone"),
        (true, false) => {
            refusal.meet(rt, "a new array");
            refusal.meet(rt, "the overflow list after it");
        }
        (false, true) => {}
        (false, false) => refusal.meet(rt, "the overflow list of a new array"),
    }
    let sizes = (map.capacity(), map.is_resize_refused());
    expect(rt, sizes == (64, true) || sizes == (128, false));
}

/// A refused array leaves the old array, raises the note, and the key goes to the overflow list. The next insertion asks
/// for the array again, which lowers the note: key 33 makes it if one request is refused. Each delay is told as a
/// refusal, and `tools/refuse_memory` allows as many as there were refused requests: so an insertion that is refused
/// and leaves its growth due wants two.
#[test]
fn map_refused_array_uses_overflow(rt: HostRuntime) {
    let mut refusal = Refusal::new();
    let mut map = Owned::with_hasher(rt.alloc(), Zero);
    fill(&rt, &mut refusal, &mut map);
    let mut key = 32u64;
    for _ in 0..TRIES {
        let is_in = insert_next(&rt, &mut map, key);
        meet_insertion(&rt, &mut refusal, &map, is_in);
        if is_in {
            if map.capacity() == 128 {
                return;
            }
            key = key.saturating_add(1);
        }
    }
    expect(&rt, false);
}

/// If the overflow list is refused as well, the pair comes back. The insertion is made again until it succeeds.
#[test]
fn map_refused_array_and_overflow(rt: HostRuntime) {
    let mut refusal = Refusal::new();
    let mut map = Owned::with_hasher(rt.alloc(), Zero);
    fill(&rt, &mut refusal, &mut map);
    for _ in 0..TRIES {
        let is_in = insert_next(&rt, &mut map, 32);
        meet_insertion(&rt, &mut refusal, &map, is_in);
        if is_in {
            return;
        }
    }
    expect(&rt, false);
}

/// Returns an empty list with room for one pair, or `None` if memory is refused each time.
fn listed<R: AllocGlobal + Print>(rt: &R, refusal: &mut Refusal) -> Option<Vec<(u64, u64)>> {
    for _ in 0..TRIES {
        match Vec::with_capacity(rt.alloc(), 1) {
            Ok(list) => return Some(list),
            Err(_) => refusal.meet(rt, "a list with room for one"),
        }
    }
    None
}

/// Walks with a closure that takes each pair. Returns the number of the closure's calls, and the walk's answer.
fn take_all(map: &mut Map, taken: &mut Vec<(u64, u64)>) -> (usize, Result<bool, WalkError>) {
    let mut calls = 0usize;
    let ended = map.iter_mut_sync(
        |_, _| {
            calls = calls.wrapping_add(1);
            Verdict::Take
        },
        taken,
    );
    (calls, ended)
}

/// Takes all three pairs into a list with room for one. A refused walk has called its closure once for each pair that
/// it took.
fn expect_taken<R: Abort + Print>(
    rt: &R,
    refusal: &mut Refusal,
    map: &mut Map,
    taken: &mut Vec<(u64, u64)>,
) {
    let mut all = 0usize;
    for _ in 0..TRIES {
        let (calls, ended) = take_all(map, taken);
        all = all.saturating_add(calls);
        expect_eq(rt, (taken.len(), map.len().saturating_add(all)), (all, 3));
        if all == 3 {
            return expect_eq(rt, ended, Ok(true));
        }
        refusal.meet(rt, "more room for taken pairs");
        expect_eq(rt, (ended, all), (Err(WalkError), 1));
    }
    expect(rt, false);
}

#[test]
fn iter_mut_refused_room_stops(rt: HostRuntime) {
    let mut refusal = Refusal::new();
    let mut map = Owned::with_hasher(rt.alloc(), Zero);
    for _ in 0..TRIES {
        if insert(&mut map, 0).is_ok() {
            break;
        }
        refusal.meet(&rt, "the first array before a walk");
    }
    expect_eq(
        &rt,
        (insert(&mut map, 1), insert(&mut map, 2)),
        (Ok(()), Ok(())),
    );
    match listed(&rt, &mut refusal) {
        Some(mut taken) => {
            expect_taken(&rt, &mut refusal, &mut map, &mut taken);
            taken.sort_unstable();
            let wanted = [(0, !0), (1, !1), (2, !2)];
            expect_eq(&rt, taken.as_slice(), wanted.as_slice());
        }
        None => expect(&rt, false),
    }
}
