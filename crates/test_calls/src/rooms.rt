// Preparations of insertions: the first array, a growth that moves no entry, and nothing for a key that is there.
use crate::expect::{expect, expect_eq};
use scc::{hash_cache, hash_index, hash_map, hash_set};
use std::process::Abort;
use test_forms::answers::Answer;
use test_forms::form::{Form, Way};
use test_forms::token::Token;
use test_kit::masked::{Masked, ZERO};

/// Returns the number of pairs, the capacity, and the number of waiting buckets.
fn sizes<F: Form>(form: &F) -> (usize, usize, usize) {
    let sizes = form.sizes();
    (sizes.len, sizes.capacity, form.waiting().unwrap_or(0))
}

/// Adds the keys from `first` on and before `end`. Returns whether each call returned `answer`.
fn add<F: Form>(form: &mut F, first: u64, end: u64, answer: Answer) -> bool {
    for key in first..end {
        if form.add(Way::Insert, Token::of(key), Token::of(key)) != answer {
            return false;
        }
    }
    true
}

/// Prepares an insertion of `key`. Returns whether the preparation succeeded.
fn makes_room<F: Form>(form: &mut F, key: u64) -> bool {
    form.make_room(&Token::of(key)) == Answer::Yes(true)
}

/// Prepares insertions of keys that share a bucket of 32 slots. The last insertion returns `last` and leaves `pairs`
/// pairs.
fn expect_rooms<R: Abort, F: Form>(rt: &R, form: &mut F, last: Answer, pairs: usize) {
    let first = (makes_room(form, 0), sizes(form));
    let filled = add(form, 0, 32, Answer::Added(None));
    let there = (makes_room(form, 31), sizes(form));
    let full = (makes_room(form, 32) && makes_room(form, 33), sizes(form));
    form.drop_room();
    let added = add(form, 32, 33, last);
    expect_eq(
        rt,
        (filled, added, [first, there, full, (true, sizes(form))]),
        (
            true,
            true,
            [
                (true, (0, 64, 0)),
                (true, (32, 64, 0)),
                (true, (32, 128, 4)),
                (true, (pairs, 128, 2)),
            ],
        ),
    );
}

#[test]
fn map_room_is_made_before_an_insertion(rt: HostRuntime) {
    let mut map = hash_map::Owned::with_hasher(rt.alloc(), ZERO);
    expect_rooms(&rt, &mut map, Answer::Added(None), 33);
}

#[test]
fn set_room_is_made_before_an_insertion(rt: HostRuntime) {
    let mut set = hash_set::Owned::with_hasher(rt.alloc(), ZERO);
    expect_rooms(&rt, &mut set, Answer::Added(None), 33);
}

#[test]
fn index_room_is_made_before_an_insertion(rt: HostRuntime) {
    let mut index = hash_index::Owned::with_hasher(rt.alloc(), ZERO);
    expect_rooms(&rt, &mut index, Answer::Added(None), 33);
}

#[test]
fn cache_room_is_made_before_a_put(rt: HostRuntime) {
    match hash_cache::Owned::with_capacity_and_hasher(rt.alloc(), 0, 128, ZERO) {
        Ok(mut cache) => expect_rooms(&rt, &mut cache, Answer::Added(Some((0, 0, 0))), 32),
        Err(_) => expect(&rt, false),
    }
}

type Cache = hash_cache::Owned<u64, u64, Masked>;

/// Returns the pair that a put of `key` would evict.
fn next_out(cache: &Cache, key: u64) -> Option<(u64, u64)> {
    match cache.next_evicted(&key) {
        Some((key, value)) => Some((*key, *value)),
        None => None,
    }
}

/// Puts the keys 0 to 31, each with the next number as value. Returns whether each went in, and none would have
/// evicted a pair.
fn fill(cache: &mut Cache) -> bool {
    for key in 0..32u64 {
        if next_out(cache, key).is_some() || cache.put_sync(key, key.saturating_add(1)).is_err() {
            return false;
        }
    }
    true
}

/// Returns the pairs that a put into a full bucket would evict, for a key that is there and for a missing key, the
/// pair that the put does evict, and the pair that the next put would evict.
fn outs(
    cache: &mut Cache,
) -> (
    [Option<(u64, u64)>; 2],
    Option<(u64, u64)>,
    Option<(u64, u64)>,
) {
    let before = [next_out(cache, 31), next_out(cache, 32)];
    let out = match cache.put_sync(32, 0) {
        Ok(out) => out,
        Err(_) => None,
    };
    (before, out, next_out(cache, 33))
}

/// A cache tells before a put which pair it evicts: none if the key is there or a slot is free.
#[test]
fn cache_next_evicted_is_told_before_a_put(rt: HostRuntime) {
    match hash_cache::Owned::with_capacity_and_hasher(rt.alloc(), 0, 64, ZERO) {
        Ok(mut cache) => {
            let is_filled = fill(&mut cache);
            let wanted = ([None, Some((0, 1))], Some((0, 1)), Some((1, 2)));
            expect_eq(&rt, (is_filled, outs(&mut cache)), (true, wanted));
        }
        Err(_) => expect(&rt, false),
    }
}
