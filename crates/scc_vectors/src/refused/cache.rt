// A cache whose keys share a bucket of 32 slots, and whose new array is refused.
use crate::expect::{expect, expect_eq};
use scc::InsertError;
use scc::hash_cache::Owned;
use std::io::Print;
use std::process::Abort;
use test_kit::refusals::{Refusal, TRIES};
use test_kit::zero::Zero;

type Cache = Owned<u64, u64, Zero>;

/// Puts a key with its complement as value. Returns the evicted pair, if any. If memory is refused, returns the pair
/// that was to be put, and `None` if an equal key is present.
fn put(cache: &mut Cache, key: u64) -> Result<Option<(u64, u64)>, Option<(u64, u64)>> {
    match cache.put_sync(key, !key) {
        Ok(evicted) => Ok(evicted),
        Err(InsertError::Memory(pair)) => Err(Some(pair)),
        Err(InsertError::Exists(_)) => Err(None),
    }
}

/// Returns whether the cache holds the keys from `first` up to, but without, `end`, each with its complement as value,
/// and no other key.
fn holds(cache: &Cache, first: u64, end: u64) -> bool {
    for key in first..end {
        if cache.read_sync(&key, |_, value| *value) != Some(!key) {
            return false;
        }
    }
    cache.len() as u64 == end.saturating_sub(first)
}

/// Puts the keys 1 to 31, and returns whether each went in without an eviction.
fn put_after_the_first(cache: &mut Cache) -> bool {
    for key in 1..32 {
        if put(cache, key) != Ok(None) {
            return false;
        }
    }
    true
}

/// Puts the keys 0 to 31. Only the first put allocates, for the array, and it is made again until it succeeds.
fn fill<R: Abort + Print>(rt: &R, refusal: &mut Refusal, cache: &mut Cache) {
    for _ in 0..TRIES {
        match put(cache, 0) {
            Err(Some(pair)) => {
                refusal.meet(rt, "the first array of a cache");
                expect_eq(rt, (pair, cache.len(), cache.capacity()), ((0, !0), 0, 0));
            }
            _ => break,
        }
    }
    expect(rt, put_after_the_first(cache));
    expect_eq(rt, (cache.capacity(), holds(cache, 0, 32)), (64, true));
}

/// A put whose new array is refused evicts the least recent pair of the old array, and the next put asks for the new
/// array again.
#[test]
fn cache_refused_array_evicts(rt: HostRuntime) {
    let mut refusal = Refusal::new();
    match Owned::with_capacity_and_hasher(rt.alloc(), 0, 128, Zero) {
        Ok(mut cache) => {
            fill(&rt, &mut refusal, &mut cache);
            expect_evictions(&rt, &mut refusal, &mut cache);
        }
        Err(_) => expect(&rt, false),
    }
}

/// Puts the keys from 32 on until the new array is there, which is at key 33 if one request is refused. Each put must
/// evict the least recent key.
fn expect_evictions<R: Abort + Print>(rt: &R, refusal: &mut Refusal, cache: &mut Cache) {
    for least in 0..TRIES as u64 {
        let key = least.saturating_add(32);
        let evicted = put(cache, key);
        let is_left = holds(cache, least.saturating_add(1), key.saturating_add(1));
        expect_eq(rt, (evicted, is_left), (Ok(Some((least, !least))), true));
        if cache.capacity() == 128 {
            return;
        }
        expect_eq(rt, cache.capacity(), 64);
        refusal.meet(rt, "a new array of a cache");
    }
    expect(rt, false);
}
