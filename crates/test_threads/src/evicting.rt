// Eviction from a shared cache: stripe by stripe, after calls that refresh, and under four threads.
use crate::expect::{expect, expect_eq};
use scc_common::InsertError;
use scc_owned_cache::DEFAULT_MAXIMUM_CAPACITY;
use scc_script::same::Same;
use scc_shared_cache::HashCache;
use std::alloc::Global;
use std::hash::BuildHasher;
use std::process::Abort;
use std::sync::Wait;
use std::thread::{Threads, map_indices};
use test_kit::numbers::next;
use test_kit::zero::Zero;

/// Puts `count` keys from `from` on, and returns whether each went in without an eviction.
fn puts<H: BuildHasher + Drop>(
    rt: &impl Wait,
    cache: &HashCache<u64, u64, H>,
    from: u64,
    count: u64,
) -> bool {
    let mut kept = true;
    for number in 0..count {
        let key = from.wrapping_add(number);
        kept = matches!(cache.put_sync(rt, key, key), Ok(None)) && kept;
    }
    kept
}

/// Returns the pair that the put of `key` evicts.
fn evicted<H: BuildHasher + Drop>(
    rt: &impl Wait,
    cache: &HashCache<u64, u64, H>,
    key: u64,
) -> Option<(u64, u64)> {
    match cache.put_sync(rt, key, key) {
        Ok(evicted) => evicted,
        Err(_) => None,
    }
}

fn puts_in_each_quarter(rt: &impl Wait, cache: &HashCache<u64, u64, Same>) -> bool {
    let mut kept = true;
    for quarter in 0..4u64 {
        kept = puts(rt, cache, quarter << 62, 32) && kept;
    }
    kept
}

fn evicts_in_each_quarter(rt: &impl Wait, cache: &HashCache<u64, u64, Same>) -> bool {
    let mut least = true;
    for quarter in 0..4u64 {
        let first = quarter << 62;
        least = evicted(rt, cache, first | 32) == Some((first, first)) && least;
    }
    least
}

/// Each of the four quarters of all hashes has a stripe of its own, which evicts its own least recent pair.
#[test]
fn shared_cache_evicts_stripe_by_stripe(rt: HostRuntime) {
    match HashCache::with_hasher(rt.alloc(), Same) {
        Ok(cache) => {
            let kept = puts_in_each_quarter(&rt, &cache);
            let full = (cache.len(&rt), cache.capacity(&rt));
            let least = evicts_in_each_quarter(&rt, &cache);
            let still = (cache.len(&rt), cache.capacity(&rt));
            let wanted = (true, (128, 256), true, (128, 256));
            expect_eq(&rt, (kept, full, least, still), wanted);
        }
        Err(_) => expect(&rt, false),
    }
}

/// Calls that refresh the first three of 32 keys, and calls that don't refresh the fourth. Returns whether they return
/// what they must.
fn looks(rt: &impl Wait, cache: &HashCache<u64, u64, Zero>) -> bool {
    let got = cache.get_sync(rt, &0).is_some();
    drop(cache.entry_sync(rt, 1));
    drop(cache.replace_sync(rt, 2));
    let read = cache.read_sync(rt, &3, |_, value| *value) == Some(3);
    let there = cache.contains_sync(rt, &3);
    got && read && there && cache.remove_if_sync(rt, &3, |_| false).is_none()
}

/// Puts 32 keys more, and returns whether each evicts the least recent one: first 3 to 31, and then 0 to 2.
fn evicts_from_three(rt: &impl Wait, cache: &HashCache<u64, u64, Zero>) -> bool {
    let mut right = true;
    for key in 3..35u64 {
        let least = key % 32;
        right = evicted(rt, cache, key + 29) == Some((least, least)) && right;
    }
    right
}

#[test]
fn shared_cache_which_calls_refresh(rt: HostRuntime) {
    match HashCache::with_capacity_and_hasher(rt.alloc(), 0, 64, Zero) {
        Ok(cache) => {
            expect(&rt, puts(&rt, &cache, 0, 32) && looks(&rt, &cache));
            expect(&rt, evicts_from_three(&rt, &cache));
        }
        Err(_) => expect(&rt, false),
    }
}

const THREADS: usize = 4;

const CALLS: u64 = 3000;

// The pairs that a thread put in minus the pairs that it took out or its puts evicted: their number, the sum of their
// keys and the sum of their values, and whether the cache was always within its maximum.
#[derive(Clone, Copy)]
struct Balance {
    pairs: u64,
    keys: u64,
    values: u64,
    is_within: bool,
}

const EVEN: Balance = Balance {
    pairs: 0,
    keys: 0,
    values: 0,
    is_within: true,
};

impl Balance {
    fn add(&mut self, pair: (u64, u64)) {
        self.pairs = self.pairs.wrapping_add(1);
        self.keys = self.keys.wrapping_add(pair.0);
        self.values = self.values.wrapping_add(pair.1);
    }

    fn subtract(&mut self, pair: (u64, u64)) {
        self.pairs = self.pairs.wrapping_sub(1);
        self.keys = self.keys.wrapping_sub(pair.0);
        self.values = self.values.wrapping_sub(pair.1);
    }

    fn join(&mut self, other: &Balance) {
        self.pairs = self.pairs.wrapping_add(other.pairs);
        self.keys = self.keys.wrapping_add(other.keys);
        self.values = self.values.wrapping_add(other.values);
        self.is_within = self.is_within && other.is_within;
    }
}

/// Puts a pair, and counts the pair and an evicted pair.
fn put(rt: &impl Wait, cache: &HashCache<u64, u64>, pair: (u64, u64), balance: &mut Balance) {
    match cache.put_sync(rt, pair.0, pair.1) {
        Ok(evicted) => {
            balance.add(pair);
            if let Some(gone) = evicted {
                balance.subtract(gone);
            }
        }
        Err(InsertError::Exists(_)) => {}
        Err(InsertError::Memory(_)) => balance.is_within = false,
    }
}

/// Puts pairs into the cache and takes pairs out of it, and returns their balance.
fn put_and_take(rt: &impl Wait, cache: &HashCache<u64, u64>, thread: usize) -> Balance {
    let mut balance = EVEN;
    let mut seed = thread as u64;
    for call in 0..CALLS {
        let pair = (next(&mut seed) % 1000, next(&mut seed));
        if call % 4 == 3 {
            if let Some(taken) = cache.remove_sync(rt, &pair.0) {
                balance.subtract(taken);
            }
        } else {
            put(rt, cache, pair, &mut balance);
        }
        if call % 16 == 0 && cache.len(rt) > DEFAULT_MAXIMUM_CAPACITY {
            balance.is_within = false;
        }
    }
    balance
}

/// Returns the balance of four threads that put and take at once, or `None` if one couldn't start.
fn balance_of_four<R: Threads + Wait + Sync>(
    rt: &R,
    alloc: Global,
    cache: &HashCache<u64, u64>,
) -> Option<Balance> {
    match map_indices(
        rt,
        alloc,
        THREADS,
        &|thread| put_and_take(rt, cache, thread),
    ) {
        Ok(balances) => {
            let mut left = EVEN;
            for balance in balances.iter() {
                left.join(balance);
            }
            Some(left)
        }
        Err(_) => None,
    }
}

/// Subtracts each pair of the cache. Returns whether nothing is left, the cache was always within its maximum and is
/// so now, and isn't empty.
fn comes_out_even(rt: &impl Wait, cache: &HashCache<u64, u64>, balance: Balance) -> bool {
    let mut left = balance;
    let walked = cache.iter_sync(rt, |key, value| {
        left.subtract((*key, *value));
        true
    });
    let is_within = left.is_within && cache.capacity(rt) <= DEFAULT_MAXIMUM_CAPACITY;
    let is_even = (left.pairs, left.keys, left.values) == (0, 0, 0);
    walked && is_within && is_even && !cache.is_empty(rt)
}

#[test]
fn shared_cache_loses_no_pair_unseen(rt: HostRuntime) {
    match HashCache::new(rt.alloc()) {
        Ok(cache) => match balance_of_four(&rt, rt.alloc(), &cache) {
            Some(balance) => expect(&rt, comes_out_even(&rt, &cache, balance)),
            None => expect(&rt, false),
        },
        Err(_) => expect(&rt, false),
    }
}
