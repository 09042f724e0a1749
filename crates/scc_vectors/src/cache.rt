// Tests of the single-threaded cache. Under `ZERO` all keys share a bucket; under `SAME` the highest bits of a key
// name its bucket.
use crate::expect::{expect, expect_eq};
use scc::Verdict;
use scc::hash_cache::Owned;
use scc::hash_cache::owned::ReplaceResult;
use std::alloc::Global;
use std::process::Abort;
use test_kit::masked::{Masked, SAME, ZERO};
use test_kit::maybe_equal::MaybeEqual;

const HALF: u64 = 1 << 63;

type Numbers = Owned<u64, u64, Masked>;

// A call on a cache, with the result that it must return. Each key is put with itself as value.
#[derive(Clone, Copy)]
enum Call {
    // Puts the keys from the first number up to, but without, the second. No put evicts a pair.
    Fill(u64, u64),
    // Removes the keys from the first number up to, but without, the second. Each removal returns the key's pair.
    Empty(u64, u64),
    // Puts the first key, which evicts the second key.
    Evict(u64, u64),
    // Reads the key by a call that refreshes it. Its value is the key itself.
    Get(u64),
    // Sets the value of a present key through its entry.
    PutEntry(u64, u64),
    // Replaces a key that is present.
    Replace(u64),
    // Asks for the entry of the key.
    Enter(u64),
    // Reads the key, whose value is the second number, by a call that doesn't refresh it.
    Read(u64, u64),
    // The key is present.
    Contains(u64),
    // The cache has this length and this capacity.
    Sizes(usize, usize),
    // This many buckets wait.
    Waiting(usize),
}

/// Puts `key` with itself as value. Returns the key that the put evicts, if any, or `None` if the put fails.
fn put(cache: &mut Numbers, key: u64) -> Option<Option<u64>> {
    match cache.put_sync(key, key) {
        Ok(Some(pair)) => Some(Some(pair.0)),
        Ok(None) => Some(None),
        Err(_) => None,
    }
}

fn fill(cache: &mut Numbers, first: u64, end: u64) -> bool {
    for key in first..end {
        if put(cache, key) != Some(None) {
            return false;
        }
    }
    true
}

fn empty(cache: &mut Numbers, first: u64, end: u64) -> bool {
    for key in first..end {
        if cache.remove_sync(&key) != Some((key, key)) {
            return false;
        }
    }
    true
}

fn get(cache: &mut Numbers, key: u64) -> Option<u64> {
    match cache.get_sync(&key) {
        Some(entry) => Some(*entry.get()),
        None => None,
    }
}

fn puts_entry(cache: &mut Numbers, key: u64, value: u64) -> bool {
    match cache.entry_sync(key).put_entry(value) {
        Ok((evicted, entry)) => evicted.is_none() && *entry.get() == value,
        Err(_) => false,
    }
}

fn replaces(cache: &mut Numbers, key: u64) -> bool {
    match cache.replace_sync(key) {
        ReplaceResult::Replaced(_, old) => old == key,
        ReplaceResult::NotReplaced(_) => false,
    }
}

fn read(cache: &Numbers, key: u64) -> Option<u64> {
    cache.read_sync(&key, |_, value| *value)
}

/// Returns whether `call` returns what it must.
fn holds(cache: &mut Numbers, call: Call) -> bool {
    match call {
        Call::Fill(first, end) => fill(cache, first, end),
        Call::Empty(first, end) => empty(cache, first, end),
        Call::Evict(key, gone) => put(cache, key) == Some(Some(gone)),
        Call::Get(key) => get(cache, key) == Some(key),
        Call::PutEntry(key, value) => puts_entry(cache, key, value),
        Call::Replace(key) => replaces(cache, key),
        Call::Enter(key) => *cache.entry_sync(key).key() == key,
        Call::Read(key, value) => read(cache, key) == Some(value),
        Call::Contains(key) => cache.contains_sync(&key),
        Call::Sizes(len, capacity) => (cache.len(), cache.capacity()) == (len, capacity),
        Call::Waiting(pending) => cache.pending() == pending,
    }
}

/// Returns the number of the first call that doesn't return what it must.
fn first_other(cache: &mut Numbers, calls: &[Call]) -> Option<usize> {
    for (number, call) in calls.iter().enumerate() {
        if !holds(cache, *call) {
            return Some(number);
        }
    }
    None
}

/// Makes `calls` in turn on a cache without an array, of at most `maximum` slots, and checks each result.
fn expect_calls<R: AllocGlobal + Abort>(rt: &R, hasher: Masked, maximum: usize, calls: &[Call]) {
    match Owned::with_capacity_and_hasher(rt.alloc(), 0, maximum, hasher) {
        Ok(mut cache) => expect_eq(rt, first_other(&mut cache, calls), None),
        Err(_) => expect(rt, false),
    }
}

#[test]
fn cache_get_refreshes(rt: HostRuntime) {
    expect_calls(
        &rt,
        ZERO,
        64,
        &[
            Call::Fill(0, 32),
            Call::Get(0),
            Call::Evict(32, 1),
            Call::Contains(0),
        ],
    );
}

#[test]
fn cache_put_entry_refreshes(rt: HostRuntime) {
    expect_calls(
        &rt,
        ZERO,
        64,
        &[
            Call::Fill(0, 32),
            Call::PutEntry(0, 7),
            Call::Evict(32, 1),
            Call::Read(0, 7),
        ],
    );
}

/// Replacing key 0 and asking for its entry refresh it, so key 32 evicts key 1. `read_sync` and `contains_sync` don't,
/// so key 32 evicts key 0.
#[test]
fn cache_which_calls_refresh(rt: HostRuntime) {
    for (call, evicted) in [
        (Call::Replace(0), 1),
        (Call::Enter(0), 1),
        (Call::Read(0, 0), 0),
        (Call::Contains(0), 0),
    ] {
        expect_calls(
            &rt,
            ZERO,
            64,
            &[Call::Fill(0, 32), call, Call::Evict(32, evicted)],
        );
    }
}

#[test]
fn cache_doubles_then_evicts(rt: HostRuntime) {
    expect_calls(
        &rt,
        ZERO,
        128,
        &[
            Call::Fill(0, 32),
            Call::Sizes(32, 64),
            Call::Evict(32, 0),
            Call::Sizes(32, 128),
            Call::Evict(33, 1),
            Call::Sizes(32, 128),
        ],
    );
}

#[test]
fn cache_shrinks_and_evicts_again(rt: HostRuntime) {
    expect_calls(
        &rt,
        ZERO,
        128,
        &[
            Call::Fill(0, 32),
            Call::Evict(32, 0),
            Call::Sizes(32, 128),
            Call::Empty(1, 16),
            Call::Sizes(17, 128),
            Call::Empty(16, 17),
            Call::Sizes(16, 64),
            Call::Fill(33, 49),
            Call::Evict(49, 17),
            Call::Sizes(32, 128),
        ],
    );
}

#[test]
fn cache_get_relocates_its_target(rt: HostRuntime) {
    expect_calls(
        &rt,
        SAME,
        128,
        &[
            Call::Fill(0, 32),
            Call::Fill(HALF, HALF + 1),
            Call::Evict(32, 0),
            Call::Waiting(2),
            Call::Get(HALF),
            Call::Waiting(1),
            Call::Evict(33, 1),
            Call::Waiting(0),
        ],
    );
}

/// Returns the capacity and both ends of its range.
fn range_of(cache: &Owned<u64, u64>) -> (usize, usize, usize) {
    let range = cache.capacity_range();
    (cache.capacity(), *range.start(), *range.end())
}

/// Returns the capacity and both ends of its range for a cache made with `minimum` and `maximum` slots, or `None` if
/// memory is refused.
fn range_between(alloc: Global, minimum: usize, maximum: usize) -> Option<(usize, usize, usize)> {
    match Owned::with_capacity(alloc, minimum, maximum) {
        Ok(cache) => Some(range_of(&cache)),
        Err(_) => None,
    }
}

#[test]
fn cache_capacities_and_ranges(rt: HostRuntime) {
    let made = [
        range_between(rt.alloc(), 1000, 2000),
        range_between(rt.alloc(), 0, 0),
        range_between(rt.alloc(), 100, 2000),
        Some(range_of(&Owned::new(rt.alloc()))),
    ];
    let wanted = [
        Some((1024, 1024, 2048)),
        Some((0, 0, 64)),
        Some((128, 128, 2048)),
        Some((0, 0, 256)),
    ];
    expect_eq(&rt, made, wanted);
}

#[test]
fn cache_try_from_iter_first_wins(rt: HostRuntime) {
    match Owned::<u64, u64>::try_from_iter(rt.alloc(), [(1, 10), (1, 20)]) {
        Ok(cache) => expect_eq(
            &rt,
            (cache.read_sync(&1, |_, value| *value), range_of(&cache)),
            (Some(10), (64, 64, 64)),
        ),
        Err(_) => expect(&rt, false),
    }
}

/// Puts 1, 2 and 3, each with the value 0.
fn put_three(cache: &mut Owned<u64, u64>) -> bool {
    for key in 1..4 {
        if cache.put_sync(key, 0).is_err() {
            return false;
        }
    }
    true
}

/// Walks with a closure that writes 9 and returns `verdict` at once. Returns whether the walk stopped.
fn write_and_stop(
    cache: &mut Owned<u64, u64>,
    taken: &mut Vec<(u64, u64)>,
    verdict: Verdict,
) -> bool {
    let ended = cache.iter_mut_sync(
        |_, value| {
            *value = 9;
            verdict
        },
        taken,
    );
    ended == Ok(false)
}

/// Returns the number of pairs with the value 9, and the number of pairs with the value 0.
fn nines_and_zeros(cache: &Owned<u64, u64>) -> (usize, usize) {
    let (mut nines, mut zeros) = (0usize, 0usize);
    cache.iter_sync(|_, value| {
        if *value == 9 {
            nines = nines.wrapping_add(1);
        } else if *value == 0 {
            zeros = zeros.wrapping_add(1);
        }
        true
    });
    (nines, zeros)
}

/// Returns the number of pairs with the value 9.
fn nines_of(pairs: &[(u64, u64)]) -> usize {
    let mut nines = 0usize;
    for pair in pairs {
        if pair.1 == 9 {
            nines = nines.wrapping_add(1);
        }
    }
    nines
}

/// Puts 1, 2 and 3, and walks with `verdict`. The walk must stop. `wanted` is the number of taken pairs, the number of
/// taken pairs with the value 9, and the numbers of pairs left with the value 9 and with 0.
fn expect_stop<R: AllocGlobal + Abort>(rt: &R, verdict: Verdict, wanted: [usize; 4]) {
    let mut cache: Owned<u64, u64> = Owned::new(rt.alloc());
    let mut taken = Vec::new(rt.alloc());
    let stopped = put_three(&mut cache) && write_and_stop(&mut cache, &mut taken, verdict);
    let (left_nines, left_zeros) = nines_and_zeros(&cache);
    let seen = [
        taken.len(),
        nines_of(taken.as_slice()),
        left_nines,
        left_zeros,
    ];
    expect_eq(rt, (stopped, seen), (true, wanted));
}

#[test]
fn cache_iter_mut_take_stop_at_first(rt: HostRuntime) {
    expect_stop(&rt, Verdict::TakeStop, [1, 1, 0, 2]);
}

#[test]
fn cache_iter_mut_keep_stop_at_first(rt: HostRuntime) {
    expect_stop(&rt, Verdict::KeepStop, [0, 0, 1, 2]);
}

type Marked = Owned<MaybeEqual, u64, Masked>;

/// Puts the keys (i, 100 + i) below `end`, each with the value i. Returns whether each went in without an eviction.
fn put_marked(cache: &mut Marked, end: u64) -> bool {
    for i in 0..end {
        match cache.put_sync(MaybeEqual(i, i.saturating_add(100)), i) {
            Ok(None) => {}
            _ => return false,
        }
    }
    true
}

/// Replaces a key. Returns the mark of the old key, the mark of the new key and the value, or `None` if the key was
/// missing.
fn replace(cache: &mut Marked, number: u64, mark: u64) -> Option<(u64, u64, u64)> {
    match cache.replace_sync(MaybeEqual(number, mark)) {
        ReplaceResult::Replaced(entry, old) => Some((old.1, entry.key().1, *entry.get())),
        ReplaceResult::NotReplaced(_) => None,
    }
}

/// Replaces each key below `end` by (i, 200 + i), and returns whether each replacement succeeded.
fn replace_marked(cache: &mut Marked, end: u64) -> bool {
    for i in 0..end {
        let (old, new) = (i.saturating_add(100), i.saturating_add(200));
        if replace(cache, i, new) != Some((old, new, i)) {
            return false;
        }
    }
    true
}

/// Returns whether each key below `end` is stored as (i, 200 + i) with its value.
fn are_replaced(cache: &Marked, end: u64) -> bool {
    for i in 0..end {
        let stored = cache.read_sync(&MaybeEqual(i, 0), |key, value| (key.1, *value));
        if stored != Some((i.saturating_add(200), i)) {
            return false;
        }
    }
    true
}

#[test]
fn cache_replace_under_one_hash_keeps_values(rt: HostRuntime) {
    match Owned::with_capacity_and_hasher(rt.alloc(), 0, 64, ZERO) {
        Ok(mut cache) => {
            let held = [
                put_marked(&mut cache, 32),
                replace_marked(&mut cache, 32),
                are_replaced(&cache, 32),
            ];
            expect_eq(&rt, (held, cache.len()), ([true; 3], 32));
        }
        Err(_) => expect(&rt, false),
    }
}

/// Puts the keys 1 and 2 into both caches in different order, and then 3 into `first`. Returns whether the puts evicted
/// nothing, and whether each cache equals the other, before and after the last put.
fn compare(first: &mut Numbers, second: &mut Numbers) -> [bool; 6] {
    let filled = fill(first, 1, 3) && fill(second, 2, 3) && fill(second, 1, 2);
    let before = [first == second, second == first];
    let filled_again = fill(first, 3, 4);
    [
        filled,
        before[0],
        before[1],
        filled_again,
        first == second,
        second == first,
    ]
}

#[test]
fn cache_equality_ignores_recency(rt: HostRuntime) {
    match Owned::with_capacity_and_hasher(rt.alloc(), 0, 64, ZERO) {
        Ok(mut first) => match Owned::with_capacity_and_hasher(rt.alloc(), 0, 64, ZERO) {
            Ok(mut second) => expect_eq(
                &rt,
                compare(&mut first, &mut second),
                [true, true, true, true, false, false],
            ),
            Err(_) => expect(&rt, false),
        },
        Err(_) => expect(&rt, false),
    }
}
