// Tests of the single-threaded map. Under `ZERO` all keys share a bucket; under `SAME` the highest bits of a key name
// its bucket.
use crate::expect::{expect, expect_eq};
use crate::reserving::{foreign_and_own_tokens, grows_and_gives_back, sizes_without_array};
use scc::hash_map::Owned;
use scc::hash_map::owned::ReplaceResult;
use scc::{InsertError, Verdict};
use std::alloc::Global;
use std::process::Abort;
use test_kit::masked::{Masked, SAME, ZERO};
use test_kit::maybe_equal::MaybeEqual;

const HALF: u64 = 1 << 63;

const GREATEST: usize = 1 << 63;

type Numbers = Owned<u64, u64, Masked>;

// A call on a map, with the result that it must return.
#[derive(Clone, Copy)]
enum Call {
    // Inserts the keys from the first number up to, but without, the second, each with itself as value. Each insertion
    // succeeds.
    Fill(u64, u64),
    // Removes the keys from the first number up to, but without, the second. Each removal returns the key's pair.
    Empty(u64, u64),
    // Inserts a pair. The insertion succeeds.
    Insert(u64, u64),
    // Inserts a pair whose key is present. The pair comes back.
    InsertAgain(u64, u64),
    // Sets the value of a key from the second number to the third.
    Upsert(u64, u64, u64),
    // Sets the value of a key by a closure.
    Update(u64, u64),
    // Removes a key with this value.
    Remove(u64, u64),
    // Removes all pairs.
    Clear,
    // Sets each value to 2 by a walk that keeps each pair.
    WriteTwos,
    // A walk whose closure returns true on this key alone is stopped.
    StopsPast(u64),
    // The bucket of the key has room, or has none.
    Room(u64, bool),
    // The key has this value.
    Read(u64, u64),
    // Each key below the number has itself as value.
    ReadBelow(u64),
    // The map has this length and this capacity.
    Sizes(usize, usize),
    // The map has this capacity, and this many waiting buckets.
    Waiting(usize, usize),
    // Reserves slots and releases them. In between, the map has this capacity and this many waiting buckets.
    Reserve(usize, usize, usize),
}

fn fill(map: &mut Numbers, first: u64, end: u64) -> bool {
    for key in first..end {
        if map.insert_sync(key, key).is_err() {
            return false;
        }
    }
    true
}

fn empty(map: &mut Numbers, first: u64, end: u64) -> bool {
    for key in first..end {
        if map.remove_sync(&key) != Some((key, key)) {
            return false;
        }
    }
    true
}

fn comes_back(map: &mut Numbers, key: u64, value: u64) -> bool {
    match map.insert_sync(key, value) {
        Err(InsertError::Exists(pair)) => pair == (key, value),
        _ => false,
    }
}

fn updates(map: &mut Numbers, key: u64, to: u64) -> bool {
    let updated = map.update_sync(&key, |_, value| {
        *value = to;
        *value
    });
    updated == Some(to)
}

fn write_twos(map: &mut Numbers) {
    map.retain_sync(|_, value| {
        *value = 2;
        true
    });
}

fn read(map: &Numbers, key: u64) -> Option<u64> {
    map.read_sync(&key, |_, value| *value)
}

fn reads_below(map: &Numbers, end: u64) -> bool {
    for key in 0..end {
        if read(map, key) != Some(key) {
            return false;
        }
    }
    true
}

fn waiting(map: &Numbers) -> (usize, usize) {
    (map.capacity(), map.pending())
}

fn reserves(map: &mut Numbers, slots: usize, then: (usize, usize)) -> bool {
    match map.reserve(slots) {
        Some(token) => waiting(map) == then && map.release(token).is_ok(),
        None => false,
    }
}

/// Returns whether `call` returns what it must.
fn holds(map: &mut Numbers, call: Call) -> bool {
    match call {
        Call::Fill(first, end) => fill(map, first, end),
        Call::Empty(first, end) => empty(map, first, end),
        Call::Insert(key, value) => map.insert_sync(key, value).is_ok(),
        Call::InsertAgain(key, value) => comes_back(map, key, value),
        Call::Upsert(key, old, value) => map.upsert_sync(key, value).ok() == Some(Some(old)),
        Call::Update(key, value) => updates(map, key, value),
        Call::Remove(key, value) => map.remove_sync(&key) == Some((key, value)),
        Call::Room(key, room) => map.has_room(&key) == room,
        Call::Read(key, value) => read(map, key) == Some(value),
        _ => holds_of_all(map, call),
    }
}

/// Returns whether `call`, a call on all pairs, returns what it must.
fn holds_of_all(map: &mut Numbers, call: Call) -> bool {
    match call {
        Call::WriteTwos => {
            write_twos(map);
            true
        }
        Call::StopsPast(last) => !map.iter_sync(|key, _| *key == last),
        Call::ReadBelow(end) => reads_below(map, end),
        Call::Sizes(len, capacity) => (map.len(), map.capacity()) == (len, capacity),
        Call::Waiting(capacity, pending) => waiting(map) == (capacity, pending),
        Call::Reserve(slots, capacity, pending) => reserves(map, slots, (capacity, pending)),
        _ => {
            map.clear_sync();
            true
        }
    }
}

/// Returns the number of the first call that doesn't return what it must.
fn first_other(map: &mut Numbers, calls: &[Call]) -> Option<usize> {
    for (number, call) in calls.iter().enumerate() {
        if !holds(map, *call) {
            return Some(number);
        }
    }
    None
}

/// Makes `calls` in turn on a map with `hasher`, and checks each result.
fn expect_under<R: AllocGlobal + Abort>(rt: &R, hasher: Masked, calls: &[Call]) {
    let mut map = Owned::with_hasher(rt.alloc(), hasher);
    expect_eq(rt, first_other(&mut map, calls), None);
}

/// Makes `calls` in turn on a map, and checks each result.
fn expect_calls<R: AllocGlobal + Abort>(rt: &R, calls: &[Call]) {
    expect_under(rt, SAME, calls);
}

#[test]
fn map_insert_upsert_update_read_remove(rt: HostRuntime) {
    expect_calls(
        &rt,
        &[
            Call::Insert(1, 0),
            Call::InsertAgain(1, 1),
            Call::Upsert(1, 0, 1),
            Call::Update(1, 3),
            Call::Read(1, 3),
            Call::Remove(1, 3),
        ],
    );
}

#[test]
fn map_has_room_until_its_bucket_is_full(rt: HostRuntime) {
    expect_under(
        &rt,
        ZERO,
        &[
            Call::Room(0, false),
            Call::Fill(0, 31),
            Call::Room(99, true),
            Call::Fill(31, 32),
            Call::Room(99, false),
            Call::Fill(32, 33),
            Call::Sizes(33, 128),
            Call::Empty(32, 33),
            Call::Sizes(32, 128),
        ],
    );
}

/// Removes the first pair and each pair that follows. Returns the number of pairs and the sum of their values.
fn take_each(map: &mut Numbers) -> (u64, u64) {
    let (mut pairs, mut sum) = (0u64, 0u64);
    let mut here = map.begin_sync();
    for _ in 0..64 {
        let Some(entry) = here else {
            return (pairs, sum);
        };
        let (pair, next) = match entry.remove_and_sync() {
            Ok((pair, next)) => (pair, Some(next)),
            Err(pair) => (pair, None),
        };
        pairs = pairs.wrapping_add(1);
        sum = sum.wrapping_add(pair.1);
        here = next;
    }
    (pairs, sum)
}

#[test]
fn map_remove_and_next_never_resizes(rt: HostRuntime) {
    let mut map = Owned::with_hasher(rt.alloc(), ZERO);
    let filled = first_other(&mut map, &[Call::Fill(0, 40), Call::Sizes(40, 128)]);
    let taken = take_each(&mut map);
    let left = [Call::Sizes(0, 128), Call::Clear, Call::Sizes(0, 64)];
    expect_eq(
        &rt,
        (filled, taken, first_other(&mut map, &left)),
        (None, (40, 780), None),
    );
}

#[test]
fn map_retain_writes_iter_stops(rt: HostRuntime) {
    expect_calls(
        &rt,
        &[
            Call::Insert(1, 0),
            Call::Insert(2, 1),
            Call::WriteTwos,
            Call::Read(1, 2),
            Call::Read(2, 2),
            Call::Insert(3, 2),
            Call::StopsPast(3),
        ],
    );
}

#[test]
fn map_grows_in_one_bucket_and_shrinks(rt: HostRuntime) {
    expect_under(
        &rt,
        ZERO,
        &[
            Call::Fill(0, 32),
            Call::Sizes(32, 64),
            Call::Fill(32, 33),
            Call::Sizes(33, 128),
            Call::Fill(33, 40),
            Call::Sizes(40, 128),
            Call::Empty(0, 23),
            Call::Sizes(17, 128),
            Call::Empty(23, 24),
            Call::Sizes(16, 64),
        ],
    );
}

#[test]
fn map_doubles_at_half_its_capacity(rt: HostRuntime) {
    expect_under(
        &rt,
        ZERO,
        &[
            Call::Fill(0, 32),
            Call::Sizes(32, 64),
            Call::Fill(32, 33),
            Call::Sizes(33, 128),
            Call::Fill(33, 64),
            Call::Sizes(64, 128),
            Call::Fill(64, 65),
            Call::Sizes(65, 256),
        ],
    );
}

#[test]
fn map_relocates_two_targets_an_insertion(rt: HostRuntime) {
    expect_under(
        &rt,
        SAME,
        &[
            Call::Fill(0, 32),
            Call::Insert(HALF, 7),
            Call::Waiting(64, 0),
            Call::Fill(32, 33),
            Call::Waiting(128, 2),
            Call::Read(HALF, 7),
            Call::Waiting(128, 2),
            Call::Remove(HALF, 7),
            Call::Waiting(128, 2),
            Call::Fill(33, 34),
            Call::Waiting(128, 0),
        ],
    );
}

#[test]
fn map_pending_falls_by_two(rt: HostRuntime) {
    expect_under(
        &rt,
        ZERO,
        &[
            Call::Fill(0, 65),
            Call::Sizes(65, 256),
            Call::Waiting(256, 6),
            Call::Fill(65, 66),
            Call::Waiting(256, 4),
            Call::Fill(66, 67),
            Call::Waiting(256, 2),
            Call::Fill(67, 68),
            Call::Waiting(256, 0),
        ],
    );
}

#[test]
fn map_reserve_and_release_leave_all_pending(rt: HostRuntime) {
    expect_under(
        &rt,
        ZERO,
        &[
            Call::Fill(0, 33),
            Call::Sizes(33, 128),
            Call::Waiting(128, 2),
            Call::Reserve(1000, 1024, 32),
            Call::Waiting(128, 4),
            Call::ReadBelow(33),
        ],
    );
}

/// Adds one to the count of each letter of `text`.
fn count_all(map: &mut Owned<char, u64>, text: &str) -> bool {
    for letter in text.chars() {
        let is_counted = map
            .entry_sync(letter)
            .and_modify(|count| *count = count.saturating_add(1))
            .or_insert(1)
            .is_ok();
        if !is_counted {
            return false;
        }
    }
    true
}

/// Returns the count of `letter`.
fn count_of(map: &Owned<char, u64>, letter: char) -> Option<u64> {
    map.read_sync(&letter, |_, count| *count)
}

#[test]
fn map_counts_characters_through_entries(rt: HostRuntime) {
    let mut map: Owned<char, u64> = Owned::new(rt.alloc());
    let is_counted = count_all(&mut map, "a short treatise on fungi");
    let counts = [
        count_of(&map, 's'),
        count_of(&map, 't'),
        count_of(&map, 'y'),
    ];
    expect_eq(
        &rt,
        (is_counted, counts, map.len()),
        (true, [Some(2), Some(3), None], 13),
    );
}

/// Inserts (1, 0), and asks twice for its removal: one condition writes 1 and declines, and the other wants the value
/// that was written.
fn decline_and_remove(map: &mut Owned<u64, u64>) -> [Option<(u64, u64)>; 2] {
    if map.insert_sync(1, 0).is_err() {
        return [None, None];
    }
    let kept = map.remove_if_sync(&1, |value| {
        *value = value.saturating_add(1);
        false
    });
    [kept, map.remove_if_sync(&1, |value| *value == 1)]
}

#[test]
fn map_false_remove_if_keeps_what_it_wrote(rt: HostRuntime) {
    let answers = decline_and_remove(&mut Owned::new(rt.alloc()));
    expect_eq(&rt, answers, [None, Some((1, 1))]);
}

type Marked = Owned<MaybeEqual, u64, Masked>;

/// Returns the number and the mark of the stored key, and its value.
fn marked(map: &Marked, number: u64) -> Option<(u64, u64, u64)> {
    map.read_sync(&MaybeEqual(number, 0), |key, value| (key.0, key.1, *value))
}

/// Replaces a key. Returns the mark of the old key, the mark of the new key and the value, or `None` if the key was
/// missing.
fn replace(map: &mut Marked, number: u64, mark: u64) -> Option<(u64, u64, u64)> {
    match map.replace_sync(MaybeEqual(number, mark)) {
        ReplaceResult::Replaced(entry, old) => Some((old.1, entry.key().1, *entry.get())),
        ReplaceResult::NotReplaced(_entry) => None,
    }
}

/// Sets a value twice, each time by a key with another mark. Returns the former value each time, and the stored key
/// with its value.
fn upsert_twice(map: &mut Marked) -> ([Option<Option<u64>>; 2], Option<(u64, u64, u64)>) {
    let old = [
        map.upsert_sync(MaybeEqual(11, 7), 17).ok(),
        map.upsert_sync(MaybeEqual(11, 11), 18).ok(),
    ];
    (old, marked(map, 11))
}

#[test]
fn map_upsert_keeps_key_replace_swaps_it(rt: HostRuntime) {
    let mut map = Owned::with_hasher(rt.alloc(), SAME);
    let upserted = upsert_twice(&mut map);
    let swapped = (replace(&mut map, 11, 11), marked(&map, 11));
    expect_eq(
        &rt,
        (upserted, swapped),
        (
            ([Some(None), Some(Some(17))], Some((11, 7, 18))),
            (Some((7, 11, 18)), Some((11, 11, 18))),
        ),
    );
}

/// Sets the value of a key through its entry. Returns the number and the mark of the stored key, and its value.
fn set_through_entry(map: &mut Marked, key: MaybeEqual, value: u64) -> Option<(u64, u64, u64)> {
    match map.entry_sync(key).insert_entry(value) {
        Ok(entry) => Some((entry.key().0, entry.key().1, *entry.get())),
        Err(_) => None,
    }
}

#[test]
fn map_insert_entry_keeps_the_stored_key(rt: HostRuntime) {
    let mut map = Owned::with_hasher(rt.alloc(), SAME);
    let is_inserted = map.insert_sync(MaybeEqual(11, 7), 17).is_ok();
    let set = set_through_entry(&mut map, MaybeEqual(11, 11), 18);
    expect_eq(
        &rt,
        (is_inserted, set, marked(&map, 11), map.len()),
        (true, Some((11, 7, 18)), Some((11, 7, 18)), 1),
    );
}

/// Inserts the keys (i, 100 + i) below `end`, each with the value i, and returns whether each went in.
fn insert_marked(map: &mut Marked, end: u64) -> bool {
    for i in 0..end {
        let key = MaybeEqual(i, i.saturating_add(100));
        if map.insert_sync(key, i).is_err() {
            return false;
        }
    }
    true
}

/// Replaces each key below `end` by (i, 200 + i), and returns whether each replacement succeeded.
fn replace_marked(map: &mut Marked, end: u64) -> bool {
    for i in 0..end {
        let (old, new) = (i.saturating_add(100), i.saturating_add(200));
        if replace(map, i, new) != Some((old, new, i)) {
            return false;
        }
    }
    true
}

/// Returns whether each key below `end` is stored as (i, 200 + i) with its value.
fn are_replaced(map: &Marked, end: u64) -> bool {
    for i in 0..end {
        if marked(map, i) != Some((i, i.saturating_add(200), i)) {
            return false;
        }
    }
    true
}

#[test]
fn replace_under_one_hash_keeps_values(rt: HostRuntime) {
    let mut map = Owned::with_hasher(rt.alloc(), ZERO);
    let held = [
        insert_marked(&mut map, 40),
        replace_marked(&mut map, 40),
        are_replaced(&map, 40),
    ];
    expect_eq(&rt, (held, map.len()), ([true; 3], 40));
}

#[test]
fn map_try_from_iter_last_wins(rt: HostRuntime) {
    match Numbers::try_from_iter(rt.alloc(), [(1, 10), (1, 20)]) {
        Ok(map) => expect_eq(
            &rt,
            (read(&map, 1), map.len(), map.capacity()),
            (Some(20), 1, 64),
        ),
        Err(_) => expect(&rt, false),
    }
}

/// Inserts the keys 1, 2 and 3 with `values`.
fn insert_three(map: &mut Owned<u64, u64>, values: [u64; 3]) -> bool {
    map.insert_sync(1, values[0]).is_ok()
        && map.insert_sync(2, values[1]).is_ok()
        && map.insert_sync(3, values[2]).is_ok()
}

/// Walks with a closure that takes key 1 and stops. Returns whether the walk stopped.
fn take_one(map: &mut Owned<u64, u64>, taken: &mut Vec<(u64, u64)>) -> bool {
    let ended = map.iter_mut_sync(
        |key, _| {
            if *key == 1 {
                Verdict::TakeStop
            } else {
                Verdict::Keep
            }
        },
        taken,
    );
    ended == Ok(false)
}

#[test]
fn map_take_stop_takes_and_stops(rt: HostRuntime) {
    let mut map: Owned<u64, u64> = Owned::new(rt.alloc());
    let mut taken = Vec::new(rt.alloc());
    let held = [
        insert_three(&mut map, [0, 1, 2]),
        take_one(&mut map, &mut taken),
        taken.as_slice() == [(1, 0)].as_slice(),
        !map.contains_sync(&1),
    ];
    expect_eq(&rt, (held, map.len()), ([true; 4], 2));
}

/// Walks with a closure that writes 9 and returns `verdict` at once. Returns whether the walk stopped.
fn write_and_stop(
    map: &mut Owned<u64, u64>,
    taken: &mut Vec<(u64, u64)>,
    verdict: Verdict,
) -> bool {
    let ended = map.iter_mut_sync(
        |_, value| {
            *value = 9;
            verdict
        },
        taken,
    );
    ended == Ok(false)
}

/// Returns the number of pairs with the value 9, and the number of pairs with the value 0.
fn nines_and_zeros(map: &Owned<u64, u64>) -> (usize, usize) {
    let (mut nines, mut zeros) = (0usize, 0usize);
    map.iter_sync(|_, value| {
        if *value == 9 {
            nines = nines.wrapping_add(1);
        } else if *value == 0 {
            zeros = zeros.wrapping_add(1);
        }
        true
    });
    (nines, zeros)
}

/// Returns the number of pairs with the value 9.
fn nines_of(pairs: &[(u64, u64)]) -> usize {
    let mut nines = 0usize;
    for pair in pairs {
        if pair.1 == 9 {
            nines = nines.wrapping_add(1);
        }
    }
    nines
}

/// Inserts (1, 0), (2, 0) and (3, 0), and walks with `verdict`. The walk must stop. `wanted` is the number of taken
/// pairs, the number of taken pairs with the value 9, and the numbers of pairs left with the value 9 and with 0.
fn expect_stop<R: AllocGlobal + Abort>(rt: &R, verdict: Verdict, wanted: [usize; 4]) {
    let mut map: Owned<u64, u64> = Owned::new(rt.alloc());
    let mut taken = Vec::new(rt.alloc());
    let stopped = insert_three(&mut map, [0; 3]) && write_and_stop(&mut map, &mut taken, verdict);
    let (left_nines, left_zeros) = nines_and_zeros(&map);
    let seen = [
        taken.len(),
        nines_of(taken.as_slice()),
        left_nines,
        left_zeros,
    ];
    expect_eq(rt, (stopped, seen), (true, wanted));
}

#[test]
fn iter_mut_take_stop_at_first(rt: HostRuntime) {
    expect_stop(&rt, Verdict::TakeStop, [1, 1, 0, 2]);
}

#[test]
fn iter_mut_keep_stop_at_first(rt: HostRuntime) {
    expect_stop(&rt, Verdict::KeepStop, [0, 0, 1, 2]);
}

#[test]
fn map_reserve_grows_and_gives_back(rt: HostRuntime) {
    match Owned::<u64, u64>::with_capacity(rt.alloc(), 800) {
        Ok(mut map) => expect_eq(
            &rt,
            grows_and_gives_back(&mut map),
            (1024, 16_384, true, true, 1024),
        ),
        Err(_) => expect(&rt, false),
    }
}

#[test]
fn map_reserve_without_array(rt: HostRuntime) {
    let sizes = sizes_without_array(&mut Owned::<u64, u64>::new(rt.alloc()));
    let wanted = [
        (0, 0, GREATEST),
        (0, 1000, GREATEST),
        (1024, 1000, GREATEST),
    ];
    expect_eq(&rt, sizes, Some(wanted));
}

#[test]
fn release_of_foreign_and_own_tokens(rt: HostRuntime) {
    let mut first: Owned<u64, u64> = Owned::new(rt.alloc());
    let mut second: Owned<u64, u64> = Owned::new(rt.alloc());
    expect(&rt, foreign_and_own_tokens(&mut first, &mut second));
}

/// Returns the capacity and both ends of its range.
fn range_of(map: &Owned<u64, u64>) -> (usize, usize, usize) {
    let range = map.capacity_range();
    (map.capacity(), *range.start(), *range.end())
}

/// Reserves the greatest capacity. Returns the minimum and the maximum then, whether one more slot is refused, and
/// whether the map takes the token back.
fn reserve_all(map: &mut Owned<u64, u64>) -> (usize, usize, bool, bool) {
    match map.reserve(GREATEST) {
        Some(token) => {
            let (_, minimum, maximum) = range_of(map);
            let refused = map.reserve(1).is_none();
            (minimum, maximum, refused, map.release(token).is_ok())
        }
        None => (0, 0, false, false),
    }
}

#[test]
fn map_reserve_to_the_greatest_capacity(rt: HostRuntime) {
    let mut map = Owned::new(rt.alloc());
    let reserved = reserve_all(&mut map);
    expect_eq(
        &rt,
        (reserved, range_of(&map)),
        ((GREATEST, GREATEST, true, true), (0, 0, GREATEST)),
    );
}

/// Reserves 100 slots of `first`, and hands the token to `second`. Returns the slots of the token that comes back, the
/// minimum of each map then, and whether `first` takes the token.
fn release_elsewhere(
    first: &mut Owned<u64, u64>,
    second: &mut Owned<u64, u64>,
) -> Option<(usize, [(usize, usize, usize); 2], bool)> {
    let Some(token) = first.reserve(100) else {
        return None;
    };
    match second.release(token) {
        Ok(()) => None,
        Err(back) => {
            let ranges = [range_of(second), range_of(first)];
            let slots = back.additional_capacity();
            Some((slots, ranges, first.release(back).is_ok()))
        }
    }
}

#[test]
fn map_refuses_a_foreign_token(rt: HostRuntime) {
    let mut first = Owned::new(rt.alloc());
    let mut second = Owned::new(rt.alloc());
    let back = release_elsewhere(&mut first, &mut second);
    let ranges = [(0, 0, GREATEST), (0, 100, GREATEST)];
    expect_eq(
        &rt,
        (back, range_of(&first)),
        (Some((100, ranges, true)), (0, 0, GREATEST)),
    );
}

/// Clones `map`, and returns whether the clone equals it, the clone's length, its capacity and both ends of its range;
/// and whether the first 24 keys can be removed from the clone, and its length and capacity then.
fn shrink_clone(map: &Numbers) -> Option<(bool, [usize; 4], bool, [usize; 2])> {
    match map.try_clone() {
        Ok(mut copy) => {
            let is_equal = copy == *map;
            let range = copy.capacity_range();
            let before = [copy.len(), copy.capacity(), *range.start(), *range.end()];
            let is_emptied = empty(&mut copy, 0, 24);
            Some((is_equal, before, is_emptied, [copy.len(), copy.capacity()]))
        }
        Err(_) => None,
    }
}

#[test]
fn map_clone_has_its_capacity_as_minimum(rt: HostRuntime) {
    let mut map = Owned::with_hasher(rt.alloc(), ZERO);
    let filled = (fill(&mut map, 0, 40), map.len(), map.capacity());
    let seen = shrink_clone(&map);
    let wanted = (true, [40, 128, 128, GREATEST], true, [16, 128]);
    expect_eq(
        &rt,
        (filled, seen, map.len()),
        ((true, 40, 128), Some(wanted), 40),
    );
}

/// Returns the bucket of a key in a map without an array.
fn place_without_array(alloc: Global) -> usize {
    let map: Owned<u64, u64> = Owned::new(alloc);
    map.bucket_index(&0)
}

/// Returns the capacity of a map with room for 1024 pairs, and the buckets of two keys in it.
fn places(alloc: Global) -> Option<(usize, usize, usize)> {
    match Numbers::with_capacity_and_hasher(alloc, 1024, SAME) {
        Ok(map) => Some((
            map.capacity(),
            map.bucket_index(&HALF),
            map.bucket_index(&0),
        )),
        Err(_) => None,
    }
}

#[test]
fn map_bucket_index(rt: HostRuntime) {
    expect_eq(
        &rt,
        (place_without_array(rt.alloc()), places(rt.alloc())),
        (0, Some((1024, 16, 0))),
    );
}
