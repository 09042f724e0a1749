// Tests of the shared containers in one thread. Under `Zero` all keys share a stripe and a bucket; under `Same` the
// highest bits of a key name its stripe, and the bits after them its bucket.
use crate::expect::{expect, expect_eq};
use scc::{HashCache, HashIndex, HashMap, HashSet};
use scc_script::same::Same;
use std::hash::BuildHasher;
use std::process::Abort;
use std::sync::Wait;
use test_kit::zero::Zero;

const HALF: u64 = 1 << 63;

const GREATEST: usize = 1 << 63;

/// Returns whether a thread that holds the entry of key 1 gets through a call on `other`. If both were in one stripe,
/// the thread would wait for itself, up to the limit of a test.
fn comes_through(rt: &impl Wait, map: &HashMap<u64, u64, Same>, other: u64) -> bool {
    match map.get_sync(rt, &1) {
        Some(entry) => map.contains_sync(rt, &other) && *entry.key() == 1,
        None => false,
    }
}

/// Inserts a key of each stripe. Returns whether both went in, and the stripes of both keys and of the greatest key.
fn insert_in_both(rt: &impl Wait, map: &HashMap<u64, u64, Same>) -> (bool, [usize; 3]) {
    let are_inserted = map.insert_sync(rt, 1, 10).is_ok()
        && map.insert_sync(rt, HALF + 1, 20).is_ok();
    let stripes = [
        map.stripe_of(&1),
        map.stripe_of(&(HALF + 1)),
        map.stripe_of(&u64::MAX),
    ];
    (are_inserted, stripes)
}

#[test]
fn shared_map_of_two_stripes(rt: HostRuntime) {
    match HashMap::with_capacity_and_hasher(rt.alloc(), 128, Same) {
        Ok(map) => {
            let inserted = insert_in_both(&rt, &map);
            let comes = comes_through(&rt, &map, HALF + 1);
            expect_eq(
                &rt,
                (inserted, comes, map.len(&rt), map.capacity(&rt)),
                ((true, [0, 1, 1]), true, 2, 128),
            );
        }
        Err(_) => expect(&rt, false),
    }
}

/// Puts a key with itself as value. Returns the key that the put evicts, if any, or `None` if the put fails.
fn put<H: BuildHasher>(
    rt: &impl Wait,
    cache: &HashCache<u64, u64, H>,
    key: u64,
) -> Option<Option<u64>> {
    match cache.put_sync(rt, key, key) {
        Ok(Some(pair)) => Some(Some(pair.0)),
        Ok(None) => Some(None),
        Err(_) => None,
    }
}

/// Puts the keys 0 to 31, and returns whether no put evicted a pair.
fn fill<H: BuildHasher>(rt: &impl Wait, cache: &HashCache<u64, u64, H>) -> bool {
    for key in 0..32 {
        if put(rt, cache, key) != Some(None) {
            return false;
        }
    }
    true
}

/// Returns the length, the capacity, and both ends of its range.
fn cache_sizes<H: BuildHasher>(rt: &impl Wait, cache: &HashCache<u64, u64, H>) -> [usize; 4] {
    let range = cache.capacity_range();
    [
        cache.len(rt),
        cache.capacity(rt),
        *range.start(),
        *range.end(),
    ]
}

/// Each of the four stripes has at most 64 slots, so 32 pairs in a bucket don't double a stripe.
#[test]
fn shared_cache_of_four_stripes_evicts(rt: HostRuntime) {
    match HashCache::with_hasher(rt.alloc(), Zero) {
        Ok(cache) => {
            let put = (fill(&rt, &cache), put(&rt, &cache, 32));
            expect_eq(
                &rt,
                (put, cache_sizes(&rt, &cache)),
                ((true, Some(Some(0))), [32, 64, 0, 256]),
            );
        }
        Err(_) => expect(&rt, false),
    }
}

/// Returns whether a thread that holds the entry of key 1 gets through a put of `other`. If both were in one stripe,
/// the thread would wait for itself, up to the limit of a test.
fn puts_beside_an_entry(rt: &impl Wait, cache: &HashCache<u64, u64, Same>, other: u64) -> bool {
    match cache.get_sync(rt, &1) {
        Some(entry) => put(rt, cache, other) == Some(None) && *entry.key() == 1,
        None => false,
    }
}

/// Two stripes of 64 slots each: the 33rd key of a bucket finds its stripe half full, which doubles, and the other
/// stripe stays. One stripe of 128 slots wouldn't be half full, and four stripes would have 256 slots.
#[test]
fn shared_cache_capacities(rt: HostRuntime) {
    match HashCache::with_capacity_and_hasher(rt.alloc(), 100, 2000, Same) {
        Ok(cache) => {
            let bare = cache_sizes(&rt, &cache);
            let put_beside = fill(&rt, &cache) && puts_beside_an_entry(&rt, &cache, HALF + 1);
            let filled = cache_sizes(&rt, &cache);
            let evicted = put(&rt, &cache, 32);
            expect_eq(
                &rt,
                (
                    put_beside,
                    evicted,
                    [bare, filled, cache_sizes(&rt, &cache)],
                ),
                (
                    true,
                    Some(Some(0)),
                    [
                        [0, 128, 128, 2048],
                        [33, 128, 128, 2048],
                        [33, 192, 128, 2048],
                    ],
                ),
            );
        }
        Err(_) => expect(&rt, false),
    }
}

/// Returns the values of the next three versions, with `None` for a missing version.
fn next_three(index: &HashIndex<u64, u64>, rt: &impl Wait) -> Option<[Option<u64>; 3]> {
    match index.iter(rt) {
        Ok(mut versions) => {
            let mut values = [None; 3];
            for value in values.iter_mut() {
                *value = versions.next().map(|version| *version.value());
            }
            Some(values)
        }
        Err(_) => None,
    }
}

/// Sets the value of `key`, and returns whether the key was present and now has `value`.
fn update(index: &HashIndex<u64, u64>, rt: &impl Wait, key: u64, value: u64) -> bool {
    match index.get_sync(rt, &key) {
        Some(mut entry) => entry.update(value).is_ok(),
        None => false,
    }
}

/// Returns whether `key` has `value`, and a walk over versions shows this value alone.
fn shows_alone(index: &HashIndex<u64, u64>, rt: &impl Wait, key: u64, value: u64) -> bool {
    index.peek_with(rt, &key, |_, value| *value) == Some(value)
        && next_three(index, rt) == Some([Some(value), None, None])
}

/// Returns the value of a version of a key that is held while the index updates the key and is dropped. Returns `None`
/// if a call on the index returns something else.
fn peek_across<R: Wait>(rt: &R, index: HashIndex<u64, u64>) -> Option<u64> {
    if index.entry_sync(rt, 37).or_insert(11).is_err() {
        return None;
    }
    let Ok(Some(peeked)) = index.peek(rt, &37) else {
        return None;
    };
    if !update(&index, rt, 37, 29) || !shows_alone(&index, rt, 37, 29) {
        return None;
    }
    drop(index);
    Some(*peeked.value())
}

#[test]
fn shared_index_peeked_version_stays(rt: HostRuntime) {
    match HashIndex::new(rt.alloc()) {
        Ok(index) => expect_eq(&rt, peek_across(&rt, index), Some(11)),
        Err(_) => expect(&rt, false),
    }
}

// A container that is filled, and that refuses impossible reservations.
trait Filling {
    /// Adds a key that is missing, and returns whether it went in.
    fn add<R: Wait>(&self, rt: &R, key: u64) -> bool;

    /// Returns the capacity, and both ends of its range.
    fn sizes<R: Wait>(&self, rt: &R) -> [usize; 3];

    /// Returns whether a reservation of `slots` is refused.
    fn refuses<R: Wait>(&self, rt: &R, slots: usize) -> bool;
}

// A container that takes reservations, each for as long as it is held.
trait Reserving: Filling {
    /// Returns the sizes while `slots` are reserved, and then also with the keys from `first` up to, but without, `end`
    /// added. Returns `None` if the reservation has another number of slots, if the greatest number of slots or 0 isn't
    /// refused, or if a key doesn't go in.
    fn hold<R: Wait>(&self, rt: &R, slots: usize, first: u64, end: u64) -> Option<[[usize; 3]; 2]>;

    /// Returns the sizes with 100 and 200 slots reserved, then with 200 alone, and then with none.
    fn hold_both<R: Wait>(&self, rt: &R) -> Option<[[usize; 3]; 3]>;

    /// Reserves slots, and releases them while the entry of `key`, the only one, is held. Returns what the entry then
    /// shows: the key, and the value that it is set to, which of a set is the key.
    fn release_under_entry<R: Wait>(&self, rt: &R, key: u64) -> Option<(u64, u64)>;
}

/// Adds the keys from `first` up to, but without, `end`. Returns whether each went in, and reservations of the greatest
/// number, of the greatest number of slots and of 0 are refused.
fn refuses_and_adds<C: Filling, R: Wait>(rt: &R, form: &C, first: u64, end: u64) -> bool {
    for key in first..end {
        if !form.add(rt, key) {
            return false;
        }
    }
    form.refuses(rt, usize::MAX) && form.refuses(rt, GREATEST) && form.refuses(rt, 0)
}

impl Filling for HashMap<u64, u64> {
    fn add<R: Wait>(&self, rt: &R, key: u64) -> bool {
        self.insert_sync(rt, key, key).is_ok()
    }

    fn sizes<R: Wait>(&self, rt: &R) -> [usize; 3] {
        let range = self.capacity_range();
        [self.capacity(rt), *range.start(), *range.end()]
    }

    fn refuses<R: Wait>(&self, rt: &R, slots: usize) -> bool {
        self.reserve(rt, slots).is_none()
    }
}

impl Reserving for HashMap<u64, u64> {
    fn hold<R: Wait>(&self, rt: &R, slots: usize, first: u64, end: u64) -> Option<[[usize; 3]; 2]> {
        let Some(held) = self.reserve(rt, slots) else {
            return None;
        };
        let sizes = self.sizes(rt);
        if refuses_and_adds(rt, self, first, end) && held.additional_capacity() == slots {
            Some([sizes, self.sizes(rt)])
        } else {
            None
        }
    }

    fn hold_both<R: Wait>(&self, rt: &R) -> Option<[[usize; 3]; 3]> {
        let Some(first) = self.reserve(rt, 100) else {
            return None;
        };
        let Some(second) = self.reserve(rt, 200) else {
            return None;
        };
        let both = self.sizes(rt);
        drop(first);
        let one = self.sizes(rt);
        drop(second);
        Some([both, one, self.sizes(rt)])
    }

    fn release_under_entry<R: Wait>(&self, rt: &R, key: u64) -> Option<(u64, u64)> {
        let held = self.reserve(rt, 1000)?;
        let mut entry = self.get_sync(rt, &key)?;
        drop(held);
        if entry.insert(11) != key {
            return None;
        }
        Some((*entry.key(), *entry.get()))
    }
}

impl Filling for HashSet<u64> {
    fn add<R: Wait>(&self, rt: &R, key: u64) -> bool {
        self.insert_sync(rt, key).is_ok()
    }

    fn sizes<R: Wait>(&self, rt: &R) -> [usize; 3] {
        let range = self.capacity_range();
        [self.capacity(rt), *range.start(), *range.end()]
    }

    fn refuses<R: Wait>(&self, rt: &R, slots: usize) -> bool {
        self.reserve(rt, slots).is_none()
    }
}

impl Reserving for HashSet<u64> {
    fn hold<R: Wait>(&self, rt: &R, slots: usize, first: u64, end: u64) -> Option<[[usize; 3]; 2]> {
        let Some(held) = self.reserve(rt, slots) else {
            return None;
        };
        let sizes = self.sizes(rt);
        if refuses_and_adds(rt, self, first, end) && held.additional_capacity() == slots {
            Some([sizes, self.sizes(rt)])
        } else {
            None
        }
    }

    fn hold_both<R: Wait>(&self, rt: &R) -> Option<[[usize; 3]; 3]> {
        let Some(first) = self.reserve(rt, 100) else {
            return None;
        };
        let Some(second) = self.reserve(rt, 200) else {
            return None;
        };
        let both = self.sizes(rt);
        drop(first);
        let one = self.sizes(rt);
        drop(second);
        Some([both, one, self.sizes(rt)])
    }

    fn release_under_entry<R: Wait>(&self, rt: &R, key: u64) -> Option<(u64, u64)> {
        let held = self.reserve(rt, 1000)?;
        let entry = self.begin_sync(rt)?;
        drop(held);
        if *entry.get() != key {
            return None;
        }
        Some((key, key))
    }
}

impl Filling for HashIndex<u64, u64> {
    fn add<R: Wait>(&self, rt: &R, key: u64) -> bool {
        self.insert_sync(rt, key, key).is_ok()
    }

    fn sizes<R: Wait>(&self, rt: &R) -> [usize; 3] {
        let range = self.capacity_range();
        [self.capacity(rt), *range.start(), *range.end()]
    }

    fn refuses<R: Wait>(&self, rt: &R, slots: usize) -> bool {
        self.reserve(rt, slots).is_none()
    }
}

impl Reserving for HashIndex<u64, u64> {
    fn hold<R: Wait>(&self, rt: &R, slots: usize, first: u64, end: u64) -> Option<[[usize; 3]; 2]> {
        let Some(held) = self.reserve(rt, slots) else {
            return None;
        };
        let sizes = self.sizes(rt);
        if refuses_and_adds(rt, self, first, end) && held.additional_capacity() == slots {
            Some([sizes, self.sizes(rt)])
        } else {
            None
        }
    }

    fn hold_both<R: Wait>(&self, rt: &R) -> Option<[[usize; 3]; 3]> {
        let Some(first) = self.reserve(rt, 100) else {
            return None;
        };
        let Some(second) = self.reserve(rt, 200) else {
            return None;
        };
        let both = self.sizes(rt);
        drop(first);
        let one = self.sizes(rt);
        drop(second);
        Some([both, one, self.sizes(rt)])
    }

    fn release_under_entry<R: Wait>(&self, rt: &R, key: u64) -> Option<(u64, u64)> {
        let held = self.reserve(rt, 1000)?;
        let mut entry = self.get_sync(rt, &key)?;
        drop(held);
        if entry.update(11).is_err() {
            return None;
        }
        Some((*entry.key(), *entry.get()))
    }
}

/// A container of 1024 slots grows by a reservation, and releases the extra capacity afterwards, also with 16 keys.
fn expect_growth<C: Reserving, R: Abort + Wait>(rt: &R, form: &C) {
    let bare = form.sizes(rt);
    let held = form.hold(rt, 10_000, 0, 16);
    let grown = [16_384, 11_024, GREATEST];
    expect_eq(
        rt,
        (bare, held, form.sizes(rt)),
        (
            [1024, 1024, GREATEST],
            Some([grown, grown]),
            [1024, 1024, GREATEST],
        ),
    );
}

#[test]
fn shared_map_reserve_grows_and_gives_back(rt: HostRuntime) {
    match HashMap::<u64, u64>::with_capacity(rt.alloc(), 800) {
        Ok(map) => expect_growth(&rt, &map),
        Err(_) => expect(&rt, false),
    }
}

#[test]
fn shared_set_reserve_grows_and_gives_back(rt: HostRuntime) {
    match HashSet::<u64>::with_capacity(rt.alloc(), 800) {
        Ok(set) => expect_growth(&rt, &set),
        Err(_) => expect(&rt, false),
    }
}

#[test]
fn shared_index_reserve_grows_and_gives_back(rt: HostRuntime) {
    match HashIndex::<u64, u64>::with_capacity(rt.alloc(), 800) {
        Ok(index) => expect_growth(&rt, &index),
        Err(_) => expect(&rt, false),
    }
}

/// Each of the 16 stripes has a sixteenth of the 1000 slots, rounded up: 63, for which an array of 64 slots is made.
fn expect_first_array<C: Reserving, R: Abort + Wait>(rt: &R, form: &C) {
    let bare = form.sizes(rt);
    let held = form.hold(rt, 1000, 1, 2);
    expect_eq(
        rt,
        (bare, held),
        (
            [0, 0, GREATEST],
            Some([[0, 1000, GREATEST], [64, 1000, GREATEST]]),
        ),
    );
}

#[test]
fn shared_map_reserve_without_array(rt: HostRuntime) {
    match HashMap::<u64, u64>::new(rt.alloc()) {
        Ok(map) => expect_first_array(&rt, &map),
        Err(_) => expect(&rt, false),
    }
}

#[test]
fn shared_set_reserve_without_array(rt: HostRuntime) {
    match HashSet::<u64>::new(rt.alloc()) {
        Ok(set) => expect_first_array(&rt, &set),
        Err(_) => expect(&rt, false),
    }
}

#[test]
fn shared_index_reserve_without_array(rt: HostRuntime) {
    match HashIndex::<u64, u64>::new(rt.alloc()) {
        Ok(index) => expect_first_array(&rt, &index),
        Err(_) => expect(&rt, false),
    }
}

/// While the greatest number of slots is reserved, it can't be reserved again: the sum of both would be 0 in a word.
fn expect_most<C: Reserving, R: Abort + Wait>(rt: &R, form: &C) {
    let held = form.hold(rt, GREATEST, 0, 0);
    expect_eq(
        rt,
        (held, form.sizes(rt)),
        (Some([[0, GREATEST, GREATEST]; 2]), [0, 0, GREATEST]),
    );
}

#[test]
fn shared_map_reserves_the_most_once(rt: HostRuntime) {
    match HashMap::<u64, u64>::new(rt.alloc()) {
        Ok(map) => expect_most(&rt, &map),
        Err(_) => expect(&rt, false),
    }
}

#[test]
fn shared_set_reserves_the_most_once(rt: HostRuntime) {
    match HashSet::<u64>::new(rt.alloc()) {
        Ok(set) => expect_most(&rt, &set),
        Err(_) => expect(&rt, false),
    }
}

#[test]
fn shared_index_reserves_the_most_once(rt: HostRuntime) {
    match HashIndex::<u64, u64>::new(rt.alloc()) {
        Ok(index) => expect_most(&rt, &index),
        Err(_) => expect(&rt, false),
    }
}

/// Two reservations add up, and each releases its own slots.
fn expect_sums<C: Reserving, R: Abort + Wait>(rt: &R, form: &C) {
    let sums = [[0, 300, GREATEST], [0, 200, GREATEST], [0, 0, GREATEST]];
    expect_eq(rt, form.hold_both(rt), Some(sums));
}

#[test]
fn shared_reserves_add_up(rt: HostRuntime) {
    match HashMap::<u64, u64>::new(rt.alloc()) {
        Ok(map) => expect_sums(&rt, &map),
        Err(_) => expect(&rt, false),
    }
}

#[test]
fn shared_set_reserves_add_up(rt: HostRuntime) {
    match HashSet::<u64>::new(rt.alloc()) {
        Ok(set) => expect_sums(&rt, &set),
        Err(_) => expect(&rt, false),
    }
}

#[test]
fn shared_index_reserves_add_up(rt: HostRuntime) {
    match HashIndex::<u64, u64>::new(rt.alloc()) {
        Ok(index) => expect_sums(&rt, &index),
        Err(_) => expect(&rt, false),
    }
}

/// A thread that holds an entry drops a reservation of the same container, and goes on. Then only the array of the
/// key's stripe is left.
fn expect_drop_under_entry<C: Reserving, R: Abort + Wait>(rt: &R, form: &C, value: u64) {
    let is_in = form.add(rt, 1);
    let shown = form.release_under_entry(rt, 1);
    expect_eq(
        rt,
        (is_in, shown, form.sizes(rt)),
        (true, Some((1, value)), [64, 0, GREATEST]),
    );
}

#[test]
fn reserve_drop_under_entry(rt: HostRuntime) {
    match HashMap::<u64, u64>::new(rt.alloc()) {
        Ok(map) => expect_drop_under_entry(&rt, &map, 11),
        Err(_) => expect(&rt, false),
    }
}

#[test]
fn set_reserve_drop_under_entry(rt: HostRuntime) {
    match HashSet::<u64>::new(rt.alloc()) {
        Ok(set) => expect_drop_under_entry(&rt, &set, 1),
        Err(_) => expect(&rt, false),
    }
}

#[test]
fn index_reserve_drop_under_entry(rt: HostRuntime) {
    match HashIndex::<u64, u64>::new(rt.alloc()) {
        Ok(index) => expect_drop_under_entry(&rt, &index, 11),
        Err(_) => expect(&rt, false),
    }
}
