// Whole containers: the sizes at making, clones, comparisons, and steps from entry to entry.
use crate::expect::{expect, expect_eq};
use crate::rows::{Call, expect_sizes};
use scc::{hash_index, hash_map, hash_set};
use std::alloc::Global;
use std::process::Abort;
use test_forms::answers::Answer;
use test_forms::form::Form;
use test_forms::numbered::Seen;
use test_kit::masked::ZERO;
use test_kit::maybe_equal::MaybeEqual;
use test_kit::zero::Zero;

// The number of slots that a test asks for, and the capacity that it gets.
const CAPACITIES: [(usize, usize); 6] = [
    (0, 0),
    (1, 64),
    (64, 64),
    (65, 128),
    (800, 1024),
    (1 << 21, 1 << 21),
];

/// Returns the length and the capacity of a map made for `slots` slots, or `None` if it is refused.
fn sizes_of_map(alloc: Global, slots: usize) -> Option<(usize, usize)> {
    match hash_map::Owned::<u64, u64>::with_capacity(alloc, slots) {
        Ok(map) => Some((map.len(), map.capacity())),
        Err(_) => None,
    }
}

#[test]
fn map_with_capacity_rounds_up(rt: HostRuntime) {
    for (asked, capacity) in CAPACITIES {
        expect_eq(&rt, sizes_of_map(rt.alloc(), asked), Some((0, capacity)));
    }
    expect_eq(&rt, sizes_of_map(rt.alloc(), usize::MAX), None);
}

/// Returns the length and the capacity of an index made for `slots` slots, or `None` if it is refused.
fn sizes_of_index(alloc: Global, slots: usize) -> Option<(usize, usize)> {
    match hash_index::Owned::<u64, u64>::with_capacity(alloc, slots) {
        Ok(index) => Some((index.len(), index.capacity())),
        Err(_) => None,
    }
}

#[test]
fn index_with_capacity_rounds_up(rt: HostRuntime) {
    for (asked, capacity) in CAPACITIES {
        expect_eq(&rt, sizes_of_index(rt.alloc(), asked), Some((0, capacity)));
    }
    expect_eq(&rt, sizes_of_index(rt.alloc(), usize::MAX), None);
}

/// Returns whether a clone equals the map, the clone's capacity, and the number of its waiting buckets. Returns `None`
/// if the clone is refused.
fn clone_of(map: &Map) -> Option<(bool, usize, usize)> {
    match map.try_clone() {
        Ok(copy) => Some((copy == *map, copy.capacity(), copy.pending())),
        Err(_) => None,
    }
}

/// Inserts the keys from `first` on and before `end`. Returns whether each went in.
fn fill(map: &mut Map, first: u64, end: u64) -> bool {
    for key in first..end {
        if map.insert_sync(key, key).is_err() {
            return false;
        }
    }
    true
}

/// A clone has the pairs and the capacity of its map, and no waiting bucket.
#[test]
fn map_clone_has_nothing_pending(rt: HostRuntime) {
    let mut map = hash_map::Owned::with_hasher(rt.alloc(), Zero);
    let is_filled = fill(&mut map, 0, 33);
    let sizes = (map.len(), map.capacity(), map.pending());
    expect_eq(
        &rt,
        (is_filled, sizes, clone_of(&map), map.pending()),
        (true, (33, 128, 2), Some((true, 128, 0)), 2),
    );
}

/// Reserves 100 slots and clones the map. Returns the clone's capacity and both ends of its range.
fn clone_reserved(map: &mut hash_map::Owned<u64, u64>) -> Option<[usize; 3]> {
    if map.reserve(100).is_none() {
        return None;
    }
    match map.try_clone() {
        Ok(copy) => {
            let range = copy.capacity_range();
            Some([copy.capacity(), *range.start(), *range.end()])
        }
        Err(_) => None,
    }
}

/// A clone doesn't get the reserved slots.
#[test]
fn map_clone_without_array_has_none(rt: HostRuntime) {
    let sizes = clone_reserved(&mut hash_map::Owned::new(rt.alloc()));
    expect_eq(&rt, sizes, Some([0, 0, 1 << 63]));
}

type Map = hash_map::Owned<u64, u64, Zero>;

/// Returns whether `a` equals `b`, and whether `b` equals `a`.
fn equal(a: &Map, b: &Map) -> (bool, bool) {
    (*a == *b, *b == *a)
}

/// Compares two empty maps, and again after each step on the way to the same pairs in both. Returns the comparisons,
/// and whether each step succeeds.
fn compare(a: &mut Map, b: &mut Map) -> ([(bool, bool); 5], bool) {
    let bare = equal(a, b);
    let first = a.insert_sync(1, 10).is_ok();
    let one = equal(a, b);
    let second = b.insert_sync(2, 20).is_ok() && b.insert_sync(1, 10).is_ok();
    let two = equal(a, b);
    let third = a.insert_sync(2, 21).is_ok();
    let other = equal(a, b);
    let fourth = a.upsert_sync(2, 20).is_ok();
    let all = first && second && third && fourth;
    ([bare, one, two, other, equal(a, b)], all)
}

#[test]
fn map_equality_looks_both_ways(rt: HostRuntime) {
    let mut a = hash_map::Owned::with_hasher(rt.alloc(), Zero);
    let mut b = hash_map::Owned::with_hasher(rt.alloc(), Zero);
    let (same, other) = ((true, true), (false, false));
    expect_eq(
        &rt,
        compare(&mut a, &mut b),
        ([same, other, other, other, same], true),
    );
}

type Keys = hash_set::Owned<u64>;

/// Compares two sets, inserts a key into the first, and compares again. Returns whether they are equal, whether the
/// key goes in, and whether the sets then differ.
fn compare_keys(a: &mut Keys, b: &Keys) -> [bool; 3] {
    let before = *a == *b;
    [before, a.insert_sync(4).is_ok(), *a != *b]
}

#[test]
fn set_equality_looks_at_keys(rt: HostRuntime) {
    match Keys::try_from_iter(rt.alloc(), [3, 1, 2]) {
        Ok(mut a) => match Keys::try_from_iter(rt.alloc(), [1, 2, 3, 3]) {
            Ok(b) => expect_eq(&rt, compare_keys(&mut a, &b), [true; 3]),
            Err(_) => expect(&rt, false),
        },
        Err(_) => expect(&rt, false),
    }
}

/// A set made of items keeps the first of equal keys.
#[test]
fn set_of_items_keeps_the_first_key(rt: HostRuntime) {
    match hash_set::Owned::try_from_iter(rt.alloc(), [MaybeEqual(5, 1), MaybeEqual(5, 2)]) {
        Ok(set) => expect_first_mark(&rt, &set),
        Err(_) => expect(&rt, false),
    }
}

fn expect_first_mark<R: Abort>(rt: &R, set: &hash_set::Owned<MaybeEqual>) {
    expect_eq(rt, set.read_sync(&MaybeEqual(5, 9), |key| key.1), Some(1));
}

/// Steps from entry to entry, and steps that remove each pair, meet the pairs of a walk in its order.
fn expect_steps<R: AllocGlobal + Abort, F: Form>(rt: &R, form: &mut F) {
    expect_sizes(rt, form, &[(Call::Fill(0, 40), (40, 128, 0))]);
    let mut walked = Vec::new(rt.alloc());
    expect(rt, form.collect(&mut walked));
    expect_same_steps(rt, form, walked.as_slice());
    expect_same_drain(rt, form, walked.as_slice());
    let sizes = form.sizes();
    expect_eq(rt, (walked.len(), sizes.len, sizes.capacity), (40, 0, 128));
}

fn expect_same_steps<R: AllocGlobal + Abort, F: Form>(rt: &R, form: &mut F, walked: &[Seen]) {
    let mut stepped = Vec::new(rt.alloc());
    let answer = form.step(64, &mut stepped);
    expect_eq(
        rt,
        (answer, stepped.as_slice()),
        (Answer::Yes(true), walked),
    );
}

fn expect_same_drain<R: AllocGlobal + Abort, F: Form>(rt: &R, form: &mut F, walked: &[Seen]) {
    let mut drained = Vec::new(rt.alloc());
    let answer = form.drain(64, &mut drained);
    expect_eq(
        rt,
        (answer, drained.as_slice()),
        (Answer::Yes(true), walked),
    );
}

#[test]
fn map_steps_from_entry_to_entry(rt: HostRuntime) {
    expect_steps(&rt, &mut hash_map::Owned::with_hasher(rt.alloc(), ZERO));
}

#[test]
fn set_steps_from_entry_to_entry(rt: HostRuntime) {
    expect_steps(&rt, &mut hash_set::Owned::with_hasher(rt.alloc(), ZERO));
}

#[test]
fn index_steps_from_entry_to_entry(rt: HostRuntime) {
    expect_steps(&rt, &mut hash_index::Owned::with_hasher(rt.alloc(), ZERO));
}

/// A snapshot has each version once.
fn expect_snapshot<R: AllocGlobal + Abort, F: Form>(rt: &R, form: &mut F) {
    expect_sizes(rt, form, &[(Call::Fill(0, 40), (40, 128, 0))]);
    let mut walked = Vec::new(rt.alloc());
    let mut met = Vec::new(rt.alloc());
    expect(
        rt,
        form.collect(&mut walked) && form.snapshot(&mut met) == Answer::Yes(true),
    );
    expect_eq(rt, (met.as_slice(), met.len()), (walked.as_slice(), 40));
}

#[test]
fn index_snapshot_has_each_version(rt: HostRuntime) {
    expect_snapshot(&rt, &mut hash_index::Owned::with_hasher(rt.alloc(), ZERO));
}

/// A snapshot that has come to its end has a clone, which has come to it too.
#[test]
fn index_snapshot_is_cloned_at_its_end(rt: HostRuntime) {
    let mut index: hash_index::Owned<u64, u64> = hash_index::Owned::new(rt.alloc());
    expect(&rt, index.insert_sync(1, 2).is_ok());
    match index.iter() {
        Ok(mut versions) => {
            expect(&rt, versions.next().is_some());
            match versions.try_clone() {
                Ok(mut copy) => expect(&rt, copy.next().is_none()),
                Err(_) => expect(&rt, false),
            }
        }
        Err(_) => expect(&rt, false),
    }
}
