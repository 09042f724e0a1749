// Whole containers: comparisons beside a writer and in both ways at once, clones, and containers made of items.
use crate::expect::expect_eq;
use crate::kinds::{
    Cache, Index, MOST, Map, Passing, RuledCache, RuledIndex, RuledMap, RuledSet, Set, Threaded,
};
use crate::trials::{Trial, holds_in, holds_in_each};
use std::alloc::Global;
use std::process::Abort;
use std::sync::Wait;
use std::thread::{Threads, join};

const KEYS: u64 = 100;

const ROUNDS: u64 = 200;

/// One of the keys.
const FIFTH: u64 = (5 << 57) | 5;

/// Slots for two stripes.
const SLOTS: usize = 512;

/// Adds a hundred keys in all stripes, and returns whether each was added.
fn fills<C: Threaded, R: Wait>(rt: &R, container: &C) -> bool {
    let mut right = true;
    for key in 0..KEYS {
        right = container.add(rt, (key << 57) | key) && right;
    }
    right
}

/// Returns a container with these keys, or `None` if memory is refused.
fn filled<C: Threaded + Drop, R: Wait>(rt: &R, alloc: Global) -> Option<C> {
    match C::make(alloc, SLOTS) {
        Some(made) if fills(rt, &made) => Some(made),
        _ => None,
    }
}

fn compares<C: Threaded, R: Wait>(rt: &R, one: &C, other: &C) -> bool {
    let mut same = true;
    for _ in 0..ROUNDS {
        same = one.equals(rt, other) && same;
    }
    same
}

fn writes<C: Threaded, R: Wait>(rt: &R, container: &C) -> bool {
    let mut there = true;
    for round in 0..ROUNDS {
        for key in 0..KEYS {
            there = container.rewrite(rt, (key << 57) | key, round) && there;
        }
    }
    there
}

/// Returns whether a container equals itself each time, also beside a writer.
pub(crate) fn is_itself<C: Threaded + Sync, R: Threads + Wait + Sync>(
    rt: &R,
    container: &C,
) -> bool {
    let before = fills(rt, container) && container.equals(rt, container);
    let (compared, wrote) = join(
        rt,
        || compares(rt, container, container),
        || writes(rt, container),
    );
    before && compared && wrote
}

#[test]
fn equals_itself_beside_a_writer(rt: HostRuntime) {
    let right = holds_in_each(&rt, rt.alloc(), Trial::EqualsItself);
    expect_eq(&rt, right, [true; 8]);
}

/// Compares in both ways at once while keys of both containers come and go. A comparison may return anything, and must
/// end. Returns whether each key came and went.
fn compares_and_moves<C: Threaded, R: Wait>(rt: &R, one: &C, other: &C) -> bool {
    let mut moved = true;
    for key in 0..ROUNDS {
        let _same = one.equals(rt, other);
        moved = one.add(rt, (key << 57) | KEYS) && moved;
        let _same = other.equals(rt, one);
        moved = one.take(rt, (key << 57) | KEYS) && moved;
    }
    moved
}

/// Returns whether two containers that two threads compare with one another come to an end, and are equal then.
fn compare_both_ways<C: Threaded + Sync, R: Threads + Wait + Sync>(
    rt: &R,
    one: &C,
    other: &C,
) -> bool {
    let (first, second) = join(
        rt,
        || compares_and_moves(rt, one, other),
        || compares_and_moves(rt, other, one),
    );
    first && second && one.equals(rt, other) && other.equals(rt, one)
}

/// Fills an empty container, and compares it with an equal one.
pub(crate) fn compares_both_ways<C: Threaded + Sync + Drop, R: Threads + Wait + Sync>(
    rt: &R,
    alloc: Global,
    container: &C,
) -> bool {
    match filled::<C, R>(rt, alloc) {
        Some(other) => fills(rt, container) && compare_both_ways(rt, container, &other),
        None => false,
    }
}

#[test]
fn comparisons_in_opposite_ways_end(rt: HostRuntime) {
    let right = holds_in_each(&rt, rt.alloc(), Trial::BothWays);
    expect_eq(&rt, right, [true; 8]);
}

/// Returns whether a container differs from its equal, looked at from either side.
fn differ<C: Threaded, R: Wait>(rt: &R, one: &C, other: &C) -> bool {
    !one.equals(rt, other) && !other.equals(rt, one)
}

/// Returns whether a container equals its equal, differs from it while a value is another, and as soon as it lacks a
/// key. Only a set has no values.
fn differs<C: Threaded, R: Wait>(rt: &R, one: &C, other: &C, has_values: bool) -> bool {
    let same = one.equals(rt, other) && other.equals(rt, one);
    let written = one.rewrite(rt, FIFTH, 8) && differ(rt, one, other) == has_values;
    let again = one.rewrite(rt, FIFTH, FIFTH) && one.equals(rt, other);
    let gone = one.take(rt, 0);
    same && written && again && gone && differ(rt, one, other)
}

/// Fills an empty container. Returns whether it equals its clone and differs from it as it must.
pub(crate) fn equals_its_copy<C: Threaded + Drop, R: Wait>(
    rt: &R,
    container: &C,
    has_values: bool,
) -> bool {
    if !fills(rt, container) {
        return false;
    }
    match container.copied(rt) {
        Some(copy) => differs(rt, &copy, container, has_values),
        None => false,
    }
}

#[test]
fn shared_clones_equal(rt: HostRuntime) {
    let right = [
        holds_in::<Map, _>(&rt, rt.alloc(), Trial::Copy(true)),
        holds_in::<Set, _>(&rt, rt.alloc(), Trial::Copy(false)),
        holds_in::<Index, _>(&rt, rt.alloc(), Trial::Copy(true)),
        holds_in::<RuledMap, _>(&rt, rt.alloc(), Trial::Copy(true)),
        holds_in::<RuledSet, _>(&rt, rt.alloc(), Trial::Copy(false)),
        holds_in::<RuledIndex, _>(&rt, rt.alloc(), Trial::Copy(true)),
    ];
    expect_eq(&rt, right, [true; 6]);
}

/// Returns the slots of a container with a hundred keys, and those of its clone.
fn slots_of_copy<C: Threaded + Drop, R: Wait>(rt: &R, alloc: Global) -> Option<[[usize; 3]; 2]> {
    let made = filled::<C, R>(rt, alloc)?;
    let copy = made.copied(rt)?;
    Some([made.slots(rt), copy.slots(rt)])
}

#[test]
fn shared_clones_have_their_slots(rt: HostRuntime) {
    let found = [
        slots_of_copy::<Map, _>(&rt, rt.alloc()),
        slots_of_copy::<Set, _>(&rt, rt.alloc()),
        slots_of_copy::<Index, _>(&rt, rt.alloc()),
        slots_of_copy::<RuledMap, _>(&rt, rt.alloc()),
        slots_of_copy::<RuledSet, _>(&rt, rt.alloc()),
        slots_of_copy::<RuledIndex, _>(&rt, rt.alloc()),
    ];
    expect_eq(&rt, found, [Some([[SLOTS, SLOTS, 1 << 63]; 2]); 6]);
}

/// Returns the slots of a container with a hundred keys.
fn slots_of<C: Threaded + Drop, R: Wait>(rt: &R, alloc: Global) -> Option<[usize; 3]> {
    let made = filled::<C, R>(rt, alloc)?;
    Some(made.slots(rt))
}

#[test]
fn shared_caches_tell_their_slots(rt: HostRuntime) {
    let found = [
        slots_of::<Cache, _>(&rt, rt.alloc()),
        slots_of::<RuledCache, _>(&rt, rt.alloc()),
    ];
    expect_eq(&rt, found, [Some([SLOTS, SLOTS, MOST]); 2]);
}

/// Uses some keys, which are then the most recent ones of a cache.
fn refreshes<C: Threaded, R: Wait>(rt: &R, container: &C) {
    for key in 0..KEYS {
        let _there = container.at_entry(rt, (key % 3) << 57 | key % 3, &mut Passing);
    }
}

/// Fills an empty container. Returns whether it equals another one with recent keys of its own, and differs from it as
/// it must.
pub(crate) fn equals_refreshed<C: Threaded + Drop, R: Wait>(
    rt: &R,
    alloc: Global,
    container: &C,
) -> bool {
    match filled::<C, R>(rt, alloc) {
        Some(other) => {
            refreshes(rt, &other);
            fills(rt, container) && differs(rt, container, &other, true)
        }
        None => false,
    }
}

/// The order in which pairs were used plays no part in the comparison of caches.
#[test]
fn shared_cache_equality_ignores_recency(rt: HostRuntime) {
    let right = [
        holds_in::<Cache, _>(&rt, rt.alloc(), Trial::Refreshed),
        holds_in::<RuledCache, _>(&rt, rt.alloc(), Trial::Refreshed),
    ];
    expect_eq(&rt, right, [true; 2]);
}

/// Fills an empty container with the keys 1 and 2 and the values `value` and 30. Returns whether it has them.
fn fills_two<C: Threaded, R: Wait>(rt: &R, container: &C, value: u64) -> bool {
    let first = container.add(rt, 1);
    let second = container.add(rt, 2);
    let written = container.rewrite(rt, 1, value) && container.rewrite(rt, 2, 30);
    first && second && written
}

/// Makes a container of two pairs with the key 1 and one with the key 2. Returns whether it has the keys, the first with
/// `value`, and its slots, or `None` if it can't be made.
fn collected<C: Threaded + Drop, R: Wait>(
    rt: &R,
    alloc: Global,
    value: u64,
) -> Option<(bool, [usize; 3])> {
    let made = C::collected(rt, alloc, [(1, 10), (1, 20), (2, 30)])?;
    let wanted = C::make(alloc, 64)?;
    let is_right = fills_two(rt, &wanted, value) && made.equals(rt, &wanted);
    Some((is_right, made.slots(rt)))
}

/// The last value of equal keys stays in a map, and the first in all others.
#[test]
fn shared_containers_of_items_have_each_key_once(rt: HostRuntime) {
    let found = [
        collected::<Map, _>(&rt, rt.alloc(), 20),
        collected::<Set, _>(&rt, rt.alloc(), 10),
        collected::<Index, _>(&rt, rt.alloc(), 10),
        collected::<RuledMap, _>(&rt, rt.alloc(), 20),
        collected::<RuledSet, _>(&rt, rt.alloc(), 10),
        collected::<RuledIndex, _>(&rt, rt.alloc(), 10),
    ];
    expect_eq(&rt, found, [Some((true, [64, 64, 1 << 63])); 6]);
    let found = [
        collected::<Cache, _>(&rt, rt.alloc(), 10),
        collected::<RuledCache, _>(&rt, rt.alloc(), 10),
    ];
    expect_eq(&rt, found, [Some((true, [64; 3])); 2]);
}
