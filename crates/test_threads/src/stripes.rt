// Which stripe and which bucket a key has, whether a bucket has room, how a stripe grows, the order of stripes in a
// walk, and the stripe that an entry tells. Under `SAME` the highest bits of a key name its stripe, and the bits after
// them its bucket.
use crate::expect::expect_eq;
use crate::kinds::{
    Bucketed, Cache, Index, Map, RuledIndex, RuledMap, RuledSet, Set, Threaded, Visit, Way,
};
use crate::trials::{Trial, holds_in_each};
use scc_owned::index::locked::Entry as IndexEntry;
use scc_owned::map::locked::Entry as MapEntry;
use scc_owned_cache::locked::Entry as CacheEntry;
use std::alloc::Global;
use std::process::Abort;
use std::sync::Wait;
use test_kit::masked::SAME;

/// Slots for four stripes of two buckets each.
const SLOTS: usize = 256;

/// Returns the buckets of the least keys of the last stripe whose third bit is 0 and 1. The first two bits of both are
/// 1, and name the stripe alone.
fn buckets_of_last<C: Bucketed + Drop, R: Wait>(rt: &R, alloc: Global) -> Option<[usize; 2]> {
    match C::make(alloc, SLOTS) {
        Some(made) => Some([made.bucket(rt, 6 << 61), made.bucket(rt, 7 << 61)]),
        None => None,
    }
}

#[test]
fn a_stripe_skips_the_bits_that_name_it(rt: HostRuntime) {
    let found = [
        buckets_of_last::<Map, _>(&rt, rt.alloc()),
        buckets_of_last::<Set, _>(&rt, rt.alloc()),
        buckets_of_last::<Index, _>(&rt, rt.alloc()),
        buckets_of_last::<RuledMap, _>(&rt, rt.alloc()),
        buckets_of_last::<RuledSet, _>(&rt, rt.alloc()),
        buckets_of_last::<RuledIndex, _>(&rt, rt.alloc()),
    ];
    expect_eq(&rt, found, [Some([0, 1]); 6]);
}

/// Puts 64 keys into the last of four stripes, half of them into each of its two buckets. Returns how many are there
/// then.
fn fills_last<R: Wait>(rt: &R, alloc: Global) -> Option<usize> {
    let Ok(cache) = Cache::with_capacity_and_hasher(alloc, SLOTS, SLOTS, SAME) else {
        return None;
    };
    for number in 0..64u64 {
        if !cache.add(rt, (6 << 61) | ((number % 2) << 61) | number) {
            return None;
        }
    }
    Some(cache.len(rt))
}

#[test]
fn a_stripe_of_a_cache_uses_all_its_buckets(rt: HostRuntime) {
    expect_eq(&rt, fills_last(&rt, rt.alloc()), Some(64));
}

/// Adds a hundred keys to the first of 16 stripes without arrays, evenly to all buckets. Returns whether each was added,
/// all are there, and the array has grown.
pub(crate) fn grows<C: Threaded, R: Wait>(rt: &R, container: &C) -> bool {
    let mut added = true;
    for number in 0..100u64 {
        added = container.add(rt, (number * 37 % 128) << 53) && added;
    }
    added && container.count(rt) == 100 && container.slots(rt)[0] >= 128
}

#[test]
fn a_stripe_grows_until_it_has_room(rt: HostRuntime) {
    let right = holds_in_each(&rt, rt.alloc(), Trial::Grows);
    expect_eq(&rt, right, [true; 8]);
}

// A container that tells whether the bucket of a key has room.
trait Roomy: Threaded {
    /// Returns whether the bucket of the key has room.
    fn room<R: Wait>(&self, rt: &R, key: u64) -> bool;
}

impl Roomy for Map {
    fn room<R: Wait>(&self, rt: &R, key: u64) -> bool {
        self.has_room(rt, &key)
    }
}

impl Roomy for Set {
    fn room<R: Wait>(&self, rt: &R, key: u64) -> bool {
        self.has_room(rt, &key)
    }
}

impl Roomy for RuledMap {
    fn room<R: Wait>(&self, rt: &R, key: u64) -> bool {
        self.has_room(rt, &key)
    }
}

impl Roomy for RuledSet {
    fn room<R: Wait>(&self, rt: &R, key: u64) -> bool {
        self.has_room(rt, &key)
    }
}

impl Roomy for RuledIndex {
    fn room<R: Wait>(&self, rt: &R, key: u64) -> bool {
        self.has_room(rt, &key)
    }
}

/// Returns whether there is room before an array is made, with one pair in the bucket, and with all of its 32 slots
/// taken.
fn rooms<C: Roomy + Drop, R: Wait>(rt: &R, alloc: Global) -> Option<[bool; 3]> {
    let made = C::make(alloc, 0)?;
    let mut found = [made.room(rt, 0), false, false];
    for number in 0..32u64 {
        if !made.add(rt, number) {
            return None;
        }
        found[1] = found[1] || (number == 0 && made.room(rt, 0));
    }
    found[2] = made.room(rt, 0);
    Some(found)
}

#[test]
fn a_full_bucket_has_no_room(rt: HostRuntime) {
    let found = [
        rooms::<Map, _>(&rt, rt.alloc()),
        rooms::<Set, _>(&rt, rt.alloc()),
        rooms::<RuledMap, _>(&rt, rt.alloc()),
        rooms::<RuledSet, _>(&rt, rt.alloc()),
        rooms::<RuledIndex, _>(&rt, rt.alloc()),
    ];
    expect_eq(&rt, found, [Some([false, true, false]); 5]);
}

// Compares each key with the least key of the next stripe.
#[derive(Drop)]
struct InOrder {
    next: u64,
    right: bool,
}

impl Visit for InOrder {
    fn meet(&mut self, key: u64) {
        self.right = self.right && self.next < 16 && key == self.next << 60;
        self.next = self.next.saturating_add(1);
    }
}

/// Adds the least key of each of 16 stripes, the last first. Returns whether each was added.
fn fills_each<C: Threaded, R: Wait>(rt: &R, container: &C) -> bool {
    let mut right = true;
    for number in 0..16u64 {
        right = container.add(rt, (15 - number) << 60) && right;
    }
    right
}

/// Returns whether this way over all keys goes from each stripe to the next, from the first to the last.
pub(crate) fn goes_in_order<C: Threaded, R: Wait>(
    rt: &R,
    alloc: Global,
    container: &C,
    way: Way,
) -> bool {
    let mut order = InOrder {
        next: 0,
        right: true,
    };
    fills_each(rt, container)
        && container.go_over(rt, alloc, way, &mut order)
        && order.right
        && order.next == 16
}

/// The ways over all keys that go from stripe to stripe. A kind without entries walks instead of the last two.
const WAYS: [Way; 6] = [
    Way::Walk,
    Way::Keep,
    Way::Take,
    Way::Ask,
    Way::Next,
    Way::Remove,
];

#[test]
fn every_way_goes_from_stripe_to_stripe(rt: HostRuntime) {
    for way in WAYS {
        let right = holds_in_each(&rt, rt.alloc(), Trial::InOrder(way));
        expect_eq(&rt, right, [true; 8]);
    }
}

// A container whose entries tell their stripe.
trait Telling: Threaded {
    /// Returns the stripe that the container names for a missing key, the stripe that its vacant entry tells, and after
    /// the key was added the stripe that its occupied entry tells. A set has no vacant entry.
    fn told<R: Wait>(&self, rt: &R, key: u64) -> Option<[usize; 3]>;
}

impl Telling for Map {
    fn told<R: Wait>(&self, rt: &R, key: u64) -> Option<[usize; 3]> {
        let vacant = match self.entry_sync(rt, key) {
            MapEntry::Vacant(entry) => entry.stripe(),
            MapEntry::Occupied(_entry) => return None,
        };
        if !self.add(rt, key) {
            return None;
        }
        match self.get_sync(rt, &key) {
            Some(entry) => Some([self.stripe_of(&key), vacant, entry.stripe()]),
            None => None,
        }
    }
}

impl Telling for Set {
    fn told<R: Wait>(&self, rt: &R, key: u64) -> Option<[usize; 3]> {
        let named = self.stripe_of(&key);
        if !self.add(rt, key) {
            return None;
        }
        match self.any_sync(rt, |other| *other == key) {
            Some(entry) => Some([named, named, entry.stripe()]),
            None => None,
        }
    }
}

impl Telling for Index {
    fn told<R: Wait>(&self, rt: &R, key: u64) -> Option<[usize; 3]> {
        let vacant = match self.entry_sync(rt, key) {
            IndexEntry::Vacant(entry) => entry.stripe(),
            IndexEntry::Occupied(_entry) => return None,
        };
        if !self.add(rt, key) {
            return None;
        }
        match self.get_sync(rt, &key) {
            Some(entry) => Some([self.stripe_of(&key), vacant, entry.stripe()]),
            None => None,
        }
    }
}

impl Telling for Cache {
    fn told<R: Wait>(&self, rt: &R, key: u64) -> Option<[usize; 3]> {
        let vacant = match self.entry_sync(rt, key) {
            CacheEntry::Vacant(entry) => entry.stripe(),
            CacheEntry::Occupied(_entry) => return None,
        };
        if !self.add(rt, key) {
            return None;
        }
        match self.get_sync(rt, &key) {
            Some(entry) => Some([self.stripe_of(&key), vacant, entry.stripe()]),
            None => None,
        }
    }
}

/// Returns what is told of a key of the first, the tenth and the last of 16 stripes.
fn told_of_three<C: Telling + Drop, R: Wait>(
    rt: &R,
    alloc: Global,
) -> Option<[Option<[usize; 3]>; 3]> {
    match C::make(alloc, 1024) {
        Some(made) => Some([
            made.told(rt, 1),
            made.told(rt, 9 << 60),
            made.told(rt, u64::MAX),
        ]),
        None => None,
    }
}

#[test]
fn an_entry_tells_its_stripe(rt: HostRuntime) {
    let told = [
        told_of_three::<Map, _>(&rt, rt.alloc()),
        told_of_three::<Set, _>(&rt, rt.alloc()),
        told_of_three::<Index, _>(&rt, rt.alloc()),
        told_of_three::<Cache, _>(&rt, rt.alloc()),
    ];
    let wanted = Some([Some([0; 3]), Some([9; 3]), Some([15; 3])]);
    expect_eq(&rt, told, [wanted; 4]);
}
