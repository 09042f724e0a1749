// What is left of a reservation that was dropped: a removal gives its slots back, an insertion leaves them, and a first
// array is made without them. The number of a bucket shows the size of an array, and asking for it changes nothing.
use crate::expect::expect_eq;
use crate::kinds::bodies::reserves_and_drops;
use crate::kinds::{Bucketed, HALF, Index, Map, RuledIndex, RuledMap, RuledSet, Set, Threaded};
use scc_common::Verdict;
use std::alloc::Global;
use std::process::Abort;
use std::sync::Wait;

/// A way to remove the only key.
#[derive(Clone, Copy, Debug)]
enum Removal {
    Key,
    KeyIf,
    Entry,
    EntryValue,
    Retain,
    Take,
    Clear,
}

/// A way to add a missing key.
#[derive(Clone, Copy, Debug)]
enum Insertion {
    Insert,
    Upsert,
    Entry,
    Replace,
}

// A container of which slots can be reserved. A kind without a way to add or to remove a key does it by another way.
trait Reserving: Bucketed {
    /// Reserves slots, and drops the reservation again. Returns the bucket of `key` before and between.
    fn reserve_and_drop<R: Wait>(&self, rt: &R, slots: usize, key: u64) -> Option<(usize, usize)>;

    /// Adds a missing key, and returns whether it was added.
    fn insert_by<R: Wait>(&self, rt: &R, way: Insertion, key: u64) -> bool;

    /// Removes the key, which is the only one, and returns whether none is left.
    fn remove_by<R: Wait>(&self, rt: &R, alloc: Global, way: Removal, key: u64) -> bool;
}

macro_rules! upserts {
    ($map:expr, $rt:expr, $way:expr, $key:expr) => {
        match $way {
            Insertion::Insert => $map.insert_sync($rt, $key, $key).is_ok(),
            Insertion::Upsert => $map.upsert_sync($rt, $key, $key).is_ok(),
            Insertion::Entry => $map.entry_sync($rt, $key).or_insert($key).is_ok(),
            Insertion::Replace => $map.entry_sync($rt, $key).insert_entry($key).is_ok(),
        }
    };
}

macro_rules! removes {
    ($map:expr, $rt:expr, $alloc:expr, $way:expr, $key:expr) => {
        match $way {
            Removal::Key => $map.remove_sync($rt, &$key).is_some(),
            Removal::KeyIf => $map.remove_if_sync($rt, &$key, |_| true).is_some(),
            Removal::Entry => match $map.get_sync($rt, &$key) {
                Some(entry) => entry.remove_entry() == ($key, $key),
                None => false,
            },
            Removal::EntryValue => match $map.get_sync($rt, &$key) {
                Some(entry) => entry.remove() == $key,
                None => false,
            },
            Removal::Retain => {
                $map.retain_sync($rt, |_, _| false);
                true
            }
            Removal::Take => {
                let mut taken = Vec::new($alloc);
                $map.iter_mut_sync($rt, |_, _| Verdict::Take, &mut taken) == Ok(true)
            }
            Removal::Clear => {
                $map.clear_sync($rt);
                true
            }
        }
    };
}

macro_rules! inserts_key {
    ($set:expr, $rt:expr, $way:expr, $key:expr) => {
        match $way {
            Insertion::Insert | Insertion::Entry => $set.insert_sync($rt, $key).is_ok(),
            Insertion::Upsert | Insertion::Replace => $set.replace_sync($rt, $key).is_ok(),
        }
    };
}

macro_rules! removes_key {
    ($set:expr, $rt:expr, $way:expr, $key:expr) => {
        match $way {
            Removal::Entry | Removal::EntryValue => match $set.begin_sync($rt) {
                Some(entry) => entry.remove_entry() == $key,
                None => false,
            },
            _ => $set.remove_sync($rt, &$key).is_some(),
        }
    };
}

macro_rules! inserts_version {
    ($index:expr, $rt:expr, $way:expr, $key:expr) => {
        match $way {
            Insertion::Insert | Insertion::Upsert => $index.insert_sync($rt, $key, $key).is_ok(),
            Insertion::Entry | Insertion::Replace => {
                $index.entry_sync($rt, $key).or_insert($key).is_ok()
            }
        }
    };
}

macro_rules! removes_version {
    ($index:expr, $rt:expr, $way:expr, $key:expr) => {
        match $way {
            Removal::Key => $index.remove_sync($rt, &$key),
            Removal::KeyIf => $index.remove_if_sync($rt, &$key, |_| true),
            Removal::Entry | Removal::EntryValue => match $index.get_sync($rt, &$key) {
                Some(entry) => {
                    entry.remove_entry();
                    true
                }
                None => false,
            },
            Removal::Retain | Removal::Take => {
                $index.retain_sync($rt, |_, _| false);
                true
            }
            Removal::Clear => {
                $index.clear_sync($rt);
                true
            }
        }
    };
}

impl Reserving for Map {
    fn reserve_and_drop<R: Wait>(&self, rt: &R, slots: usize, key: u64) -> Option<(usize, usize)> {
        reserves_and_drops!(self, rt, slots, key)
    }

    fn insert_by<R: Wait>(&self, rt: &R, way: Insertion, key: u64) -> bool {
        upserts!(self, rt, way, key)
    }

    fn remove_by<R: Wait>(&self, rt: &R, alloc: Global, way: Removal, key: u64) -> bool {
        removes!(self, rt, alloc, way, key) && self.is_empty(rt)
    }
}

impl Reserving for RuledMap {
    fn reserve_and_drop<R: Wait>(&self, rt: &R, slots: usize, key: u64) -> Option<(usize, usize)> {
        reserves_and_drops!(self, rt, slots, key)
    }

    fn insert_by<R: Wait>(&self, rt: &R, way: Insertion, key: u64) -> bool {
        upserts!(self, rt, way, key)
    }

    fn remove_by<R: Wait>(&self, rt: &R, alloc: Global, way: Removal, key: u64) -> bool {
        removes!(self, rt, alloc, way, key) && self.is_empty(rt)
    }
}

impl Reserving for Set {
    fn reserve_and_drop<R: Wait>(&self, rt: &R, slots: usize, key: u64) -> Option<(usize, usize)> {
        reserves_and_drops!(self, rt, slots, key)
    }

    fn insert_by<R: Wait>(&self, rt: &R, way: Insertion, key: u64) -> bool {
        inserts_key!(self, rt, way, key)
    }

    fn remove_by<R: Wait>(&self, rt: &R, _alloc: Global, way: Removal, key: u64) -> bool {
        removes_key!(self, rt, way, key) && self.is_empty(rt)
    }
}

impl Reserving for RuledSet {
    fn reserve_and_drop<R: Wait>(&self, rt: &R, slots: usize, key: u64) -> Option<(usize, usize)> {
        reserves_and_drops!(self, rt, slots, key)
    }

    fn insert_by<R: Wait>(&self, rt: &R, way: Insertion, key: u64) -> bool {
        inserts_key!(self, rt, way, key)
    }

    fn remove_by<R: Wait>(&self, rt: &R, _alloc: Global, way: Removal, key: u64) -> bool {
        removes_key!(self, rt, way, key) && self.is_empty(rt)
    }
}

impl Reserving for Index {
    fn reserve_and_drop<R: Wait>(&self, rt: &R, slots: usize, key: u64) -> Option<(usize, usize)> {
        reserves_and_drops!(self, rt, slots, key)
    }

    fn insert_by<R: Wait>(&self, rt: &R, way: Insertion, key: u64) -> bool {
        inserts_version!(self, rt, way, key)
    }

    fn remove_by<R: Wait>(&self, rt: &R, _alloc: Global, way: Removal, key: u64) -> bool {
        removes_version!(self, rt, way, key) && self.is_empty(rt)
    }
}

impl Reserving for RuledIndex {
    fn reserve_and_drop<R: Wait>(&self, rt: &R, slots: usize, key: u64) -> Option<(usize, usize)> {
        reserves_and_drops!(self, rt, slots, key)
    }

    fn insert_by<R: Wait>(&self, rt: &R, way: Insertion, key: u64) -> bool {
        inserts_version!(self, rt, way, key)
    }

    fn remove_by<R: Wait>(&self, rt: &R, _alloc: Global, way: Removal, key: u64) -> bool {
        removes_version!(self, rt, way, key) && self.is_empty(rt)
    }
}

const REMOVALS: [Removal; 7] = [
    Removal::Key,
    Removal::KeyIf,
    Removal::Entry,
    Removal::EntryValue,
    Removal::Retain,
    Removal::Take,
    Removal::Clear,
];

/// Inserts a key, reserves 1000 slots and drops the reservation. Returns the buckets of another key at first, under the
/// reservation, and after it was dropped.
fn reserved_and_dropped<C: Reserving, R: Wait>(rt: &R, container: &C) -> Option<[usize; 3]> {
    if !container.insert_by(rt, Insertion::Insert, 1) {
        return None;
    }
    let (before, grown) = container.reserve_and_drop(rt, 1000, HALF)?;
    Some([before, grown, container.bucket(rt, HALF)])
}

/// Returns the buckets of a key at first, under a reservation, after it was dropped, and after the only key was removed.
fn gives_back<C: Reserving, R: Wait>(
    rt: &R,
    alloc: Global,
    container: &C,
    way: Removal,
) -> Option<[usize; 4]> {
    let [before, grown, left] = reserved_and_dropped(rt, container)?;
    if container.remove_by(rt, alloc, way, 1) {
        Some([before, grown, left, container.bucket(rt, HALF)])
    } else {
        None
    }
}

/// Returns what each removal shows of 1000 slots that a container of 64 is to give back.
fn given_back<C: Reserving + Drop, R: Wait>(rt: &R, alloc: Global) -> [Option<[usize; 4]>; 7] {
    let mut found = [None; 7];
    for (way, found) in REMOVALS.iter().zip(found.iter_mut()) {
        *found = match C::make(alloc, 64) {
            Some(made) => gives_back(rt, alloc, &made, *way),
            None => None,
        };
    }
    found
}

const GIVEN_BACK: [Option<[usize; 4]>; 7] = [Some([1, 32, 32, 1]); 7];

#[test]
fn a_removal_gives_back_a_dropped_reservation(rt: HostRuntime) {
    let found = [
        given_back::<Map, _>(&rt, rt.alloc()),
        given_back::<Set, _>(&rt, rt.alloc()),
        given_back::<Index, _>(&rt, rt.alloc()),
        given_back::<RuledMap, _>(&rt, rt.alloc()),
        given_back::<RuledSet, _>(&rt, rt.alloc()),
        given_back::<RuledIndex, _>(&rt, rt.alloc()),
    ];
    expect_eq(&rt, found, [GIVEN_BACK; 6]);
}

const INSERTIONS: [Insertion; 4] = [
    Insertion::Insert,
    Insertion::Upsert,
    Insertion::Entry,
    Insertion::Replace,
];

/// Returns the buckets of a key at first, under a reservation, after it was dropped, and after a second key was added.
fn keeps<C: Reserving, R: Wait>(rt: &R, container: &C, way: Insertion) -> Option<[usize; 4]> {
    let [before, grown, left] = reserved_and_dropped(rt, container)?;
    if container.insert_by(rt, way, 2) {
        Some([before, grown, left, container.bucket(rt, HALF)])
    } else {
        None
    }
}

/// Returns what each insertion shows of 1000 slots that a container of 64 is to keep.
fn kept<C: Reserving + Drop, R: Wait>(rt: &R, alloc: Global) -> [Option<[usize; 4]>; 4] {
    let mut found = [None; 4];
    for (way, found) in INSERTIONS.iter().zip(found.iter_mut()) {
        *found = match C::make(alloc, 64) {
            Some(made) => keeps(rt, &made, *way),
            None => None,
        };
    }
    found
}

const KEPT: [Option<[usize; 4]>; 4] = [Some([1, 32, 32, 32]); 4];

#[test]
fn an_insertion_keeps_a_dropped_reservation(rt: HostRuntime) {
    let found = [
        kept::<Map, _>(&rt, rt.alloc()),
        kept::<Set, _>(&rt, rt.alloc()),
        kept::<Index, _>(&rt, rt.alloc()),
        kept::<RuledMap, _>(&rt, rt.alloc()),
        kept::<RuledSet, _>(&rt, rt.alloc()),
        kept::<RuledIndex, _>(&rt, rt.alloc()),
    ];
    expect_eq(&rt, found, [KEPT; 6]);
}

/// Inserts into the first of 16 stripes after 1024 slots for each were reserved and released. Returns the bucket of the
/// greatest key of this stripe, which is 1 in an array of 64 slots.
fn first_array<C: Reserving, R: Wait>(rt: &R, container: &C, way: Insertion) -> Option<usize> {
    let greatest = !(15 << 60);
    match container.reserve_and_drop(rt, 16 * 1024, greatest) {
        Some((0, 0)) if container.insert_by(rt, way, 1) => Some(container.bucket(rt, greatest)),
        _ => None,
    }
}

/// Returns the buckets by each way to insert.
fn first_arrays<C: Reserving + Drop, R: Wait>(rt: &R, alloc: Global) -> [Option<usize>; 4] {
    let mut found = [None; 4];
    for (way, found) in INSERTIONS.iter().zip(found.iter_mut()) {
        *found = match C::make(alloc, 0) {
            Some(made) => first_array(rt, &made, *way),
            None => None,
        };
    }
    found
}

#[test]
fn a_first_array_forgets_a_dropped_reservation(rt: HostRuntime) {
    let found = [
        first_arrays::<Map, _>(&rt, rt.alloc()),
        first_arrays::<Set, _>(&rt, rt.alloc()),
        first_arrays::<Index, _>(&rt, rt.alloc()),
        first_arrays::<RuledMap, _>(&rt, rt.alloc()),
        first_arrays::<RuledSet, _>(&rt, rt.alloc()),
        first_arrays::<RuledIndex, _>(&rt, rt.alloc()),
    ];
    expect_eq(&rt, found, [[Some(1); 4]; 6]);
}
