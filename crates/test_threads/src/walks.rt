// Walks of every way beside two threads that write: each of a hundred keys that nobody touches is met once, while
// other keys come and go, and arrays grow and shrink.
use crate::expect::expect_eq;
use crate::kinds::{Index, Map, RuledIndex, RuledMap, RuledSet, Set, Threaded, Visit, Way};
use crate::trials::{Trial, holds_in, holds_in_each};
use std::alloc::Global;
use std::process::Abort;
use std::sync::Wait;
use std::thread::{Threads, map_indices};
use test_kit::flags::{Flags, height, raise};

/// The number of keys that nobody touches.
const KEPT: usize = 100;

/// How often a writer goes over its keys.
const ROUNDS: u64 = 20;

/// The least number of walks of each way.
const LEAST: u64 = 10;

/// The greatest number of walks of each way.
const MOST: u64 = 100_000;

/// Slots for 16 stripes of 8 buckets.
const SLOTS: usize = 4096;

const WAYS: [Way; 7] = [
    Way::Walk,
    Way::Keep,
    Way::Take,
    Way::Ask,
    Way::Next,
    Way::Copy,
    Way::Snapshot,
];

// How often each kept key was met.
#[derive(Drop)]
struct Met {
    times: [u64; KEPT],
}

impl Visit for Met {
    fn meet(&mut self, key: u64) {
        let number = key % (1 << 57);
        if number < 1 << 32 {
            if let Some(times) = self.times.get_mut(number as usize) {
                *times = times.saturating_add(1);
            }
        }
    }
}

/// Returns a key that nobody touches, in the first bucket of one of the stripes.
fn kept_key(number: u64) -> u64 {
    (number << 60) | number
}

/// Returns a key of a writer, in another bucket of one of the stripes, so that a cache of this size has room for all
/// keys.
fn moved_key(writer: u64, number: u64) -> u64 {
    let bucket = (number % 7).wrapping_add(1);
    (number << 60) | (bucket << 57) | (writer << 32) | number
}

/// Adds the keys of a writer in one round and removes them in the next. Returns whether each call did so.
fn come_and_go<C: Threaded, R: Wait>(rt: &R, container: &C, writer: u64, moved: u64) -> bool {
    let mut done = true;
    for round in 0..ROUNDS {
        for number in 0..moved {
            let key = moved_key(writer, number);
            let went = if round % 2 == 0 {
                container.add(rt, key)
            } else {
                container.take(rt, key)
            };
            done = done && went;
        }
    }
    done
}

/// Returns whether a walk meets each of the kept keys once.
fn meets_each_once<C: Threaded, R: Wait>(rt: &R, alloc: Global, container: &C, way: Way) -> bool {
    let mut met = Met { times: [0; KEPT] };
    container.go_over(rt, alloc, way, &mut met) && met.times == [1; KEPT]
}

/// Walks one way after another until both writers have ended. Returns whether each walk met each kept key once.
fn walk_often<C: Threaded, R: Wait>(rt: &R, alloc: Global, container: &C, ended: &Flags) -> bool {
    let mut once = true;
    for walks in 0..MOST {
        if walks >= LEAST && height(&ended.first) == 2 {
            break;
        }
        for way in WAYS {
            once = meets_each_once(rt, alloc, container, way) && once;
        }
    }
    once
}

/// Plays the part of one of three threads: the first walks, and the others write.
fn work<C: Threaded, R: Wait>(
    rt: &R,
    alloc: Global,
    container: &C,
    ended: &Flags,
    thread: usize,
    moved: u64,
) -> bool {
    if thread == 0 {
        return walk_often(rt, alloc, container, ended);
    }
    let done = come_and_go(rt, container, thread as u64, moved);
    raise(&ended.first);
    done
}

/// Adds the keys that nobody touches, and returns whether each was added.
fn fills<C: Threaded, R: Wait>(rt: &R, container: &C) -> bool {
    let mut filled = true;
    for number in 0..KEPT {
        filled = container.add(rt, kept_key(number as u64)) && filled;
    }
    filled
}

/// Returns whether all walks are right beside writers of `moved` keys, and only the kept keys are left.
pub(crate) fn walks_beside<C: Threaded + Sync, R: Threads + Wait + Sync>(
    rt: &R,
    alloc: Global,
    container: &C,
    moved: u64,
) -> bool {
    if !fills(rt, container) {
        return false;
    }
    let ended = Flags::new();
    match map_indices(
        rt,
        alloc,
        3,
        &|thread| work(rt, alloc, container, &ended, thread, moved),
    ) {
        Ok(told) => told.as_slice() == [true; 3].as_slice() && container.count(rt) == KEPT,
        Err(_) => false,
    }
}

#[test]
fn walks_meet_untouched_keys_once(rt: HostRuntime) {
    let right = holds_in_each(&rt, rt.alloc(), Trial::Walks(100, SLOTS));
    expect_eq(&rt, right, [true; 8]);
}

#[test]
fn walks_meet_untouched_keys_once_beside_growth(rt: HostRuntime) {
    let growth = Trial::Walks(400, 0);
    let right = [
        holds_in::<Map, _>(&rt, rt.alloc(), growth),
        holds_in::<Set, _>(&rt, rt.alloc(), growth),
        holds_in::<Index, _>(&rt, rt.alloc(), growth),
        holds_in::<RuledMap, _>(&rt, rt.alloc(), growth),
        holds_in::<RuledSet, _>(&rt, rt.alloc(), growth),
        holds_in::<RuledIndex, _>(&rt, rt.alloc(), growth),
    ];
    expect_eq(&rt, right, [true; 6]);
}
