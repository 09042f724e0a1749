// Versions of a shared index: snapshots beside threads that publish new versions, and what an empty index hands out.
use crate::expect::{expect, expect_eq};
use scc_shared::index::HashIndex;
use std::process::Abort;
use std::sync::Wait;
use std::thread::{Threads, join};

type Pairs = HashIndex<u64, (u64, u64)>;

const ROUNDS: u64 = 200;

/// Returns whether a snapshot has no version.
fn shows_nothing(rt: &impl Wait, index: &HashIndex<u64, u64>) -> bool {
    match index.iter(rt) {
        Ok(mut versions) => versions.next().is_none(),
        Err(_) => false,
    }
}

#[test]
fn shared_index_missing_key(rt: HostRuntime) {
    match HashIndex::new(rt.alloc()) {
        Ok(index) => {
            let missing = [
                matches!(index.peek(&rt, &1), Ok(None)),
                index.get_sync(&rt, &1).is_none(),
                index.begin_sync(&rt).is_none(),
                shows_nothing(&rt, &index),
            ];
            expect_eq(&rt, missing, [true; 4]);
        }
        Err(_) => expect(&rt, false),
    }
}

/// Publishes version after version of a key. Both halves of a value are equal. Returns whether each was published.
fn publish(rt: &impl Wait, index: &Pairs, k: u64) -> bool {
    for j in 0..ROUNDS {
        match index.get_sync(rt, &k) {
            Some(mut entry) => {
                if entry.update((j, j)).is_err() {
                    return false;
                }
            }
            None => return false,
        }
    }
    true
}

/// Returns whether each version of a snapshot is whole, and there are as many versions as keys.
fn is_whole(rt: &impl Wait, index: &Pairs) -> bool {
    let Ok(versions) = index.iter(rt) else {
        return false;
    };
    let mut met = 0u64;
    for version in versions {
        let (a, b) = *version.value();
        if a != b || *version.key() >= 2 {
            return false;
        }
        met = met.wrapping_add(1);
    }
    met == 2
}

fn look_often(rt: &impl Wait, index: &Pairs) -> bool {
    for _ in 0..ROUNDS {
        if !is_whole(rt, index) {
            return false;
        }
    }
    true
}

/// Two threads publish versions of a key each.
fn publish_both<R: Threads + Wait + Sync>(rt: &R, index: &Pairs) -> (bool, bool) {
    join(rt, || publish(rt, index, 0), || publish(rt, index, 1))
}

/// Two threads publish while a third takes snapshots.
fn look_beside<R: Threads + Wait + Sync>(rt: &R, index: &Pairs) -> ((bool, bool), bool) {
    join(rt, || publish_both(rt, index), || look_often(rt, index))
}

#[test]
fn snapshot_versions_are_whole(rt: HostRuntime) {
    match Pairs::new(rt.alloc()) {
        Ok(index) => {
            let first = index.insert_sync(&rt, 0, (0, 0)).is_ok();
            let second = index.insert_sync(&rt, 1, (0, 0)).is_ok();
            expect(&rt, first && second);
            expect_eq(&rt, look_beside(&rt, &index), ((true, true), true));
        }
        Err(_) => expect(&rt, false),
    }
}
