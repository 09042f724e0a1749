// Stripes of a shared map: which key lies in which stripe, and walks through both in opposite ways.
use crate::expect::{expect, expect_eq};
use scc_script::same::Same;
use scc_shared::map::HashMap;
use std::alloc::Global;
use std::process::Abort;
use std::sync::Wait;
use std::thread::{Threads, join};

type Map = HashMap<u64, u64, Same>;

// The least key of the second of two stripes.
const HALF: u64 = 1 << 63;

/// Returns the stripe and the bucket of the greatest hash, and the capacity, of a map for `slots` slots.
fn greatest(rt: &impl Wait, alloc: Global, slots: usize) -> Option<(usize, usize, usize)> {
    match Map::with_capacity_and_hasher(alloc, slots, Same) {
        Ok(map) => Some((
            map.stripe_of(&u64::MAX),
            map.bucket_index(rt, &u64::MAX),
            map.capacity(rt),
        )),
        Err(_) => None,
    }
}

#[test]
fn shared_map_of_sixteen_stripes(rt: HostRuntime) {
    for (slots, wanted) in [
        (0, (15, 0, 0)),
        (256, (3, 1, 256)),
        (10_000, (15, 31, 16_384)),
    ] {
        expect_eq(&rt, greatest(&rt, rt.alloc(), slots), Some(wanted));
    }
}

const ROUNDS: u64 = 500;

/// Steps from entry to entry, starting at `from` and then at `then`, round after round. Returns whether each walk ends
/// within three steps.
fn walks_round(rt: &impl Wait, map: &Map, from: u64, then: u64) -> bool {
    for _ in 0..ROUNDS {
        for k in [from, then] {
            let mut entry = map.get_sync(rt, &k);
            for _ in 0..3u8 {
                let Some(here) = entry else {
                    break;
                };
                entry = here.next_sync(rt);
            }
            if entry.is_some() {
                return false;
            }
        }
    }
    true
}

/// Two threads walk over the keys 1 and `HALF` in opposite ways. Returns whether all walks end.
fn walk_in_both<R: Threads + Wait + Sync>(rt: &R, map: &Map) -> (bool, bool) {
    join(
        rt,
        || walks_round(rt, map, 1, HALF),
        || walks_round(rt, map, HALF, 1),
    )
}

#[test]
fn walks_in_opposite_ways_end(rt: HostRuntime) {
    match Map::with_capacity_and_hasher(rt.alloc(), 128, Same) {
        Ok(map) => {
            let first = map.insert_sync(&rt, 1, 10).is_ok();
            let second = map.insert_sync(&rt, HALF, 20).is_ok();
            expect(&rt, first && second);
            expect_eq(&rt, walk_in_both(&rt, &map), (true, true));
        }
        Err(_) => expect(&rt, false),
    }
}
