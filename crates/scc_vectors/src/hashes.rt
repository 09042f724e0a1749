// How often a call of a container hashes its key. A contract sees answers, and no hash.
use crate::expect::{expect, expect_eq};
use scc::recorded::{Calls, MapCall};
use scc::{HashIndex, HashMap, hash_map, hash_set};
use std::alloc::{AllocError, Global};
use std::hash::BuildHasher;
use std::sync::atomic::{AtomicU64, Ordering};
use std::sync::{Arc, Wait};
use test_kit::zero::{Zero, ZeroHasher};

/// Builds hashers by which every key has the hash 0, and counts them.
#[derive(Drop)]
struct Counting {
    built: Arc<AtomicU64>,
}

impl BuildHasher for Counting {
    type Hasher = ZeroHasher;

    ghost build_hasher = { λ _. record {} };

    fn build_hasher(&self) -> ZeroHasher {
        self.built.fetch_add(1, Ordering::SeqCst);
        Zero.build_hasher()
    }
}

/// Returns a hasher, and one more owner of its number.
fn shared_hasher(alloc: Global) -> Result<(Counting, Arc<AtomicU64>), AllocError> {
    let built = Arc::new(alloc, AtomicU64::new(0))?;
    let seen = Arc::try_clone(&built)?;
    Ok((Counting { built }, seen))
}

/// Returns how many hashers were built since the last call.
fn since(built: &AtomicU64) -> u64 {
    built.swap(0, Ordering::SeqCst)
}

/// Returns the hashes of calls on a present key that end without an entry: a read and an update.
fn on_a_pair(
    rt: &impl Wait,
    map: &HashMap<u64, u64, Counting>,
    key: u64,
    built: &AtomicU64,
) -> [u64; 2] {
    let _ = since(built);
    let _ = map.read_sync(rt, &key, |_key, value| *value);
    let read = since(built);
    let _ = map.update_sync(rt, &key, |_key, value| *value = 3);
    [read, since(built)]
}

/// Returns the hashes of calls on a present key that return an entry.
fn on_an_entry(
    rt: &impl Wait,
    map: &HashMap<u64, u64, Counting>,
    key: u64,
    built: &AtomicU64,
) -> [u64; 3] {
    let _ = since(built);
    let _ = map.get_sync(rt, &key);
    let get = since(built);
    let _ = map.entry_sync(rt, key);
    let entry = since(built);
    let _ = map.replace_sync(rt, key);
    [get, entry, since(built)]
}

/// The hash of the stripe leads to a present key, and a missing key is hashed once more.
#[test]
fn a_present_key_is_hashed_once(rt: HostRuntime) {
    match shared_hasher(rt.alloc()) {
        Ok((hasher, built)) => match HashMap::with_hasher(rt.alloc(), hasher) {
            Ok(map) => {
                let new = map.insert_sync(&rt, 7, 0).is_ok();
                let missing = since(&*built);
                let pair = on_a_pair(&rt, &map, 7, &*built);
                let entry = on_an_entry(&rt, &map, 7, &*built);
                expect_eq(&rt, (new, missing, pair, entry), (true, 2, [1; 2], [1; 3]));
            }
            Err(_) => expect(&rt, false),
        },
        Err(_) => expect(&rt, false),
    }
}

/// As in the map.
#[test]
fn an_index_hashes_a_present_key_once(rt: HostRuntime) {
    match shared_hasher(rt.alloc()) {
        Ok((hasher, built)) => match HashIndex::with_hasher(rt.alloc(), hasher) {
            Ok(index) => {
                let new = index.insert_sync(&rt, 7u64, 0u64).is_ok();
                let missing = since(&*built);
                let again = index.insert_sync(&rt, 7, 1).is_err();
                expect_eq(
                    &rt,
                    (new, missing, again, since(&*built)),
                    (true, 2, true, 1),
                );
            }
            Err(_) => expect(&rt, false),
        },
        Err(_) => expect(&rt, false),
    }
}

/// Returns the hashes of a call as a stripe of a recorded map makes it.
fn on_a_stripe(
    map: &mut hash_map::Owned<u64, u64, Counting>,
    call: MapCall<u64, u64>,
    built: &AtomicU64,
) -> u64 {
    let _ = since(built);
    let _ = map.call_copied(call);
    since(built)
}

/// A stripe hashes the key of a recorded call once, though it copies the reply before it makes the call.
#[test]
fn a_recorded_call_is_hashed_once_in_its_stripe(rt: HostRuntime) {
    match shared_hasher(rt.alloc()) {
        Ok((hasher, built)) => {
            let mut map = hash_map::Owned::with_hasher(rt.alloc(), hasher);
            let new = on_a_stripe(&mut map, MapCall::Insert(7, 0), &*built);
            let again = on_a_stripe(&mut map, MapCall::Insert(7, 1), &*built);
            let upsert = on_a_stripe(&mut map, MapCall::Upsert(7, 2), &*built);
            let replace = on_a_stripe(&mut map, MapCall::Replace(7), &*built);
            let read = on_a_stripe(&mut map, MapCall::Read(7), &*built);
            let contains = on_a_stripe(&mut map, MapCall::Contains(7), &*built);
            let remove = on_a_stripe(&mut map, MapCall::Remove(7), &*built);
            expect_eq(
                &rt,
                [new, again, upsert, replace, read, contains, remove],
                [1; 7],
            );
        }
        Err(_) => expect(&rt, false),
    }
}

/// A replacement inserts a missing key where its search ended, so it hashes a key once, missing or present.
#[test]
fn a_replaced_key_of_an_owned_set_is_hashed_once(rt: HostRuntime) {
    match shared_hasher(rt.alloc()) {
        Ok((hasher, built)) => {
            let mut set = hash_set::Owned::with_hasher(rt.alloc(), hasher);
            let new = set.replace_sync(7u64).is_ok();
            let missing = since(&*built);
            let old = set.replace_sync(7).is_ok();
            expect_eq(&rt, (new, missing, old, since(&*built)), (true, 1, true, 1));
        }
        Err(_) => expect(&rt, false),
    }
}
