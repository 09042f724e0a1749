// Clones that are refused before they are made: a clone has the keys and the slots of its original, and from then on
// each of the two changes alone.
use crate::expect::{expect, expect_eq};
use crate::looks::{expect_keys, fill, put};
use scc_shared::index::HashIndex;
use scc_shared::map::HashMap;
use scc_shared_set::HashSet;
use std::io::Print;
use std::process::Abort;
use std::sync::Wait;
use test_forms::form::{Form, Way};
use test_forms::token::Token;
use test_kit::masked::{Masked, ZERO};
use test_kit::refusals::{Refusal, TRIES};
use test_kit::zero::Zero;

/// Checks a clone of three keys in 64 slots, and adds a fourth key to the clone alone.
fn expect_copy<F: Form, R: Abort + Print>(
    rt: &R,
    refusal: &mut Refusal,
    original: &F,
    copy: &mut F,
) {
    expect_keys(rt, copy, Way::Insert, 0, 3);
    put(rt, refusal, copy, 3, !3);
    expect_keys(rt, copy, Way::Insert, 0, 4);
    expect_keys(rt, original, Way::Insert, 0, 3);
    expect_eq(
        rt,
        (copy.sizes().capacity, original.sizes().capacity),
        (64, 64),
    );
}

fn expect_map<R: AllocGlobal + Abort + Print>(
    rt: &R,
    refusal: &mut Refusal,
    map: &scc_owned::map::Owned<Token, Token, Masked>,
) {
    for _ in 0..TRIES {
        match map.try_clone() {
            Ok(mut copy) => return expect_copy(rt, refusal, map, &mut copy),
            Err(_) => refusal.meet(rt, "a clone of a map"),
        }
        expect_eq(rt, map.len(), 3);
    }
    expect(rt, false);
}

#[test]
fn a_clone_of_a_map_is_whole(rt: HostRuntime) {
    let mut map: scc_owned::map::Owned<Token, Token, Masked> = scc_owned::map::Owned::with_hasher(
        rt.alloc(),
        ZERO,
    );
    let mut refusal = Refusal::new();
    fill(&rt, &mut refusal, &mut map, Way::Insert, 3);
    expect_map(&rt, &mut refusal, &map);
}

fn expect_set<R: AllocGlobal + Abort + Print>(
    rt: &R,
    refusal: &mut Refusal,
    set: &scc_owned_set::Owned<Token, Masked>,
) {
    for _ in 0..TRIES {
        match set.try_clone() {
            Ok(mut copy) => return expect_copy(rt, refusal, set, &mut copy),
            Err(_) => refusal.meet(rt, "a clone of a set"),
        }
        expect_eq(rt, set.len(), 3);
    }
    expect(rt, false);
}

#[test]
fn a_clone_of_a_set_is_whole(rt: HostRuntime) {
    let mut set: scc_owned_set::Owned<Token, Masked> = scc_owned_set::Owned::with_hasher(
        rt.alloc(),
        ZERO,
    );
    let mut refusal = Refusal::new();
    fill(&rt, &mut refusal, &mut set, Way::Insert, 3);
    expect_set(&rt, &mut refusal, &set);
}

fn expect_index<R: AllocGlobal + Abort + Print>(
    rt: &R,
    refusal: &mut Refusal,
    index: &scc_owned::index::Owned<Token, Token, Masked>,
) {
    for _ in 0..TRIES {
        match index.try_clone() {
            Ok(mut copy) => return expect_copy(rt, refusal, index, &mut copy),
            Err(_) => refusal.meet(rt, "a clone of an index"),
        }
        expect_eq(rt, index.len(), 3);
    }
    expect(rt, false);
}

#[test]
fn a_clone_of_an_index_is_whole(rt: HostRuntime) {
    let mut index: scc_owned::index::Owned<Token, Token, Masked> =
        scc_owned::index::Owned::with_hasher(rt.alloc(), ZERO);
    let mut refusal = Refusal::new();
    fill(&rt, &mut refusal, &mut index, Way::Insert, 3);
    expect_index(&rt, &mut refusal, &index);
}

/// Removes key 2 from the map, and checks that the clone keeps it.
fn expect_two_maps<R: Abort + Wait>(
    rt: &R,
    map: &HashMap<u64, u64, Zero>,
    copy: &HashMap<u64, u64, Zero>,
) {
    expect(rt, map.remove_sync(rt, &2).is_some());
    expect(rt, copy.contains_sync(rt, &2));
    expect_eq(rt, (map.len(rt), copy.len(rt)), (2, 3));
    expect_eq(rt, copy.capacity(rt), map.capacity(rt));
}

fn expect_shared_map<R: Abort + Print + Wait>(
    rt: &R,
    refusal: &mut Refusal,
    map: &HashMap<u64, u64, Zero>,
) {
    for _ in 0..TRIES {
        match map.try_clone(rt) {
            Ok(copy) => return expect_two_maps(rt, map, &copy),
            Err(_) => refusal.meet(rt, "a clone of a shared map"),
        }
        expect_eq(rt, map.len(rt), 3);
    }
    expect(rt, false);
}

#[test]
fn a_clone_of_a_shared_map_is_whole(rt: HostRuntime) {
    let mut refusal = Refusal::new();
    for _ in 0..TRIES {
        let made: Result<HashMap<u64, u64, Zero>, _> = HashMap::try_from_iter(
            &rt,
            rt.alloc(),
            [(0, !0), (1, !1), (2, !2)],
        );
        match made {
            Ok(map) => return expect_shared_map(&rt, &mut refusal, &map),
            Err(_) => refusal.meet(&rt, "a shared map of three keys"),
        }
    }
    expect(&rt, false);
}

/// Removes key 2 from the set, and checks that the clone keeps it.
fn expect_two_sets<R: Abort + Wait>(rt: &R, set: &HashSet<u64, Zero>, copy: &HashSet<u64, Zero>) {
    expect(rt, set.remove_sync(rt, &2).is_some());
    expect(rt, copy.contains_sync(rt, &2));
    expect_eq(rt, (set.len(rt), copy.len(rt)), (2, 3));
    expect_eq(rt, copy.capacity(rt), set.capacity(rt));
}

fn expect_shared_set<R: Abort + Print + Wait>(
    rt: &R,
    refusal: &mut Refusal,
    set: &HashSet<u64, Zero>,
) {
    for _ in 0..TRIES {
        match set.try_clone(rt) {
            Ok(copy) => return expect_two_sets(rt, set, &copy),
            Err(_) => refusal.meet(rt, "a clone of a shared set"),
        }
        expect_eq(rt, set.len(rt), 3);
    }
    expect(rt, false);
}

#[test]
fn a_clone_of_a_shared_set_is_whole(rt: HostRuntime) {
    let mut refusal = Refusal::new();
    for _ in 0..TRIES {
        let made: Result<HashSet<u64, Zero>, _> = HashSet::try_from_iter(
            &rt,
            rt.alloc(),
            [0, 1, 2],
        );
        match made {
            Ok(set) => return expect_shared_set(&rt, &mut refusal, &set),
            Err(_) => refusal.meet(&rt, "a shared set of three keys"),
        }
    }
    expect(&rt, false);
}

/// Removes key 2 from the index, and checks that the clone keeps it.
fn expect_two_indexs<R: Abort + Wait>(
    rt: &R,
    index: &HashIndex<u64, u64, Zero>,
    copy: &HashIndex<u64, u64, Zero>,
) {
    expect(rt, index.remove_sync(rt, &2));
    expect(rt, copy.contains(rt, &2));
    expect_eq(rt, (index.len(rt), copy.len(rt)), (2, 3));
    expect_eq(rt, copy.capacity(rt), index.capacity(rt));
}

fn expect_shared_index<R: Abort + Print + Wait>(
    rt: &R,
    refusal: &mut Refusal,
    index: &HashIndex<u64, u64, Zero>,
) {
    for _ in 0..TRIES {
        match index.try_clone(rt) {
            Ok(copy) => return expect_two_indexs(rt, index, &copy),
            Err(_) => refusal.meet(rt, "a clone of a shared index"),
        }
        expect_eq(rt, index.len(rt), 3);
    }
    expect(rt, false);
}

#[test]
fn a_clone_of_a_shared_index_is_whole(rt: HostRuntime) {
    let mut refusal = Refusal::new();
    for _ in 0..TRIES {
        let made: Result<HashIndex<u64, u64, Zero>, _> = HashIndex::try_from_iter(
            &rt,
            rt.alloc(),
            [(0, !0), (1, !1), (2, !2)],
        );
        match made {
            Ok(index) => return expect_shared_index(&rt, &mut refusal, &index),
            Err(_) => refusal.meet(&rt, "a shared index of three keys"),
        }
    }
    expect(&rt, false);
}
