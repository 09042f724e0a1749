// A first array for which no memory is enough, since too many slots are reserved: each way to add a pair is refused in
// each run, and hands the pair back. Once the reservation is released, the next insertion succeeds.
use crate::expect::{expect, expect_eq};
use crate::looks::{expect_keys, pair_of, put, value_of};
use crate::reservations::GREATEST;
use scc_common::{InsertError, KeyError};
use scc_shared::index::HashIndex;
use scc_shared::map::HashMap;
use scc_shared_set::HashSet;
use std::io::Print;
use std::process::Abort;
use std::sync::Wait;
use test_forms::answers::Answer;
use test_forms::form::{Form, WAYS, Way};
use test_forms::token::Token;
use test_kit::masked::{Masked, ZERO};
use test_kit::refusals::{Refusal, TRIES};
use test_kit::zero::Zero;

/// Tries each way on an owned container.
fn expect_no_array<F: Form, R: Abort + Print>(rt: &R, owned: &mut F) {
    let token = owned
        .reserve_slots(GREATEST)
        .expect(rt, "so many can be reserved");
    let kind = owned.kind();
    for way in WAYS {
        if way.is_of(kind) {
            let pair = pair_of(kind, 0, value_of(way, 0));
            expect_eq(
                rt,
                owned.add(way, Token::of(0), Token::of(!0)),
                Answer::Refused(Some(pair)),
            );
            expect_keys(rt, owned, way, 0, 0);
        }
    }
    expect_eq(rt, owned.sizes().capacity, 0);
    expect(rt, owned.release_slots(token).is_ok());
    put(rt, &mut Refusal::new(), owned, 0, !0);
    expect_keys(rt, owned, Way::Insert, 0, 1);
    expect_eq(rt, owned.sizes().capacity, 64);
}

#[test]
fn map_without_an_array_that_no_memory_has(rt: HostRuntime) {
    let mut map: scc_owned::map::Owned<Token, Token, Masked> = scc_owned::map::Owned::with_hasher(
        rt.alloc(),
        ZERO,
    );
    expect_no_array(&rt, &mut map);
}

#[test]
fn set_without_an_array_that_no_memory_has(rt: HostRuntime) {
    let mut set: scc_owned_set::Owned<Token, Masked> = scc_owned_set::Owned::with_hasher(
        rt.alloc(),
        ZERO,
    );
    expect_no_array(&rt, &mut set);
}

#[test]
fn index_without_an_array_that_no_memory_has(rt: HostRuntime) {
    let mut index: scc_owned::index::Owned<Token, Token, Masked> =
        scc_owned::index::Owned::with_hasher(rt.alloc(), ZERO);
    expect_no_array(&rt, &mut index);
}

fn expect_no_array_in_map<R: Abort + Print + Wait>(
    rt: &R,
    refusal: &mut Refusal,
    map: &HashMap<u64, u64, Zero>,
) {
    let token = map.reserve(rt, GREATEST);
    expect(rt, token.is_some());
    let inserted = map.insert_sync(rt, 0, 5);
    expect(rt, matches!(inserted, Err(InsertError::Memory((0, 5)))));
    let upserted = map.upsert_sync(rt, 0, 5);
    expect(rt, matches!(upserted, Err(InsertError::Memory((0, 5)))));
    expect_eq(rt, (map.len(rt), map.capacity(rt)), (0, 0));
    drop(token);
    for _ in 0..TRIES {
        if map.upsert_sync(rt, 0, 5).is_ok() {
            break;
        }
        refusal.meet(rt, "an upsert into a shared map after its reservation");
    }
    expect_eq(rt, map.read_sync(rt, &0, |_, value| *value), Some(5));
    expect_eq(rt, map.capacity(rt), 64);
}

#[test]
fn shared_map_without_an_array_that_no_memory_has(rt: HostRuntime) {
    let mut refusal = Refusal::new();
    for _ in 0..TRIES {
        let made: Result<HashMap<u64, u64, Zero>, _> = HashMap::with_hasher(rt.alloc(), Zero);
        match made {
            Ok(map) => return expect_no_array_in_map(&rt, &mut refusal, &map),
            Err(_) => refusal.meet(&rt, "a shared map without an array"),
        }
    }
    expect(&rt, false);
}

fn expect_no_array_in_set<R: Abort + Print + Wait>(
    rt: &R,
    refusal: &mut Refusal,
    set: &HashSet<u64, Zero>,
) {
    let token = set.reserve(rt, GREATEST);
    expect(rt, token.is_some());
    let inserted = set.insert_sync(rt, 7);
    expect(rt, matches!(inserted, Err(KeyError::Memory(7))));
    let replaced = set.replace_sync(rt, 7);
    expect(rt, matches!(replaced, Err(KeyError::Memory(7))));
    expect_eq(rt, (set.len(rt), set.capacity(rt)), (0, 0));
    drop(token);
    for _ in 0..TRIES {
        if set.replace_sync(rt, 7).is_ok() {
            break;
        }
        refusal.meet(rt, "a replacement in a shared set after its reservation");
    }
    expect_eq(
        rt,
        (set.contains_sync(rt, &7), set.capacity(rt)),
        (true, 64),
    );
}

#[test]
fn shared_set_without_an_array_that_no_memory_has(rt: HostRuntime) {
    let mut refusal = Refusal::new();
    for _ in 0..TRIES {
        let made: Result<HashSet<u64, Zero>, _> = HashSet::with_hasher(rt.alloc(), Zero);
        match made {
            Ok(set) => return expect_no_array_in_set(&rt, &mut refusal, &set),
            Err(_) => refusal.meet(&rt, "a shared set without an array"),
        }
    }
    expect(&rt, false);
}

fn expect_no_array_in_index<R: Abort + Print + Wait>(
    rt: &R,
    refusal: &mut Refusal,
    index: &HashIndex<u64, u64, Zero>,
) {
    let token = index.reserve(rt, GREATEST);
    expect(rt, token.is_some());
    let inserted = index.insert_sync(rt, 0, 5);
    expect(rt, matches!(inserted, Err(InsertError::Memory((0, 5)))));
    expect_eq(rt, (index.len(rt), index.capacity(rt)), (0, 0));
    drop(token);
    for _ in 0..TRIES {
        if index.insert_sync(rt, 0, 5).is_ok() {
            break;
        }
        refusal.meet(rt, "an insertion into a shared index after its reservation");
    }
    expect_eq(rt, index.peek_with(rt, &0, |_, value| *value), Some(5));
    expect_eq(rt, index.capacity(rt), 64);
}

#[test]
fn shared_index_without_an_array_that_no_memory_has(rt: HostRuntime) {
    let mut refusal = Refusal::new();
    for _ in 0..TRIES {
        let made: Result<HashIndex<u64, u64, Zero>, _> = HashIndex::with_hasher(rt.alloc(), Zero);
        match made {
            Ok(index) => return expect_no_array_in_index(&rt, &mut refusal, &index),
            Err(_) => refusal.meet(&rt, "a shared index without an array"),
        }
    }
    expect(&rt, false);
}
