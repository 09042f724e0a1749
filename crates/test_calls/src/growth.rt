// When the arrays of a map, a set and an index grow and shrink, at the edges of the rules.
use crate::expect::{expect, expect_eq};
use crate::rows::{Call, expect_answers, expect_sizes};
use scc::{Verdict, hash_cache, hash_index, hash_map, hash_set};
use std::process::Abort;
use test_forms::answers::{Answer, Rule};
use test_forms::form::Form;
use test_forms::token::Token;
use test_kit::masked::{Masked, SAME, ZERO};

const HALF: u64 = 1 << 63;

type Map = hash_map::Owned<Token, Token, Masked>;

type Set = hash_set::Owned<Token, Masked>;

type Index = hash_index::Owned<Token, Token, Masked>;

type Sizes = (Call, (usize, usize, usize));

/// Makes the calls on a map under `hasher`.
fn expect_of_map<R: AllocGlobal + Abort>(rt: &R, hasher: Masked, rows: &[Sizes]) {
    expect_sizes(rt, &mut Map::with_hasher(rt.alloc(), hasher), rows);
}

/// Makes the calls on a set under `hasher`.
fn expect_of_set<R: AllocGlobal + Abort>(rt: &R, hasher: Masked, rows: &[Sizes]) {
    expect_sizes(rt, &mut Set::with_hasher(rt.alloc(), hasher), rows);
}

/// Makes the calls on an index under `hasher`.
fn expect_of_index<R: AllocGlobal + Abort>(rt: &R, hasher: Masked, rows: &[Sizes]) {
    expect_sizes(rt, &mut Index::with_hasher(rt.alloc(), hasher), rows);
}

// The 33rd key of a bucket doubles an array that is half full, and relocates the entries of two buckets.
const IN_ONE_BUCKET: [Sizes; 5] = [
    (Call::Fill(0, 32), (32, 64, 0)),
    (Call::Fill(32, 33), (33, 128, 2)),
    (Call::Fill(33, 34), (34, 128, 0)),
    (Call::Fill(34, 65), (65, 256, 6)),
    (Call::Fill(65, 1100), (1100, 4096, 0)),
];

#[test]
fn map_grows_with_all_keys_in_one_bucket(rt: HostRuntime) {
    expect_of_map(&rt, ZERO, &IN_ONE_BUCKET);
}

#[test]
fn set_grows_with_all_keys_in_one_bucket(rt: HostRuntime) {
    expect_of_set(&rt, ZERO, &IN_ONE_BUCKET);
}

#[test]
fn index_grows_with_all_keys_in_one_bucket(rt: HostRuntime) {
    expect_of_index(&rt, ZERO, &IN_ONE_BUCKET);
}

/// Fills one bucket while 50 slots are reserved, which the first array has.
fn expect_growth_beside_a_token<R: AllocGlobal + Abort, F: Form>(rt: &R, form: &mut F) {
    let token = form.reserve_slots(50);
    expect(rt, token.is_some());
    expect_sizes(rt, form, &IN_ONE_BUCKET);
    expect(rt, !form.is_resize_refused());
}

#[test]
fn map_grows_beside_a_token(rt: HostRuntime) {
    expect_growth_beside_a_token(&rt, &mut Map::with_hasher(rt.alloc(), ZERO));
}

#[test]
fn set_grows_beside_a_token(rt: HostRuntime) {
    expect_growth_beside_a_token(&rt, &mut Set::with_hasher(rt.alloc(), ZERO));
}

#[test]
fn index_grows_beside_a_token(rt: HostRuntime) {
    expect_growth_beside_a_token(&rt, &mut Index::with_hasher(rt.alloc(), ZERO));
}

// A bucket with 32 pairs counts as full, although a slot is free while one pair is in its overflow list.
const WITH_A_SLOT_FREE: [Sizes; 6] = [
    (Call::Fill(0, 32), (32, 64, 0)),
    (Call::Fill(HALF, HALF + 1), (33, 64, 0)),
    (Call::Fill(32, 33), (34, 128, 2)),
    (Call::Fill(HALF + 1, HALF + 32), (65, 128, 0)),
    (Call::Empty(0, 1), (64, 128, 0)),
    (Call::Fill(100, 101), (65, 256, 6)),
];

#[test]
fn map_grows_at_32_pairs_with_a_slot_free(rt: HostRuntime) {
    expect_of_map(&rt, SAME, &WITH_A_SLOT_FREE);
}

#[test]
fn set_grows_at_32_pairs_with_a_slot_free(rt: HostRuntime) {
    expect_of_set(&rt, SAME, &WITH_A_SLOT_FREE);
}

#[test]
fn index_grows_at_32_pairs_with_a_slot_free(rt: HostRuntime) {
    expect_of_index(&rt, SAME, &WITH_A_SLOT_FREE);
}

// Two buckets with 40 pairs each wait. Insertions into a third bucket relocate them, so that no bucket waits, and the
// array doubles again when it is half full.
const BESIDE_LONG_BUCKETS: [Sizes; 5] = [
    (Call::Fill(0, 40), (40, 128, 0)),
    (Call::Fill(HALF / 2, HALF / 2 + 40), (80, 256, 0)),
    (Call::Fill(HALF, HALF + 49), (129, 512, 14)),
    (Call::Fill(HALF + 49, HALF + 56), (136, 512, 0)),
    (Call::Fill(HALF + 56, HALF + 177), (257, 1024, 30)),
];

#[test]
fn map_insertions_relocate_long_buckets(rt: HostRuntime) {
    expect_of_map(&rt, SAME, &BESIDE_LONG_BUCKETS);
}

#[test]
fn set_insertions_relocate_long_buckets(rt: HostRuntime) {
    expect_of_set(&rt, SAME, &BESIDE_LONG_BUCKETS);
}

#[test]
fn index_insertions_relocate_long_buckets(rt: HostRuntime) {
    expect_of_index(&rt, SAME, &BESIDE_LONG_BUCKETS);
}

// An array that is an eighth full shrinks, also if a pair is removed through its entry.
const BY_ENTRIES: [Sizes; 3] = [
    (Call::Fill(0, 40), (40, 128, 0)),
    (Call::EmptyByEntry(0, 23), (17, 128, 0)),
    (Call::EmptyByEntry(23, 24), (16, 64, 2)),
];

#[test]
fn map_removal_through_an_entry_shrinks(rt: HostRuntime) {
    expect_of_map(&rt, ZERO, &BY_ENTRIES);
}

#[test]
fn set_removal_through_an_entry_shrinks(rt: HostRuntime) {
    expect_of_set(&rt, ZERO, &BY_ENTRIES);
}

#[test]
fn index_removal_through_an_entry_shrinks(rt: HostRuntime) {
    expect_of_index(&rt, ZERO, &BY_ENTRIES);
}

// A walk that takes one pair and stops shrinks the array too.
const SPARSE: [Sizes; 2] = [
    (Call::Fill(0, 40), (40, 128, 0)),
    (Call::Empty(17, 40), (17, 128, 0)),
];

fn expect_stop_shrinks<R: AllocGlobal + Abort, F: Form>(rt: &R, form: &mut F) {
    expect_sizes(rt, form, &SPARSE);
    let stop = Call::Take(Rule::Always(Verdict::TakeStop));
    expect_answers(rt, form, &[(stop, Answer::Yes(false))]);
    let sizes = form.sizes();
    expect_eq(rt, (sizes.len, sizes.capacity), (16, 64));
}

#[test]
fn map_stop_in_a_sparse_map_shrinks_it(rt: HostRuntime) {
    expect_stop_shrinks(&rt, &mut Map::with_hasher(rt.alloc(), ZERO));
}

#[test]
fn set_stop_in_a_sparse_set_shrinks_it(rt: HostRuntime) {
    expect_stop_shrinks(&rt, &mut Set::with_hasher(rt.alloc(), ZERO));
}

// Whole walks shrink the array too, and a clone has no waiting bucket.
const BY_WALKS: [Sizes; 4] = [
    (Call::Fill(0, 33), (33, 128, 2)),
    (Call::Copy, (33, 128, 2)),
    (Call::Retain(1), (29, 128, 2)),
    (Call::Clear, (0, 64, 2)),
];

#[test]
fn map_walks_shrink(rt: HostRuntime) {
    expect_of_map(&rt, ZERO, &BY_WALKS);
}

#[test]
fn set_walks_shrink(rt: HostRuntime) {
    expect_of_set(&rt, ZERO, &BY_WALKS);
}

#[test]
fn index_walks_shrink(rt: HostRuntime) {
    expect_of_index(&rt, ZERO, &BY_WALKS);
}

const SPREAD: [Sizes; 1] = [(Call::Spread(1000), (1000, 131_072, 0))];

#[test]
fn map_past_65536_slots(rt: HostRuntime) {
    match Map::with_capacity_and_hasher(rt.alloc(), 65_537, SAME) {
        Ok(mut map) => {
            expect_eq(&rt, map.capacity(), 131_072);
            expect_sizes(&rt, &mut map, &SPREAD);
        }
        Err(_) => expect(&rt, false),
    }
}

const WIDE: usize = 1 << 21;

#[test]
fn set_of_two_million_slots(rt: HostRuntime) {
    match hash_set::Owned::<u64>::with_capacity(rt.alloc(), WIDE) {
        Ok(set) => expect_eq(&rt, set.capacity(), WIDE),
        Err(_) => expect(&rt, false),
    }
}

#[test]
fn cache_of_two_million_slots(rt: HostRuntime) {
    match hash_cache::Owned::<u64, u64>::with_capacity(rt.alloc(), WIDE, WIDE) {
        Ok(cache) => expect_eq(&rt, cache.capacity(), WIDE),
        Err(_) => expect(&rt, false),
    }
}

// A full bucket has no room, and the other of the two buckets has room.
const BY_THE_BUCKET: [(Call, Answer); 4] = [
    (Call::Place(0), Answer::Place(0, true)),
    (Call::Fill(0, 32), Answer::Yes(true)),
    (Call::Place(HALF - 1), Answer::Place(0, false)),
    (Call::Place(HALF), Answer::Place(1, true)),
];

#[test]
fn map_has_room_by_the_bucket_of_the_key(rt: HostRuntime) {
    match Map::with_capacity_and_hasher(rt.alloc(), 64, SAME) {
        Ok(mut map) => expect_answers(&rt, &mut map, &BY_THE_BUCKET),
        Err(_) => expect(&rt, false),
    }
}

#[test]
fn set_has_room_by_the_bucket_of_the_key(rt: HostRuntime) {
    match Set::with_capacity_and_hasher(rt.alloc(), 64, SAME) {
        Ok(mut set) => expect_answers(&rt, &mut set, &BY_THE_BUCKET),
        Err(_) => expect(&rt, false),
    }
}
