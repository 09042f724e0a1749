// What single calls and entries return.
use crate::expect::expect;
use crate::rows::{Call, expect_answers};
use scc::{InsertError, hash_index, hash_map, hash_set};
use scc_script::same::Same;
use std::hash::{BuildHasher, RandomState};
use test_forms::answers::Answer;
use test_forms::form::{Act, At, Way};
use test_kit::masked::{SAME, ZERO};
use test_kit::maybe_equal::MaybeEqual;

/// Adds two keys, looks keys up, walks and removes. Returns whether each call returns what it must.
fn goes_well<H: BuildHasher + Drop>(map: &mut hash_map::Owned<MaybeEqual, u64, H>) -> bool {
    let (first, second, other) = (MaybeEqual(11, 7), MaybeEqual(12, 0), MaybeEqual(13, 0));
    let added = map.insert_sync(first, 17).is_ok();
    let equal = map.insert_sync(MaybeEqual(11, 11), 18);
    let exists = matches!(equal, Err(InsertError::Exists((MaybeEqual(11, 11), 18))));
    let also = map.insert_sync(second, 19).is_ok();
    let seen = [
        mark_and_value(map, 11),
        mark_and_value(map, 12),
        mark_and_value(map, 13),
    ];
    let found = seen == [Some((7, 17)), Some((0, 19)), None];
    let stops = !map.iter_sync(|key, _| key.0 != 11) && map.iter_sync(|key, _| key.0 != 13);
    let removed = map
        .remove_sync(&first)
        .is_some_and(|pair| pair.0.1 == 7 && pair.1 == 17);
    let left = [mark_and_value(map, 11), mark_and_value(map, 12)] == [None, Some((0, 19))];
    added
        && exists
        && also
        && found
        && stops
        && removed
        && left
        && map.remove_sync(&other).is_none()
}

/// Returns the mark of the stored key and its value.
fn mark_and_value<H: BuildHasher + Drop>(
    map: &hash_map::Owned<MaybeEqual, u64, H>,
    number: u64,
) -> Option<(u64, u64)> {
    map.read_sync(&MaybeEqual(number, 1), |key, value| (key.1, *value))
}

#[test]
fn map_calls_under_each_hasher(rt: HostRuntime) {
    expect(&rt, goes_well(&mut hash_map::Owned::new(rt.alloc())));
    expect(
        &rt,
        goes_well(&mut hash_map::Owned::with_hasher(rt.alloc(), ZERO)),
    );
    expect(
        &rt,
        goes_well(&mut hash_map::Owned::with_hasher(rt.alloc(), Same)),
    );
    match RandomState::new(&rt) {
        Ok(seeded) => expect(
            &rt,
            goes_well(&mut hash_map::Owned::with_hasher(rt.alloc(), seeded)),
        ),
        Err(_) => expect(&rt, false),
    }
}

// A way through the entry of a key that is there keeps the stored key. All ways but `insert_entry` keep the value
// too.
const MAP_ENTRIES: [(Call, Answer); 16] = [
    (
        Call::Add(Way::OrDefault, 1, 0, 7),
        Answer::Entry(None, (1, 0, 0)),
    ),
    (
        Call::Add(Way::OrInsertWith, 2, 0, 20),
        Answer::Entry(None, (2, 0, 20)),
    ),
    (
        Call::Add(Way::OrInsertWithKey, 3, 0, 9),
        Answer::Entry(None, (3, 0, 3)),
    ),
    (Call::On(At::Key, Act::Set, 3, 99), Answer::Old(Some(3))),
    (
        Call::Add(Way::OrInsertWith, 2, 1, 7),
        Answer::Entry(None, (2, 0, 20)),
    ),
    (
        Call::Add(Way::OrInsertWithKey, 3, 1, 7),
        Answer::Entry(None, (3, 0, 99)),
    ),
    (
        Call::On(At::Key, Act::Write, 1, 5),
        Answer::Found(Some((1, 0, 5))),
    ),
    (
        Call::Add(Way::OrDefault, 1, 1, 9),
        Answer::Entry(None, (1, 0, 5)),
    ),
    (Call::Modify(1, 6), Answer::Found(Some((1, 0, 6)))),
    (Call::Modify(4, 6), Answer::Vacant(4, 1)),
    (
        Call::Add(Way::Vacant, 4, 1, 40),
        Answer::Entry(None, (4, 1, 40)),
    ),
    (
        Call::Add(Way::InsertEntry, 4, 2, 41),
        Answer::Entry(None, (4, 1, 41)),
    ),
    (
        Call::On(At::Any, Act::Look, 3, 0),
        Answer::Found(Some((3, 0, 99))),
    ),
    (Call::On(At::Key, Act::Remove, 4, 0), Answer::Old(Some(41))),
    (
        Call::On(At::Key, Act::RemoveEntry, 3, 0),
        Answer::Found(Some((3, 0, 99))),
    ),
    (Call::On(At::Key, Act::Look, 3, 0), Answer::Found(None)),
];

#[test]
fn map_entries_insert_what_is_asked_for(rt: HostRuntime) {
    expect_answers(
        &rt,
        &mut hash_map::Owned::with_hasher(rt.alloc(), SAME),
        &MAP_ENTRIES,
    );
}

// An insertion of an equal key changes nothing, and an update keeps the stored key.
const INDEX_VERSIONS: [(Call, Answer); 12] = [
    (Call::Add(Way::Insert, 11, 7, 17), Answer::Added(None)),
    (
        Call::Add(Way::Insert, 11, 11, 18),
        Answer::Exists((11, 11, 18)),
    ),
    (Call::Read(11), Answer::Found(Some((11, 7, 17)))),
    (Call::Read(12), Answer::Found(None)),
    (Call::RemoveIf(11), Answer::Yes(false)),
    (Call::RemoveIf(12), Answer::Yes(false)),
    (Call::On(At::Key, Act::Set, 11, 18), Answer::Yes(true)),
    (Call::Read(11), Answer::Found(Some((11, 7, 18)))),
    (Call::RemoveIf(11), Answer::Yes(true)),
    (Call::Remove(11), Answer::Yes(false)),
    (Call::Read(11), Answer::Found(None)),
    (Call::Passes(11), Answer::Yes(true)),
];

#[test]
fn index_keeps_the_stored_version(rt: HostRuntime) {
    let mut index = hash_index::Owned::with_hasher(rt.alloc(), ZERO);
    expect_answers(&rt, &mut index, &INDEX_VERSIONS);
}

const INDEX_ENTRIES: [(Call, Answer); 10] = [
    (Call::Modify(3, 9), Answer::Vacant(3, 1)),
    (
        Call::Add(Way::OrInsertWith, 3, 0, 8),
        Answer::Entry(None, (3, 0, 8)),
    ),
    (Call::Modify(3, 9), Answer::Found(Some((3, 0, 9)))),
    (
        Call::Add(Way::OrInsertWith, 3, 1, 7),
        Answer::Entry(None, (3, 0, 9)),
    ),
    (
        Call::Add(Way::OrInsertWithKey, 4, 0, 7),
        Answer::Entry(None, (4, 0, 4)),
    ),
    (Call::On(At::Key, Act::RemoveEntry, 4, 0), Answer::Yes(true)),
    (
        Call::Add(Way::OrDefault, 4, 2, 7),
        Answer::Entry(None, (4, 2, 0)),
    ),
    (
        Call::On(At::Any, Act::Look, 3, 0),
        Answer::Found(Some((3, 0, 9))),
    ),
    (Call::Place(1 << 63), Answer::Place(1, true)),
    (Call::Place(0), Answer::Place(0, true)),
];

#[test]
fn index_entries(rt: HostRuntime) {
    match hash_index::Owned::with_capacity_and_hasher(rt.alloc(), 64, SAME) {
        Ok(mut index) => expect_answers(&rt, &mut index, &INDEX_ENTRIES),
        Err(_) => expect(&rt, false),
    }
}

const SET_CALLS: [(Call, Answer); 10] = [
    (Call::Add(Way::Insert, 11, 7, 0), Answer::Added(None)),
    (
        Call::Add(Way::Insert, 11, 11, 0),
        Answer::Exists((11, 11, 0)),
    ),
    (Call::Read(11), Answer::Found(Some((11, 7, 0)))),
    (Call::Replace(11, 9), Answer::Swapped(Some(7), None)),
    (Call::Replace(12, 3), Answer::Swapped(None, None)),
    (Call::Read(12), Answer::Found(Some((12, 3, 0)))),
    (Call::RemoveIf(11), Answer::Found(None)),
    (Call::RemoveIf(12), Answer::Found(Some((12, 3, 0)))),
    (
        Call::On(At::First, Act::RemoveEntry, 0, 0),
        Answer::Found(Some((11, 9, 0))),
    ),
    (Call::Remove(11), Answer::Found(None)),
];

#[test]
fn set_calls(rt: HostRuntime) {
    expect_answers(
        &rt,
        &mut hash_set::Owned::with_hasher(rt.alloc(), ZERO),
        &SET_CALLS,
    );
}

// Walks add 1 to each value that they come to.
const MAP_WALKS: [(Call, Answer); 8] = [
    (Call::Fill(0, 16), Answer::Yes(true)),
    (Call::Retain(4), Answer::Yes(true)),
    (Call::Read(4), Answer::Found(None)),
    (Call::Read(5), Answer::Found(Some((5, 0, 6)))),
    (Call::Passes(12), Answer::Yes(true)),
    (Call::Passes(13), Answer::Yes(false)),
    (Call::Copy, Answer::Yes(true)),
    (Call::Remove(13), Answer::Found(Some((13, 0, 14)))),
];

#[test]
fn map_retain_removes_what_is_declined(rt: HostRuntime) {
    expect_answers(
        &rt,
        &mut hash_map::Owned::with_hasher(rt.alloc(), SAME),
        &MAP_WALKS,
    );
}
