// Tests of the single-threaded index.
use crate::expect::{expect, expect_eq};
use crate::reserving::{foreign_and_own_tokens, grows_and_gives_back, sizes_without_array};
use scc::hash_index::Owned;
use scc::hash_index::owned::Iter;
use std::process::Abort;

const GREATEST: usize = 1 << 63;

/// Returns the value of `key`.
fn value_of(index: &Owned<u64, u64>, key: u64) -> Option<u64> {
    index.peek_with(&key, |_, value| *value)
}

#[test]
fn index_try_from_iter_first_wins(rt: HostRuntime) {
    match Owned::<u64, u64>::try_from_iter(rt.alloc(), [(1, 10), (1, 20)]) {
        Ok(index) => expect_eq(
            &rt,
            (value_of(&index, 1), index.len(), index.capacity()),
            (Some(10), 1, 64),
        ),
        Err(_) => expect(&rt, false),
    }
}

/// Returns the value of the next version, or `None` after the last.
fn next_value(versions: &mut Iter<u64, u64>) -> Option<u64> {
    match versions.next() {
        Some(version) => Some(*version.value()),
        None => None,
    }
}

/// Sets the value of `key`, and returns whether the key was present and now has `value`.
fn update(index: &mut Owned<u64, u64>, key: u64, value: u64) -> bool {
    match index.get_sync(&key) {
        Some(mut entry) => entry.update(value).is_ok(),
        None => false,
    }
}

/// Returns the first three values of a snapshot that is taken before the key's value is updated, and whether the update
/// succeeds.
fn update_beside_snapshot(
    index: &mut Owned<u64, u64>,
    key: u64,
    value: u64,
) -> ([Option<u64>; 3], bool) {
    match index.iter() {
        Ok(mut versions) => {
            let is_updated = update(index, key, value);
            let came = [
                next_value(&mut versions),
                next_value(&mut versions),
                next_value(&mut versions),
            ];
            (came, is_updated)
        }
        Err(_) => ([None; 3], false),
    }
}

#[test]
fn index_snapshot_keeps_old_version(rt: HostRuntime) {
    let mut index: Owned<u64, u64> = Owned::new(rt.alloc());
    let is_inserted = index.entry_sync(37).or_insert(11).is_ok();
    let came = update_beside_snapshot(&mut index, 37, 29);
    expect_eq(
        &rt,
        (is_inserted, came, value_of(&index, 37)),
        (true, ([Some(11), None, None], true), Some(29)),
    );
}

/// Removes the first entry and the entry that follows it. Returns both keys, and whether no entry followed the second.
fn take_both(index: &mut Owned<u64, u64>) -> Option<(u64, u64, bool)> {
    let Some(first) = index.begin_sync() else {
        return None;
    };
    let one = *first.key();
    let Some(second) = first.remove_and_sync() else {
        return None;
    };
    let other = *second.key();
    Some((one, other, second.remove_and_sync().is_none()))
}

#[test]
fn index_remove_and_next(rt: HostRuntime) {
    let mut index: Owned<u64, u64> = Owned::new(rt.alloc());
    let is_filled = index.insert_sync(1, 0).is_ok() && index.insert_sync(2, 0).is_ok();
    let taken = take_both(&mut index);
    let are_taken = taken == Some((1, 2, true)) || taken == Some((2, 1, true));
    expect_eq(&rt, (is_filled, are_taken, index.len()), (true, true, 0));
}

#[test]
fn index_reserve_grows_and_gives_back(rt: HostRuntime) {
    match Owned::<u64, u64>::with_capacity(rt.alloc(), 800) {
        Ok(mut index) => expect_eq(
            &rt,
            grows_and_gives_back(&mut index),
            (1024, 16_384, true, true, 1024),
        ),
        Err(_) => expect(&rt, false),
    }
}

#[test]
fn index_reserve_without_array(rt: HostRuntime) {
    let sizes = sizes_without_array(&mut Owned::<u64, u64>::new(rt.alloc()));
    let wanted = [
        (0, 0, GREATEST),
        (0, 1000, GREATEST),
        (1024, 1000, GREATEST),
    ];
    expect_eq(&rt, sizes, Some(wanted));
}

#[test]
fn index_release_of_foreign_and_own_tokens(rt: HostRuntime) {
    let mut first: Owned<u64, u64> = Owned::new(rt.alloc());
    let mut second: Owned<u64, u64> = Owned::new(rt.alloc());
    expect(&rt, foreign_and_own_tokens(&mut first, &mut second));
}
