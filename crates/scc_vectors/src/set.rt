// Tests of the single-threaded set.
use crate::expect::{expect, expect_eq};
use crate::reserving::{foreign_and_own_tokens, grows_and_gives_back, sizes_without_array};
use scc::Verdict;
use scc::hash_set::Owned;
use std::process::Abort;
use test_kit::masked::{Masked, SAME, ZERO};
use test_kit::maybe_equal::MaybeEqual;

const GREATEST: usize = 1 << 63;

/// Replaces a key. Returns the mark of the old key, with `None` inside if the key was missing, or `None` if the call
/// fails.
fn replace(set: &mut Owned<MaybeEqual, Masked>, number: u64, mark: u64) -> Option<Option<u64>> {
    match set.replace_sync(MaybeEqual(number, mark)) {
        Ok(Some(old)) => Some(Some(old.1)),
        Ok(None) => Some(None),
        Err(_) => None,
    }
}

/// Returns the mark of the stored key.
fn mark_of(set: &Owned<MaybeEqual, Masked>, number: u64) -> Option<u64> {
    set.read_sync(&MaybeEqual(number, 0), |key| key.1)
}

#[test]
fn set_replace_inserts_then_swaps(rt: HostRuntime) {
    let mut set = Owned::with_hasher(rt.alloc(), SAME);
    let replaced = [replace(&mut set, 11, 7), replace(&mut set, 11, 11)];
    expect_eq(
        &rt,
        (replaced, mark_of(&set, 11), set.len()),
        ([Some(None), Some(Some(7))], Some(11), 1),
    );
}

#[test]
fn set_try_from_iter_counts_once(rt: HostRuntime) {
    match Owned::<u64>::try_from_iter(rt.alloc(), [1, 1]) {
        Ok(set) => expect_eq(&rt, set.len(), 1),
        Err(_) => expect(&rt, false),
    }
}

/// Returns the first key, and the key that is then removed through its entry.
fn take_first(set: &mut Owned<u64>) -> Option<(u64, u64)> {
    match set.begin_sync() {
        Some(first) => {
            let key = *first.get();
            Some((key, first.remove_entry()))
        }
        None => None,
    }
}

#[test]
fn set_begin_get_remove_entry(rt: HostRuntime) {
    let mut set: Owned<u64> = Owned::new(rt.alloc());
    let is_inserted = set.insert_sync(42).is_ok();
    let taken = take_first(&mut set);
    expect_eq(
        &rt,
        (is_inserted, taken, set.len()),
        (true, Some((42, 42)), 0),
    );
}

/// Inserts 1, 2 and 3.
fn insert_three(set: &mut Owned<u64>) -> bool {
    for key in 1..4 {
        if set.insert_sync(key).is_err() {
            return false;
        }
    }
    true
}

/// Returns whether none of `keys` is present.
fn are_gone(set: &Owned<u64>, keys: &[u64]) -> bool {
    for key in keys {
        if set.contains_sync(key) {
            return false;
        }
    }
    true
}

/// Inserts 1, 2 and 3, and walks with a closure that stops at its first call. The walk must stop. `taken` keys are
/// removed, and `left` keys stay.
fn expect_stop<R: AllocGlobal + Abort>(rt: &R, verdict: Verdict, taken: usize, left: usize) {
    let mut set: Owned<u64> = Owned::new(rt.alloc());
    let mut keys = Vec::new(rt.alloc());
    let stopped = insert_three(&mut set) && set.iter_mut_sync(|_| verdict, &mut keys) == Ok(false);
    expect_eq(
        rt,
        (
            stopped,
            keys.len(),
            set.len(),
            are_gone(&set, keys.as_slice()),
        ),
        (true, taken, left, true),
    );
}

#[test]
fn set_iter_mut_take_stop_at_first(rt: HostRuntime) {
    expect_stop(&rt, Verdict::TakeStop, 1, 2);
}

#[test]
fn set_iter_mut_keep_stop_at_first(rt: HostRuntime) {
    expect_stop(&rt, Verdict::KeepStop, 0, 3);
}

/// Replaces each key below 40 by one whose mark is the number plus `above`. Returns whether each key had the mark
/// number plus `old`, or was missing if `old` is `None`.
fn replace_all(set: &mut Owned<MaybeEqual, Masked>, above: u64, old: Option<u64>) -> bool {
    for i in 0..40u64 {
        let wanted = match old {
            Some(mark) => Some(i.saturating_add(mark)),
            None => None,
        };
        if replace(set, i, i.saturating_add(above)) != Some(wanted) {
            return false;
        }
    }
    true
}

/// Returns whether each key below 40 is stored with the mark number plus `above`.
fn have_marks(set: &Owned<MaybeEqual, Masked>, above: u64) -> bool {
    for i in 0..40u64 {
        if mark_of(set, i) != Some(i.saturating_add(above)) {
            return false;
        }
    }
    true
}

#[test]
fn set_replace_under_one_hash_keeps_values(rt: HostRuntime) {
    let mut set = Owned::with_hasher(rt.alloc(), ZERO);
    let held = [
        replace_all(&mut set, 100, None),
        replace_all(&mut set, 200, Some(100)),
        have_marks(&set, 200),
    ];
    expect_eq(&rt, (held, set.len()), ([true; 3], 40));
}

#[test]
fn set_reserve_grows_and_gives_back(rt: HostRuntime) {
    match Owned::<u64>::with_capacity(rt.alloc(), 800) {
        Ok(mut set) => expect_eq(
            &rt,
            grows_and_gives_back(&mut set),
            (1024, 16_384, true, true, 1024),
        ),
        Err(_) => expect(&rt, false),
    }
}

#[test]
fn set_reserve_without_array(rt: HostRuntime) {
    let sizes = sizes_without_array(&mut Owned::<u64>::new(rt.alloc()));
    let wanted = [
        (0, 0, GREATEST),
        (0, 1000, GREATEST),
        (1024, 1000, GREATEST),
    ];
    expect_eq(&rt, sizes, Some(wanted));
}

#[test]
fn set_release_of_foreign_and_own_tokens(rt: HostRuntime) {
    let mut first: Owned<u64> = Owned::new(rt.alloc());
    let mut second: Owned<u64> = Owned::new(rt.alloc());
    expect(&rt, foreign_and_own_tokens(&mut first, &mut second));
}
