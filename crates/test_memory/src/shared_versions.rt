// Versions of a shared index that are refused memory. `peek` adds an owner to a stored version, which asks for no
// memory. `peek` is refused only if a version has the greatest countable number of owners, more than any test can
// make.
use crate::expect::{expect, expect_eq};
use crate::versions::expect_versions;
use scc_owned::index::Iter;
use scc_owned::index::locked::Entry;
use scc_shared::index::HashIndex;
use std::io::Print;
use std::process::Abort;
use std::sync::Wait;
use test_kit::refusals::{Refusal, TRIES};
use test_kit::zero::Zero;

type Index = HashIndex<u64, u64, Zero>;

/// Returns an index of the keys 0 and 1, each with its complement as value.
fn of_two<R: AllocGlobal + Abort + Print + Wait>(rt: &R, refusal: &mut Refusal) -> Index {
    for _ in 0..TRIES {
        match HashIndex::try_from_iter(rt, rt.alloc(), [(0, !0), (1, !1)]) {
            Ok(index) => return index,
            Err(_) => refusal.meet(rt, "a shared index for two keys"),
        }
    }
    panic!(rt; "it is refused each time")
}

/// Sets the value of key 1 by its entry until the call isn't refused. While it is refused, the entry shows the old
/// value.
fn expect_updated<R: Abort + Print + Wait>(
    rt: &R,
    refusal: &mut Refusal,
    index: &Index,
    old: u64,
    value: u64,
) {
    let Some(mut entry) = index.get_sync(rt, &1) else {
        expect(rt, false);
        return;
    };
    for _ in 0..TRIES {
        match entry.update(value) {
            Ok(()) => break,
            Err(back) => {
                refusal.meet(rt, "an update of one shared entry");
                expect_eq(rt, (back, *entry.key(), *entry.get()), (value, 1, old));
            }
        }
    }
    expect_eq(rt, (*entry.key(), *entry.get()), (1, value));
}

/// Publishes the value of key 1 with its lowest bit flipped. If it is refused, the entry comes back as it was with the
/// value that the closure returned, and publishes that value by its next calls.
fn expect_modified<R: Abort + Print + Wait>(rt: &R, refusal: &mut Refusal, index: &Index) {
    match index.entry_sync(rt, 1).and_modify(|value| *value ^ 1) {
        Ok(entry) => expect_eq(rt, *entry.key(), 1),
        Err(back) => {
            refusal.meet(rt, "a modification of one shared entry");
            let value = back.1;
            let back = back.0;
            match back {
                Entry::Occupied(mut entry) => {
                    expect_eq(rt, (*entry.key(), *entry.get(), value), (1, !1, !1 ^ 1));
                    for _ in 0..TRIES {
                        if entry.update(value).is_ok() {
                            break;
                        }
                        refusal.meet(rt, "a shared update after a refused modification");
                        expect_eq(rt, *entry.get(), !1);
                    }
                }
                Entry::Vacant(_) => expect(rt, false),
            }
        }
    }
}

/// A peeked version stays as it was, whatever is refused after it.
#[test]
fn a_refused_shared_entry_publishes_by_its_next_call(rt: HostRuntime) {
    let mut refusal = Refusal::new();
    let index = of_two(&rt, &mut refusal);
    let peeked = index.peek(&rt, &1);
    expect_modified(&rt, &mut refusal, &index);
    expect_updated(&rt, &mut refusal, &index, !1 ^ 1, 7);
    expect_eq(&rt, index.peek_with(&rt, &1, |_, value| *value), Some(7));
    match &peeked {
        Ok(Some(version)) => expect_eq(&rt, (*version.key(), *version.value()), (1, !1)),
        _ => expect(&rt, false),
    }
}

/// Checks a clone of the versions, and then the versions themselves, once the index is empty.
fn expect_cloned<R: Abort + Print + Wait>(
    rt: &R,
    refusal: &mut Refusal,
    index: &Index,
    versions: Iter<u64, u64>,
) {
    for _ in 0..TRIES {
        match versions.try_clone() {
            Ok(again) => {
                index.clear_sync(rt);
                expect_versions(rt, again);
                return expect_versions(rt, versions);
            }
            Err(_) => refusal.meet(rt, "a clone of a snapshot of a shared index"),
        }
        expect_eq(rt, index.len(rt), 2);
    }
    expect(rt, false);
}

/// A snapshot and its clone keep their versions, whatever happens to the index.
#[test]
fn a_refused_clone_of_a_snapshot_leaves_the_shared_snapshot(rt: HostRuntime) {
    let mut refusal = Refusal::new();
    let index = of_two(&rt, &mut refusal);
    for _ in 0..TRIES {
        match index.iter(&rt) {
            Ok(versions) => return expect_cloned(&rt, &mut refusal, &index, versions),
            Err(_) => refusal.meet(&rt, "a snapshot of a shared index"),
        }
        expect_eq(&rt, index.len(&rt), 2);
    }
    expect(&rt, false);
}
