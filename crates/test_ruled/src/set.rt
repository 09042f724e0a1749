// Sets under a rule: threads share such a set, and of equal items the first stays.
use crate::expect::{expect, expect_eq};
use scc_common::Anything;
use scc_shared_set::RuledSet;
use scc_uses::ruled_set::{Evens, half_of, insert_double, take_first_half, take_half};
use std::process::Abort;
use std::sync::Wait;
use std::test::Fail;
use std::thread::{Threads, join};
use test_kit::maybe_equal::MaybeEqual;

/// Inserts the doubles of the numbers below 100, and returns how many were new.
fn doubled<R: Wait>(rt: &R, evens: &Evens) -> u64 {
    let mut new = 0u64;
    for half in 0..100u64 {
        if insert_double(rt, evens, half) {
            new = new.wrapping_add(1);
        }
    }
    new
}

fn both_doubled<R: Threads + Wait + Sync>(rt: &R, evens: &Evens) -> u64 {
    let (first, second) = join(rt, || doubled(rt, evens), || doubled(rt, evens));
    first.wrapping_add(second)
}

#[test]
fn threads_share_evens(rt: HostRuntime) -> Result<(), Fail> {
    let evens: Evens = RuledSet::new(rt.alloc())?;
    expect_eq(&rt, both_doubled(&rt, &evens), 100);
    expect_eq(&rt, half_of(&rt, &evens, 14), Some(7));
    expect_eq(&rt, take_half(&rt, &evens, 14), Some(7));
    expect_eq(&rt, half_of(&rt, &evens, 14), None);
    expect(&rt, take_first_half(&rt, &evens).is_some());
    expect_eq(&rt, evens.len(&rt), 98);
    Ok(())
}

#[test]
fn ruled_set_of_items_keeps_the_first_of_equals(rt: HostRuntime) -> Result<(), Fail> {
    let items = [MaybeEqual(1, 10), MaybeEqual(2, 20), MaybeEqual(1, 30)];
    let set: RuledSet<MaybeEqual, Anything> = RuledSet::try_from_iter(&rt, rt.alloc(), items)?;
    let first = set.read_sync(&rt, &MaybeEqual(1, 0), |key| key.1);
    expect_eq(&rt, (set.len(&rt), first), (2, Some(10)));
    Ok(())
}
