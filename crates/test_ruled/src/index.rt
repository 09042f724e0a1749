// Indexes under a rule: a clone of a snapshot goes on where the snapshot is, and a version that a thread keeps stays
// what it is.
use crate::expect::{expect, expect_eq};
use scc_common::{Anything, MakeError};
use scc_shared::ruled_index::RuledIndex;
use scc_uses::ruled_index::{
    Ways, hops_for_neighbours, lead_there, offer, shorten, way_to, withdraw,
};
use std::process::Abort;
use std::sync::Wait;
use std::test::Fail;
use std::thread::{Threads, join};

type Numbers = RuledIndex<u64, u64, Anything>;

/// Takes a snapshot of three pairs, and clones it after the first. Returns how many versions the clone and the rest of
/// the snapshot have.
fn rests<R: Wait>(rt: &R, index: &Numbers) -> Result<(usize, usize), MakeError> {
    for key in 0..3u64 {
        if index.insert_sync(rt, key, key).is_err() {
            return Err(MakeError);
        }
    }
    let mut versions = index.iter(rt)?;
    let _first = versions.next();
    let clone = versions.try_clone()?;
    Ok((clone.count(), versions.count()))
}

#[test]
fn clone_of_a_ruled_snapshot_has_its_rest(rt: HostRuntime) -> Result<(), Fail> {
    let index: Numbers = RuledIndex::with_capacity(rt.alloc(), 64)?;
    expect_eq(&rt, rests(&rt, &index)?, (2, 2));
    Ok(())
}

/// Offers ways to a hundred addresses, and returns how many were taken.
fn offered<R: Wait>(rt: &R, ways: &Ways, neighbour: u32) -> u32 {
    let mut taken = 0u32;
    for address in 0..100u32 {
        if offer(rt, ways, address, neighbour, 3) {
            taken = taken.wrapping_add(1);
        }
    }
    taken
}

fn both_offered<R: Threads + Wait + Sync>(rt: &R, ways: &Ways) -> u32 {
    let (first, second) = join(rt, || offered(rt, ways, 1), || offered(rt, ways, 2));
    first.wrapping_add(second)
}

#[test]
fn threads_share_ways(rt: HostRuntime) -> Result<(), Fail> {
    let ways: Ways = RuledIndex::new(rt.alloc())?;
    expect_eq(&rt, both_offered(&rt, &ways), 100);
    expect(
        &rt,
        !offer(&rt, &ways, 7, 3, 4) && !offer(&rt, &ways, 100, 3, 17),
    );
    let kept = way_to(&rt, &ways, 7)?;
    expect_eq(&rt, hops_for_neighbours(&rt, &ways, 7), Some(4));
    expect_eq(
        &rt,
        (
            shorten(&rt, &ways, 7, 1, 2),
            shorten(&rt, &ways, 7, 2, 5),
            shorten(&rt, &ways, 200, 2, 5),
        ),
        (Some(2), Some(2), Some(5)),
    );
    expect(&rt, lead_there(&rt, &ways)?);
    withdraw(&rt, &ways, 1);
    withdraw(&rt, &ways, 2);
    expect(&rt, ways.is_empty(&rt) && way_to(&rt, &ways, 7)?.is_none());
    match kept {
        Some(version) => expect_eq(&rt, version.value().address, 7),
        None => expect(&rt, false),
    }
    Ok(())
}
