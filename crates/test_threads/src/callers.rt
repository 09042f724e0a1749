// Callers of shared containers that several threads run: a store of sessions, an interner, a table of routes.
use crate::expect::{expect, expect_eq};
use scc_uses::routing::Route;
use scc_uses::session_store::SessionStore;
use scc_uses::shared_interner::SharedInterner;
use scc_uses::shared_routing::SharedRoutes;
use std::alloc::{AllocError, Global};
use std::process::Abort;
use std::sync::Wait;
use std::thread::{Threads, join, map_indices};
use test_kit::maybe_equal::MaybeEqual;

const SESSIONS: u64 = 400;

/// Begins the sessions of one parity, and returns the number of sessions that it could begin.
fn begins(rt: &impl Wait, store: &SessionStore, parity: u64) -> u64 {
    let mut begun = 0u64;
    for id in 0..SESSIONS {
        if id % 2 == parity && store.begin(rt, id, id).is_ok() {
            begun = begun.wrapping_add(1);
        }
    }
    begun
}

/// Removes the sessions that have ended by `now`, and returns their number.
fn expires(rt: &impl Wait, store: &SessionStore, now: u64) -> u64 {
    let mut gone = 0u64;
    for id in 0..SESSIONS {
        if store.expire(rt, id, now).is_some() {
            gone = gone.wrapping_add(1);
        }
    }
    gone
}

/// Two threads begin the sessions, each those of one parity. Returns how many each began.
fn begin_all<R: Threads + Wait + Sync>(rt: &R, store: &SessionStore) -> (u64, u64) {
    join(rt, || begins(rt, store, 0), || begins(rt, store, 1))
}

/// Begins session 7 again, and renews it twice. Returns whether it can't begin again, and until when it goes each time.
fn renewals(rt: &impl Wait, store: &SessionStore) -> (bool, [Option<u64>; 2]) {
    let is_refused = store.begin(rt, 7, 9).is_err();
    (
        is_refused,
        [store.renew(rt, 7, 1000), store.renew(rt, 7, 5)],
    )
}

/// Two threads remove the sessions that have ended by 99. Returns the number of all that they removed.
fn expire_most<R: Threads + Wait + Sync>(rt: &R, store: &SessionStore) -> u64 {
    let (one, other) = join(rt, || expires(rt, store, 99), || expires(rt, store, 99));
    one.wrapping_add(other)
}

#[test]
fn two_workers_share_a_session_store(rt: HostRuntime) {
    match SessionStore::new(rt.alloc()) {
        Ok(store) => {
            expect_eq(&rt, begin_all(&rt, &store), (200, 200));
            expect_eq(&rt, renewals(&rt, &store), (true, [Some(1000); 2]));
            expect_eq(&rt, expire_most(&rt, &store), 99);
            let last = [store.expire(&rt, 7, 999), store.expire(&rt, 7, 1000)];
            expect_eq(&rt, last, [None, Some((7, 1000))]);
        }
        Err(_) => expect(&rt, false),
    }
}

const WORDS: u64 = 500;

/// Interns each word twice, and returns the number of stored words that this thread brought, or `None` if a result is
/// wrong. Words are equal if their first fields are. The second field tells which thread brought the word.
fn interned(rt: &impl Wait, words: &SharedInterner<MaybeEqual>, thread: u64) -> Option<u64> {
    let mut brought = 0u64;
    for word in 0..WORDS {
        let first = words.intern(rt, MaybeEqual(word, thread)).ok()?;
        let again = words.intern(rt, MaybeEqual(word, 9)).ok()?;
        if first.0 != word || again.1 != first.1 {
            return None;
        }
        brought = brought.wrapping_add(u64::from(first.1 == thread));
    }
    Some(brought)
}

/// Returns the sum of the parts, or `None` if one is missing.
fn sum_of(parts: &[Option<u64>]) -> Option<u64> {
    let mut all = 0u64;
    for part in parts {
        match part {
            Some(part) => all = all.wrapping_add(*part),
            None => return None,
        }
    }
    Some(all)
}

/// Four threads intern the words. Returns the number of stored words that they brought.
fn interned_by_four<R: Threads + Wait + Sync>(
    rt: &R,
    alloc: Global,
    words: &SharedInterner<MaybeEqual>,
) -> Option<u64> {
    match map_indices(
        rt,
        alloc,
        4,
        &|thread| { interned(rt, words, thread as u64) },
    ) {
        Ok(brought) => sum_of(brought.as_slice()),
        Err(_) => None,
    }
}

#[test]
fn shared_interner_keeps_one_of_equals(rt: HostRuntime) {
    match SharedInterner::new(rt.alloc()) {
        Ok(words) => expect_eq(&rt, interned_by_four(&rt, rt.alloc(), &words), Some(WORDS)),
        Err(_) => expect(&rt, false),
    }
}

/// Returns routes of one hop and one metric to fifty destinations.
fn offers(
    alloc: Global,
    first: u32,
    next_hop: u32,
    metric: u32,
) -> Result<Vec<(u32, Route)>, AllocError> {
    let mut offers = Vec::new(alloc);
    for number in 0..50u32 {
        let destination = first.wrapping_add(number);
        offers.push((destination, Route { next_hop, metric }))?;
    }
    Ok(offers)
}

/// Returns the metric of the route to `destination`, or `None` if there is none or memory is refused.
fn metric_to(rt: &impl Wait, routes: &SharedRoutes, destination: u32) -> Option<u32> {
    match routes.look_up(rt, destination) {
        Ok(Some(route)) => Some(route.value().metric),
        _ => None,
    }
}

/// Two threads offer routes to fifty destinations each. Returns how many routes each brought in.
fn offer_in_both<R: Threads + Wait + Sync>(
    rt: &R,
    alloc: Global,
    routes: &SharedRoutes,
) -> Result<(Option<usize>, Option<usize>), AllocError> {
    let first = offers(alloc, 0, 1, 9)?;
    let second = offers(alloc, 100, 2, 5)?;
    let (by_first, by_second) = routes.offer_both(rt, first.as_slice(), second.as_slice());
    Ok((by_first.ok(), by_second.ok()))
}

/// Offers a better route to 7 twice. Returns whether it was taken each time.
fn offer_twice(rt: &impl Wait, routes: &SharedRoutes) -> [Option<bool>; 2] {
    let better = Route {
        next_hop: 3,
        metric: 4,
    };
    [
        routes.offer(rt, 7, better).ok(),
        routes.offer(rt, 7, better).ok(),
    ]
}

/// Looks the route to 7 up, and offers a better one twice. Returns whether it was taken each time, and the metric of
/// the route that was looked up before.
fn keep_across(rt: &impl Wait, routes: &SharedRoutes) -> Option<([Option<bool>; 2], u32)> {
    match routes.look_up(rt, 7) {
        Ok(Some(kept)) => {
            let taken = offer_twice(rt, routes);
            Some((taken, kept.value().metric))
        }
        _ => None,
    }
}

#[test]
fn shared_routes_by_two_threads(rt: HostRuntime) {
    match SharedRoutes::new(rt.alloc()) {
        Ok(routes) => {
            let offered = offer_in_both(&rt, rt.alloc(), &routes).ok();
            expect_eq(&rt, offered, Some((Some(50), Some(50))));
            let kept = keep_across(&rt, &routes);
            expect_eq(&rt, kept, Some(([Some(true), Some(false)], 9)));
            expect_eq(&rt, metric_to(&rt, &routes, 7), Some(4));
            routes.withdraw(&rt, 1);
            let left = [metric_to(&rt, &routes, 8), metric_to(&rt, &routes, 7)];
            expect_eq(&rt, left, [None, Some(4)]);
        }
        Err(_) => expect(&rt, false),
    }
}
