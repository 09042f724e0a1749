// Caches under a rule: a value is made for a missing key alone, and evictions stay within the maximum and lose no pair.
use crate::expect::{expect, expect_eq};
use scc_common::Anything;
use scc_shared_cache::RuledCache;
use scc_uses::ruled_cache::{Answers, displaced, served, served_once};
use scc_uses::shared_requests::Service;
use std::process::Abort;
use std::sync::Wait;
use std::sync::atomic::{AtomicU64, Ordering};
use std::test::Fail;
use std::thread::{Threads, join};

type Numbers = RuledCache<u64, u64, Anything>;

/// A call that makes a value for 4 if it is missing, with the answer that it has to give.
enum Call {
    GetOrPut(u64, u64),
    GetOrTryPut(Result<u64, bool>, Result<u64, bool>),
    GetCloned(u64, u64),
    Remove(Option<(u64, u64)>),
}

const CALLS: [Call; 12] = [
    Call::GetOrTryPut(Err(true), Err(true)),
    Call::GetOrTryPut(Ok(40), Ok(40)),
    Call::GetOrTryPut(Err(true), Ok(40)),
    Call::GetOrPut(41, 40),
    Call::GetCloned(42, 40),
    Call::Remove(Some((4, 40))),
    Call::GetOrPut(43, 43),
    Call::GetOrTryPut(Ok(44), Ok(43)),
    Call::Remove(Some((4, 43))),
    Call::GetCloned(45, 45),
    Call::GetOrPut(46, 45),
    Call::Remove(Some((4, 45))),
];

/// Makes the call, and returns whether the answer is right.
fn is_right<R: Wait>(rt: &R, cache: &Numbers, call: &Call) -> bool {
    match call {
        Call::GetOrPut(value, found) => cache.get_or_put_with(rt, 4, |_| *value) == *found,
        Call::GetOrTryPut(made, found) => cache.get_or_try_put_with(rt, 4, |_| *made) == *found,
        Call::GetCloned(value, found) => cache.get_or_put_cloned(rt, 4, |_| *value) == *found,
        Call::Remove(pair) => cache.remove_sync(rt, &4) == *pair,
    }
}

#[test]
fn a_value_is_made_for_a_missing_key(rt: HostRuntime) -> Result<(), Fail> {
    let cache: Numbers = RuledCache::new(rt.alloc())?;
    for (number, call) in CALLS.iter().enumerate() {
        expect_eq(&rt, (number, is_right(&rt, &cache, call)), (number, true));
    }
    expect(&rt, cache.is_empty(&rt));
    Ok(())
}

/// A service whose answer is the double, and which counts how often it is asked.
#[derive(Drop)]
struct Doubling {
    asked: AtomicU64,
}

impl Service for Doubling {
    ghost use Rattle.std.specs.Prelude.{◌*◌, ◌%◌, ◌^◌};

    ghost answer_to = { λ request. (2 * request) % (2 ^ 64) };

    fn ask(&self, request: u64) -> u64 {
        self.asked.fetch_add(1, Ordering::Relaxed);
        request.wrapping_mul(2)
    }
}

/// Puts the answers to 1000 requests, and returns how many had to go, and whether each of these was right.
fn displacements<R: Wait>(
    rt: &R,
    service: &Doubling,
    answers: &Answers<Doubling>,
    from: u64,
) -> (u64, bool) {
    let mut count = 0u64;
    let mut right = true;
    for number in 0..1000u64 {
        match displaced(rt, service, answers, from.wrapping_add(number)) {
            Some((request, answer)) => {
                count = count.wrapping_add(1);
                right = right && answer == request.wrapping_mul(2);
            }
            None => {}
        }
    }
    (count, right)
}

fn two_displacements<R: Threads + Wait + Sync>(
    rt: &R,
    service: &Doubling,
    answers: &Answers<Doubling>,
) -> ((u64, bool), (u64, bool)) {
    join(
        rt,
        || displacements(rt, service, answers, 0),
        || displacements(rt, service, answers, 1000),
    )
}

#[test]
fn ruled_cache_stays_within_its_maximum(rt: HostRuntime) -> Result<(), Fail> {
    let service = Doubling {
        asked: AtomicU64::new(0),
    };
    let answers: Answers<Doubling> = RuledCache::new(rt.alloc())?;
    let (one, two) = two_displacements(&rt, &service, &answers);
    let len = answers.len(&rt) as u64;
    expect(&rt, one.1 && two.1 && len <= 256);
    expect_eq(&rt, one.0.wrapping_add(two.0).wrapping_add(len), 2000);
    Ok(())
}

#[test]
fn stored_answers_are_served(rt: HostRuntime) -> Result<(), Fail> {
    let service = Doubling {
        asked: AtomicU64::new(0),
    };
    let answers: Answers<Doubling> = RuledCache::new(rt.alloc())?;
    for _ in 0..2u64 {
        expect_eq(&rt, served(&rt, &service, &answers, 7), 14);
        expect_eq(&rt, served_once(&rt, &service, &answers, 8), 16);
    }
    expect_eq(&rt, service.asked.load(Ordering::Relaxed), 2);
    Ok(())
}
