// Maps under a rule: a value is made for a missing key alone, and threads that share such a map find what the rule
// says.
use crate::expect::{expect, expect_eq};
use scc_common::Anything;
use scc_shared::ruled_map::RuledMap;
use scc_uses::ruled::{
    Squares, TokenSessions, are_short, opened, renewed, square_of, sweep_sessions,
};
use std::process::Abort;
use std::sync::Wait;
use std::test::Fail;
use std::thread::{Threads, join};

type Numbers = RuledMap<u64, u64, Anything>;

/// Keys, each with a value that is made for it, and the value that the key has then.
const MADE: [(u64, u64, u64); 4] = [(4, 40, 40), (4, 41, 40), (5, 50, 50), (4, 42, 40)];

/// Keys, each with the value that is made for it, if it is made, and the value that the call returns then.
const TRIED: [(u64, Option<u64>, Option<u64>); 5] = [
    (4, None, None),
    (4, Some(40), Some(40)),
    (4, None, Some(40)),
    (4, Some(41), Some(40)),
    (5, None, None),
];

#[test]
fn a_value_is_made_for_a_missing_key(rt: HostRuntime) -> Result<(), Fail> {
    let map: Numbers = RuledMap::new(rt.alloc())?;
    let cloned: Numbers = RuledMap::new(rt.alloc())?;
    for (number, (key, value, wanted)) in MADE.iter().enumerate() {
        let found = map.get_or_insert_with(&rt, *key, |_| *value);
        expect_eq(&rt, (number, found), (number, *wanted));
        let found = cloned.get_or_insert_cloned(&rt, *key, |_| *value)?;
        expect_eq(&rt, (number, found), (number, *wanted));
    }
    expect_eq(&rt, (map.len(&rt), cloned.len(&rt)), (2, 2));
    Ok(())
}

#[test]
fn a_value_that_is_not_made_is_tried_again(rt: HostRuntime) -> Result<(), Fail> {
    let map: Numbers = RuledMap::new(rt.alloc())?;
    for (number, (key, value, wanted)) in TRIED.iter().enumerate() {
        let found = map
            .get_or_try_insert_with(&rt, *key, |_| value.ok_or(number))
            .ok();
        expect_eq(&rt, (number, found), (number, *wanted));
    }
    expect_eq(&rt, map.len(&rt), 1);
    Ok(())
}

/// Asks for the squares of a hundred numbers, and returns their sum.
fn sum_of_squares<R: Wait>(rt: &R, squares: &Squares) -> u64 {
    let mut sum = 0u64;
    for k in 0..100u64 {
        sum = sum.wrapping_add(square_of(rt, squares, k));
    }
    sum
}

fn two_sums<R: Threads + Wait + Sync>(rt: &R, squares: &Squares) -> (u64, u64) {
    join(
        rt,
        || sum_of_squares(rt, squares),
        || sum_of_squares(rt, squares),
    )
}

#[test]
fn threads_share_squares(rt: HostRuntime) -> Result<(), Fail> {
    let squares: Squares = RuledMap::new(rt.alloc())?;
    expect_eq(&rt, two_sums(&rt, &squares), (328_350, 328_350));
    expect_eq(&rt, squares.len(&rt), 100);
    Ok(())
}

/// Opens a session, lets it last until `now`, and returns how long that is.
fn lasts<R: Wait>(
    rt: &R,
    sessions: &TokenSessions,
    token: u64,
    begin: u64,
    now: u64,
) -> Option<u64> {
    opened(rt, sessions, token, begin)?;
    renewed(rt, sessions, token, now)
}

#[test]
fn sessions_of_tokens_last_and_are_swept(rt: HostRuntime) -> Result<(), Fail> {
    let sessions: TokenSessions = RuledMap::new(rt.alloc())?;
    expect_eq(&rt, lasts(&rt, &sessions, 7, 10, 15), Some(5));
    expect_eq(&rt, lasts(&rt, &sessions, 7, 12, 12), Some(5));
    expect_eq(&rt, lasts(&rt, &sessions, 8, 20, 40), Some(20));
    expect(
        &rt,
        are_short(&rt, &sessions, 21) && !are_short(&rt, &sessions, 20),
    );
    sweep_sessions(&rt, &sessions, 30);
    expect_eq(&rt, sessions.len(&rt), 1);
    Ok(())
}
