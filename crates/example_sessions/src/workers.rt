//! Workers that make a step on the sessions of the tokens that are theirs.
use crate::sessions::{Session, Sessions, expire, length, touch};
use crate::steps::Step;
use scc::InsertError;
use std::alloc::{AllocError, Global};
use std::io;
use std::sync::Wait;
use std::thread::{Threads, map_indices};

/// How many workers there are.
const WORKERS: usize = 4;

/// An odd number whose multiples are spread over all numbers: 2^64 divided by the golden ratio.
const SPREAD: u64 = 0x9E37_79B9_7F4A_7C15;

/// Returns `number` tokens, the same in each run of the program, and others for each `seed`.
pub fn draw_tokens(alloc: Global, seed: usize, number: usize) -> Result<Vec<u64>, AllocError> {
    let mut tokens = Vec::new(alloc);
    for place in 0..number {
        let drawn = (seed as u64).rotate_left(32) ^ place as u64;
        tokens.push(drawn.wrapping_mul(SPREAD))?;
    }
    Ok(tokens)
}

/// Makes the step on the session of a token, and returns what it counts for: the length of the session, or 1 if the step
/// met one.
fn make_one<R: Wait>(rt: &R, sessions: &Sessions, token: u64, step: Step) -> io::Result<u64> {
    let met = match step {
        Step::Open(_, span) => match sessions.insert_sync(rt, token, Session { token, span }) {
            Ok(()) => true,
            Err(InsertError::Exists(_)) => false,
            Err(error) => return Err(io::Error::from(error)),
        },
        Step::Touch(time) => touch(rt, sessions, token, time).is_some(),
        Step::Expire(now) => expire(rt, sessions, token, now).is_some(),
        Step::Lengths => return Ok(length(rt, sessions, token).unwrap_or(0)),
        Step::Count => sessions.contains_sync(rt, &token),
    };
    Ok(met as u64)
}

/// Makes the step on every fourth token, from the token number `worker` on, and adds up what they count for.
fn make_part<R: Wait>(
    rt: &R,
    sessions: &Sessions,
    tokens: &[u64],
    step: Step,
    worker: usize,
) -> io::Result<u64> {
    let mut met = 0u64;
    for token in tokens.iter().skip(worker).step_by(WORKERS) {
        met = met.saturating_add(make_one(rt, sessions, *token, step)?);
    }
    Ok(met)
}

/// Lets all workers make the step, each on its tokens, and adds up what their sessions count for.
pub fn make_step<R: Threads + Sync + Wait>(
    rt: &R,
    alloc: Global,
    sessions: &Sessions,
    tokens: &[u64],
    step: Step,
) -> io::Result<u64> {
    let parts = map_indices(
        rt,
        alloc,
        WORKERS,
        &|worker| { make_part(rt, sessions, tokens, step, worker) },
    )?;
    let mut met = 0u64;
    for part in parts {
        met = met.saturating_add(part?);
    }
    Ok(met)
}
