//! The time that single insertions take, including growths.
use crate::peer::Peer;
use bench_kit::arguments::out_of_memory;
use bench_kit::report::{check, nanos, print_quantiles};
use bench_kit::streams::{Streams, value};
use std::alloc::Global;
use std::io;
use std::rt::Clock;
use std::time::Instant;

/// Inserts a key, and returns the nanoseconds that the insertion took.
#[inline(always)]
fn insert_one<M: Peer>(clock: &impl Clock, map: &mut M, key: u64) -> io::Result<u64> {
    let start = Instant::now(clock)?;
    map.insert(key, value(key))?;
    Ok(nanos(start.elapsed(clock)?))
}

/// Inserts the keys, and returns the nanoseconds that each insertion took.
fn insert_timed<M: Peer>(
    clock: &impl Clock,
    alloc: Global,
    map: &mut M,
    keys: &[u64],
) -> io::Result<Vec<u64>> {
    let mut times = Vec::with_capacity(alloc, keys.len())?;
    for key in keys {
        let spent = insert_one(clock, map, *key)?;
        if times.push(spent).is_err() {
            return Err(out_of_memory());
        }
    }
    Ok(times)
}

/// The names of the lines.
const NAMES: [&str; 4] = ["tail_p50", "tail_p99", "tail_p999", "tail_max"];

/// The times of the insertions of a run, in rising order, and the sum of the values.
#[derive(Drop)]
struct Outcome {
    times: Vec<u64>,
    sum: u64,
}

/// Fills an empty map, and returns the times and the sum of its values.
fn run_once<M: Peer, C: Clock>(clock: &C, alloc: Global, keys: &[u64]) -> io::Result<Outcome> {
    let mut map: M = Peer::make(alloc);
    let mut times = insert_timed(clock, alloc, &mut map, keys)?;
    times.sort_unstable();
    let sum = map.sum();
    Ok(Outcome { times, sum })
}

/// Fills an empty map, prints what half, 99 %, 99.9 % and all of the insertions take at most if `is_measured`, and
/// returns the sum of the values.
fn run_and_print<M: Peer, R: Clock + Print>(
    rt: &R,
    alloc: Global,
    peer: &str,
    is_measured: bool,
    keys: &[u64],
) -> io::Result<u64> {
    let outcome = run_once::<M, R>(rt, alloc, keys)?;
    if is_measured {
        print_quantiles(rt, NAMES, peer, outcome.times.as_slice())?;
    }
    Ok(outcome.sum)
}

/// Fills an empty map with the same keys once to warm up and then `runs` times.
fn go<M: Peer, R: Clock + Print>(
    rt: &R,
    alloc: Global,
    peer: &str,
    runs: u64,
    keys: &[u64],
) -> io::Result<()> {
    let mut last = 0u64;
    for run in 0..=runs {
        last = run_and_print::<M, R>(rt, alloc, peer, run > 0, keys)?;
    }
    check(rt, "tail", peer, last)
}

/// Fills an empty map once to warm up and then `runs` times, and prints what half, 99 %, 99.9 % and all of the
/// insertions take at most.
pub(crate) fn measure<M: Peer, R: Clock + Print>(
    rt: &R,
    alloc: Global,
    peer: &str,
    runs: u64,
    streams: &Streams,
) -> io::Result<()> {
    let keys = streams.inserted(alloc)?;
    go::<M, R>(rt, alloc, peer, runs, keys.as_slice())
}
