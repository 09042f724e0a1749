//! Insertions into an empty map by several threads, together and one by one.
use crate::arguments::Request;
use crate::reads::{Map, PEER, sum_of_values};
use crate::threads::{Outcome, run};
use bench_kit::arguments::out_of_memory;
use bench_kit::report::{nanos, print_quantiles, threads_check, threads_line};
use bench_kit::streams::value;
use scc_shared::map::HashMap;
use std::alloc::Global;
use std::io;
use std::rt::Clock;
use std::sync::Wait;
use std::thread::{Threads, map_indices};
use std::time::Instant;

/// The number of threads in the group of single insertions.
const THREADS: usize = 4;

fn empty(alloc: Global) -> io::Result<Map> {
    match HashMap::new(alloc) {
        Ok(map) => Ok(map),
        Err(_) => Err(out_of_memory()),
    }
}

/// Returns the keys of one of `threads` threads. Each thread has equally many in a row.
pub(crate) fn part_of<K>(keys: &[K], thread: usize, threads: usize) -> &[K] {
    let each = keys.len().checked_div(threads).unwrap_or(0);
    let from = thread.saturating_mul(each);
    keys.get(from..from.saturating_add(each)).unwrap_or(&[])
}

fn insert_all(rt: &impl Wait, map: &Map, keys: &[u64]) -> Option<u64> {
    for key in keys {
        if map.insert_sync(rt, *key, value(*key)).is_err() {
            return None;
        }
    }
    Some(0)
}

/// Fills an empty map, and returns the time that it took with the sum of its values.
fn run_once<R: Threads + Wait + Clock + Sync>(
    rt: &R,
    alloc: Global,
    keys: &[u64],
    threads: usize,
) -> io::Result<Outcome> {
    let map = empty(alloc)?;
    let outcome = run(
        rt,
        alloc,
        threads,
        &|thread| { insert_all(rt, &map, part_of(keys, thread, threads)) },
    )?;
    Ok(Outcome {
        spent: outcome.spent,
        sum: sum_of_values(rt, &map),
    })
}

/// Fills an empty map, prints a line if `is_measured`, and returns the sum of its values.
fn run_and_print<R: Threads + Wait + Clock + Print + Sync>(
    rt: &R,
    alloc: Global,
    keys: &[u64],
    threads: u64,
    is_measured: bool,
) -> io::Result<u64> {
    let outcome = run_once(rt, alloc, keys, threads as usize)?;
    if is_measured {
        let count = keys.len() as u64;
        threads_line(rt, "shared_insert", threads, PEER, outcome.spent, count)?;
    }
    Ok(outcome.sum)
}

/// Fills an empty map with the same keys once to warm up and then `runs` times.
fn run_often<R: Threads + Wait + Clock + Print + Sync>(
    rt: &R,
    alloc: Global,
    keys: &[u64],
    threads: u64,
    runs: u64,
) -> io::Result<()> {
    let mut last = 0u64;
    for run in 0..=runs {
        last = run_and_print(rt, alloc, keys, threads, run > 0)?;
    }
    threads_check(rt, "shared_insert", threads, PEER, last)
}

/// Measures insertions by `threads` threads.
pub(crate) fn measure<R: Threads + Wait + Clock + Print + Sync>(
    rt: &R,
    alloc: Global,
    threads: u64,
    request: Request,
) -> io::Result<()> {
    let keys = request.streams.inserted(alloc)?;
    run_often(rt, alloc, keys.as_slice(), threads, request.runs)
}

/// Inserts a key, and returns the nanoseconds that the insertion took, or `None` if memory was refused or the clock
/// can't be read.
#[inline(always)]
fn insert_one<R: Wait + Clock>(rt: &R, map: &Map, key: u64) -> Option<u64> {
    let start = Instant::now(rt).ok()?;
    if map.insert_sync(rt, key, value(key)).is_err() {
        return None;
    }
    Some(nanos(start.elapsed(rt).ok()?))
}

/// Returns the time of each insertion of a part.
fn insert_timed<R: Wait + Clock>(
    rt: &R,
    alloc: Global,
    map: &Map,
    keys: &[u64],
) -> Option<Vec<u64>> {
    let mut times = Vec::with_capacity(alloc, keys.len()).ok()?;
    for key in keys {
        let spent = insert_one(rt, map, *key)?;
        times.push(spent).ok()?;
    }
    Some(times)
}

/// Adds the times of a part to `all`, or returns an error if a part was refused memory.
fn add_times(all: &mut Vec<u64>, part: &Option<Vec<u64>>) -> io::Result<()> {
    match part {
        Some(times) => match all.extend_from_slice(times.as_slice()) {
            Ok(()) => Ok(()),
            Err(_) => Err(out_of_memory()),
        },
        None => Err(out_of_memory()),
    }
}

/// Returns the times of all parts, in rising order.
fn joined(alloc: Global, parts: &[Option<Vec<u64>>]) -> io::Result<Vec<u64>> {
    let mut all = Vec::new(alloc);
    for part in parts {
        add_times(&mut all, part)?;
    }
    all.sort_unstable();
    Ok(all)
}

/// Fills an empty map by four threads, and returns the time of each insertion, in rising order.
fn times_of<R: Threads + Wait + Clock + Sync>(
    rt: &R,
    alloc: Global,
    keys: &[u64],
) -> io::Result<Vec<u64>> {
    let map = empty(alloc)?;
    let parts = map_indices(
        rt,
        alloc,
        THREADS,
        &|thread| { insert_timed(rt, alloc, &map, part_of(keys, thread, THREADS)) },
    )?;
    joined(alloc, parts.as_slice())
}

/// The names of the lines of single insertions.
const NAMES: [&str; 4] = ["tail4_p50", "tail4_p99", "tail4_p999", "tail4_max"];

/// Fills an empty map by four threads, and prints what half, 99 %, 99.9 % and all of the single insertions take at
/// most, if `is_measured`.
fn print_tail<R: Threads + Wait + Clock + Print + Sync>(
    rt: &R,
    alloc: Global,
    keys: &[u64],
    is_measured: bool,
) -> io::Result<()> {
    let times = times_of(rt, alloc, keys)?;
    if is_measured {
        print_quantiles(rt, NAMES, PEER, times.as_slice())
    } else {
        Ok(())
    }
}

/// Measures single insertions once to warm up and then `runs` times.
pub(crate) fn measure_tail<R: Threads + Wait + Clock + Print + Sync>(
    rt: &R,
    alloc: Global,
    request: Request,
) -> io::Result<()> {
    let keys = request.streams.inserted(alloc)?;
    for run in 0..=request.runs {
        print_tail(rt, alloc, keys.as_slice(), run > 0)?;
    }
    Ok(())
}
