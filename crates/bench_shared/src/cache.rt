//! Steps over a shared cache that get a key, and put it if it is missing.
use crate::arguments::Request;
use crate::threads::{Outcome, run};
use bench_kit::arguments::out_of_memory;
use bench_kit::report::{threads_check, threads_line};
use bench_kit::streams::{Streams, value};
use scc_common::InsertError;
use scc_shared_cache::HashCache;
use std::alloc::{AllocError, Global};
use std::io;
use std::rt::Clock;
use std::sync::Wait;
use std::thread::Threads;

/// The greatest number of pairs of a cache.
const MOST: usize = 65_536;

const PEER: &str = "scc-shared-cache";

type Cache = HashCache<u64, u64>;

/// Returns the value of the key if it is present, and makes its pair the most recent of its bucket.
#[inline(always)]
fn get(rt: &impl Wait, cache: &Cache, key: u64) -> Option<u64> {
    match cache.get_sync(rt, &key) {
        Some(entry) => Some(*entry.get()),
        None => None,
    }
}

/// Gets each key, or else puts it. Returns the sum of the values, or, if `counted`, the number of present keys.
fn get_or_put_all(rt: &impl Wait, cache: &Cache, keys: &[u64], counted: bool) -> Option<u64> {
    let mut sum = 0u64;
    let mut hits = 0u64;
    for key in keys {
        match get(rt, cache, *key) {
            Some(found) => {
                sum = sum.wrapping_add(found);
                hits = hits.wrapping_add(1);
            }
            None => {
                match cache.put_sync(rt, *key, value(*key)) {
                    Ok(_) => {}
                    // Another thread has put it since.
                    Err(InsertError::Exists(_)) => {}
                    Err(InsertError::Memory(_)) => return None,
                }
                sum = sum.wrapping_add(value(*key));
            }
        }
    }
    if counted { Some(hits) } else { Some(sum) }
}

/// Returns the keys of each of `threads` threads, from step `from` on.
pub(crate) fn crew_keys(
    alloc: Global,
    streams: &Streams,
    threads: u64,
    from: u64,
) -> Result<Vec<Vec<u64>>, AllocError> {
    let mut all = Vec::new(alloc);
    for thread in 0..threads {
        all.push(streams.ranked_of(alloc, thread, from)?)?;
    }
    Ok(all)
}

fn go<R: Threads + Wait + Clock + Sync>(
    rt: &R,
    alloc: Global,
    cache: &Cache,
    keys: &[Vec<u64>],
    counted: bool,
) -> io::Result<Outcome> {
    run(
        rt,
        alloc,
        keys.len(),
        &|thread| match keys.get(thread) {
            Some(own) => get_or_put_all(rt, cache, own.as_slice(), counted),
            None => None,
        },
    )
}

/// Goes through the first steps in an empty cache, and measures the next ones.
fn run_once<R: Threads + Wait + Clock + Sync>(
    rt: &R,
    alloc: Global,
    first: &[Vec<u64>],
    next: &[Vec<u64>],
    counted: bool,
) -> io::Result<Outcome> {
    let Ok(cache) = HashCache::with_capacity(alloc, 0, MOST) else {
        return Err(out_of_memory());
    };
    go(rt, alloc, &cache, first, counted)?;
    go(rt, alloc, &cache, next, counted)
}

/// The first steps of each thread, and the next ones.
#[derive(Clone, Copy, Drop)]
struct Steps<'a> {
    first: &'a [Vec<u64>],
    next: &'a [Vec<u64>],
}

/// Prints how many of a hundred keys were present.
fn print_hits<R: Threads + Wait + Clock + Print + Sync>(
    rt: &R,
    alloc: Global,
    threads: u64,
    steps: Steps<'_>,
    count: u64,
) -> io::Result<()> {
    let hits = run_once(rt, alloc, steps.first, steps.next, true)?.sum;
    threads_line(
        rt,
        "hitrate",
        threads,
        PEER,
        hits.saturating_mul(100),
        count,
    )
}

/// Goes through the steps once, prints a line, and returns the sum.
fn run_and_print<R: Threads + Wait + Clock + Print + Sync>(
    rt: &R,
    alloc: Global,
    threads: u64,
    steps: Steps<'_>,
    count: u64,
) -> io::Result<u64> {
    let outcome = run_once(rt, alloc, steps.first, steps.next, false)?;
    threads_line(rt, "cache", threads, PEER, outcome.spent, count)?;
    Ok(outcome.sum)
}

/// Goes through the steps once to count the present keys, and then `runs` times.
fn go_often<R: Threads + Wait + Clock + Print + Sync>(
    rt: &R,
    alloc: Global,
    threads: u64,
    steps: Steps<'_>,
    request: Request,
) -> io::Result<()> {
    let count = request.streams.entries.saturating_mul(threads);
    print_hits(rt, alloc, threads, steps, count)?;
    let mut last = 0u64;
    for _ in 0..request.runs {
        last = run_and_print(rt, alloc, threads, steps, count)?;
    }
    threads_check(rt, "cache", threads, PEER, last)
}

/// Measures the workload with `threads` threads.
pub(crate) fn measure<R: Threads + Wait + Clock + Print + Sync>(
    rt: &R,
    alloc: Global,
    threads: u64,
    request: Request,
) -> io::Result<()> {
    let streams = &request.streams;
    let first = crew_keys(alloc, streams, threads, 0)?;
    let next = crew_keys(alloc, streams, threads, streams.entries)?;
    let steps = Steps {
        first: first.as_slice(),
        next: next.as_slice(),
    };
    go_often(rt, alloc, threads, steps, request)
}
