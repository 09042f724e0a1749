//! Peeks into an index that nobody writes.
use crate::arguments::Request;
use crate::threads::{Outcome, run};
use bench_kit::arguments::out_of_memory;
use bench_kit::report::{threads_check, threads_line};
use bench_kit::streams::{Streams, value};
use scc_shared::index::HashIndex;
use std::alloc::Global;
use std::io;
use std::rt::Clock;
use std::sync::Wait;
use std::thread::Threads;

type Index = HashIndex<u64, u64>;

const PEER: &str = "scc-shared-index";

/// Fills the index, and returns whether there was memory.
fn fill(rt: &impl Wait, index: &Index, streams: &Streams) -> bool {
    for place in 0..streams.entries {
        let key = streams.inserted_key(place);
        if index.insert_sync(rt, key, value(key)).is_err() {
            return false;
        }
    }
    true
}

fn filled(rt: &impl Wait, alloc: Global, streams: &Streams) -> io::Result<Index> {
    match HashIndex::new(alloc) {
        Ok(index) if fill(rt, &index, streams) => Ok(index),
        _ => Err(out_of_memory()),
    }
}

/// Returns the sum of the values of the keys.
fn peek_all(rt: &impl Wait, index: &Index, keys: &[u64]) -> u64 {
    let mut sum = 0u64;
    for key in keys {
        if let Some(found) = index.peek_with(rt, key, |_, value| *value) {
            sum = sum.wrapping_add(found);
        }
    }
    sum
}

/// Peeks at all keys. Each thread starts at a place of its own and goes round.
fn run_once<R: Threads + Wait + Clock + Sync>(
    rt: &R,
    alloc: Global,
    index: &Index,
    keys: &[u64],
    threads: usize,
) -> io::Result<Outcome> {
    run(
        rt,
        alloc,
        threads,
        &|thread| {
            let from = thread.saturating_mul(keys.len().checked_div(threads).unwrap_or(0));
            let (late, early) = keys.split_at(from.min(keys.len()));
            let first = peek_all(rt, index, early);
            Some(first.wrapping_add(peek_all(rt, index, late)))
        },
    )
}

/// Peeks at all keys once, prints a line if `is_measured`, and returns the sum.
fn run_and_print<R: Threads + Wait + Clock + Print + Sync>(
    rt: &R,
    alloc: Global,
    index: &Index,
    keys: &[u64],
    threads: u64,
    is_measured: bool,
) -> io::Result<u64> {
    let outcome = run_once(rt, alloc, index, keys, threads as usize)?;
    if is_measured {
        let count = (keys.len() as u64).saturating_mul(threads);
        threads_line(rt, "index_peek", threads, PEER, outcome.spent, count)?;
    }
    Ok(outcome.sum)
}

fn measure_one<R: Threads + Wait + Clock + Print + Sync>(
    rt: &R,
    alloc: Global,
    index: &Index,
    keys: &[u64],
    threads: u64,
    runs: u64,
) -> io::Result<()> {
    let mut last = 0u64;
    for run in 0..=runs {
        last = run_and_print(rt, alloc, index, keys, threads, run > 0)?;
    }
    threads_check(rt, "index_peek", threads, PEER, last)
}

/// Measures one thread and four.
fn measure_both<R: Threads + Wait + Clock + Print + Sync>(
    rt: &R,
    alloc: Global,
    index: &Index,
    keys: &[u64],
    runs: u64,
) -> io::Result<()> {
    measure_one(rt, alloc, index, keys, 1, runs)?;
    measure_one(rt, alloc, index, keys, 4, runs)
}

/// Fills an index, and measures peeks at its keys.
pub(crate) fn measure<R: Threads + Wait + Clock + Print + Sync>(
    rt: &R,
    alloc: Global,
    request: Request,
) -> io::Result<()> {
    let keys = request.streams.accessed(alloc)?;
    let index = filled(rt, alloc, &request.streams)?;
    measure_both(rt, alloc, &index, keys.as_slice(), request.runs)
}
