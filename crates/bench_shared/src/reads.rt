//! Reads and writes of present keys.
use crate::arguments::Request;
use crate::mixed::mix;
use crate::threads::{Outcome, run};
use bench_kit::arguments::out_of_memory;
use bench_kit::report::{threads_check, threads_line};
use bench_kit::steps::{Spread, Step, crew_steps};
use bench_kit::streams::{Streams, value};
use scc_shared::map::HashMap;
use std::alloc::Global;
use std::io;
use std::rt::Clock;
use std::sync::Wait;
use std::thread::Threads;

/// The map that is measured.
pub type Map = HashMap<u64, u64>;

/// The name of the map among the peers.
pub const PEER: &str = "scc-shared";

/// Fills a map, and returns whether there was memory.
fn fill(rt: &impl Wait, map: &Map, streams: &Streams) -> bool {
    for place in 0..streams.entries {
        let key = streams.inserted_key(place);
        if map.insert_sync(rt, key, value(key)).is_err() {
            return false;
        }
    }
    true
}

/// Returns a map of all inserted keys.
fn filled(rt: &impl Wait, alloc: Global, streams: &Streams) -> io::Result<Map> {
    match HashMap::new(alloc) {
        Ok(map) if fill(rt, &map, streams) => Ok(map),
        _ => Err(out_of_memory()),
    }
}

/// Returns the sum of all values.
pub(crate) fn sum_of_values(rt: &impl Wait, map: &Map) -> u64 {
    let mut total = 0u64;
    map.iter_sync(rt, |_, value| {
        total = total.wrapping_add(*value);
        true
    });
    total
}

/// Returns the value of a key, or 0 if the key is missing.
#[inline(always)]
pub(crate) fn read(rt: &impl Wait, map: &Map, key: u64) -> u64 {
    map.read_sync(rt, &key, |_, value| *value).unwrap_or(0)
}

/// Reads at the steps below `percent`, and writes at the others. Returns the sum of the values read, or `None` if
/// memory was refused.
fn read_or_write(rt: &impl Wait, map: &Map, steps: &[Step], percent: u64) -> Option<u64> {
    let mut sum = 0u64;
    for step in steps {
        if step.percentile < percent {
            sum = sum.wrapping_add(read(rt, map, step.key));
        } else if map.upsert_sync(rt, step.key, value(step.key)).is_err() {
            return None;
        }
    }
    Some(sum)
}

/// The calls of a workload's steps, the keys that they have, and the run whose sum is printed.
#[derive(Clone, Copy, Drop)]
pub struct Work {
    pub name: &'static str,
    pub spread: Spread,
    /// The percentile below which keys are read, and else written. `None` if they are inserted and removed too.
    pub percent: Option<u64>,
    pub checked: Checked,
}

/// Which run's sum is printed: the last run's, the warming run's, or none.
#[derive(Clone, Copy, Drop)]
pub enum Checked {
    Last,
    First,
    Never,
}

/// Goes through the steps of each thread once.
fn run_once<R: Threads + Wait + Clock + Sync>(
    rt: &R,
    alloc: Global,
    map: &Map,
    steps: &[Vec<Step>],
    percent: Option<u64>,
) -> io::Result<Outcome> {
    run(
        rt,
        alloc,
        steps.len(),
        &|thread| match (steps.get(thread), percent) {
            (Some(own), Some(percent)) => read_or_write(rt, map, own.as_slice(), percent),
            (Some(own), None) => mix(rt, map, own.as_slice()),
            (None, _) => None,
        },
    )
}

/// Goes through the steps once, prints the line of the run if `is_measured`, and returns the sum.
fn run_and_print<R: Threads + Wait + Clock + Print + Sync>(
    rt: &R,
    alloc: Global,
    map: &Map,
    steps: &[Vec<Step>],
    work: Work,
    is_measured: bool,
) -> io::Result<u64> {
    let threads = steps.len() as u64;
    let outcome = run_once(rt, alloc, map, steps, work.percent)?;
    if is_measured {
        let entries = match steps.first() {
            Some(own) => own.len() as u64,
            None => 0,
        };
        let count = entries.saturating_mul(threads);
        threads_line(rt, work.name, threads, PEER, outcome.spent, count)?;
    }
    Ok(outcome.sum)
}

/// Prints the sum of a run plus the sum of the map's values.
fn print_sum<R: Wait + Print>(
    rt: &R,
    map: &Map,
    work: Work,
    threads: u64,
    sum: u64,
) -> io::Result<()> {
    let sum = sum.wrapping_add(sum_of_values(rt, map));
    threads_check(rt, work.name, threads, PEER, sum)
}

/// Runs a workload on a map once to warm up and then `runs` times.
fn run_often<R: Threads + Wait + Clock + Print + Sync>(
    rt: &R,
    alloc: Global,
    map: &Map,
    steps: &[Vec<Step>],
    work: Work,
    runs: u64,
) -> io::Result<()> {
    let threads = steps.len() as u64;
    for run in 0..=runs {
        let sum = run_and_print(rt, alloc, map, steps, work, run > 0)?;
        let is_told = match work.checked {
            Checked::Last => run == runs,
            Checked::First => run == 0,
            Checked::Never => false,
        };
        if is_told {
            print_sum(rt, map, work, threads, sum)?;
        }
    }
    Ok(())
}

/// Runs a workload with `threads` threads.
pub(crate) fn measure_one<R: Threads + Wait + Clock + Print + Sync>(
    rt: &R,
    alloc: Global,
    threads: u64,
    request: Request,
    work: Work,
) -> io::Result<()> {
    let steps = crew_steps(alloc, &request.streams, work.spread, threads)?;
    let map = filled(rt, alloc, &request.streams)?;
    run_often(rt, alloc, &map, steps.as_slice(), work, request.runs)
}

/// Nineteen reads to a write.
const MOSTLY_READS: Work = Work {
    name: "shared_read95",
    spread: Spread::ReadMostly,
    percent: Some(95),
    checked: Checked::Last,
};

/// As many writes as reads.
const HALF_READS: Work = Work {
    name: "shared_read50",
    spread: Spread::Half,
    percent: Some(50),
    checked: Checked::Last,
};

/// Measures nineteen reads to a write, and then as many writes as reads.
pub(crate) fn measure<R: Threads + Wait + Clock + Print + Sync>(
    rt: &R,
    alloc: Global,
    threads: u64,
    request: Request,
) -> io::Result<()> {
    measure_one(rt, alloc, threads, request, MOSTLY_READS)?;
    measure_one(rt, alloc, threads, request, HALF_READS)
}
