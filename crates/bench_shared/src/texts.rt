//! Insertions and reads of texts of 20 bytes, under a hasher for keys that others choose.
use crate::arguments::Request;
use crate::insertions::part_of;
use crate::threads::{Outcome, run};
use bench_kit::arguments::out_of_memory;
use bench_kit::report::{threads_check, threads_line};
use bench_kit::streams::value;
use scc_shared::map::HashMap;
use std::alloc::{AllocError, Global};
use std::hash::RandomState;
use std::io;
use std::rt::Clock;
use std::sync::Wait;
use std::thread::Threads;

type Texts = HashMap<String, u64, RandomState>;

const PEER: &str = "scc-shared";

/// A key as a text, with its value.
type Line = (String, u64);

/// Returns the keys as texts: their decimal digits, with zeros before them if there are fewer than 20.
fn lines_of(alloc: Global, keys: &[u64]) -> Result<Vec<Line>, AllocError> {
    let mut lines = Vec::new(alloc);
    for key in keys {
        let text = format!(in alloc; "{key:020}")?;
        lines.push((text, value(*key)))?;
    }
    Ok(lines)
}

fn empty(alloc: Global, hasher: RandomState) -> io::Result<Texts> {
    match HashMap::with_hasher(alloc, hasher) {
        Ok(map) => Ok(map),
        Err(_) => Err(out_of_memory()),
    }
}

/// Inserts a clone of each text. Returns 0, or `None` if memory was refused.
fn insert_all(rt: &impl Wait, map: &Texts, lines: &[Line]) -> Option<u64> {
    for (text, value) in lines {
        let key = text.clone().ok()?;
        if map.insert_sync(rt, key, *value).is_err() {
            return None;
        }
    }
    Some(0)
}

/// Returns the sum of the values of the texts. A missing text counts 0.
fn read_all(rt: &impl Wait, map: &Texts, lines: &[Line]) -> u64 {
    let mut sum = 0u64;
    for (text, _) in lines {
        let found = map.read_sync(rt, text, |_, value| *value).unwrap_or(0);
        sum = sum.wrapping_add(found);
    }
    sum
}

/// Returns the sum of all values.
fn sum_of_values(rt: &impl Wait, map: &Texts) -> u64 {
    let mut total = 0u64;
    map.iter_sync(rt, |_, value| {
        total = total.wrapping_add(*value);
        true
    });
    total
}

/// Fills an empty map, and returns the time that it took with the sum of its values.
fn insert_once<R: Threads + Wait + Clock + Sync>(
    rt: &R,
    alloc: Global,
    hasher: RandomState,
    lines: &[Line],
    threads: usize,
) -> io::Result<Outcome> {
    let map = empty(alloc, hasher)?;
    let outcome = run(
        rt,
        alloc,
        threads,
        &|thread| { insert_all(rt, &map, part_of(lines, thread, threads)) },
    )?;
    Ok(Outcome {
        spent: outcome.spent,
        sum: sum_of_values(rt, &map),
    })
}

/// Reads each text once, and returns the time that it took with the sum of the values read.
fn read_once<R: Threads + Wait + Clock + Sync>(
    rt: &R,
    alloc: Global,
    map: &Texts,
    lines: &[Line],
    threads: usize,
) -> io::Result<Outcome> {
    run(
        rt,
        alloc,
        threads,
        &|thread| { Some(read_all(rt, map, part_of(lines, thread, threads))) },
    )
}

/// Prints the line of a run unless it is to warm up, and its sum if it is the last run.
fn print_run<R: Print>(
    rt: &R,
    work: &str,
    threads: usize,
    outcome: Outcome,
    count: usize,
    place: Place,
) -> io::Result<()> {
    let threads = threads as u64;
    if place.number > 0 {
        threads_line(rt, work, threads, PEER, outcome.spent, count as u64)?;
    }
    if place.number == place.last {
        threads_check(rt, work, threads, PEER, outcome.sum)?;
    }
    Ok(())
}

/// The number of a run of a workload, and the number of its last run. Run 0 is to warm up.
#[derive(Clone, Copy, Drop)]
struct Place {
    number: u64,
    last: u64,
}

/// Measures insertions into empty maps by `threads` threads.
fn measure_insertions<R: Threads + Wait + Clock + Print + Sync>(
    rt: &R,
    alloc: Global,
    hasher: RandomState,
    lines: &[Line],
    threads: usize,
    last: u64,
) -> io::Result<()> {
    for number in 0..=last {
        let outcome = insert_once(rt, alloc, hasher, lines, threads)?;
        let place = Place { number, last };
        print_run(rt, "texts_insert", threads, outcome, lines.len(), place)?;
    }
    Ok(())
}

/// Measures reads by `threads` threads.
fn measure_reads<R: Threads + Wait + Clock + Print + Sync>(
    rt: &R,
    alloc: Global,
    map: &Texts,
    lines: &[Line],
    threads: usize,
    last: u64,
) -> io::Result<()> {
    for number in 0..=last {
        let outcome = read_once(rt, alloc, map, lines, threads)?;
        let place = Place { number, last };
        print_run(rt, "texts_read", threads, outcome, lines.len(), place)?;
    }
    Ok(())
}

/// The numbers of threads.
const THREAD_COUNTS: [usize; 3] = [1, 2, 4];

fn measure_all_insertions<R: Threads + Wait + Clock + Print + Sync>(
    rt: &R,
    alloc: Global,
    hasher: RandomState,
    request: Request,
) -> io::Result<()> {
    let keys = request.streams.inserted(alloc)?;
    let lines = lines_of(alloc, keys.as_slice())?;
    for threads in THREAD_COUNTS {
        measure_insertions(rt, alloc, hasher, lines.as_slice(), threads, request.runs)?;
    }
    Ok(())
}

fn measure_all_reads<R: Threads + Wait + Clock + Print + Sync>(
    rt: &R,
    alloc: Global,
    hasher: RandomState,
    request: Request,
) -> io::Result<()> {
    let keys = request.streams.accessed(alloc)?;
    let lines = lines_of(alloc, keys.as_slice())?;
    let map = empty(alloc, hasher)?;
    if insert_all(rt, &map, lines.as_slice()).is_none() {
        return Err(out_of_memory());
    }
    for threads in THREAD_COUNTS {
        measure_reads(rt, alloc, &map, lines.as_slice(), threads, request.runs)?;
    }
    Ok(())
}

/// Measures insertions and then reads.
pub(crate) fn measure<R: Threads + Wait + Clock + Print + Sync>(
    rt: &R,
    alloc: Global,
    hasher: RandomState,
    request: Request,
) -> io::Result<()> {
    measure_all_insertions(rt, alloc, hasher, request)?;
    measure_all_reads(rt, alloc, hasher, request)
}
