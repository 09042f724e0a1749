//! The workloads of a cache of at most 65,536 pairs: steps that get a key or else put it, gets of present keys, and
//! puts that evict.
use bench_kit::arguments::out_of_memory;
use bench_kit::report::{check, line, nanos};
use bench_kit::streams::{Streams, value};
use scc_owned_cache::Owned;
use std::alloc::{AllocError, Global};
use std::io;
use std::rt::Clock;
use std::time::Instant;

/// The greatest number of pairs of a cache.
const MOST: usize = 65_536;

/// The number of keys of the gets, few enough that none is evicted.
const KEPT: u64 = 16_384;

/// The number of keys that fill each bucket of a cache, with a wide margin.
const FILLING: u64 = 131_072;

type Cache = Owned<u64, u64>;

/// The nanoseconds that a workload took, its sum, and the number of present keys or evicted pairs.
#[derive(Clone, Copy, Drop)]
struct Outcome {
    spent: u64,
    sum: u64,
    count: u64,
}

fn empty(alloc: Global) -> io::Result<Cache> {
    match Owned::with_capacity(alloc, 0, MOST) {
        Ok(cache) => Ok(cache),
        Err(_) => Err(out_of_memory()),
    }
}

/// Puts the key with its value, and returns whether a pair was evicted.
#[inline(always)]
fn put(cache: &mut Cache, key: u64) -> io::Result<bool> {
    match cache.put_sync(key, value(key)) {
        Ok(evicted) => Ok(evicted.is_some()),
        Err(_) => Err(out_of_memory()),
    }
}

/// Returns the value of the key if it is present, and makes its pair the most recent of its bucket.
#[inline(always)]
fn get(cache: &mut Cache, key: u64) -> Option<u64> {
    match cache.get_sync(&key) {
        Some(entry) => Some(*entry.get()),
        None => None,
    }
}

/// The sum of the values, and the number of present keys or evicted pairs.
type Told = (u64, u64);

/// Gets each key, or else puts it, and counts the keys that were present.
fn get_or_put_all(cache: &mut Cache, keys: &[u64]) -> io::Result<Told> {
    let mut sum = 0u64;
    let mut count = 0u64;
    for key in keys {
        match get(cache, *key) {
            Some(found) => {
                sum = sum.wrapping_add(found);
                count = count.wrapping_add(1);
            }
            None => {
                put(cache, *key)?;
                sum = sum.wrapping_add(value(*key));
            }
        }
    }
    Ok((sum, count))
}

/// Gets each key, and counts the keys that were present.
fn get_all(cache: &mut Cache, keys: &[u64]) -> Told {
    let mut sum = 0u64;
    let mut count = 0u64;
    for key in keys {
        if let Some(found) = get(cache, *key) {
            sum = sum.wrapping_add(found);
            count = count.wrapping_add(1);
        }
    }
    (sum, count)
}

/// Puts each key, and counts the pairs that were evicted.
fn put_all(cache: &mut Cache, keys: &[u64]) -> io::Result<Told> {
    let mut count = 0u64;
    for key in keys {
        if put(cache, *key)? {
            count = count.wrapping_add(1);
        }
    }
    Ok((count, count))
}

/// One of the workloads.
#[derive(Clone, Copy, Drop)]
enum Work {
    /// Steps that get a key or else put it.
    Step,
    /// Gets of few keys.
    Get,
    /// Puts that evict.
    Evict,
}

impl Work {
    fn name(self) -> &'static str {
        match self {
            Work::Step => "cache_t1",
            Work::Get => "cache_get",
            Work::Evict => "cache_evict",
        }
    }
}

/// The keys of a workload: `first` before the clock starts, and `measured` after.
#[derive(Drop)]
struct Keys {
    first: Vec<u64>,
    measured: Vec<u64>,
}

fn keys_of(alloc: Global, streams: &Streams, work: Work) -> Result<Keys, AllocError> {
    let entries = match work {
        Work::Step => streams.entries,
        Work::Get => KEPT,
        Work::Evict => FILLING,
    };
    let early = Streams {
        entries,
        seed: streams.seed,
    };
    let first = match work {
        Work::Step => early.ranked(alloc, 0)?,
        _ => early.inserted(alloc)?,
    };
    let measured = match work {
        Work::Step => early.ranked(alloc, entries)?,
        Work::Get => early.accessed(alloc)?,
        Work::Evict => streams.missing(alloc)?,
    };
    Ok(Keys { first, measured })
}

/// Makes the measured calls of a workload.
fn go(cache: &mut Cache, keys: &[u64], work: Work) -> io::Result<Told> {
    match work {
        Work::Step => get_or_put_all(cache, keys),
        Work::Get => Ok(get_all(cache, keys)),
        Work::Evict => put_all(cache, keys),
    }
}

/// Makes the calls of a workload before the clock starts.
fn warm(cache: &mut Cache, keys: &[u64], work: Work) -> io::Result<Told> {
    match work {
        Work::Step => get_or_put_all(cache, keys),
        _ => put_all(cache, keys),
    }
}

/// Goes through a workload in an empty cache, and measures it.
fn timed(clock: &impl Clock, cache: &mut Cache, keys: &Keys, work: Work) -> io::Result<Outcome> {
    warm(cache, keys.first.as_slice(), work)?;
    let start = Instant::now(clock)?;
    let (sum, count) = go(cache, keys.measured.as_slice(), work)?;
    let spent = nanos(start.elapsed(clock)?);
    Ok(Outcome { spent, sum, count })
}

/// Goes through a workload once, on a new cache.
fn run_once(clock: &impl Clock, alloc: Global, keys: &Keys, work: Work) -> io::Result<Outcome> {
    let mut cache = empty(alloc)?;
    timed(clock, &mut cache, keys, work)
}

/// Prints how many of a hundred keys were present, if the workload is one of steps.
fn print_hits(
    rt: &impl Print,
    peer: &str,
    work: Work,
    outcome: Outcome,
    count: u64,
) -> io::Result<()> {
    match work {
        Work::Step => line(
            rt,
            "hitrate_t1",
            peer,
            outcome.count.saturating_mul(100),
            count,
        ),
        _ => Ok(()),
    }
}

/// Goes through a workload once, prints its lines if `is_measured`, and returns its sum.
fn run_and_print<R: Clock + Print>(
    rt: &R,
    alloc: Global,
    peer: &str,
    is_measured: bool,
    keys: &Keys,
    work: Work,
) -> io::Result<u64> {
    let outcome = run_once(rt, alloc, keys, work)?;
    if is_measured {
        let count = keys.measured.len() as u64;
        line(rt, work.name(), peer, outcome.spent, count)?;
        print_hits(rt, peer, work, outcome, count)?;
    }
    Ok(outcome.sum)
}

/// Goes through a workload once to warm up and then `runs` times, with the same keys.
fn measure_with<R: Clock + Print>(
    rt: &R,
    alloc: Global,
    peer: &str,
    runs: u64,
    keys: &Keys,
    work: Work,
) -> io::Result<()> {
    let mut last = 0u64;
    for run in 0..=runs {
        last = run_and_print(rt, alloc, peer, run > 0, keys, work)?;
    }
    check(rt, work.name(), peer, last)
}

fn measure_one<R: Clock + Print>(
    rt: &R,
    alloc: Global,
    peer: &str,
    runs: u64,
    streams: &Streams,
    work: Work,
) -> io::Result<()> {
    let keys = keys_of(alloc, streams, work)?;
    measure_with(rt, alloc, peer, runs, &keys, work)
}

/// Goes through each workload once to warm up and then `runs` times, and prints a line for each time.
pub(crate) fn measure<R: Clock + Print>(
    rt: &R,
    alloc: Global,
    peer: &str,
    runs: u64,
    streams: &Streams,
) -> io::Result<()> {
    for work in [Work::Step, Work::Get, Work::Evict] {
        measure_one(rt, alloc, peer, runs, streams, work)?;
    }
    Ok(())
}
