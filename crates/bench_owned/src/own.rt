//! The workloads of an owned container: insertions, look-ups, writes, a walk and removals.
use crate::peer::Peer;
use bench_kit::report::{check, line, nanos};
use bench_kit::streams::{Streams, value};
use std::alloc::{AllocError, Global};
use std::io;
use std::rt::Clock;
use std::time::Instant;

/// The keys of the workloads, made before the clock starts.
#[derive(Drop)]
struct Lists {
    inserted: Vec<u64>,
    accessed: Vec<u64>,
    missing: Vec<u64>,
}

/// One of the workloads.
#[derive(Clone, Copy, Drop)]
enum Work {
    Insert,
    Hit,
    Miss,
    Update,
    Iterate,
    Remove,
}

impl Work {
    fn name(self) -> &'static str {
        match self {
            Work::Insert => "own_insert",
            Work::Hit => "own_hit",
            Work::Miss => "own_miss",
            Work::Update => "own_update",
            Work::Iterate => "own_iterate",
            Work::Remove => "own_remove",
        }
    }
}

/// The nanoseconds that a workload took, and its sum.
#[derive(Clone, Copy, Drop)]
struct Outcome {
    work: Work,
    spent: u64,
    sum: u64,
}

/// All workloads, in their order.
const WORKS: [Work; 6] = [
    Work::Insert,
    Work::Hit,
    Work::Miss,
    Work::Update,
    Work::Iterate,
    Work::Remove,
];

/// The outcome of a workload that was not gone through.
const NOTHING: Outcome = Outcome {
    work: Work::Insert,
    spent: 0,
    sum: 0,
};

fn make_lists(alloc: Global, streams: &Streams) -> Result<Lists, AllocError> {
    Ok(Lists {
        inserted: streams.inserted(alloc)?,
        accessed: streams.accessed(alloc)?,
        missing: streams.missing(alloc)?,
    })
}

fn insert_all<M: Peer>(map: &mut M, keys: &[u64]) -> io::Result<()> {
    for key in keys {
        map.insert(*key, value(*key))?;
    }
    Ok(())
}

fn sum_of_hits<M: Peer>(map: &M, keys: &[u64]) -> u64 {
    let mut sum = 0u64;
    for key in keys {
        if let Some(found) = map.get(*key) {
            sum = sum.wrapping_add(found);
        }
    }
    sum
}

fn count_misses<M: Peer>(map: &M, keys: &[u64]) -> u64 {
    let mut count = 0u64;
    for key in keys {
        if map.get(*key).is_none() {
            count = count.wrapping_add(1);
        }
    }
    count
}

fn bump_all<M: Peer>(map: &mut M, keys: &[u64]) -> u64 {
    let mut count = 0u64;
    for key in keys {
        count = count.wrapping_add(u64::from(map.bump(*key)));
    }
    count
}

fn remove_all<M: Peer>(map: &mut M, keys: &[u64]) -> u64 {
    let mut count = 0u64;
    for key in keys {
        count = count.wrapping_add(u64::from(map.remove(*key)));
    }
    count
}

/// Makes the calls of a workload, and returns its sum: the sum of the values read, or the number of the keys missed,
/// written or removed. Insertions return 0.
fn go<M: Peer>(map: &mut M, lists: &Lists, work: Work) -> io::Result<u64> {
    match work {
        Work::Insert => match insert_all(map, lists.inserted.as_slice()) {
            Ok(()) => Ok(0),
            Err(error) => Err(error),
        },
        Work::Hit => Ok(sum_of_hits(map, lists.accessed.as_slice())),
        Work::Miss => Ok(count_misses(map, lists.missing.as_slice())),
        Work::Update => Ok(bump_all(map, lists.accessed.as_slice())),
        Work::Iterate => Ok(map.sum()),
        Work::Remove => Ok(remove_all(map, lists.accessed.as_slice())),
    }
}

/// Goes through a workload on the clock. For insertions and removals the outcome also has the sum of the values left.
fn timed<M: Peer>(
    clock: &impl Clock,
    map: &mut M,
    lists: &Lists,
    work: Work,
) -> io::Result<Outcome> {
    let start = Instant::now(clock)?;
    let sum = go(map, lists, work)?;
    let spent = nanos(start.elapsed(clock)?);
    let left = match work {
        Work::Insert | Work::Remove => map.sum(),
        _ => 0,
    };
    Ok(Outcome {
        work,
        spent,
        sum: sum.wrapping_add(left),
    })
}

/// Goes through the workloads on an empty container.
fn run_all<M: Peer>(clock: &impl Clock, map: &mut M, lists: &Lists) -> io::Result<[Outcome; 6]> {
    let mut outcomes = [NOTHING; 6];
    for place in 0..6 {
        outcomes[place] = timed(clock, map, lists, WORKS[place])?;
    }
    Ok(outcomes)
}

/// Goes through the workloads once, on a new container.
fn run_once<M: Peer, C: Clock>(
    clock: &C,
    alloc: Global,
    lists: &Lists,
) -> io::Result<[Outcome; 6]> {
    let mut map: M = Peer::make(alloc);
    run_all(clock, &mut map, lists)
}

/// Prints the lines of a run.
fn print_lines(
    rt: &impl Print,
    peer: &str,
    outcomes: &[Outcome],
    streams: &Streams,
) -> io::Result<()> {
    for outcome in outcomes {
        let name = outcome.work.name();
        line(rt, name, peer, outcome.spent, streams.entries)?;
    }
    Ok(())
}

/// Prints the sums of a run. Beside another peer the sum of the walk is left out, since the walk comes after writes
/// that a set can't keep.
fn print_checks(
    rt: &impl Print,
    peer: &str,
    outcomes: &[Outcome],
    is_beside: bool,
) -> io::Result<()> {
    for outcome in outcomes {
        match outcome.work {
            Work::Iterate if is_beside => {}
            work => check(rt, work.name(), peer, outcome.sum)?,
        }
    }
    Ok(())
}

/// Goes through the workloads once, and prints a line for each if `is_measured`.
fn run_and_print<M: Peer, R: Clock + Print>(
    rt: &R,
    alloc: Global,
    peer: &str,
    is_measured: bool,
    streams: &Streams,
    lists: &Lists,
) -> io::Result<[Outcome; 6]> {
    let outcomes = run_once::<M, R>(rt, alloc, lists)?;
    if is_measured {
        print_lines(rt, peer, &outcomes, streams)?;
    }
    Ok(outcomes)
}

/// Goes through the workloads on a container and on another beside it, with the same keys.
fn go_beside<M: Peer, N: Peer, R: Clock + Print>(
    rt: &R,
    alloc: Global,
    peers: [&str; 2],
    runs: u64,
    streams: &Streams,
    lists: &Lists,
) -> io::Result<()> {
    let [first, second] = peers;
    let mut firsts = [NOTHING; 6];
    let mut seconds = [NOTHING; 6];
    for run in 0..=runs {
        firsts = run_and_print::<M, R>(rt, alloc, first, run > 0, streams, lists)?;
        seconds = run_and_print::<N, R>(rt, alloc, second, run > 0, streams, lists)?;
    }
    print_checks(rt, first, &firsts, true)?;
    print_checks(rt, second, &seconds, true)
}

/// Goes through the workloads on a container and on another beside it, in turn: once to warm up and then `runs` times.
/// Prints a line for each.
pub(crate) fn measure_beside<M: Peer, N: Peer, R: Clock + Print>(
    rt: &R,
    alloc: Global,
    peers: [&str; 2],
    runs: u64,
    streams: &Streams,
) -> io::Result<()> {
    let lists = make_lists(alloc, streams)?;
    go_beside::<M, N, R>(rt, alloc, peers, runs, streams, &lists)
}

/// Goes through the workloads once to warm up and then `runs` times, with the same keys.
fn go_alone<M: Peer, R: Clock + Print>(
    rt: &R,
    alloc: Global,
    peer: &str,
    runs: u64,
    streams: &Streams,
    lists: &Lists,
) -> io::Result<()> {
    let mut outcomes = [NOTHING; 6];
    for run in 0..=runs {
        outcomes = run_and_print::<M, R>(rt, alloc, peer, run > 0, streams, lists)?;
    }
    print_checks(rt, peer, &outcomes, false)
}

/// Goes through the workloads once to warm up and then `runs` times, and prints a line for each.
pub(crate) fn measure<M: Peer, R: Clock + Print>(
    rt: &R,
    alloc: Global,
    peer: &str,
    runs: u64,
    streams: &Streams,
) -> io::Result<()> {
    let lists = make_lists(alloc, streams)?;
    go_alone::<M, R>(rt, alloc, peer, runs, streams, &lists)
}
