//! Serves the requests of standard input by four workers, which share one cache before a service, once for each of
//! several bounds of the cache.
//!
//! A line `FIRST COUNT STEP` stands for COUNT requests: FIRST, FIRST + STEP and so on. Prints for each bound how many
//! requests were served, the sum of the answers, and whether the cache never kept more than its bound. How often the
//! cache knew the answer depends on how the workers interleave, so this goes to standard error.
//!
//! The status is 2 if a line isn't three numbers, and this line is named; 3 if memory is refused; and 4 if a stream
//! fails.
#![tactic(auto)]

mod input;
mod service;
mod serving;
mod workers;

use input::{Input, Line, read_lines};
use std::alloc::Global;
use std::io::{self, Read};
use std::process::ExitCode;
use std::sync::Wait;
use std::thread::Threads;
use workers::{Served, serve_all};

/// The bounds of the cache, in slots: powers of two, at least 64.
const BOUNDS: [usize; 4] = [64, 256, 1024, 4096];

/// Prints what the workers did with a cache of `bound` slots.
fn print_served<R: Print + Eprint>(rt: &R, bound: usize, served: Served) -> io::Result<()> {
    let (hits, misses, evictions) = (
        served.tally.hits,
        served.tally.misses,
        served.tally.evictions,
    );
    let (requests, sum) = (hits.saturating_add(misses), served.sum);
    let kept = if served.most <= bound {
        "never"
    } else {
        "at least once"
    };
    println!(rt;
        "bound {bound}: {requests} requests served, sum {sum}, {kept} more than {bound} answers kept"
    )?;
    eprintln!(rt; "bound {bound}: {hits} hits, {misses} misses, {evictions} evictions")?;
    Ok(())
}

/// Serves the requests of all lines once for each bound.
fn serve_by_bounds<R: Threads + Sync + Wait + Print + Eprint>(
    rt: &R,
    alloc: Global,
    lines: &[Line],
) -> io::Result<()> {
    for bound in BOUNDS {
        let served = serve_all(rt, alloc, bound, lines)?;
        print_served(rt, bound, served)?;
    }
    Ok(())
}

/// Does what standard input asks for, and returns the status.
fn run<R: Threads + Sync + Wait + Print + Eprint, I: Read + Drop>(
    rt: &R,
    alloc: Global,
    reader: I,
) -> io::Result<u8> {
    match read_lines(alloc, reader)? {
        Input::Lines(lines) => {
            serve_by_bounds(rt, alloc, lines.as_slice())?;
            Ok(0)
        }
        Input::BadLine(number) => {
            println!(rt; "line {number}: not three numbers")?;
            Ok(2)
        }
    }
}

fn main(rt: HostRuntime) -> ExitCode {
    let status = match run(&rt, rt.alloc(), rt.reader()) {
        Ok(status) => status,
        Err(error) if error.kind() == io::ErrorKind::OutOfMemory => 3,
        Err(_) => 4,
    };
    ExitCode::from(status)
}
