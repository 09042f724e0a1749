//! Threads that each make their part of a workload, and the time that the workload takes.
ghost use Rattle.std.specs.Prelude.{ℕ, ◌<◌};

use bench_kit::arguments::out_of_memory;
use bench_kit::report::nanos;
use std::alloc::Global;
use std::io;
use std::rt::Clock;
use std::thread::{Threads, map_indices};
use std::time::Instant;

/// The nanoseconds that a workload took, and the sum of the results of its threads.
#[derive(Clone, Copy, Drop)]
pub struct Outcome {
    pub spent: u64,
    pub sum: u64,
}

/// Returns the sum of the results, or an error if one of them is missing.
pub(crate) fn sum_of(answers: &[Option<u64>]) -> io::Result<u64> {
    let mut total = 0u64;
    for answer in answers {
        match answer {
            Some(sum) => total = total.wrapping_add(*sum),
            None => return Err(out_of_memory()),
        }
    }
    Ok(total)
}

/// Has each of `threads` threads do its part, and measures from before the first start to after the last end. A part
/// returns `None` if it is refused memory.
pub(crate) fn run<R: Threads + Clock + Sync, F: Fn(usize) -> Option<u64> + Sync>(
    rt: &R,
    alloc: Global,
    threads: usize,
    part: &F,
) -> io::Result<Outcome>
    requires { (i : ℕ) → i < threads → F.pre part.now i }
{
    let start = Instant::now(rt)?;
    let answers = map_indices(rt, alloc, threads, part)?;
    let spent = nanos(start.elapsed(rt)?);
    let sum = sum_of(answers.as_slice())?;
    Ok(Outcome { spent, sum })
}
