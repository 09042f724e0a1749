// Workers that run at once: each meets all others at each of its turns, which one thread couldn't do.
use crate::expect::expect_eq;
use scc_stripes::workers::{Open, RunError, Work, run};
use std::alloc::{AllocError, Global};
use std::process::Abort;
use std::sync::Wait;
use std::sync::atomic::{AtomicU64, Ordering};
use std::test::Fail;
use std::thread::{Threads, yield_now};

const WORKERS: u64 = 4;

const TURNS: u64 = 3;

// How often a worker looks for the others.
const LOOKS: u32 = 200_000;

// A worker whose turn ends once all workers have come to it.
#[derive(Drop)]
struct Meeting<'a> {
    came: &'a AtomicU64,
}

impl Work for Meeting<'_> {
    fn turns(&self) -> usize {
        TURNS as usize
    }

    fn turn(&mut self, j: usize) -> bool {
        let wanted = WORKERS.wrapping_mul((j as u64).wrapping_add(1));
        self.came.fetch_add(1, Ordering::SeqCst);
        for _ in 0..LOOKS {
            if self.came.load(Ordering::SeqCst) >= wanted {
                return true;
            }
            yield_now();
        }
        false
    }
}

/// Returns how a run of such workers ends, and the number of turns.
fn meet<R: Threads + Wait + Sync>(
    rt: &R,
    alloc: Global,
    came: &AtomicU64,
) -> Result<(Result<(), RunError>, u64), AllocError> {
    let mut workers = Vec::new(alloc);
    for _ in 0..WORKERS {
        workers.push(Meeting { came })?;
    }
    let ended = run(rt, alloc, workers.as_mut_slice(), &Open);
    Ok((ended, came.load(Ordering::SeqCst)))
}

#[test]
fn workers_meet_at_each_turn(rt: HostRuntime) -> Result<(), Fail> {
    let came = AtomicU64::new(0);
    let met = meet(&rt, rt.alloc(), &came)?;
    expect_eq(&rt, met, (Ok(()), WORKERS * TURNS));
    Ok(())
}
