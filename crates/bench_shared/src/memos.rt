//! Steps over memos: one memo that all threads share behind a lock, or one for each thread.
ghost use Rattle.std.specs.Prelude.{◌*◌};
ghost use Rattle.std.proofs.Common.{ap};
ghost use Rattle.std.proofs.lemmas.Bool.{eqb-true};

use crate::arguments::Request;
use crate::cache::crew_keys;
use crate::threads::run;
use bench_kit::arguments::out_of_memory;
use bench_kit::report::threads_line;
use scc_memo::{Memo, Pure};
use std::alloc::Global;
use std::hash::{BuildHasherDefault, FoldHasher};
use std::io;
use std::rt::Clock;
use std::sync::{Mutex, Wait};
use std::thread::Threads;

/// The greatest number of values of a memo.
const MOST: usize = 65_536;

const PEER: &str = "scc-memo";

/// The function that is remembered.
#[derive(Drop)]
struct Square;

impl Pure for Square {
    type Key = u64;

    type Value = u128;

    ghost value = { λ _ k. k * k };

    ghost equal_alike = { λ p j k same. ap (λ n. n * n) (eqb-true j k same) };

    fn of(&self, k: &u64) -> u128 {
        let k = u128::from(*k);
        k * k
    }
}

type Squares = Memo<Square, BuildHasherDefault<FoldHasher>>;

fn empty(alloc: Global) -> Option<Squares> {
    match Memo::with_capacity_and_hasher(alloc, Square, 0, MOST, BuildHasherDefault::default()) {
        Ok(memo) => Some(memo),
        Err(_) => None,
    }
}

/// Returns the value if it fits in 64 bits, and else 1. It keeps the value from being optimized away.
fn folded(value: u128) -> u64 {
    match u64::try_from(value) {
        Ok(small) => small,
        Err(_) => 1,
    }
}

/// Gets each key of a memo that no other thread has.
fn get_all(alloc: Global, keys: &[u64]) -> Option<u64> {
    match empty(alloc) {
        Some(mut memo) => {
            let mut sum = 0u64;
            for key in keys {
                sum = sum.wrapping_add(folded(memo.get(*key)));
            }
            Some(sum)
        }
        None => None,
    }
}

/// Gets each key of a memo that other threads have too, and releases the lock after each.
fn get_all_locked(rt: &impl Wait, memo: &Mutex<Squares>, keys: &[u64]) -> u64 {
    let mut sum = 0u64;
    for key in keys {
        let value = memo.lock(rt).get(*key);
        sum = sum.wrapping_add(folded(value));
    }
    sum
}

/// Measures a memo for each thread.
fn run_each<R: Threads + Clock + Sync>(
    rt: &R,
    alloc: Global,
    keys: &[Vec<u64>],
) -> io::Result<u64> {
    let outcome = run(
        rt,
        alloc,
        keys.len(),
        &|thread| match keys.get(thread) {
            Some(own) => get_all(alloc, own.as_slice()),
            None => None,
        },
    )?;
    Ok(outcome.spent)
}

/// Measures one memo behind a lock.
fn run_locked<R: Threads + Wait + Clock + Sync>(
    rt: &R,
    alloc: Global,
    keys: &[Vec<u64>],
) -> io::Result<u64> {
    let Some(memo) = empty(alloc) else {
        return Err(out_of_memory());
    };
    let memo = Mutex::new(memo);
    let outcome = run(
        rt,
        alloc,
        keys.len(),
        &|thread| match keys.get(thread) {
            Some(own) => Some(get_all_locked(rt, &memo, own.as_slice())),
            None => None,
        },
    )?;
    Ok(outcome.spent)
}

/// Measures both once.
fn run_both<R: Threads + Wait + Clock + Print + Sync>(
    rt: &R,
    alloc: Global,
    keys: &[Vec<u64>],
    threads: u64,
    count: u64,
) -> io::Result<()> {
    let each = run_each(rt, alloc, keys)?;
    threads_line(rt, "memo_each", threads, PEER, each, count)?;
    let locked = run_locked(rt, alloc, keys)?;
    threads_line(rt, "memo_locked", threads, PEER, locked, count)
}

/// Measures both, `runs` times.
pub(crate) fn measure<R: Threads + Wait + Clock + Print + Sync>(
    rt: &R,
    alloc: Global,
    threads: u64,
    request: Request,
) -> io::Result<()> {
    let keys = crew_keys(alloc, &request.streams, threads, 0)?;
    let count = request.streams.entries.saturating_mul(threads);
    for _ in 0..request.runs {
        run_both(rt, alloc, keys.as_slice(), threads, count)?;
    }
    Ok(())
}
