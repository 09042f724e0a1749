//! Insertions, removals and reads of keys. Half of the keys are present.
use crate::arguments::Request;
use crate::reads::{Checked, Map, Work, measure_one, read};
use bench_kit::steps::{Spread, Step};
use bench_kit::streams::value;
use scc_common::InsertError;
use std::alloc::Global;
use std::io;
use std::rt::Clock;
use std::sync::Wait;
use std::thread::Threads;

/// Inserts the key if it is missing, and returns whether it did, or `None` if memory was refused.
#[inline(always)]
fn insert_missing(rt: &impl Wait, map: &Map, key: u64) -> Option<bool> {
    match map.insert_sync(rt, key, value(key)) {
        Ok(()) => Some(true),
        Err(InsertError::Exists(_)) => Some(false),
        Err(InsertError::Memory(_)) => None,
    }
}

/// Inserts at the steps of the first tenth, removes at the steps of the second, and reads at the others. Returns the
/// number of inserted and removed keys plus the sum of the values read, or `None` if memory was refused.
pub(crate) fn mix(rt: &impl Wait, map: &Map, steps: &[Step]) -> Option<u64> {
    let mut sum = 0u64;
    for step in steps {
        if step.percentile < 10 {
            let inserted = insert_missing(rt, map, step.key)?;
            sum = sum.wrapping_add(u64::from(inserted));
        } else if step.percentile < 20 {
            let removed = map.remove_sync(rt, &step.key).is_some();
            sum = sum.wrapping_add(u64::from(removed));
        } else {
            sum = sum.wrapping_add(read(rt, map, step.key));
        }
    }
    Some(sum)
}

/// Measures steps whose keys belong to one thread each, and then steps that mostly have the same few keys. The sums of
/// the latter depend on the schedule if there are several threads, so they are checked for one thread alone.
pub(crate) fn measure<R: Threads + Wait + Clock + Print + Sync>(
    rt: &R,
    alloc: Global,
    threads: u64,
    request: Request,
) -> io::Result<()> {
    let disjoint = Work {
        name: "shared_mixed_disjoint",
        spread: Spread::Disjoint,
        percent: None,
        checked: Checked::First,
    };
    let hot = Work {
        name: "shared_mixed_hot",
        spread: Spread::Hot,
        percent: None,
        checked: if threads == 1 {
            Checked::First
        } else {
            Checked::Never
        },
    };
    measure_one(rt, alloc, threads, request, disjoint)?;
    measure_one(rt, alloc, threads, request, hot)
}
