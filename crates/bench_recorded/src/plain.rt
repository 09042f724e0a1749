//! Plain calls on one map behind one lock.
ghost use Rattle.std.specs.Prelude.{◌≤◌, length};

use crate::parts::{Map, Outcome, fold_hasher, locked_map, nanos, out_of_memory, sum_of, upsert};
use std::alloc::Global;
use std::io;
use std::rt::Clock;
use std::sync::{Mutex, Wait};
use std::time::Instant;

/// Upserts the pairs up to the first call that is refused, and returns the number of calls made.
fn upsert_all<R: Wait>(rt: &R, map: &Mutex<Map>, pairs: &[(u64, u64)]) -> usize
    ensures { result ≤ length pairs.now }
{
    let mut made = 0;
    for (key, value) in pairs {
        if !upsert(rt, map, *key, *value) {
            return made;
        }
        made += 1;
    }
    made
}

/// Returns the nanoseconds that the calls take.
fn time_calls<R: Wait + Clock>(rt: &R, map: &Mutex<Map>, pairs: &[(u64, u64)]) -> io::Result<u64> {
    let start = Instant::now(rt)?;
    if upsert_all(rt, map, pairs) < pairs.len() {
        return Err(out_of_memory());
    }
    Ok(nanos(start.elapsed(rt)?))
}

/// Upserts all pairs in an empty map.
pub(crate) fn run<R: Wait + Clock>(
    rt: &R,
    alloc: Global,
    pairs: &[(u64, u64)],
) -> io::Result<Outcome> {
    let map = locked_map(alloc, 0, fold_hasher(alloc)?)?;
    let spent = time_calls(rt, &map, pairs)?;
    let sum = sum_of(&map.into_inner());
    Ok(Outcome { spent, sum })
}
