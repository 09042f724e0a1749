//! Plain calls on a map in parts, each behind a lock.
ghost use Rattle.std.specs.Prelude.{◌≡◌, ◌<◌, ◌≤◌, IfOk, length, vec_len};

use crate::parts::{
    Fold, Map, Outcome, PARTS, fold_hasher, locked_map, nanos, out_of_memory, sum_of, upsert,
};
use scc_calls::route;
use scc_common::CloneOwner;
use std::alloc::{AllocError, Global};
use std::io;
use std::rt::Clock;
use std::sync::{Mutex, Wait};
use std::time::Instant;

/// Returns `PARTS` empty parts.
fn locked_parts(alloc: Global, hasher: &Fold) -> io::Result<Vec<Mutex<Map>>>
    ensures { IfOk result (λ v. vec_len v ≡ 16) }
{
    let mut parts = Vec::new(alloc);
    for _part in 0..PARTS {
        let part = locked_map(alloc, 4, hasher.clone_owner()?)?;
        parts.push(part).map_err(AllocError::from)?;
    }
    Ok(parts)
}

/// Upserts each pair in the part of its key, up to the first call that is refused, and returns the number of calls
/// made.
fn upsert_all<R: Wait>(rt: &R, hasher: &Fold, parts: &[Mutex<Map>], pairs: &[(u64, u64)]) -> usize
    requires { 0 < length parts.now }
    ensures { result ≤ length pairs.now }
{
    let mut made = 0;
    for (key, value) in pairs {
        let place = route::<Map>(hasher, parts.len(), key);
        if !upsert(rt, &parts[place], *key, *value) {
            return made;
        }
        made += 1;
    }
    made
}

/// Returns the nanoseconds that the calls take.
fn time_calls<R: Wait + Clock>(
    rt: &R,
    hasher: &Fold,
    parts: &[Mutex<Map>],
    pairs: &[(u64, u64)],
) -> io::Result<u64>
    requires { 0 < length parts.now }
{
    let start = Instant::now(rt)?;
    if upsert_all(rt, hasher, parts, pairs) < pairs.len() {
        return Err(out_of_memory());
    }
    Ok(nanos(start.elapsed(rt)?))
}

/// Returns the sum of all values of the parts.
fn sum_of_parts(parts: Vec<Mutex<Map>>) -> u64 {
    let mut sum = 0u64;
    for part in parts {
        sum = sum.wrapping_add(sum_of(&part.into_inner()));
    }
    sum
}

/// Upserts all pairs in an empty map in parts.
pub(crate) fn run<R: Wait + Clock>(
    rt: &R,
    alloc: Global,
    pairs: &[(u64, u64)],
) -> io::Result<Outcome> {
    let hasher = fold_hasher(alloc)?;
    let parts = locked_parts(alloc, &hasher)?;
    let spent = time_calls(rt, &hasher, parts.as_slice(), pairs)?;
    Ok(Outcome {
        spent,
        sum: sum_of_parts(parts),
    })
}
