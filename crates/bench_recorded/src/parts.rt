//! The maps that are measured, and the outcome of a measurement.
ghost use Rattle.std.specs.Prelude.{◌≤◌};

use scc_calls::{Calls, MapCall};
use scc_common::Shared;
use scc_owned::map::Owned;
use std::alloc::{AllocError, Global};
use std::hash::{BuildHasherDefault, FoldHasher};
use std::io;
use std::sync::{Arc, Mutex, Wait};
use std::time::Duration;

/// The map's own hasher, shared by all parts.
pub type Fold = Shared<BuildHasherDefault<FoldHasher>>;

pub type Map = Owned<u64, u64, Fold>;

/// The number of parts of a map.
pub const PARTS: usize = 16;

/// The nanoseconds that the calls took, and the sum of the values that were there at the end.
#[derive(Clone, Copy, Drop)]
pub struct Outcome {
    pub spent: u64,
    pub sum: u64,
}

/// Returns the error if memory is refused.
pub(crate) fn out_of_memory() -> io::Error {
    io::Error::from(io::ErrorKind::OutOfMemory)
}

/// Returns a duration in nanoseconds, or the greatest number if they don't fit.
pub(crate) fn nanos(spent: Duration) -> u64 {
    spent
        .as_secs()
        .saturating_mul(1_000_000_000)
        .saturating_add(u64::from(spent.subsec_nanos()))
}

/// Returns one owner of a hasher.
pub(crate) fn fold_hasher(alloc: Global) -> Result<Fold, AllocError> {
    Ok(Shared::new(Arc::new(alloc, BuildHasherDefault::new())?))
}

/// Returns an empty map behind a lock, which skips `skipped` bits of each hash.
pub(crate) fn locked_map(alloc: Global, skipped: u32, hasher: Fold) -> io::Result<Mutex<Map>>
    requires { skipped ≤ 4 }
{
    match <Map as Calls>::make(alloc, skipped, 0, 0, hasher) {
        Ok(map) => Ok(Mutex::new(map)),
        Err(_) => Err(out_of_memory()),
    }
}

/// Makes one call under the lock, and returns whether it was made.
#[inline(always)]
pub(crate) fn upsert<R: Wait>(rt: &R, map: &Mutex<Map>, key: u64, value: u64) -> bool {
    map.lock(rt).call(MapCall::Upsert(key, value)).is_ok()
}

/// Returns the sum of all values of a map.
pub(crate) fn sum_of(map: &Map) -> u64 {
    let mut sum = 0u64;
    map.iter_sync(|_, value| {
        sum = sum.wrapping_add(*value);
        true
    });
    sum
}

/// Returns the sum of all values of several maps.
pub(crate) fn sum_of_all(maps: &[Map]) -> u64 {
    let mut sum = 0u64;
    for map in maps {
        sum = sum.wrapping_add(sum_of(map));
    }
    sum
}
