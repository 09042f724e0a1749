//! Rounds of calls on each kind of container, in which the keys that went in and came out must add up.

use crate::arguments::Request;
use crate::called::{Cache, Called, Index, Map, Set};
use crate::counted::Counts;
use crate::ruled::{Cache as RuledCache, Index as RuledIndex, Map as RuledMap, Set as RuledSet};
use crate::tally::{Tally, draw_call};
use std::alloc::Global;
use std::io;
use std::rt::Clock;
use std::sync::{Arc, Wait};
use std::thread::{Threads, map_indices};
use std::time::Instant;

/// The status if every count added up.
const EVEN: u8 = 0;

/// The status if a count didn't add up.
const UNEVEN: u8 = 1;

/// Makes `calls` calls in one thread. Returns the tally of the replies.
fn work<C: Called, R: Wait>(
    rt: &R,
    container: &C,
    counts: &Arc<Counts>,
    thread: usize,
    calls: u64,
) -> Tally {
    let mut seed = thread as u64;
    let mut tally = Tally::new();
    for _ in 0..calls {
        let drawn = draw_call(&mut seed);
        container.call(rt, counts, drawn.kind, drawn.key, &mut tally);
    }
    tally
}

/// Returns whether the tallies of the threads add up with the keys of the container.
fn is_settled<C: Called, R: Wait>(rt: &R, container: &C, told: &[Tally]) -> bool {
    let mut left = Tally::new();
    for tally in told {
        left.join(tally);
    }
    container.settle(rt, &mut left);
    left.is_even()
}

/// Returns what each thread was told by the container.
fn told<C: Called + Sync, R: Wait + Threads + Sync>(
    rt: &R,
    alloc: Global,
    container: &C,
    counts: &Arc<Counts>,
    request: Request,
) -> io::Result<Vec<Tally>> {
    let calls = request.calls;
    Ok(map_indices(
        rt,
        alloc,
        request.threads as usize,
        &|thread| work(rt, container, counts, thread, calls),
    )?)
}

/// Returns whether a round of a container of one kind adds up.
fn adds_up<C: Called + Sync + Drop, R: Wait + Threads + Sync>(
    rt: &R,
    alloc: Global,
    counts: &Arc<Counts>,
    request: Request,
) -> io::Result<bool> {
    let Some(container) = C::make(alloc) else {
        return Err(io::Error::from(io::ErrorKind::OutOfMemory));
    };
    let tallies = told(rt, alloc, &container, counts, request)?;
    Ok(is_settled(rt, &container, tallies.as_slice()))
}

/// Makes a round of a container of one kind. Returns whether it adds up and each value was dropped once, and prints
/// `name` if not.
fn holds<C: Called + Sync + Drop, R: Wait + Threads + Sync + Print>(
    rt: &R,
    alloc: Global,
    name: &str,
    request: Request,
) -> io::Result<bool> {
    let counts = Counts::new(alloc)?;
    let holds = adds_up::<C, R>(rt, alloc, &counts, request)? && counts.are_equal();
    if !holds {
        println!(rt; "{name}: what went in and out doesn't add up")?;
    }
    Ok(holds)
}

/// Returns whether a round of each container adds up.
fn all_add_up<R: Wait + Threads + Sync + Print>(
    rt: &R,
    alloc: Global,
    request: Request,
) -> io::Result<bool> {
    let mut all = holds::<Map, R>(rt, alloc, "map", request)?;
    all = holds::<Set, R>(rt, alloc, "set", request)? && all;
    all = holds::<Index, R>(rt, alloc, "index", request)? && all;
    all = holds::<Cache, R>(rt, alloc, "cache", request)? && all;
    all = holds::<RuledMap, R>(rt, alloc, "ruled map", request)? && all;
    all = holds::<RuledSet, R>(rt, alloc, "ruled set", request)? && all;
    all = holds::<RuledIndex, R>(rt, alloc, "ruled index", request)? && all;
    Ok(holds::<RuledCache, R>(rt, alloc, "ruled cache", request)? && all)
}

/// Makes rounds until the time is over, and prints their number. Stops at the first round whose counts don't add up.
pub(crate) fn soak<R: Wait + Threads + Sync + Print + Clock>(
    rt: &R,
    alloc: Global,
    request: Request,
) -> io::Result<u8> {
    let start = Instant::now(rt)?;
    let mut made = 0u64;
    for _ in 0..u64::MAX {
        if !all_add_up(rt, alloc, request)? {
            return Ok(UNEVEN);
        }
        made = made.saturating_add(1);
        if start.elapsed(rt)?.as_secs() >= request.seconds {
            break;
        }
    }
    println!(rt; "rounds {made}: every count added up")?;
    Ok(EVEN)
}
