//! The bytes that a pair takes in a shared map, by the pages that the process holds.
use crate::arguments::Request;
use crate::reads::{Map, PEER, sum_of_values};
use bench_kit::arguments::out_of_memory;
use bench_kit::report::{check, line};
use bench_kit::resident::{most_resident, resident};
use bench_kit::streams::{Streams, value};
use scc_shared::map::HashMap;
use std::alloc::Global;
use std::io;
use std::rt::Files;
use std::sync::Wait;

/// Inserts the keys from place `first` up to, but without, `last`.
fn insert_places(
    rt: &impl Wait,
    map: &Map,
    streams: &Streams,
    first: u64,
    last: u64,
) -> io::Result<()> {
    for place in first..last {
        let key = streams.inserted_key(place);
        if map.insert_sync(rt, key, value(key)).is_err() {
            return Err(out_of_memory());
        }
    }
    Ok(())
}

/// Returns the bytes that the process holds, and the most that it held, above `before`.
fn held_above(rt: &(impl Files + Alloc), before: u64) -> io::Result<(u64, u64)> {
    let live = resident(rt)?.saturating_sub(before);
    let most = most_resident(rt)?.saturating_sub(before);
    Ok((live, most))
}

/// Returns the bytes that the process holds once an empty map has its first key.
fn held_by_one<R: Files + Alloc + Wait>(rt: &R, map: &Map, streams: &Streams) -> io::Result<u64> {
    insert_places(rt, map, streams, 0, 1)?;
    resident(rt)
}

/// Fills an empty map, and returns the bytes that it holds then and the most that it held.
fn fill<R: Files + Alloc + Wait>(rt: &R, map: &Map, streams: &Streams) -> io::Result<(u64, u64)> {
    let before = held_by_one(rt, map, streams)?;
    insert_places(rt, map, streams, 1, streams.entries)?;
    held_above(rt, before)
}

/// Fills an empty map, and prints the bytes per pair that it holds then and the most that it held.
fn fill_and_print<R: Files + Print + Alloc + Wait>(
    rt: &R,
    map: &Map,
    streams: &Streams,
) -> io::Result<()> {
    let (live, most) = fill(rt, map, streams)?;
    line(rt, "mem_live", PEER, live, streams.entries)?;
    line(rt, "mem_peak", PEER, most, streams.entries)?;
    check(rt, "mem_live", PEER, sum_of_values(rt, map))
}

/// Measures the memory of a new map.
pub(crate) fn measure<R: Files + Print + Alloc + Wait>(
    rt: &R,
    alloc: Global,
    request: Request,
) -> io::Result<()> {
    match HashMap::new(alloc) {
        Ok(map) => fill_and_print(rt, &map, &request.streams),
        Err(_) => Err(out_of_memory()),
    }
}
