//! The bytes that a pair takes, by the pages that the process holds.
use crate::peer::Peer;
use bench_kit::report::{check, line};
use bench_kit::resident::{most_resident, resident};
use bench_kit::streams::{Streams, value};
use std::alloc::Global;
use std::io;
use std::rt::Files;

fn insert_at<M: Peer>(map: &mut M, streams: &Streams, place: u64) -> io::Result<()> {
    let key = streams.inserted_key(place);
    map.insert(key, value(key))
}

/// Inserts the keys from place `first` up to, but without, `last`.
fn insert_places<M: Peer>(map: &mut M, streams: &Streams, first: u64, last: u64) -> io::Result<()> {
    for place in first..last {
        insert_at(map, streams, place)?;
    }
    Ok(())
}

/// Returns the bytes that the process holds, and the most that it held, above `before`.
fn held_above(rt: &(impl Files + Alloc), before: u64) -> io::Result<(u64, u64)> {
    let live = resident(rt)?.saturating_sub(before);
    let most = most_resident(rt)?.saturating_sub(before);
    Ok((live, most))
}

/// Returns the bytes that the process holds once an empty map has its first key.
fn held_by_one<M: Peer, R: Files + Alloc>(
    rt: &R,
    map: &mut M,
    streams: &Streams,
) -> io::Result<u64> {
    insert_at(map, streams, 0)?;
    resident(rt)
}

/// Fills an empty map, and returns the bytes that it holds then and the most that it held.
fn fill<M: Peer, R: Files + Alloc>(
    rt: &R,
    map: &mut M,
    streams: &Streams,
) -> io::Result<(u64, u64)> {
    let before = held_by_one(rt, map, streams)?;
    insert_places(map, streams, 1, streams.entries)?;
    held_above(rt, before)
}

/// Fills an empty map, prints the bytes per pair that it holds then and the most that it held, and returns the sum of
/// the values.
fn fill_and_print<M: Peer, R: Files + Print + Alloc>(
    rt: &R,
    map: &mut M,
    peer: &str,
    streams: &Streams,
) -> io::Result<u64> {
    let (live, most) = fill(rt, map, streams)?;
    line(rt, "mem_live", peer, live, streams.entries)?;
    line(rt, "mem_peak", peer, most, streams.entries)?;
    Ok(map.sum())
}

/// Fills a map, and prints the bytes per pair that it holds then and the most that it held.
pub(crate) fn measure<M: Peer, R: Files + Print + Alloc>(
    rt: &R,
    alloc: Global,
    peer: &str,
    streams: &Streams,
) -> io::Result<()> {
    let mut map: M = Peer::make(alloc);
    let sum = fill_and_print(rt, &mut map, peer, streams)?;
    check(rt, "mem_live", peer, sum)
}

/// Returns the hundredths of bytes per pair that the process holds above `before`, if `size` is one of the sixteen
/// sizes, and else 0.
fn held_at(rt: &(impl Files + Alloc), entries: u64, before: u64, size: u64) -> io::Result<u64> {
    let step = (entries / 16).max(1);
    if size > entries && size % step == 0 {
        let held = resident(rt)?.saturating_sub(before);
        Ok(held.saturating_mul(100) / size)
    } else {
        Ok(0)
    }
}

/// Fills a map to sixteen sizes, from just above the number of entries to twice the number, and returns the sum of the
/// hundredths of bytes per pair.
fn fill_curve<M: Peer, R: Files + Alloc>(
    rt: &R,
    map: &mut M,
    streams: &Streams,
) -> io::Result<u64> {
    let before = held_by_one(rt, map, streams)?;
    let mut hundredths = 0u64;
    for place in 1..streams.entries.saturating_mul(2) {
        insert_at(map, streams, place)?;
        let held = held_at(rt, streams.entries, before, place + 1)?;
        hundredths = hundredths.saturating_add(held);
    }
    Ok(hundredths)
}

/// Prints the mean of the bytes per pair at sixteen sizes, from just above the number of entries to twice the number.
pub(crate) fn measure_curve<M: Peer, R: Files + Print + Alloc>(
    rt: &R,
    alloc: Global,
    peer: &str,
    streams: &Streams,
) -> io::Result<()> {
    let mut map: M = Peer::make(alloc);
    let hundredths = fill_curve(rt, &mut map, streams)?;
    line(rt, "mem_mean", peer, hundredths, 1600)?;
    check(rt, "mem_mean", peer, map.sum())
}
