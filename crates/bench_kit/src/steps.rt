//! The steps that threads make over one container: a key each, and a number that picks the call.
use crate::streams::Streams;
use std::alloc::{AllocError, Global};

/// A key, and a number below 100 that picks the call with it.
#[derive(Clone, Copy, Drop)]
pub struct Step {
    pub key: u64,
    pub percentile: u64,
}

/// The keys that the steps of a workload have.
#[derive(Clone, Copy, Drop)]
pub enum Spread {
    /// Any inserted key; reads prevail.
    ReadMostly,
    /// Any inserted key; reads and writes alike.
    Half,
    /// Twice as many keys as are inserted. Each thread has keys of its own.
    Disjoint,
    /// The first 1,024 keys in seven of eight steps, and else one of twice as many keys as are inserted.
    Hot,
}

impl Spread {
    fn stream(self) -> u64 {
        match self {
            Spread::ReadMostly => 100,
            Spread::Half => 200,
            Spread::Disjoint => 300,
            Spread::Hot => 400,
        }
    }

    /// Returns the place of the key that was drawn for one of `threads` threads.
    fn place(self, drawn: u64, entries: u64, thread: u64, threads: u64) -> u64 {
        let entries = entries.max(1);
        let twice = entries.saturating_mul(2);
        match self {
            Spread::ReadMostly | Spread::Half => drawn % entries,
            Spread::Disjoint => {
                let own = twice.checked_div(threads).unwrap_or(twice).max(1);
                (drawn % own).wrapping_mul(threads).wrapping_add(thread)
            }
            Spread::Hot => {
                if (drawn >> 48) % 8 == 0 {
                    drawn % twice
                } else {
                    drawn % 1024
                }
            }
        }
    }
}

/// Returns the steps of one of `threads` threads, as many as there are entries.
pub fn steps(
    alloc: Global,
    streams: &Streams,
    spread: Spread,
    thread: u64,
    threads: u64,
) -> Result<Vec<Step>, AllocError> {
    let stream = spread.stream().wrapping_add(thread);
    let mut made = Vec::new(alloc);
    for number in 0..streams.entries {
        let drawn = streams.key(stream, number);
        let place = spread.place(drawn, streams.entries, thread, threads);
        made.push(Step {
            key: streams.inserted_key(place),
            percentile: (drawn >> 32) % 100,
        })?;
    }
    Ok(made)
}

/// Returns the steps of each of `threads` threads.
pub fn crew_steps(
    alloc: Global,
    streams: &Streams,
    spread: Spread,
    threads: u64,
) -> Result<Vec<Vec<Step>>, AllocError> {
    let mut all = Vec::new(alloc);
    for thread in 0..threads {
        let own = steps(alloc, streams, spread, thread, threads)?;
        match all.push(own) {
            Ok(()) => {}
            Err(_) => return Err(AllocError),
        }
    }
    Ok(all)
}
