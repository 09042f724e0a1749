//! Measures the shared map, index and cache, and memos. Prints the lines that the table of peers reads.
//!
//! Without arguments it prints its peers and their groups. `NAME GROUP RUNS ENTRIES SEED` measures one group.
#![tactic(auto)]

mod arguments;
mod cache;
mod index;
mod insertions;
mod memory;
mod memos;
mod mixed;
mod reads;
mod texts;
mod threads;

use arguments::{Group, Request, parse_request};
use bench_kit::arguments::words;
use std::alloc::Global;
use std::hash::RandomState;
use std::io;
use std::random::RandomSource;
use std::rt::{Clock, Files};
use std::sync::Wait;
use std::thread::Threads;

/// The peers and their groups.
const PEERS: &str = "scc-shared shared,tail4,mem,texts
scc-shared-index index
scc-shared-cache cache
scc-memo memo";

/// The numbers of threads of the workloads of the map and of the cache.
const THREAD_COUNTS: [u64; 3] = [1, 2, 4];

fn measure_map<R: Clock + Print + Threads + Wait + Sync>(
    rt: &R,
    alloc: Global,
    request: Request,
) -> io::Result<()> {
    for threads in THREAD_COUNTS {
        reads::measure(rt, alloc, threads, request)?;
        insertions::measure(rt, alloc, threads, request)?;
        mixed::measure(rt, alloc, threads, request)?;
    }
    Ok(())
}

fn measure_caches<R: Clock + Print + Threads + Wait + Sync>(
    rt: &R,
    alloc: Global,
    request: Request,
) -> io::Result<()> {
    for threads in THREAD_COUNTS {
        cache::measure(rt, alloc, threads, request)?;
    }
    Ok(())
}

fn measure_memos<R: Clock + Print + Threads + Wait + Sync>(
    rt: &R,
    alloc: Global,
    request: Request,
) -> io::Result<()> {
    for threads in THREAD_COUNTS {
        memos::measure(rt, alloc, threads, request)?;
    }
    Ok(())
}

fn measure_texts<R: Clock + Print + RandomSource + Threads + Wait + Sync>(
    rt: &R,
    alloc: Global,
    request: Request,
) -> io::Result<()> {
    texts::measure(rt, alloc, RandomState::new(rt)?, request)
}

fn measure<R: Clock + Files + Print + Alloc + RandomSource + Threads + Wait + Sync>(
    rt: &R,
    alloc: Global,
    request: Request,
) -> io::Result<()> {
    match request.group {
        Group::Shared => measure_map(rt, alloc, request),
        Group::Tail => insertions::measure_tail(rt, alloc, request),
        Group::Memory => memory::measure(rt, alloc, request),
        Group::Index => index::measure(rt, alloc, request),
        Group::Cache => measure_caches(rt, alloc, request),
        Group::Memos => measure_memos(rt, alloc, request),
        Group::Texts => measure_texts(rt, alloc, request),
    }
}

fn main(rt: HostRuntime) -> io::Result<()> {
    let words = words(&rt)?;
    if words.is_empty() {
        return println!(&rt; "{PEERS}");
    }
    let request = parse_request(words.as_slice())?;
    measure(&rt, rt.alloc(), request)
}
