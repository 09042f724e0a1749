//! Measures the owned map beside the standard library's map, the owned set and index beside the owned map, and the
//! owned cache. Prints the lines that the table of peers reads.
//!
//! Without arguments it prints its peers and their groups. `NAME GROUP RUNS ENTRIES SEED` measures one group.
#![tactic(auto)]

mod arguments;
mod cache;
mod memory;
mod own;
mod peer;
mod tail;

use arguments::{Group, PeerName, Request, parse_request};
use bench_kit::arguments::{bad_argument, words};
use peer::Peer;
use scc_owned::map::Owned;
use std::alloc::Global;
use std::collections::HashMap;
use std::io;
use std::rt::{Clock, Files};

/// The peers and their groups.
const PEERS: &str = "scc-owned own,tail,mem,curve
kit-fold own,tail,mem,curve
scc-set mem,beside
scc-index own,mem,beside
scc-cache cache";

fn measure<M: Peer, R: Clock + Files + Print + Alloc>(
    rt: &R,
    alloc: Global,
    request: Request,
) -> io::Result<()> {
    let name = request.peer.text();
    let streams = request.streams;
    match request.group {
        Group::Own => own::measure::<M, R>(rt, alloc, name, request.runs, &streams),
        Group::Tail => tail::measure::<M, R>(rt, alloc, name, request.runs, &streams),
        Group::Memory => memory::measure::<M, R>(rt, alloc, name, &streams),
        Group::Curve => memory::measure_curve::<M, R>(rt, alloc, name, &streams),
        Group::Beside => own::measure_beside::<Owned<u64, u64>, M, R>(
            rt,
            alloc,
            ["scc-owned", name],
            request.runs,
            &streams,
        ),
        Group::Cache => Err(bad_argument()),
    }
}

fn measure_cache<R: Clock + Print>(rt: &R, alloc: Global, request: Request) -> io::Result<()> {
    match request.group {
        Group::Cache => {
            cache::measure(
                rt,
                alloc,
                request.peer.text(),
                request.runs,
                &request.streams,
            )
        }
        _ => Err(bad_argument()),
    }
}

fn measure_peer(rt: &HostRuntime, request: Request) -> io::Result<()> {
    let alloc = rt.alloc();
    match request.peer {
        PeerName::Owned => measure::<Owned<u64, u64>, _>(rt, alloc, request),
        PeerName::Kit => measure::<HashMap<u64, u64>, _>(rt, alloc, request),
        PeerName::Set => measure::<scc_owned_set::Owned<u64>, _>(rt, alloc, request),
        PeerName::Index => measure::<scc_owned::index::Owned<u64, u64>, _>(rt, alloc, request),
        PeerName::Cache => measure_cache(rt, alloc, request),
    }
}

fn main(rt: HostRuntime) -> io::Result<()> {
    let words = words(&rt)?;
    if words.is_empty() {
        return println!(&rt; "{PEERS}");
    }
    let request = parse_request(words.as_slice())?;
    measure_peer(&rt, request)
}
