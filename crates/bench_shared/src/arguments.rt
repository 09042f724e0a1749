//! The arguments that ask for a measurement.
use bench_kit::arguments::{bad_argument, parse_streams};
use bench_kit::streams::Streams;
use std::io;

#[derive(Clone, Copy, Drop)]
pub enum Group {
    Shared,
    Tail,
    Memory,
    Index,
    Cache,
    Memos,
    Texts,
}

/// A group of workloads, to be run `runs` times.
#[derive(Clone, Copy, Drop)]
pub struct Request {
    pub group: Group,
    pub runs: u64,
    pub streams: Streams,
}

fn parse_group(peer: &str, group: &str) -> io::Result<Group> {
    match (peer, group) {
        ("scc-shared", "shared") => Ok(Group::Shared),
        ("scc-shared", "tail4") => Ok(Group::Tail),
        ("scc-shared", "mem") => Ok(Group::Memory),
        ("scc-shared-index", "index") => Ok(Group::Index),
        ("scc-shared-cache", "cache") => Ok(Group::Cache),
        ("scc-memo", "memo") => Ok(Group::Memos),
        ("scc-shared", "texts") => Ok(Group::Texts),
        _ => Err(bad_argument()),
    }
}

/// Reads the words `NAME GROUP RUNS ENTRIES SEED`. The last two may be left out.
pub(crate) fn parse_request(words: &[String]) -> io::Result<Request> {
    let [peer, group, ..] = words else {
        return Err(bad_argument());
    };
    let group = parse_group(peer.as_str(), group.as_str())?;
    let (runs, streams) = parse_streams(words)?;
    Ok(Request {
        group,
        runs,
        streams,
    })
}
