//! The arguments that ask for a measurement.
use bench_kit::arguments::{bad_argument, parse_streams};
use bench_kit::streams::Streams;
use std::io;

#[derive(Clone, Copy, Drop)]
pub enum PeerName {
    Owned,
    Kit,
    Set,
    Index,
    Cache,
}

#[derive(Clone, Copy, Drop)]
pub enum Group {
    Own,
    Tail,
    Memory,
    Curve,
    Beside,
    Cache,
}

/// A group of workloads on one peer, to be run `runs` times.
#[derive(Clone, Copy, Drop)]
pub struct Request {
    pub peer: PeerName,
    pub group: Group,
    pub runs: u64,
    pub streams: Streams,
}

impl PeerName {
    pub(crate) fn text(self) -> &'static str {
        match self {
            PeerName::Owned => "scc-owned",
            PeerName::Kit => "kit-fold",
            PeerName::Set => "scc-set",
            PeerName::Index => "scc-index",
            PeerName::Cache => "scc-cache",
        }
    }
}

fn parse_peer(word: &str) -> io::Result<PeerName> {
    match word {
        "scc-owned" => Ok(PeerName::Owned),
        "kit-fold" => Ok(PeerName::Kit),
        "scc-set" => Ok(PeerName::Set),
        "scc-index" => Ok(PeerName::Index),
        "scc-cache" => Ok(PeerName::Cache),
        _ => Err(bad_argument()),
    }
}

fn parse_group(word: &str) -> io::Result<Group> {
    match word {
        "own" => Ok(Group::Own),
        "tail" => Ok(Group::Tail),
        "mem" => Ok(Group::Memory),
        "curve" => Ok(Group::Curve),
        "beside" => Ok(Group::Beside),
        "cache" => Ok(Group::Cache),
        _ => Err(bad_argument()),
    }
}

/// Reads the words `NAME GROUP RUNS ENTRIES SEED`. The last two may be left out.
pub(crate) fn parse_request(words: &[String]) -> io::Result<Request> {
    let [peer, group, ..] = words else {
        return Err(bad_argument());
    };
    let peer = parse_peer(peer.as_str())?;
    let group = parse_group(group.as_str())?;
    let (runs, streams) = parse_streams(words)?;
    Ok(Request {
        peer,
        group,
        runs,
        streams,
    })
}
