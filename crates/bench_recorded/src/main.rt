//! Measures recorded calls beside plain ones under the same kind of lock, and the time to finish what was recorded.
//!
//! The arguments are `CALLS KEYS RUNS`. The usual number stands for an argument that is left out. The status is 1 if
//! the contents differ at the end, if an argument is no number, if the number of keys is 0, or if memory is refused.
#![tactic(auto)]

mod arguments;
mod pairs;
mod parts;
mod plain;
mod recording;
mod report;
mod routed;
mod runs;
mod texts;

use arguments::parse_request;
use runs::measure;
use std::alloc::AllocError;
use std::{env, io};

/// Returns the arguments, without the program's name.
fn words(rt: &HostRuntime) -> io::Result<Vec<String>> {
    let mut words = Vec::new(rt.alloc());
    for word in env::args(rt)?.skip(1) {
        words.push(word).map_err(AllocError::from)?;
    }
    Ok(words)
}

fn main(rt: HostRuntime) -> io::Result<()> {
    let words = words(&rt)?;
    let request = parse_request(words.as_slice())?;
    measure(&rt, rt.alloc(), request)
}
