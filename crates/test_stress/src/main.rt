//! Lets threads and workers call containers, and adds up what they were told.
//!
//! The first argument is `soak`, `crowds` or `all`. `SECONDS THREADS CALLS` of a soak may follow, and a missing
//! number has its usual value. The status is 0 if all held, 1 if a count or a case was wrong, 2 if an argument is
//! none of these, and 3 if memory was refused or a line could not be written.
#![tactic(auto)]

mod arguments;
mod called;
mod counted;
mod finished;
mod kinds;
mod phases;
mod plain;
mod rounds;
mod ruled;
mod tally;
mod turns;
mod workers;

use arguments::{Request, parse_request};
use phases::run_phases;
use rounds::soak;
use std::alloc::AllocError;
use std::process::ExitCode;
use std::rt::Clock;
use std::sync::Wait;
use std::thread::Threads;
use std::{env, io};
use workers::run_workers;

/// The status for an argument that is not understood.
const BAD_ARGUMENT: u8 = 2;

/// The status if memory was refused or a line could not be written.
const REFUSED: u8 = 3;

/// Returns the arguments, without the program's name.
fn words(rt: &HostRuntime) -> io::Result<Vec<String>> {
    let mut words = Vec::new(rt.alloc());
    for word in env::args(rt)?.skip(1) {
        words.push(word).map_err(AllocError::from)?;
    }
    Ok(words)
}

/// Plays what is asked for. Returns the worst status.
fn play<R: Threads + Wait + Sync + AllocGlobal + Print + Clock>(rt: &R, request: Request) -> u8 {
    let mut status = 0u8;
    if request.soaks {
        status = status.max(soak(rt, rt.alloc(), request).unwrap_or(REFUSED));
    }
    if request.crowds {
        status = status.max(run_workers(rt)).max(run_phases(rt));
    }
    status
}

fn main(rt: HostRuntime) -> ExitCode {
    let Ok(words) = words(&rt) else {
        return ExitCode::from(REFUSED);
    };
    match parse_request(words.as_slice()) {
        Some(request) => ExitCode::from(play(&rt, request)),
        None => ExitCode::from(BAD_ARGUMENT),
    }
}
