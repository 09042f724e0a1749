//! Reads a script of calls from standard input, makes the calls on the container that the script names, and writes
//! their replies.
//!
//! The process ends with the status that [`play_explaining`] returns. If a line of the script isn't in the grammar, a
//! line on standard error says why.
#![tactic(auto)]

pub use scc_play::play::{play, play_explaining};
use std::io;
use std::process::ExitCode;

fn main(rt: HostRuntime) -> ExitCode {
    let stderr = rt.stderr();
    ExitCode::from(play_explaining(
        &rt,
        rt.alloc(),
        &mut rt.reader(),
        &mut io::writer(&rt),
        &mut io::writer(&stderr),
    ))
}
