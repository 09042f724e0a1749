//! Lets four workers open, touch, expire and count sessions in a map that they share, as the lines of standard input
//! say.
//!
//! Each line is a step that all workers make at once, and prints how many sessions it met, or how long they last. The
//! status is 2 if a line is no step, whose number is printed, 3 if memory is refused, and 4 if a stream fails.
#![tactic(auto)]

mod sessions;
mod steps;
mod workers;

use sessions::{Sessions, new_sessions};
use std::alloc::{AllocError, Global};
use std::io::{self, Read};
use std::process::ExitCode;
use std::sync::Wait;
use std::thread::Threads;
use steps::{Step, parse_step};
use workers::{draw_tokens, make_step};

/// Makes the step of a line, and prints what it counted.
fn print_step<R: Threads + Sync + Wait + Print>(
    rt: &R,
    alloc: Global,
    sessions: &Sessions,
    tokens: &mut Vec<u64>,
    step: Step,
) -> io::Result<()> {
    let met = match step {
        Step::Count => sessions.len(rt) as u64,
        Step::Open(number, span) => {
            let opened = draw_tokens(alloc, tokens.len(), number)?;
            let met = make_step(
                rt,
                alloc,
                sessions,
                opened.as_slice(),
                Step::Open(number, span),
            )?;
            for token in opened {
                tokens.push(token).map_err(AllocError::from)?;
            }
            met
        }
        _ => make_step(rt, alloc, sessions, tokens.as_slice(), step)?,
    };
    println!(rt; "{met}")?;
    Ok(())
}

/// Makes the steps of all lines, and returns the status.
fn run<R: Threads + Sync + Wait + Print, I: Read + Drop>(
    rt: &R,
    alloc: Global,
    reader: I,
) -> io::Result<u8> {
    let text = io::read_to_string(alloc, reader)?;
    let sessions = new_sessions(alloc)?;
    let mut tokens = Vec::new(alloc);
    for (number, line) in text.lines().enumerate() {
        let Some(step) = parse_step(line) else {
            let number = number.saturating_add(1);
            println!(rt; "line {number}: no step")?;
            return Ok(2);
        };
        print_step(rt, alloc, &sessions, &mut tokens, step)?;
    }
    Ok(0)
}

fn main(rt: HostRuntime) -> ExitCode {
    let status = match run(&rt, rt.alloc(), rt.reader()) {
        Ok(status) => status,
        Err(error) if error.kind() == io::ErrorKind::OutOfMemory => 3,
        Err(_) => 4,
    };
    ExitCode::from(status)
}
