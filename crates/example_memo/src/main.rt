//! Evaluates a function that takes long, by four workers. Each worker has its own memo, since a memo is called by
//! `&mut`: nobody waits, and a walk that two workers evaluate is evaluated twice.
//!
//! A line `START STEPS COUNT` of standard input stands for COUNT walks of STEPS steps, from START, START + 1 and so on.
//! Prints for each line the sum of the ends of its walks, and at last how many ends were known. The status is 2 if a
//! line isn't three numbers, and this line is named; 3 if memory is refused; and 4 if a stream fails.
#![tactic(auto)]

mod answers;
mod input;
mod walks;

use answers::answer_all;
use input::{Input, Line, read_lines};
use std::alloc::Global;
use std::io::{self, Read};
use std::process::ExitCode;
use std::thread::Threads;

/// Prints the sum of the ends for each line, and how many ends were known.
fn print_answers<R: Threads + Sync + Print>(
    rt: &R,
    alloc: Global,
    lines: &[Line],
) -> io::Result<()> {
    let (mut walks, mut known) = (0u64, 0u64);
    for line in lines {
        walks = walks.saturating_add(line.count);
    }
    for answer in answer_all(rt, alloc, lines)? {
        let sum = answer.sum;
        known = known.saturating_add(answer.known);
        println!(rt; "{sum}")?;
    }
    println!(rt; "{known} of {walks} were known")?;
    Ok(())
}

/// Does what standard input asks for, and returns the status.
fn evaluate<R: Threads + Sync + Print, I: Read + Drop>(
    rt: &R,
    alloc: Global,
    reader: I,
) -> io::Result<u8> {
    match read_lines(alloc, reader)? {
        Input::Lines(lines) => {
            print_answers(rt, alloc, lines.as_slice())?;
            Ok(0)
        }
        Input::BadLine(number) => {
            println!(rt; "line {number}: not three numbers")?;
            Ok(2)
        }
    }
}

fn main(rt: HostRuntime) -> ExitCode {
    let status = match evaluate(&rt, rt.alloc(), rt.reader()) {
        Ok(status) => status,
        Err(error) if error.kind() == io::ErrorKind::OutOfMemory => 3,
        Err(_) => 4,
    };
    ExitCode::from(status)
}
