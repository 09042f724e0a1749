//! Publishes the routes of standard input in a recorded index of four stripes, by two passes on two threads, and audits
//! the run. By contract every merge of its histories is then a run of the whole index.
//!
//! A line `FIRST HOP COUNT` stands for COUNT routes, to the destinations from FIRST on. The status is 2 if a line isn't
//! three numbers, and this line is named; 3 if memory or a thread is refused; 4 if a stream fails; and 5 if the recorded
//! run can't be finished.
#![tactic(auto)]

mod input;
mod recorded;

use input::{Input, read_lines};
use recorded::record;
use std::alloc::Global;
use std::io::{self, Read};
use std::process::ExitCode;
use std::sync::Wait;
use std::thread::Threads;

/// Does what standard input asks for, and returns the status.
fn run<R: Threads + Sync + Wait + Print, I: Read + Drop>(
    rt: &R,
    alloc: Global,
    reader: I,
) -> io::Result<u8> {
    match read_lines(alloc, reader)? {
        Input::Lines(lines) => {
            let calls = record(rt, alloc, lines.as_slice())?;
            println!(rt; "{calls} recorded calls: every merge is a run")?;
            Ok(0)
        }
        Input::BadLine(number) => {
            println!(rt; "line {number}: not three numbers")?;
            Ok(2)
        }
    }
}

fn main(rt: HostRuntime) -> ExitCode {
    let status = match run(&rt, rt.alloc(), rt.reader()) {
        Ok(status) => status,
        Err(error) if error.kind() == io::ErrorKind::OutOfMemory => 3,
        Err(error) if error.kind() == io::ErrorKind::InvalidData => 5,
        Err(_) => 4,
    };
    ExitCode::from(status)
}
