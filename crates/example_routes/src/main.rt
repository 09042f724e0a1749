//! Publishes the routes of standard input in an index that four workers share, while the workers keep the versions that
//! were replaced.
//!
//! A line `FIRST HOP COUNT` stands for COUNT routes, to the destinations from FIRST on. The routes at the end are
//! printed by such lines too, in rising order. The status is 2 if a line isn't three numbers, and this line is named; 3
//! if memory is refused; and 4 if a stream fails.
#![tactic(auto)]

mod input;
mod routes;
mod workers;

use input::{Input, Line, read_lines};
use std::alloc::Global;
use std::io::{self, Read};
use std::process::ExitCode;
use std::sync::Wait;
use std::thread::Threads;
use workers::{listed, publish_all};

/// Prints the routes, by destination.
fn print_routes<R: Print>(rt: &R, routes: &[Line]) -> io::Result<()> {
    for line in routes {
        let (first, hop, count) = (line.first, line.hop, line.count);
        println!(rt; "{first} {hop} {count}")?;
    }
    Ok(())
}

/// Publishes the lines, and prints the routes and how many replaced versions were kept.
fn print_all<R: Threads + Sync + Wait + Print>(
    rt: &R,
    alloc: Global,
    lines: &[Line],
) -> io::Result<()> {
    let published = publish_all(rt, alloc, lines)?;
    let routes = listed(rt, alloc, &published.routes)?;
    print_routes(rt, routes.as_slice())?;
    let kept = published.kept;
    println!(rt; "{kept} replaced versions are what they were")?;
    Ok(())
}

/// Does what standard input asks for, and returns the status.
fn run<R: Threads + Sync + Wait + Print, I: Read + Drop>(
    rt: &R,
    alloc: Global,
    reader: I,
) -> io::Result<u8> {
    match read_lines(alloc, reader)? {
        Input::Lines(lines) => {
            print_all(rt, alloc, lines.as_slice())?;
            Ok(0)
        }
        Input::BadLine(number) => {
            println!(rt; "line {number}: not three numbers")?;
            Ok(2)
        }
    }
}

fn main(rt: HostRuntime) -> ExitCode {
    let status = match run(&rt, rt.alloc(), rt.reader()) {
        Ok(status) => status,
        Err(error) if error.kind() == io::ErrorKind::OutOfMemory => 3,
        Err(_) => 4,
    };
    ExitCode::from(status)
}
