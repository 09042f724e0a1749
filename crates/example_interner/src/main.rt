//! Interns the lines of standard input by eight workers, which share one interner, and prints which lines say again what
//! an earlier line says. Only the numbers of the lines' texts are compared.
//!
//! Which of equal lines gives their text its number depends on how the workers interleave; what is printed doesn't. The
//! status is 3 if memory is refused, and 4 if a stream fails or isn't text.
#![tactic(auto)]

ghost use Rattle.std.specs.Arc.{arc_str_bytes};
ghost use Rattle.std.specs.Prelude.{◌≡◌, map};

mod interner;
mod lines;

use interner::{Home, Interner, Text};
use lines::{Interned, first_same, intern_lines, lines_of};
use std::alloc::Global;
use std::io::{self, Read};
use std::marker::Brand;
use std::process::ExitCode;
use std::sync::Wait;
use std::thread::Threads;

/// Prints each line that says again what an earlier line says, and returns how many there are. Printed lines count
/// from 1.
fn print_again<B: Home, R: Print>(
    rt: &R,
    interner: &Interner<'_, B>,
    lines: &[Interned<B>],
) -> io::Result<usize> {
    let mut again = 0usize;
    for line in lines {
        if let Some(first) = first_same(interner, lines, line) {
            if first < line.number {
                again = again.saturating_add(1);
                let (number, first) = (line.number.saturating_add(1), first.saturating_add(1));
                let text = interner.text(line.number).as_str();
                println!(rt; "line {number} says again what line {first} says: {text}")?;
            }
        }
    }
    Ok(again)
}

/// Interns the lines `texts`, and prints what is said again.
fn print_lines<B: Home + Send + Sync, R: Threads + Sync + Wait + Print>(
    rt: &R,
    alloc: Global,
    texts: &[Text],
) -> io::Result<()>
    requires { map arc_str_bytes texts.now ≡ B.texts }
{
    let interner: Interner<'_, B> = Interner::new(alloc, texts)?;
    let interned = intern_lines(rt, alloc, &interner)?;
    let again = print_again(rt, &interner, interned.as_slice())?;
    let (all, different) = (interner.len(), interner.count(rt));
    println!(rt; "{all} lines, {different} different, {again} said again")?;
    Ok(())
}

/// Prints which lines of standard input say again what an earlier line says.
fn run<R: Threads + Sync + Wait + Print, I: Read + Drop>(
    rt: &R,
    alloc: Global,
    reader: I,
) -> io::Result<()> {
    let text = io::read_to_string(alloc, reader)?;
    let lines = lines_of(alloc, text.as_str())?;
    print_lines::<Brand, R>(rt, alloc, lines.as_slice())
}

fn main(rt: HostRuntime) -> ExitCode {
    let status = match run(&rt, rt.alloc(), rt.reader()) {
        Ok(()) => 0,
        Err(error) if error.kind() == io::ErrorKind::OutOfMemory => 3,
        Err(_) => 4,
    };
    ExitCode::from(status)
}
