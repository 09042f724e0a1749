//! Counts the words of standard input and numbers them in the order in which they come first, by four workers that
//! share a set and a map. The set stores each different word once, and the map counts by the stored words. Prints how
//! many words there are, and the ten most frequent.
//!
//! A line `TIMES WORD..` stands for its words, TIMES times one after another. Capital and small letters are the same.
//! An output line has the number of a word, how often it was met, and the word. Of words that are met equally often,
//! the earlier one comes first. The status is 2 if a line doesn't begin with a number, and this line is named; 3 if
//! memory is refused; and 4 if a stream fails or isn't text.
#![tactic(auto)]

mod counts;
mod input;
mod ranks;
mod words;
mod workers;

use input::{Input, Line, lines_of};
use ranks::{by_number, frequent_first};
use std::alloc::Global;
use std::io::{self, Read};
use std::process::ExitCode;
use std::sync::Wait;
use std::thread::Threads;
use workers::count_words;

/// The number of words that are shown.
const SHOWN: usize = 10;

/// Prints how many words the lines stand for, and the most frequent words.
fn print_ranks<R: Threads + Sync + Wait + Print>(
    rt: &R,
    alloc: Global,
    lines: &[Line<'_>],
) -> io::Result<()> {
    let mut met = 0u64;
    for line in lines {
        met = met.saturating_add(line.count());
    }
    let mut ranks = by_number(alloc, count_words(rt, alloc, lines)?)?;
    frequent_first(ranks.as_mut_slice());
    let different = ranks.len();
    println!(rt; "{met} words, {different} different")?;
    for rank in ranks.iter().take(SHOWN) {
        let (number, times, word) = (rank.number, rank.times, rank.word.as_str());
        println!(rt; "{number} {times} {word}")?;
    }
    Ok(())
}

/// Does what standard input asks for, and returns the status.
fn run<R: Threads + Sync + Wait + Print, I: Read + Drop>(
    rt: &R,
    alloc: Global,
    reader: I,
) -> io::Result<u8> {
    let text = io::read_to_string(alloc, reader)?;
    match lines_of(alloc, text.as_str())? {
        Input::Lines(lines) => {
            print_ranks(rt, alloc, lines.as_slice())?;
            Ok(0)
        }
        Input::BadLine(number) => {
            println!(rt; "line {number}: no number first")?;
            Ok(2)
        }
    }
}

fn main(rt: HostRuntime) -> ExitCode {
    let status = match run(&rt, rt.alloc(), rt.reader()) {
        Ok(status) => status,
        Err(error) if error.kind() == io::ErrorKind::OutOfMemory => 3,
        Err(_) => 4,
    };
    ExitCode::from(status)
}
