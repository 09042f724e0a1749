//! Lines, each of which stands for many routes.
use std::alloc::{AllocError, Global};
use std::io::{self, Read};

/// Routes to `count` destinations, from `first` on, by the same next hop.
#[derive(Clone, Copy, Drop)]
pub struct Line {
    pub first: u64,
    pub hop: u64,
    pub count: u64,
}

/// What the lines of a text are.
#[derive(Drop)]
pub enum Input {
    /// The lines, in their order.
    Lines(Vec<Line>),
    /// The number of the first line that isn't three numbers, counted from 1.
    BadLine(usize),
}

/// Returns the routes that `line` stands for, or `None` if it isn't three numbers.
fn parse_line(line: &str) -> Option<Line> {
    let mut words = line.split_whitespace();
    let first = words.next()?.parse::<u64>().ok()?;
    let hop = words.next()?.parse::<u64>().ok()?;
    let count = words.next()?.parse::<u64>().ok()?;
    match words.next() {
        None => Some(Line { first, hop, count }),
        Some(_) => None,
    }
}

/// Reads lines up to the end of `reader`.
pub fn read_lines<R: Read + Drop>(alloc: Global, reader: R) -> io::Result<Input> {
    let text = io::read_to_string(alloc, reader)?;
    let mut lines = Vec::new(alloc);
    for (number, line) in text.lines().enumerate() {
        match parse_line(line) {
            Some(line) => lines.push(line).map_err(AllocError::from)?,
            None => return Ok(Input::BadLine(number.saturating_add(1))),
        }
    }
    Ok(Input::Lines(lines))
}
