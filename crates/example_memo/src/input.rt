//! Lines, each of which stands for many walks.

use crate::walks::Walk;
use std::alloc::{AllocError, Global};
use std::io::{self, Read};

/// `count` walks of `steps` steps, the first of them from `start`, each later one from the number after.
#[derive(Clone, Copy, Drop)]
pub struct Line {
    pub start: u64,
    pub steps: u64,
    pub count: u64,
}

impl Line {
    /// Returns walk number `number` of the line, counted from 0.
    pub fn walk(&self, number: u64) -> Walk {
        (self.start.wrapping_add(number), self.steps)
    }
}

/// What the lines of a text are.
#[derive(Drop)]
pub enum Input {
    /// The lines, in their order.
    Lines(Vec<Line>),
    /// The number of the first line that isn't three numbers, counted from 1.
    BadLine(usize),
}

/// Returns the walks that `line` stands for, or `None` if it isn't three numbers.
fn parse_line(line: &str) -> Option<Line> {
    let mut words = line.split_whitespace();
    let start = words.next()?.parse::<u64>().ok()?;
    let steps = words.next()?.parse::<u64>().ok()?;
    let count = words.next()?.parse::<u64>().ok()?;
    match words.next() {
        None => Some(Line {
            start,
            steps,
            count,
        }),
        Some(_) => None,
    }
}

/// Reads lines up to the end of `reader`.
pub fn read_lines<R: Read + Drop>(alloc: Global, reader: R) -> io::Result<Input> {
    let text = io::read_to_string(alloc, reader)?;
    let mut lines = Vec::new(alloc);
    for (number, line) in text.lines().enumerate() {
        match parse_line(line) {
            Some(line) => lines.push(line).map_err(AllocError::from)?,
            None => return Ok(Input::BadLine(number.saturating_add(1))),
        }
    }
    Ok(Input::Lines(lines))
}
