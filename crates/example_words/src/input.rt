//! Lines, each of which stands for many words.
use std::alloc::{AllocError, Global};

/// Words that are read `times` times, one after another.
#[derive(Drop)]
pub struct Line<'a> {
    pub times: u64,
    pub words: Vec<&'a str>,
}

impl Line<'_> {
    /// Returns how many words the line stands for.
    pub fn count(&self) -> u64 {
        self.times.saturating_mul(self.words.len() as u64)
    }
}

/// What the lines of a text are.
#[derive(Drop)]
pub enum Input<'a> {
    /// The lines, in their order.
    Lines(Vec<Line<'a>>),
    /// The number of the first line that doesn't begin with a number, counted from 1.
    BadLine(usize),
}

/// Returns the words that `line` stands for, or `None` if it doesn't begin with a number.
fn parse_line(alloc: Global, line: &str) -> Result<Option<Line<'_>>, AllocError> {
    let mut rest = line.split_whitespace();
    let Some(Ok(times)) = rest.next().map(|word| word.parse::<u64>()) else {
        return Ok(None);
    };
    let mut words = Vec::new(alloc);
    for word in rest {
        words.push(word)?;
    }
    Ok(Some(Line { times, words }))
}

/// Returns what the lines of `text` are. Fails if memory is refused.
pub fn lines_of(alloc: Global, text: &str) -> Result<Input<'_>, AllocError> {
    let mut lines = Vec::new(alloc);
    for (number, line) in text.lines().enumerate() {
        match parse_line(alloc, line)? {
            Some(line) => lines.push(line)?,
            None => return Ok(Input::BadLine(number.saturating_add(1))),
        }
    }
    Ok(Input::Lines(lines))
}
