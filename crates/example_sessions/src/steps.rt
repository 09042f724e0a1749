//! Steps that are read from lines.

use crate::sessions::Span;

/// What all workers do at once.
#[derive(Clone, Copy, Drop)]
pub enum Step {
    /// `open N BEGIN END`: opens N sessions from BEGIN to END.
    Open(usize, Span),
    /// `touch TIME`: lets each session end at TIME or later.
    Touch(u64),
    /// `lengths`: adds up the lengths of all sessions.
    Lengths,
    /// `expire NOW`: removes the sessions that have ended by NOW.
    Expire(u64),
    /// `count`: counts the sessions.
    Count,
}

/// The number that a word writes.
fn number(word: Option<&str>) -> Option<u64> {
    word?.parse::<u64>().ok()
}

/// The step of a line.
pub fn parse_step(line: &str) -> Option<Step> {
    let mut words = line.split_whitespace();
    let step = match words.next()? {
        "open" => {
            let many = words.next()?.parse::<usize>().ok()?;
            let begin = number(words.next())?;
            Step::Open(many, Span::new(begin, number(words.next())?)?)
        }
        "touch" => Step::Touch(number(words.next())?),
        "expire" => Step::Expire(number(words.next())?),
        "lengths" => Step::Lengths,
        "count" => Step::Count,
        _ => return None,
    };
    match words.next() {
        None => Some(step),
        Some(_) => None,
    }
}
