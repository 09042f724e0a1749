//! The lines of a text, each with the symbol of its text. A line's number counts from 0.
ghost use Rattle.std.specs.Prelude.{◌≡◌, ◌<◌, IfSome, length, slice_get};

use crate::interner::{Home, Interner, Symbol, Text};
use std::alloc::{AllocError, Global};
use std::io;
use std::sync::Wait;
use std::thread::{Threads, map_indices};

/// How many workers there are.
const WORKERS: usize = 8;

/// A line whose text has a symbol. A line with the symbol of another text can't be made.
#[derive(Drop)]
pub struct Interned<B: Home> {
    pub number: usize,
    pub symbol: Symbol<B>,
    pub ghost within: { number < length B.texts },
    pub ghost right: { slice_get B.texts symbol.number ≡ slice_get B.texts number },
}

/// Returns the lines of `text` in their order. Fails if memory is refused.
pub fn lines_of(alloc: Global, text: &str) -> Result<Vec<Text>, AllocError> {
    let mut lines = Vec::new(alloc);
    for line in text.lines() {
        lines.push(Text::from_str(alloc, line)?)?;
    }
    Ok(lines)
}

/// Interns `many` lines, from line `start` on.
fn intern_part<B: Home, R: Wait>(
    rt: &R,
    alloc: Global,
    interner: &Interner<'_, B>,
    start: usize,
    many: usize,
) -> io::Result<Vec<Interned<B>>> {
    let mut interned = Vec::new(alloc);
    let end = start.saturating_add(many).min(interner.len());
    for number in start..end {
        let symbol = interner.intern(rt, number)?;
        interned
            .push(Interned { number, symbol })
            .map_err(AllocError::from)?;
    }
    Ok(interned)
}

/// Lets the workers intern the lines, each those of its part, and returns the lines in their order.
pub fn intern_lines<B: Home + Sync + Send, R: Threads + Sync + Wait>(
    rt: &R,
    alloc: Global,
    interner: &Interner<'_, B>,
) -> io::Result<Vec<Interned<B>>> {
    let many = interner.len() / WORKERS + 1;
    let parts = map_indices(
        rt,
        alloc,
        WORKERS,
        &|worker| {
            let start = worker.saturating_mul(many);
            intern_part(rt, alloc, interner, start, many)
        },
    )?;
    let mut all = Vec::new(alloc);
    for part in parts {
        for interned in part? {
            all.push(interned).map_err(AllocError::from)?;
        }
    }
    Ok(all)
}

/// Returns the number of the first of the lines whose text is that of `line`. Only symbols are compared.
pub fn first_same<B: Home>(
    interner: &Interner<'_, B>,
    lines: &[Interned<B>],
    line: &Interned<B>,
) -> Option<usize>
    ensures { IfSome result (λ first. slice_get B.texts first ≡ slice_get B.texts line.now.number) }
{
    let first = lines
        .iter()
        .find(|first| interner.is_same(&first.symbol, &line.symbol))?;
    Some(first.number)
}
