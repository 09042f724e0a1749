//! Workers that intern words in a set and count them in a map.
use crate::counts::{Count, Counts, note};
use crate::input::Line;
use crate::words::{Word, Words, intern};
use scc::Verdict;
use std::alloc::Global;
use std::io;
use std::sync::Wait;
use std::thread::{Threads, map_indices};

/// The number of workers.
const WORKERS: u64 = 4;

/// Interns and counts the words of `line` whose places leave `worker` as rest. `start` is the place of its first word.
fn count_line<R: Wait>(
    rt: &R,
    alloc: Global,
    words: &Words,
    counts: &Counts,
    line: &Line<'_>,
    start: u64,
    worker: u64,
) -> io::Result<()> {
    let mut place = start;
    for _ in 0..line.times {
        for text in line.words.as_slice() {
            if place % WORKERS == worker {
                let word = Word::from_string(text.to_ascii_lowercase(alloc)?)?;
                note(rt, counts, intern(rt, words, word)?, place)?;
            }
            place = place.saturating_add(1);
        }
    }
    Ok(())
}

/// Interns and counts every fourth word, from number `worker` on.
fn count_part<R: Wait>(
    rt: &R,
    alloc: Global,
    words: &Words,
    counts: &Counts,
    lines: &[Line<'_>],
    worker: u64,
) -> io::Result<()> {
    let mut start = 0u64;
    for line in lines {
        count_line(rt, alloc, words, counts, line, start, worker)?;
        start = start.saturating_add(line.count());
    }
    Ok(())
}

/// Returns what is known of each word once all workers are done.
pub fn count_words<R: Threads + Sync + Wait>(
    rt: &R,
    alloc: Global,
    lines: &[Line<'_>],
) -> io::Result<Vec<(Word, Count)>> {
    let words = Words::new(alloc)?;
    let counts = Counts::new(alloc)?;
    let parts = map_indices(
        rt,
        alloc,
        WORKERS as usize,
        &|worker| count_part(rt, alloc, &words, &counts, lines, worker as u64),
    )?;
    for part in parts {
        part?;
    }
    let mut counted = Vec::new(alloc);
    counts.iter_mut_sync(rt, |_, _| Verdict::Take, &mut counted)?;
    if counted.len() == words.len(rt) {
        Ok(counted)
    } else {
        Err(io::Error::from(io::ErrorKind::InvalidData))
    }
}
