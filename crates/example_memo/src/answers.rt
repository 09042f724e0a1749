//! Workers, each with its own memo. A memo is called by `&mut`, so threads can't share one without a lock.
use crate::input::Line;
use crate::walks::{EndOfWalk, end_by_memo};
use scc::memo::Memo;
use std::alloc::{AllocError, Global};
use std::hash::{BuildHasherDefault, FoldHasher};
use std::io;
use std::thread::{Threads, map_indices};

/// The ends of the walks of a line: their sum modulo 2^64, and how many of them a memo knew.
#[derive(Clone, Copy, Drop)]
pub struct Answer {
    pub sum: u64,
    pub known: u64,
}

/// The number of workers.
const WORKERS: usize = 4;

/// The greatest number of slots of a worker's memo.
const MOST_SLOTS: usize = 256;

type Known = Memo<EndOfWalk, BuildHasherDefault<FoldHasher>>;

/// Evaluates every fourth walk of `line`, from number `worker` on.
fn answer_line(memo: &mut Known, line: Line, worker: usize) -> Answer {
    let mut answer = Answer { sum: 0, known: 0 };
    for number in (worker as u64..line.count).step_by(WORKERS) {
        let walk = line.walk(number);
        let is_known = memo.known(&walk).is_some();
        answer.known = answer.known.saturating_add(u64::from(is_known));
        answer.sum = answer.sum.wrapping_add(end_by_memo(memo, walk));
    }
    answer
}

/// Evaluates every fourth walk of each line by a new memo, and returns an answer for each line.
fn answer_part(alloc: Global, lines: &[Line], worker: usize) -> io::Result<Vec<Answer>> {
    let mut memo = Known::with_capacity_and_hasher(
        alloc,
        EndOfWalk,
        0,
        MOST_SLOTS,
        BuildHasherDefault::new(),
    )?;
    let mut answers = Vec::new(alloc);
    for line in lines {
        answers
            .push(answer_line(&mut memo, *line, worker))
            .map_err(AllocError::from)?;
    }
    Ok(answers)
}

/// Evaluates all walks, and returns an answer for each line.
pub fn answer_all<R: Threads + Sync>(
    rt: &R,
    alloc: Global,
    lines: &[Line],
) -> io::Result<Vec<Answer>> {
    let parts = map_indices(
        rt,
        alloc,
        WORKERS,
        &|worker| answer_part(alloc, lines, worker),
    )?;
    let mut answers = Vec::new(alloc);
    for _ in lines {
        answers
            .push(Answer { sum: 0, known: 0 })
            .map_err(AllocError::from)?;
    }
    for part in parts {
        for (answer, more) in answers.iter_mut().zip(part?) {
            answer.sum = answer.sum.wrapping_add(more.sum);
            answer.known = answer.known.saturating_add(more.known);
        }
    }
    Ok(answers)
}
