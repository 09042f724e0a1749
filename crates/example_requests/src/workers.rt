//! Workers that serve requests by one cache.
use crate::input::Line;
use crate::serving::{Answers, Tally, serve};
use std::alloc::Global;
use std::io;
use std::sync::Wait;
use std::thread::{Threads, map_indices};

/// The number of workers.
const WORKERS: usize = 4;

/// How many requests of a line are served between two looks at the size of the cache.
const BETWEEN_LOOKS: u64 = 64;

/// What one worker or all workers did.
#[derive(Clone, Copy, Drop)]
pub struct Served {
    pub tally: Tally,
    /// The sum of all answers, modulo 2^64.
    pub sum: u64,
    /// The greatest number of stored answers that a worker saw.
    pub most: usize,
}

/// Before any request is served.
const NOTHING: Served = Served {
    tally: Tally {
        hits: 0,
        misses: 0,
        evictions: 0,
    },
    sum: 0,
    most: 0,
};

/// Serves every fourth request of each line, from number `worker` on.
fn serve_part<R: Wait>(rt: &R, answers: &Answers, lines: &[Line], worker: usize) -> Served {
    let mut served = NOTHING;
    for line in lines {
        for number in (worker as u64..line.count).step_by(WORKERS) {
            let answer = serve(rt, answers, &mut served.tally, line.request(number));
            served.sum = served.sum.wrapping_add(answer);
            if number % BETWEEN_LOOKS < WORKERS as u64 {
                served.most = served.most.max(answers.len(rt));
            }
        }
    }
    served
}

/// Lets the workers serve the requests of all lines by a cache of `bound` slots, and returns what they did.
pub fn serve_all<R: Threads + Sync + Wait>(
    rt: &R,
    alloc: Global,
    bound: usize,
    lines: &[Line],
) -> io::Result<Served> {
    let answers = Answers::with_capacity(alloc, 0, bound)?;
    let parts = map_indices(
        rt,
        alloc,
        WORKERS,
        &|worker| serve_part(rt, &answers, lines, worker),
    )?;
    let mut all = NOTHING;
    for part in parts {
        all.tally.hits = all.tally.hits.saturating_add(part.tally.hits);
        all.tally.misses = all.tally.misses.saturating_add(part.tally.misses);
        all.tally.evictions = all.tally.evictions.saturating_add(part.tally.evictions);
        all.sum = all.sum.wrapping_add(part.sum);
        all.most = all.most.max(part.most);
    }
    all.most = all.most.max(answers.len(rt));
    Ok(all)
}
