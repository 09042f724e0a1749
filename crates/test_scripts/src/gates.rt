// Seventy workers of five turns at a gate that notes its calls and gives up some workers. Each turn has a call of the
// gate before it, the turn itself and a call after it, in this order. Nothing comes after a turn that returned false
// or that the gate gave up. If both happen in a run, the run reports that a worker was given up.
use crate::expect::expect_eq;
use scc_stripes::workers::{Gate, RunError, Work, run};
use std::alloc::{AllocError, Global};
use std::process::Abort;
use std::sync::Wait;
use std::sync::atomic::{AtomicU64, Ordering};
use std::test::Fail;
use std::thread::Threads;

/// The number of workers, more than a word has bits.
const WORKERS: usize = 70;

/// The turns of each worker.
const TURNS: usize = 5;

/// No turn.
const NEVER: usize = usize::MAX;

const NOBODY: (usize, usize) = (NEVER, NEVER);

// The base of the number in which the events at a turn are digits: 1 before the turn, 2 the turn, 3 after it.
const BASE: u64 = 16;

/// A gate that notes each of its calls at its worker and turn, and gives up two workers at the turns that they name.
#[derive(Drop)]
struct Notes {
    came: Vec<AtomicU64>,
    gives_up: [(usize, usize); 2],
}

impl Notes {
    fn new(alloc: Global, gives_up: [(usize, usize); 2]) -> Result<Notes, AllocError> {
        let mut came = Vec::new(alloc);
        for _ in 0..WORKERS * TURNS {
            came.push(AtomicU64::new(0))?;
        }
        Ok(Notes { came, gives_up })
    }

    /// Appends `digit` to the number of a turn.
    fn note(&self, worker: usize, j: usize, digit: u64) {
        let place = worker.wrapping_mul(TURNS).wrapping_add(j);
        if let Some(came) = self.came.get(place) {
            let old = came.load(Ordering::SeqCst);
            came.store(old.wrapping_mul(BASE).wrapping_add(digit), Ordering::SeqCst);
        }
    }

    /// Returns the number of a turn.
    fn came_to(&self, worker: usize, j: usize) -> Option<u64> {
        let place = worker.wrapping_mul(TURNS).wrapping_add(j);
        self.came.get(place).map(|came| came.load(Ordering::SeqCst))
    }
}

impl Gate for Notes {
    fn before(&self, worker: usize, j: usize) -> bool {
        self.note(worker, j, 1);
        !self.gives_up.iter().any(|place| *place == (worker, j))
    }

    fn after(&self, worker: usize, j: usize) {
        self.note(worker, j, 3);
    }
}

/// A worker that notes its turns at the gate. One turn may return false.
#[derive(Drop)]
struct Noted<'a> {
    gate: &'a Notes,
    worker: usize,
    last: usize,
}

impl Work for Noted<'_> {
    fn turns(&self) -> usize {
        TURNS
    }

    fn turn(&mut self, j: usize) -> bool {
        self.gate.note(self.worker, j, 2);
        j != self.last
    }
}

/// Returns `WORKERS` workers. The turn of `stops` returns false.
fn workers_at(
    alloc: Global,
    gate: &Notes,
    stops: (usize, usize),
) -> Result<Vec<Noted<'_>>, AllocError> {
    let mut workers = Vec::new(alloc);
    for worker in 0..WORKERS {
        let last = if worker == stops.0 { stops.1 } else { NEVER };
        workers.push(Noted { gate, worker, last })?;
    }
    Ok(workers)
}

/// Returns the digits of a turn if the gate gives up its workers and the turn of `stops` returns false.
fn wanted(gate: &Notes, stops: (usize, usize), worker: usize, j: usize) -> u64 {
    let mut digits = 0x123;
    for place in gate.gives_up {
        if place.0 == worker && place.1 <= j {
            digits = if place.1 == j { 0x1 } else { 0 };
        }
    }
    if stops.0 == worker && stops.1 < j {
        0
    } else {
        digits
    }
}

/// Returns whether exactly the wanted digits came to the gate.
fn has_noted(gate: &Notes, stops: (usize, usize)) -> bool {
    let mut right = true;
    for worker in 0..WORKERS {
        for j in 0..TURNS {
            right = right && gate.came_to(worker, j) == Some(wanted(gate, stops, worker, j));
        }
    }
    right
}

/// Returns how a run ends if the gate gives up two workers and one turn returns false, or `None` if the gate wasn't
/// called as wanted.
fn end_of<R: Threads + Wait + Sync>(
    rt: &R,
    alloc: Global,
    gives_up: [(usize, usize); 2],
    stops: (usize, usize),
) -> Result<Option<Result<(), RunError>>, AllocError> {
    let gate = Notes::new(alloc, gives_up)?;
    let mut workers = workers_at(alloc, &gate, stops)?;
    let ended = run(rt, alloc, workers.as_mut_slice(), &gate);
    Ok(if has_noted(&gate, stops) {
        Some(ended)
    } else {
        None
    })
}

#[test]
fn seventy_workers_all_go_on(rt: HostRuntime) -> Result<(), Fail> {
    let ended = end_of(&rt, rt.alloc(), [NOBODY, NOBODY], NOBODY)?;
    expect_eq(&rt, ended, Some(Ok(())));
    Ok(())
}

#[test]
fn seventy_workers_one_stops(rt: HostRuntime) -> Result<(), Fail> {
    for stops in [(0, 2), (66, 0), (69, 4)] {
        let ended = end_of(&rt, rt.alloc(), [NOBODY, NOBODY], stops)?;
        expect_eq(&rt, ended, Some(Err(RunError::Stopped)));
    }
    Ok(())
}

#[test]
fn seventy_workers_two_are_given_up(rt: HostRuntime) -> Result<(), Fail> {
    for (gives_up, stops) in [
        ([(1, 3), (65, 0)], NOBODY),
        ([(2, 1), (64, 4)], (1, 2)),
        ([(2, 1), (64, 4)], (68, 4)),
    ] {
        let ended = end_of(&rt, rt.alloc(), gives_up, stops)?;
        expect_eq(&rt, ended, Some(Err(RunError::Gate)));
    }
    Ok(())
}
