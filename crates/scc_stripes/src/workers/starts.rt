// Tests of workers on threads. A thread gives up waiting after ten million looks.
use super::threads::{Starter, run_by};
use super::{Gate, Open, RunError, Work, run};
use std::hint::spin_loop;
use std::sync::atomic::{AtomicU64, Ordering};
use std::test::Fail;

const LOOKS: u32 = 10_000_000;

// Five turns. Turn `last` returns false.
#[derive(Drop)]
struct Turns {
    made: usize,
    last: usize,
}

/// Returns work whose turns all return true.
fn all() -> Turns {
    Turns { made: 0, last: 5 }
}

/// Returns work whose turn `j` returns false.
fn up_to(j: usize) -> Turns {
    Turns { made: 0, last: j }
}

impl Work for Turns {
    fn turns(&self) -> usize {
        5
    }

    fn turn(&mut self, j: usize) -> bool {
        self.made = self.made.saturating_add(1);
        j != self.last
    }
}

// A gate at which the first two workers wait, at their first turn, until both have come.
#[derive(Drop)]
struct Both {
    first: AtomicU64,
    second: AtomicU64,
}

fn meets(mine: &AtomicU64, other: &AtomicU64) -> bool {
    mine.store(1, Ordering::SeqCst);
    for _ in 0..LOOKS {
        if other.load(Ordering::SeqCst) == 1 {
            return true;
        }
        spin_loop();
    }
    false
}

impl Gate for Both {
    fn before(&self, worker: usize, j: usize) -> bool {
        match (worker, j) {
            (0, 0) => meets(&self.first, &self.second),
            (1, 0) => meets(&self.second, &self.first),
            _ => true,
        }
    }

    fn after(&self, _worker: usize, _j: usize) {}
}

#[test]
fn gate_sees_both(rt: HostRuntime) -> Result<(), Fail> {
    let gate = Both {
        first: AtomicU64::new(0),
        second: AtomicU64::new(0),
    };
    let mut work = [all(), all()];
    assert!(rt; run(&rt, rt.alloc(), &mut work, &gate).is_ok());
    assert_eq!(rt; work[0].made, 5);
    assert_eq!(rt; work[1].made, 5);
    Ok(())
}

// A gate that gives up worker 1 at its turn 3.
#[derive(Drop)]
struct GivesUp;

impl Gate for GivesUp {
    fn before(&self, worker: usize, j: usize) -> bool {
        !(worker == 1 && j == 3)
    }

    fn after(&self, _worker: usize, _j: usize) {}
}

#[test]
fn workers_gate_gives_up(rt: HostRuntime) -> Result<(), Fail> {
    let mut work = [all(), all()];
    let ended = run(&rt, rt.alloc(), &mut work, &GivesUp);
    assert!(rt; matches!(ended, Err(RunError::Gate)));
    assert_eq!(rt; work[0].made, 5);
    assert_eq!(rt; work[1].made, 3);
    Ok(())
}

#[test]
fn workers_false_turn_and_gate(rt: HostRuntime) -> Result<(), Fail> {
    let mut work = [up_to(2), all()];
    let ended = run(&rt, rt.alloc(), &mut work, &GivesUp);
    assert!(rt; matches!(ended, Err(RunError::Gate)));
    assert_eq!(rt; work[0].made, 3);
    assert_eq!(rt; work[1].made, 3);
    Ok(())
}

#[test]
fn workers_false_turn_alone(rt: HostRuntime) -> Result<(), Fail> {
    let mut work = [all(), all(), up_to(0)];
    let ended = run(&rt, rt.alloc(), &mut work, &Open);
    assert!(rt; matches!(ended, Err(RunError::Stopped)));
    assert_eq!(rt; work[0].made, 5);
    assert_eq!(rt; work[1].made, 5);
    assert_eq!(rt; work[2].made, 1);
    Ok(())
}

// A gate that counts the calls on it. Each turn of each worker has a digit of its own, which counts how often the turn
// came.
#[derive(Drop)]
struct Notes {
    before: AtomicU64,
    after: AtomicU64,
}

/// Returns the number with a 1 in the digit of turn `j` of worker `worker`, in base 16.
fn digit(worker: usize, j: usize) -> u64 {
    match u32::try_from(worker.wrapping_mul(5).wrapping_add(j)) {
        Ok(place) => 1u64.wrapping_shl(place.wrapping_mul(4)),
        Err(_) => 0,
    }
}

impl Gate for Notes {
    fn before(&self, worker: usize, j: usize) -> bool {
        self.before.fetch_add(digit(worker, j), Ordering::SeqCst);
        true
    }

    fn after(&self, worker: usize, j: usize) {
        self.after.fetch_add(digit(worker, j), Ordering::SeqCst);
    }
}

#[test]
fn gate_is_passed_before_and_after_each_turn(rt: HostRuntime) -> Result<(), Fail> {
    let gate = Notes {
        before: AtomicU64::new(0),
        after: AtomicU64::new(0),
    };
    let mut work = [all(), up_to(1)];
    let ended = run(&rt, rt.alloc(), &mut work, &gate);
    assert!(rt; matches!(ended, Err(RunError::Stopped)));
    assert_eq!(rt; gate.before.load(Ordering::SeqCst), 0x0111_1111);
    assert_eq!(rt; gate.after.load(Ordering::SeqCst), 0x0111_1111);
    Ok(())
}

#[test]
fn more_workers_than_bits_of_a_word(rt: HostRuntime) -> Result<(), Fail> {
    let mut work = Vec::new(rt.alloc());
    for _ in 0..70u8 {
        work.push(all())?;
    }
    work.push(up_to(1))?;
    work.push(all())?;
    let ended = run(&rt, rt.alloc(), work.as_mut_slice(), &Open);
    assert!(rt; matches!(ended, Err(RunError::Stopped)));
    let mut made = 0usize;
    for turns in work.iter() {
        made = made.saturating_add(turns.made);
    }
    assert_eq!(rt; made, 71 * 5 + 2);
    Ok(())
}

#[test]
fn no_worker_is_no_thread(rt: HostRuntime) -> Result<(), Fail> {
    let mut work: [Turns; 0] = [];
    assert!(rt; run(&rt, rt.alloc(), &mut work, &Open).is_ok());
    Ok(())
}

// A starter whose second thread asks for a stack that no machine has.
#[derive(Drop)]
struct NoSecond;

impl Starter for NoSecond {
    fn stack_size(&self, worker: usize) -> Option<usize> {
        if worker == 1 { Some(usize::MAX) } else { None }
    }
}

#[test]
fn refused_start_comes_first(rt: HostRuntime) -> Result<(), Fail> {
    let mut work = [up_to(2), all(), all()];
    let ended = run_by(&NoSecond, &rt, rt.alloc(), &mut work, &Open);
    assert!(rt; matches!(ended, Err(RunError::Start)));
    assert_eq!(rt; work[0].made, 3);
    assert_eq!(rt; work[1].made, 0);
    assert_eq!(rt; work[2].made, 0);
    Ok(())
}
