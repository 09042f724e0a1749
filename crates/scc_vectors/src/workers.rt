// Workers on threads of their own, which make turns and pass a gate before each.
use crate::expect::expect_eq;
use scc::stripes::{Gate, Open, RunError, Work, run};
use std::process::Abort;

// A worker of five turns that counts the turns that it made. One turn may return false.
#[derive(Drop)]
struct Turns {
    made: usize,
    last: usize,
}

/// Returns a worker whose turn with the number `last` returns false. If `last` is 5 or more, none does.
fn up_to(last: usize) -> Turns {
    Turns { made: 0, last }
}

impl Work for Turns {
    fn turns(&self) -> usize {
        5
    }

    fn turn(&mut self, j: usize) -> bool {
        self.made = self.made.saturating_add(1);
        j != self.last
    }
}

// A gate that gives up worker 1 before its turn 3.
#[derive(Drop)]
struct GivesUp;

impl Gate for GivesUp {
    fn before(&self, worker: usize, j: usize) -> bool {
        !(worker == 1 && j == 3)
    }

    fn after(&self, _worker: usize, _j: usize) {}
}

#[test]
fn workers_gate_gives_up(rt: HostRuntime) {
    let mut work = [up_to(5), up_to(5)];
    let ended = run(&rt, rt.alloc(), &mut work, &GivesUp);
    expect_eq(
        &rt,
        (ended, work[0].made, work[1].made),
        (Err(RunError::Gate), 5, 3),
    );
}

#[test]
fn workers_false_turn_and_gate(rt: HostRuntime) {
    let mut work = [up_to(2), up_to(5)];
    let ended = run(&rt, rt.alloc(), &mut work, &GivesUp);
    expect_eq(
        &rt,
        (ended, work[0].made, work[1].made),
        (Err(RunError::Gate), 3, 3),
    );
}

#[test]
fn workers_false_turn_alone(rt: HostRuntime) {
    let mut work = [up_to(5), up_to(5), up_to(0)];
    let ended = run(&rt, rt.alloc(), &mut work, &Open);
    expect_eq(
        &rt,
        (ended, work[0].made, work[1].made, work[2].made),
        (Err(RunError::Stopped), 5, 5, 1),
    );
}
