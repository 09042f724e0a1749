// Workers whose run is refused: a worker that was started made all turns, any other made none, and the run that
// succeeds makes all turns.
use crate::expect::{expect, expect_eq};
use scc_stripes::workers::{Open, RunError, Work, run};
use test_kit::refusals::{Refusal, TRIES};

// A worker of three turns, which all return true.
#[derive(Drop)]
struct Turns {
    made: usize,
}

impl Work for Turns {
    fn turns(&self) -> usize {
        3
    }

    fn turn(&mut self, _j: usize) -> bool {
        self.made = self.made.saturating_add(1);
        true
    }
}

/// Returns the number of turns that each worker has made.
fn made_of(work: &[Turns; 2]) -> (usize, usize) {
    (work[0].made, work[1].made)
}

/// The first worker may have been started before the refused request, and has then ended.
#[test]
fn a_refused_run_of_workers_ends_what_it_started(rt: HostRuntime) {
    let mut refusal = Refusal::new();
    let mut work = [Turns { made: 0 }, Turns { made: 0 }];
    for _ in 0..TRIES {
        let before = made_of(&work);
        let ended = run(&rt, rt.alloc(), &mut work, &Open);
        let after = made_of(&work);
        let first = after.0.saturating_sub(before.0);
        let second = after.1.saturating_sub(before.1);
        if ended.is_ok() {
            expect_eq(&rt, (first, second), (3, 3));
            return;
        }
        expect(&rt, matches!(ended, Err(RunError::Start)));
        refusal.meet(&rt, "a run of workers");
        expect_eq(&rt, (first == 0 || first == 3, second), (true, 0));
    }
    expect(&rt, false);
}
