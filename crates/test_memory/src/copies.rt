// Clones and snapshots: a call makes the whole or nothing, and the original stays.
use crate::expect::expect_eq;
use crate::looks::{Look, expect_keys, fill, put};
use crate::makers::{Job, NO_CACHES, Of, with};
use std::io::Print;
use std::process::Abort;
use std::sync::Wait;
use test_forms::answers::Answer;
use test_forms::form::{Form, Way};
use test_forms::numbered::Seen;
use test_kit::refusals::{Refusal, TRIES};

// Makes a clone of 34 keys in one bucket.
#[derive(Drop)]
pub(crate) struct Copying;

impl Job for Copying {
    fn run<F: Form, R: AllocGlobal + Abort + Print + Wait>(
        &self,
        rt: &R,
        refusal: &mut Refusal,
        of: Of,
        form: &mut F,
    ) {
        let mut before = Look::new(rt, refusal);
        let mut after = Look::new(rt, refusal);
        fill(rt, refusal, form, Way::Insert, 34);
        before.see(rt, form);
        for _ in 0..TRIES {
            let answer = form.copy();
            after.see(rt, form);
            before.expect_same(rt, &after, false);
            if answer == Answer::Yes(true) {
                return;
            }
            expect_eq(rt, answer, Answer::Refused(None));
            refusal.meet(rt, "a clone");
        }
        expect_eq(rt, Some(TRIES), None);
    }
}

// Takes a snapshot of three versions.
#[derive(Drop)]
pub(crate) struct Snapshot;

impl Job for Snapshot {
    fn run<F: Form, R: AllocGlobal + Abort + Print + Wait>(
        &self,
        rt: &R,
        refusal: &mut Refusal,
        of: Of,
        form: &mut F,
    ) {
        let mut look = Look::new(rt, refusal);
        for key in [2, 0, 1] {
            put(rt, refusal, form, key, !key);
        }
        for _ in 0..TRIES {
            let answer = form.snapshot(&mut look.pairs);
            expect_keys(rt, form, Way::Insert, 0, 3);
            if answer == Answer::Yes(true) {
                break;
            }
            expect_eq(rt, (answer, look.pairs.len()), (Answer::Refused(None), 0));
            refusal.meet(rt, "a snapshot");
        }
        look.pairs.sort_unstable();
        let wanted: [Seen; 3] = [(0, 0, !0), (1, 0, !1), (2, 0, !2)];
        expect_eq(rt, look.pairs.as_slice(), wanted.as_slice());
    }
}

/// Does the job on each form.
pub(crate) fn expect_job<J: Job, R: AllocGlobal + Abort + Print + Wait>(
    rt: &R,
    forms: &[Of],
    job: &J,
) {
    for of in forms {
        with(rt, &mut Refusal::new(), *of, 64, job);
    }
}

#[test]
fn a_refused_clone_leaves_the_original(rt: HostRuntime) {
    expect_job(&rt, &NO_CACHES, &Copying);
}

#[test]
fn a_refused_snapshot_leaves_the_index(rt: HostRuntime) {
    expect_job(&rt, &[Of::Index, Of::SharedIndex], &Snapshot);
}
