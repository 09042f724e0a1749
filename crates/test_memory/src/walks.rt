// Walks whose list of taken pairs is refused room: they end before the closure is called on the next pair, and the
// next walk takes the rest.
use crate::expect::expect_eq;
use crate::looks::{Look, fill, pair_of};
use crate::makers::{Job, NO_INDEXES, Of, with};
use crate::meetings;
use scc_common::Verdict;
use std::io::Print;
use std::process::Abort;
use std::sync::Wait;
use test_forms::answers::{Answer, Kind, Rule};
use test_forms::form::{Form, Way};
use test_forms::numbered::Seen;
use test_forms::token::Token;
use test_kit::refusals::{Refusal, TRIES};

const KEYS: u64 = 12;

/// Returns whether a pair was taken, with the 9 that the closure wrote.
fn is_taken(kind: Kind, taken: &[Seen], key: u64) -> bool {
    let pair = pair_of(kind, key, 9);
    taken.iter().any(|other| *other == pair)
}

/// Checks that each key is in the list, or in the container with its old value.
fn expect_parted<F: Form, R: Abort>(rt: &R, form: &F, taken: &[Seen]) {
    let kind = form.kind();
    let all = form.sizes().len.saturating_add(taken.len());
    expect_eq(rt, all as u64, KEYS);
    for key in 0..KEYS {
        let left = if is_taken(kind, taken, key) {
            None
        } else {
            Some(pair_of(kind, key, !key))
        };
        expect_eq(rt, form.read(&Token::of(key)), Answer::Found(left));
    }
}

#[derive(Drop)]
pub(crate) struct Taking;

impl Job for Taking {
    fn run<F: Form, R: AllocGlobal + Abort + Print + Wait>(
        &self,
        rt: &R,
        refusal: &mut Refusal,
        of: Of,
        form: &mut F,
    ) {
        let mut look = Look::new(rt, refusal);
        fill(rt, refusal, form, Way::Insert, KEYS);
        for _ in 0..TRIES {
            let answer = form.take(rt.alloc(), Rule::Always(Verdict::Take), &mut look.pairs);
            expect_parted(rt, form, look.pairs.as_slice());
            if answer == Answer::Yes(true) {
                break;
            }
            expect_eq(rt, answer, Answer::Refused(None));
            meetings::walk(rt, refusal, of);
        }
        expect_eq(rt, look.pairs.len() as u64, KEYS);
    }
}

#[test]
fn a_taking_walk_stops_without_room(rt: HostRuntime) {
    for of in NO_INDEXES {
        with(&rt, &mut Refusal::new(), of, 64, &Taking);
    }
}
