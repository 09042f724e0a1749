// Reservations whose growth is refused: the reservation is given all the same, and a later one grows. If the shrink of
// a release is refused, a later removal shrinks.
use crate::expect::expect_eq;
use crate::insertions::{Looks, expect_added};
use crate::looks::{expect_keys, fill};
use crate::makers::{Job, NO_CACHES, Of, with};
use crate::meetings;
use crate::removals::expect_shrunk;
use std::io::Print;
use std::process::Abort;
use std::sync::Wait;
use test_forms::answers::Answer;
use test_forms::form::{Form, Way};
use test_kit::refusals::{Refusal, TRIES};

// A number of slots for which no memory is enough.
pub(crate) const GREATEST: usize = 9_223_372_036_854_775_808;

// Reserves 64 slots beside three keys in 64 slots.
#[derive(Drop)]
pub(crate) struct Reservation;

impl Job for Reservation {
    fn run<F: Form, R: AllocGlobal + Abort + Print + Wait>(
        &self,
        rt: &R,
        refusal: &mut Refusal,
        of: Of,
        form: &mut F,
    ) {
        fill(rt, refusal, form, Way::Insert, 3);
        for _ in 0..TRIES {
            let before = form.sizes().capacity;
            let answer = form.reserve(64);
            expect_keys(rt, form, Way::Insert, 0, 3);
            expect_eq(rt, form.sizes().minimum, 64);
            if answer == Answer::Reserved(64, 128, 128) {
                break;
            }
            expect_eq(rt, (before, answer), (64, Answer::Reserved(64, 64, 128)));
            meetings::reservation(rt, refusal, of);
        }
        expect_shrunk(rt, refusal, of, form, 0);
    }
}

// Reserves the greatest number of slots. The growth, for which no memory is enough, is refused in each run, and the
// reservation is given all the same. A reservation of 0 slots is refused.
#[derive(Drop)]
pub(crate) struct Greatest;

impl Job for Greatest {
    fn run<F: Form, R: AllocGlobal + Abort + Print + Wait>(
        &self,
        rt: &R,
        refusal: &mut Refusal,
        of: Of,
        form: &mut F,
    ) {
        let mut looks = Looks::new(rt, refusal);
        let whole = Answer::Reserved(GREATEST, 0, GREATEST);
        expect_eq(rt, form.reserve(GREATEST), whole);
        expect_eq(rt, form.reserve(0), Answer::Refused(None));
        expect_added(rt, refusal, of, &mut looks, form, Way::Insert, 0);
        let beside = Answer::Reserved(GREATEST, 64, GREATEST);
        expect_eq(rt, form.reserve(GREATEST), beside);
        expect_keys(rt, form, Way::Insert, 0, 1);
        expect_added(rt, refusal, of, &mut looks, form, Way::Insert, 1);
        expect_eq(rt, form.sizes().capacity, 64);
    }
}

/// The second reservation is made on a container without an array.
#[test]
fn slots_are_reserved_without_memory(rt: HostRuntime) {
    for of in NO_CACHES {
        let mut refusal = Refusal::new();
        with(&rt, &mut refusal, of, 64, &Reservation);
        with(&rt, &mut refusal, of, 0, &Greatest);
    }
}
