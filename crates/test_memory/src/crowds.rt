// An index whose keys, 33 or more in one bucket, all wait in the old array. The next insertion asks for memory for all
// of them at once, and if it is refused, they go on waiting.
use crate::expect::{expect, expect_eq};
use crate::insertions::{Looks, expect_added};
use crate::looks::{expect_keys, fill_to_growth};
use crate::makers::{Job, Of, with};
use crate::meetings;
use std::io::Print;
use std::process::Abort;
use std::sync::Wait;
use test_forms::answers::Answer;
use test_forms::form::{Form, Way};
use test_kit::refusals::{Refusal, TRIES};

#[derive(Drop)]
pub(crate) struct Crowd;

impl Job for Crowd {
    fn run<F: Form, R: AllocGlobal + Abort + Print + Wait>(
        &self,
        rt: &R,
        refusal: &mut Refusal,
        of: Of,
        form: &mut F,
    ) {
        let mut looks = Looks::new(rt, refusal);
        let count = fill_to_growth(rt, refusal, form);
        for _ in 0..TRIES {
            let answer = form.reserve(65);
            expect_keys(rt, form, Way::Insert, 0, count);
            if answer == Answer::Reserved(65, 256, 129) {
                break;
            }
            expect_eq(rt, answer, Answer::Reserved(65, 128, 129));
            meetings::reservation(rt, refusal, of);
        }
        expect_eq(rt, form.sizes().capacity, 256);
        let end = count.saturating_add(2);
        for key in count..end {
            expect_added(rt, refusal, of, &mut looks, form, Way::Insert, key);
        }
        expect_eq(rt, form.sizes().capacity, 256);
        expect(rt, form.waiting().unwrap_or(0) <= 6);
    }
}

#[test]
fn a_refused_crowded_bucket_of_an_index_goes_on_waiting(rt: HostRuntime) {
    for of in [Of::Index, Of::SharedIndex] {
        with(&rt, &mut Refusal::new(), of, 64, &Crowd);
    }
}
