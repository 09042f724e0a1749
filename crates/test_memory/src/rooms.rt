// Preparations whose growth is refused. The insertion that follows asks for what it needs without a growth, and if that
// isn't refused, it succeeds.
use crate::expect::expect_eq;
use crate::insertions::{first_kept, wanted};
use crate::looks::{expect_keys, fill, pair_of, value_of};
use crate::makers::{Job, Of, with};
use crate::meetings;
use std::io::Print;
use std::process::Abort;
use std::sync::Wait;
use test_forms::answers::Answer;
use test_forms::form::{Form, Way};
use test_forms::token::Token;
use test_kit::refusals::{Refusal, TRIES};

/// Prepares an insertion of `key` into an array that is half full. Returns the number of slots, 128 if the growth
/// wasn't refused, else 64.
fn prepare<F: Form, R: Abort + Print>(
    rt: &R,
    refusal: &mut Refusal,
    of: Of,
    form: &mut F,
    key: u64,
) -> usize {
    expect_eq(rt, form.make_room(&Token::of(key)), Answer::Yes(true));
    let slots = form.sizes().capacity;
    let by_slots = if slots == 64 {
        (64, true)
    } else {
        (128, false)
    };
    expect_eq(rt, (slots, form.is_resize_refused()), by_slots);
    if slots == 64 {
        meetings::room(rt, refusal, of);
    }
    slots
}

/// Inserts `key` once. Returns the first key that is missing then.
fn insert<F: Form, R: Abort + Print>(
    rt: &R,
    refusal: &mut Refusal,
    of: Of,
    form: &mut F,
    key: u64,
) -> u64 {
    let kind = form.kind();
    let answer = form.add(Way::Insert, Token::of(key), Token::of(!key));
    if !matches!(answer, Answer::Refused(_)) {
        expect_eq(rt, answer, wanted(kind, Way::Insert, key));
        return key.saturating_add(1);
    }
    let pair = pair_of(kind, key, value_of(Way::Insert, key));
    expect_eq(rt, answer, Answer::Refused(Some(pair)));
    meetings::insertion(rt, refusal, of);
    key
}

// Prepares and inserts one key after another, from the 33rd on, until one is inserted into the array that has grown.
#[derive(Drop)]
struct Prepared;

impl Job for Prepared {
    fn run<F: Form, R: AllocGlobal + Abort + Print + Wait>(
        &self,
        rt: &R,
        refusal: &mut Refusal,
        of: Of,
        form: &mut F,
    ) {
        fill(rt, refusal, form, Way::Insert, 32);
        let mut key = 32u64;
        for _ in 0..TRIES {
            let slots = prepare(rt, refusal, of, form, key);
            let end = insert(rt, refusal, of, form, key);
            expect_keys(rt, form, Way::Insert, first_kept(form.kind(), end), end);
            expect_eq(rt, form.sizes().capacity, slots);
            if slots == 128 && end > key {
                return;
            }
            key = end;
        }
        expect_eq(rt, form.sizes().capacity, 128);
    }
}

#[test]
fn insertions_after_a_refused_preparation(rt: HostRuntime) {
    for of in [Of::Map, Of::Set, Of::Index, Of::Cache] {
        with(&rt, &mut Refusal::new(), of, 64, &Prepared);
    }
}
