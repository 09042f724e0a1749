// Calls of every sort on the four kinds under a rule. After each call its answer and all pairs are as on a plain list.
use crate::expect::expect_eq;
use std::alloc::{AllocError, Global};
use std::hash::BuildHasher;
use std::process::Abort;
use test_forms::agreeing::{Asked, agrees};
use test_forms::calls::{DRASTIC, GENTLE, What, make};
use test_forms::form::Form;
use test_forms::list::List;
use test_forms::token::Token;
use test_forms_ruled::every::in_ruled_forms;
use test_forms_shared::every::{Case, ONE_STRIPE, STRIPES};
use test_kit::lines::HELD;
use test_kit::masked::SAME;
use test_kit::numbers::next;

/// The number of calls.
const CALLS: u64 = 1000;

/// Calls that may remove many pairs come once in so many calls.
const RARE: u64 = 64;

/// Keys are multiples of it, so that they lie in all stripes.
const SPREAD: u64 = 0x9E37_79B9_7F4A_7C15;

/// Returns the call of a number. All gentle calls come in turn.
fn what_of(number: u64) -> What {
    let (calls, place) = if number % RARE == RARE - 1 {
        (DRASTIC.as_slice(), number / RARE)
    } else {
        (GENTLE.as_slice(), number)
    };
    match calls.get((place % calls.len() as u64) as usize) {
        Some(what) => *what,
        None => What::Read,
    }
}

/// Returns the call of a number, on one of 64 keys.
fn asked(number: u64, seed: &mut u64) -> Asked {
    let key = (next(seed) % 64).wrapping_mul(SPREAD);
    Asked {
        what: what_of(number),
        number: key,
        mark: number,
        hash: SAME.hash_one(key),
        value: next(seed) % 1000,
    }
}

/// Makes a call on the container and on the list. Returns whether the answer and all pairs are those of the list.
fn agree<F: Form>(
    alloc: Global,
    form: &mut F,
    list: &mut List,
    asked: &Asked,
) -> Result<bool, AllocError> {
    let mut met = Vec::new(alloc);
    let key = Token::marked(asked.number, asked.mark);
    let answer = make(
        alloc,
        form,
        asked.what,
        key,
        Token::of(asked.value),
        &mut met,
    );
    list.resize(alloc, form.sizes().capacity)?;
    let is_right = agrees(alloc, list, asked, answer, met.as_slice())?;
    let mut pairs = Vec::new(alloc);
    let collected = form.collect(&mut pairs);
    let are_right = list.is_met_by(alloc, pairs.as_slice())?;
    Ok(is_right && collected && are_right && form.sizes().len == list.len())
}

// Calls of every sort.
#[derive(Drop)]
struct Calls;

impl Case for Calls {
    fn check<F: Form>(&self, alloc: Global, form: &mut F) -> Result<bool, AllocError> {
        let mut list = List::new(alloc, form.kind(), form.is_one());
        let mut seed = 0u64;
        let mut are_right = true;
        for number in 0..CALLS {
            let asked = asked(number, &mut seed);
            are_right = agree(alloc, form, &mut list, &asked)? && are_right;
        }
        Ok(are_right)
    }

    fn has_ended(&self) -> bool {
        true
    }
}

#[test]
fn ruled_containers_of_one_stripe_answer_as_a_list(rt: HostRuntime) {
    let what = "calls of every sort";
    expect_eq(
        &rt,
        in_ruled_forms(&rt, &Calls, what, SAME, ONE_STRIPE),
        HELD,
    );
}

#[test]
fn ruled_containers_of_stripes_answer_as_a_list(rt: HostRuntime) {
    let what = "calls of every sort";
    expect_eq(&rt, in_ruled_forms(&rt, &Calls, what, SAME, STRIPES), HELD);
}
