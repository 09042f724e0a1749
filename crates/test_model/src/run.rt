//! A run of random calls on a container of any kind and form, and on a plain list.

use crate::draws::{Call, Draws};
use crate::kept::Kept;
use crate::tally::Tally;
use std::alloc::{AllocError, Global};
use std::hash::BuildHasher;
use test_forms::agreeing::{Asked, agrees};
use test_forms::calls::{What, make};
use test_forms::form::Form;
use test_forms::list::List;
use test_forms::token::Token;
use test_forms_shared::every::Case;
use test_kit::masked::Masked;

/// All pairs are compared after this many calls.
const LOOK: u64 = 50;

/// A run of calls under a hasher, on keys made from numbers up to a mask.
#[derive(Clone, Copy)]
pub struct Run {
    /// The hasher of the container.
    pub hasher: Masked,
    /// The number of calls.
    pub calls: u64,
    /// The greatest number that a key is made from, one less than a power of two.
    pub mask: u64,
    /// Whether buckets of an owned container must wait during more than an eighth of the calls. In a run of the usual
    /// length they do.
    pub waits: bool,
    /// Whether an array must grow in an insertion while a token is kept.
    pub grows: bool,
}

/// Returns the numbers of a call.
fn asked(hasher: &Masked, call: &Call) -> Asked {
    Asked {
        what: call.what,
        number: call.number,
        mark: call.mark,
        hash: hasher.hash_one(call.number),
        value: call.value,
    }
}

/// Returns whether a walk meets the pairs of the list, and no others.
fn is_as<F: Form>(alloc: Global, form: &F, list: &List) -> Result<bool, AllocError> {
    let mut met = Vec::new(alloc);
    let collected = form.collect(&mut met);
    Ok(collected && list.is_met_by(alloc, met.as_slice())?)
}

/// Returns whether the sizes fit a container with as many pairs as the list, and each resize that was due was made: no
/// memory is refused in a run.
fn fits<F: Form>(form: &F, list: &List) -> bool {
    let sizes = form.sizes();
    !form.is_resize_refused()
        && sizes.len == list.len()
        && sizes.is_empty == (sizes.len == 0)
        && sizes.minimum <= sizes.maximum
        && sizes.capacity <= sizes.maximum
}

/// Makes a call on the container and on the list. Returns whether both agree and the sizes are right.
fn step<F: Form>(
    alloc: Global,
    hasher: &Masked,
    form: &mut F,
    list: &mut List,
    call: &Call,
) -> Result<bool, AllocError> {
    let mut met = Vec::new(alloc);
    let answer = make(
        alloc,
        form,
        call.what,
        call.key(),
        Token::of(call.value),
        &mut met,
    );
    list.resize(alloc, form.sizes().capacity)?;
    let is_right = agrees(alloc, list, &asked(hasher, call), answer, met.as_slice())?;
    Ok(is_right && fits(form, list))
}

/// Makes the calls, some of them while a token is kept. Returns whether all agreed.
fn make_all<F: Form>(
    alloc: Global,
    run: &Run,
    form: &mut F,
    list: &mut List,
    tally: &mut Tally,
    kept: &mut Kept,
) -> Result<bool, AllocError> {
    let mut draws = Draws::new(run.calls, run.mask);
    let mut agree = true;
    for number in 0..run.calls {
        agree = kept.turn(form, number) && fits(form, list) && agree;
        let waits = form.waiting().unwrap_or(0) > 0;
        let call = draws.draw(list, waits);
        tally.note(call.what, list.find(call.number).is_some(), waits)?;
        let before = form.sizes().capacity;
        let is_right = step(alloc, &run.hasher, form, list, &call)?;
        if matches!(call.what, What::Add(_)) {
            kept.note(before, form.sizes().capacity);
        }
        let is_whole = number % LOOK > 0 || is_as(alloc, form, list)?;
        agree = agree && is_right && is_whole;
    }
    Ok(agree && is_as(alloc, form, list)?)
}

impl Case for Run {
    fn check<F: Form>(&self, alloc: Global, form: &mut F) -> Result<bool, AllocError> {
        let mut list = List::new(alloc, form.kind(), form.is_one());
        let mut tally = Tally::new(alloc);
        let mut kept = Kept::new();
        let agree = make_all(alloc, self, form, &mut list, &mut tally, &mut kept)?;
        let waited = !self.waits || form.waiting().is_none() || tally.has_waited();
        let grown = !self.grows || kept.has_seen_growth();
        Ok(agree && waited && grown && tally.is_whole())
    }

    fn has_ended(&self) -> bool {
        true
    }
}

/// A run with a list that forgets one pair. The run must find that out.
#[derive(Clone, Copy)]
pub struct Forgetful(pub Run);

impl Case for Forgetful {
    fn check<F: Form>(&self, alloc: Global, form: &mut F) -> Result<bool, AllocError> {
        let mut list = List::forgetful(alloc, form.kind(), form.is_one(), 20);
        let mut tally = Tally::new(alloc);
        let mut kept = Kept::new();
        let agree = make_all(alloc, &self.0, form, &mut list, &mut tally, &mut kept)?;
        Ok(!agree)
    }

    fn has_ended(&self) -> bool {
        true
    }
}
