//! Walks whose closure writes 9 to each pair that it is called on.

use scc_common::Verdict;
use std::alloc::{AllocError, Global};
use std::sync::Wait;
use test_forms::answers::{Answer, Kind, Rule};
use test_forms::form::{Form, Way};
use test_forms::numbered::Seen;
use test_forms::token::Token;
use test_forms_ruled::every::in_every_form;
use test_forms_shared::every::Case;
use test_kit::masked::{SAME, ZERO};

/// Returns a key. If keys are their own hashes, each of these keys has a stripe of its own, if there are several.
fn key_of(number: u64) -> Token {
    Token::of((number << 60).wrapping_add(number))
}

/// Adds `keys` keys with the value 0. Returns whether each was added.
fn fills<F: Form>(form: &mut F, keys: u64) -> bool {
    let mut added = true;
    for number in 1..keys.saturating_add(1) {
        added &= form.add(Way::Insert, key_of(number), Token::of(0)) == Answer::Added(None);
    }
    added
}

/// Returns the number of pairs with `value`.
fn count_of(pairs: &[Seen], value: u64) -> usize {
    pairs.iter().filter(|pair| pair.2 == value).count()
}

// What a walk did: its result, the pairs that it took, and the pairs that are left.
#[derive(Drop)]
struct Walked {
    answer: Answer,
    taken: Vec<Seen>,
    left: Vec<Seen>,
}

/// Walks over `keys` pairs with a closure that always returns `verdict`.
fn walk<F: Form>(alloc: Global, form: &mut F, keys: u64, verdict: Verdict) -> Option<Walked> {
    let mut taken = Vec::new(alloc);
    let mut left = Vec::new(alloc);
    let filled = fills(form, keys);
    let answer = form.take(alloc, Rule::Always(verdict), &mut taken);
    if filled && form.collect(&mut left) {
        Some(Walked {
            answer,
            taken,
            left,
        })
    } else {
        None
    }
}

/// A walk over three pairs that stops at its first call.
#[derive(Clone, Copy)]
pub struct Stops(pub Verdict);

/// Returns whether one of three pairs was visited, and the other two are unchanged.
fn has_stopped(walked: &Walked, verdict: Verdict, kind: Kind) -> bool {
    let (taken, left) = (walked.taken.as_slice(), walked.left.as_slice());
    let counts = (count_of(taken, 9), count_of(left, 9), count_of(left, 0));
    let is_taking = verdict == Verdict::TakeStop;
    let wanted = match (is_taking, kind.shows_values()) {
        (true, true) => (1, 0, 2),
        (true, false) => (0, 0, 2),
        (false, true) => (0, 1, 2),
        (false, false) => (0, 0, 3),
    };
    let sizes = if is_taking { (1, 2) } else { (0, 3) };
    walked.answer == Answer::Yes(false) && counts == wanted && (taken.len(), left.len()) == sizes
}

/// Returns whether an index, which has no such walk, kept its `pairs` pairs.
fn has_none(walked: &Walked, pairs: usize) -> bool {
    walked.answer == Answer::Absent && walked.left.len() == pairs
}

impl Case for Stops {
    fn check<F: Form>(&self, alloc: Global, form: &mut F) -> Result<bool, AllocError> {
        let kind = form.kind();
        let Some(walked) = walk(alloc, form, 3, self.0) else {
            return Ok(false);
        };
        Ok(if kind == Kind::Index {
            has_none(&walked, 3)
        } else {
            has_stopped(&walked, self.0, kind)
        })
    }

    fn has_ended(&self) -> bool {
        true
    }
}

/// A walk that takes all pairs or keeps all. There are 32, which fill one bucket of a cache.
#[derive(Clone, Copy)]
pub struct Walks(pub Verdict);

/// Returns whether each of 32 pairs was visited, and all were taken or all kept.
fn has_visited(walked: &Walked, verdict: Verdict, kind: Kind) -> bool {
    let (full, empty) = if verdict == Verdict::Take {
        (walked.taken.as_slice(), walked.left.as_slice())
    } else {
        (walked.left.as_slice(), walked.taken.as_slice())
    };
    let written = if kind.shows_values() { 9 } else { 0 };
    walked.answer == Answer::Yes(true)
        && full.len() == 32
        && empty.is_empty()
        && count_of(full, written) == 32
}

impl Case for Walks {
    fn check<F: Form>(&self, alloc: Global, form: &mut F) -> Result<bool, AllocError> {
        let kind = form.kind();
        let Some(walked) = walk(alloc, form, 32, self.0) else {
            return Ok(false);
        };
        Ok(if kind == Kind::Index {
            has_none(&walked, 32)
        } else {
            has_visited(&walked, self.0, kind)
        })
    }

    fn has_ended(&self) -> bool {
        true
    }
}

/// Prints a line for each case. Returns the worst status.
pub(crate) fn run_stops<R: Wait + AllocGlobal + Print>(rt: &R) -> u8 {
    let take_stop = Stops(Verdict::TakeStop);
    let keep_stop = Stops(Verdict::KeepStop);
    let one = in_every_form(rt, &take_stop, "take and stop at the first call", SAME);
    let two = in_every_form(rt, &keep_stop, "keep and stop at the first call", SAME);
    let three = in_every_form(rt, &Walks(Verdict::Take), "take all", ZERO);
    let all = Walks(Verdict::Keep);
    let four = in_every_form(rt, &all, "write all and keep them", ZERO);
    one.max(two).max(three).max(four)
}
