// Recorded containers whose bucket is full: the growth that the next insertion wants, and its own memory after it, may
// both be refused. A growth that was made stays recorded, also if its insertion was refused. One that was refused is
// made by the next insertion: each delay is told as a refusal, and `tools/refuse_memory` allows no more than there were.
use crate::calls::{expect_clock, make_call};
use crate::expect::{expect, expect_eq};
use crate::finishing::expect_finished;
use crate::kinds::{Cache, Index, Map, Set, Tried, What};
use crate::opened::{Trial, outlast};
use scc_calls::{Calls, Step};
use scc_common::Shared;
use scc_history::CallError;
use scc_recorded::{Closed, Pass, Recorded, Site};
use std::io::Print;
use std::process::Abort;
use std::sync::Wait;
use std::sync::ledger::Ledger;
use test_kit::refusals::{Refusal, TRIES};
use test_kit::zero::Zero;

/// The first key that finds its bucket full, and half of all slots in use.
const FULL: u64 = 32;

/// The first key after all insertions. No other growth is due before it.
const END: u64 = 64;

/// Inserts `key` once, after the keys below it. Returns whether it went in, or `None` if there was no room for the
/// record. A refused insertion leaves the pass as it was.
fn try_insertion<C: Tried, L: Ledger, M: Site<C::Hasher>, R: Abort + Print + Wait>(
    rt: &R,
    refusal: &mut Refusal,
    recorded: &Recorded<C, L, M>,
    pass: &mut Pass<C, L>,
    key: u64,
) -> Option<bool> {
    let before = pass.receipts().len();
    let answer = make_call(rt, recorded, pass, C::insertion(key));
    let Some(Err(cause)) = answer else {
        expect_eq(rt, answer, Some(Ok(true)));
        expect_clock(rt, pass, before.saturating_add(1));
        return Some(true);
    };
    expect_clock(rt, pass, before);
    if cause == CallError::Room {
        C::meet(rt, refusal, What::Call(cause));
        return None;
    }
    expect(rt, C::may_refuse(key));
    Some(false)
}

/// Inserts the keys from `first` up to, but without, `end`, each until it goes in.
fn expect_insertions<C: Tried, L: Ledger, M: Site<C::Hasher>, R: Abort + Print + Wait>(
    rt: &R,
    refusal: &mut Refusal,
    recorded: &Recorded<C, L, M>,
    pass: &mut Pass<C, L>,
    first: u64,
    end: u64,
) {
    for key in first..end {
        for _ in 0..TRIES {
            match try_insertion(rt, refusal, recorded, pass, key) {
                Some(true) => break,
                Some(false) => C::meet(rt, refusal, What::Call(CallError::Container)),
                None => {}
            }
        }
    }
    expect_clock(rt, pass, end as usize);
}

/// Inserts `key` until the record has room. Returns whether it went in.
fn insert_once<C: Tried, L: Ledger, M: Site<C::Hasher>, R: Abort + Print + Wait>(
    rt: &R,
    refusal: &mut Refusal,
    recorded: &Recorded<C, L, M>,
    pass: &mut Pass<C, L>,
    key: u64,
) -> bool {
    for _ in 0..TRIES {
        if let Some(is_in) = try_insertion(rt, refusal, recorded, pass, key) {
            return is_in;
        }
    }
    expect(rt, false);
    false
}

// Where the two arrays stand in a history of insertions: each before the insertion of this key.
#[derive(Clone, Copy, Debug, PartialEq)]
struct Arrays {
    first: Option<u64>,
    growth: Option<u64>,
}

/// Returns where the arrays stand in the history of the insertions of the keys below `end`, or `None` if a step is
/// wrong.
fn arrays_of<C: Tried>(history: &[Step<C::Call, C::Reply>], end: u64) -> Option<Arrays> {
    let mut arrays = Arrays {
        first: None,
        growth: None,
    };
    let mut key = 0u64;
    for step in history {
        let wanted = key.saturating_add(1);
        match step {
            Step::Resize { stamp, buckets } => {
                let is_first = *buckets == 2 && arrays.first.is_none();
                let is_growth = *buckets == 4 && arrays.growth.is_none();
                if *stamp != wanted || !(is_first || is_growth) {
                    return None;
                }
                if is_first {
                    arrays.first = Some(key);
                } else {
                    arrays.growth = Some(key);
                }
            }
            Step::Call {
                stamp,
                pass,
                call,
                reply,
            } => {
                let insertion = C::insertion(key);
                if *stamp != wanted || *pass != 0 || *call != insertion.0 || *reply != insertion.1 {
                    return None;
                }
                key = wanted;
            }
        }
    }
    if key == end { Some(arrays) } else { None }
}

/// Checks the one stripe after the insertions of the keys below `end`: its history, its keys and its array. Returns the
/// key before whose insertion the growth stands, if it was made.
fn growth_of<C: Tried, L: Ledger, M: Site<C::Hasher>, R: Abort>(
    rt: &R,
    closed: &Closed<C, L, M>,
    end: u64,
) -> Option<u64> {
    let stripe = closed.stripe(0).expect(rt, "the stripe is there");
    let arrays = arrays_of::<C>(stripe.history.as_slice(), end).expect(rt, "each step is right");
    let buckets = if arrays.growth.is_some() { 4 } else { 2 };
    let kept = C::first_kept(end);
    let count = end.saturating_sub(kept) as usize;
    expect_eq(
        rt,
        (
            arrays.first,
            stripe.container.buckets(),
            stripe.container.count(),
        ),
        (Some(0), buckets, count),
    );
    let mut are_there = true;
    for key in kept..end {
        are_there = are_there && stripe.container.has(key);
    }
    expect(rt, are_there);
    arrays.growth
}

/// Reports the growth as refused as often as it came late.
fn meet_delays<C: Tried, R: Abort + Print>(rt: &R, refusal: &mut Refusal, growth: Option<u64>) {
    let made = growth.expect(rt, "the growth was made");
    for _ in FULL..made {
        C::meet(rt, refusal, What::Growth);
    }
    expect(rt, made >= FULL);
}

// Insertions of all keys, and the finish.
#[derive(Drop)]
struct EachKey;

impl<C: Tried> Trial<C> for EachKey
where
    C::Hasher: Drop,
{
    fn hasher(hasher: Shared<Zero>) -> C::Hasher {
        C::hasher(hasher)
    }

    fn run<L: Ledger, M: Site<C::Hasher>, R: AllocGlobal + Abort + Print + Wait>(
        rt: &R,
        refusal: &mut Refusal,
        opened: &mut Option<(Recorded<C, L, M>, Vec<Pass<C, L>>)>,
    ) {
        let Some((recorded, handed)) = opened.take() else {
            return expect(rt, false);
        };
        let mut passes = handed;
        for pass in passes.as_mut_slice() {
            expect_insertions(rt, refusal, &recorded, pass, 0, END);
        }
        let closed = recorded.close();
        let growth = growth_of(rt, &closed, END);
        meet_delays::<C, R>(rt, refusal, growth);
        let left = END.saturating_sub(C::first_kept(END));
        expect_finished(rt, refusal, closed, passes, left as usize);
    }
}

#[test]
fn recorded_map_refused_array_uses_overflow(rt: HostRuntime) {
    outlast::<Map, EachKey, _>(&rt, "a recorded map that grows", (0, 0), 1);
}

#[test]
fn recorded_set_refused_array_uses_overflow(rt: HostRuntime) {
    outlast::<Set, EachKey, _>(&rt, "a recorded set that grows", (0, 0), 1);
}

#[test]
fn recorded_index_refused_array_uses_overflow(rt: HostRuntime) {
    outlast::<Index, EachKey, _>(&rt, "a recorded index that grows", (0, 0), 1);
}

#[test]
fn recorded_cache_refused_array_evicts(rt: HostRuntime) {
    outlast::<Cache, EachKey, _>(&rt, "a recorded cache that grows", (0, 128), 1);
}

/// Reports what the one insertion of a key into a full bucket was refused. If it was refused and its growth is still
/// due, both were.
fn meet_insertion<C: Tried, R: Abort + Print>(
    rt: &R,
    refusal: &mut Refusal,
    is_in: bool,
    growth: Option<u64>,
) {
    expect(rt, growth.unwrap_or(FULL) == FULL);
    match (is_in, growth.is_some()) {
        (true, true) => {}
        (true, false) => C::meet(rt, refusal, What::Growth),
        (false, true) => C::meet(rt, refusal, What::AfterGrowth),
        (false, false) => {
            C::meet(rt, refusal, What::Growth);
            C::meet(rt, refusal, What::Overflow);
        }
    }
}

// Insertions of the keys up to the one that finds its bucket full, which is tried once, and the finish.
#[derive(Drop)]
struct OneTry;

impl<C: Tried> Trial<C> for OneTry
where
    C::Hasher: Drop,
{
    fn hasher(hasher: Shared<Zero>) -> C::Hasher {
        C::hasher(hasher)
    }

    fn run<L: Ledger, M: Site<C::Hasher>, R: AllocGlobal + Abort + Print + Wait>(
        rt: &R,
        refusal: &mut Refusal,
        opened: &mut Option<(Recorded<C, L, M>, Vec<Pass<C, L>>)>,
    ) {
        let Some((recorded, handed)) = opened.take() else {
            return expect(rt, false);
        };
        let mut passes = handed;
        let mut is_in = false;
        for pass in passes.as_mut_slice() {
            expect_insertions(rt, refusal, &recorded, pass, 0, FULL);
            is_in = insert_once(rt, refusal, &recorded, pass, FULL);
        }
        let closed = recorded.close();
        let end = if is_in { FULL + 1 } else { FULL };
        let growth = growth_of(rt, &closed, end);
        meet_insertion::<C, R>(rt, refusal, is_in, growth);
        expect_finished(rt, refusal, closed, passes, end as usize);
    }
}

#[test]
fn recorded_map_refused_call_keeps_its_growth(rt: HostRuntime) {
    outlast::<Map, OneTry, _>(&rt, "a recorded map of one growth", (0, 0), 1);
}

#[test]
fn recorded_set_refused_call_keeps_its_growth(rt: HostRuntime) {
    outlast::<Set, OneTry, _>(&rt, "a recorded set of one growth", (0, 0), 1);
}

#[test]
fn recorded_index_refused_call_keeps_its_growth(rt: HostRuntime) {
    outlast::<Index, OneTry, _>(&rt, "a recorded index of one growth", (0, 0), 1);
}
