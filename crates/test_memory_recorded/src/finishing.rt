// A refused finish hands everything back as it was, and is made again until it succeeds. The finish that succeeds tells
// what the run did.
use crate::expect::{expect, expect_eq};
use crate::kinds::{Tried, What};
use scc_calls::{Calls, Step};
use scc_history::Receipt;
use scc_recorded::{Closed, FinishError, Finished, Pass, Site, Unfinished};
use std::io::Print;
use std::process::Abort;
use std::sync::ledger::Ledger;
use test_kit::refusals::{Refusal, TRIES};

/// Returns the number of passes, the sum of their clocks, and the number of their receipts.
fn clocks_of<C: Calls, L: Ledger>(passes: &[Pass<C, L>]) -> (usize, u64, usize) {
    let (mut clocks, mut receipts) = (0u64, 0usize);
    for pass in passes {
        clocks = clocks.saturating_add(pass.clock());
        receipts = receipts.saturating_add(pass.receipts().len());
    }
    (passes.len(), clocks, receipts)
}

/// Returns the number of stripes, and the number of steps in their histories.
fn steps_of<C: Calls + Drop, L: Ledger, M: Site<C::Hasher>>(
    closed: &Closed<C, L, M>,
) -> (usize, usize)
where
    C::Hasher: Drop,
{
    let mut steps = 0usize;
    for guarded in closed.stripes.as_slice() {
        steps = steps.saturating_add(guarded.stripe.history.len());
    }
    (closed.stripes.len(), steps)
}

/// Returns what can be seen of an unfinished run: the numbers of stripes, steps and passes, the sum of the passes'
/// clocks, and the number of their receipts.
fn seen_of<C: Calls + Drop, L: Ledger, M: Site<C::Hasher>>(
    closed: &Closed<C, L, M>,
    passes: &[Pass<C, L>],
) -> [usize; 5]
where
    C::Hasher: Drop,
{
    let (stripes, steps) = steps_of(closed);
    let (passes, clocks, receipts) = clocks_of(passes);
    [stripes, steps, passes, clocks as usize, receipts]
}

/// Returns whether the stripe of a receipt has the record of its call, with its stamp and its reply.
fn is_recorded<C: Calls, L: Ledger, M: Site<C::Hasher>>(
    closed: &Closed<C, L, M>,
    receipt: &Receipt<C::Call, C::Reply>,
) -> bool {
    let Some(stripe) = closed.stripe(receipt.stripe) else {
        return false;
    };
    for step in stripe.history.as_slice() {
        if let Step::Call {
            stamp,
            call,
            reply,
            ..
        } = step
        {
            if *stamp == receipt.stamp {
                return *call == receipt.call && *reply == receipt.reply;
            }
        }
    }
    false
}

/// Returns whether each receipt is recorded.
fn are_recorded<C: Calls, L: Ledger, M: Site<C::Hasher>>(
    closed: &Closed<C, L, M>,
    passes: &[Pass<C, L>],
) -> bool {
    for pass in passes {
        for receipt in pass.receipts() {
            if !is_recorded(closed, receipt) {
                return false;
            }
        }
    }
    true
}

/// Returns what a refused finish handed back, and checks that it is seen as it was `before` the finish, with each
/// record and its receipt.
fn handed_back<C: Tried, L: Ledger, M: Site<C::Hasher>, R: Abort + Print>(
    rt: &R,
    refusal: &mut Refusal,
    back: Unfinished<C, L, M>,
    before: [usize; 5],
) -> (Closed<C, L, M>, Vec<Pass<C, L>>)
where
    C::Hasher: Drop,
{
    C::meet(rt, refusal, What::Finish);
    let after = seen_of(&back.recorded, back.passes.as_slice());
    expect_eq(rt, (back.cause, after), (FinishError::Memory, before));
    expect(rt, are_recorded(&back.recorded, back.passes.as_slice()));
    (back.recorded, back.passes)
}

/// Finishes the run. Returns `None` if the finish is refused each time.
fn finished<C: Tried, L: Ledger, M: Site<C::Hasher>, R: Abort + Print>(
    rt: &R,
    refusal: &mut Refusal,
    closed: Closed<C, L, M>,
    passes: Vec<Pass<C, L>>,
) -> Option<Finished<C>>
where
    C::Hasher: Drop,
{
    let before = seen_of(&closed, passes.as_slice());
    let mut held = (closed, passes);
    for _ in 0..TRIES {
        match held.0.finish(held.1) {
            Ok(run) => return Some(run),
            Err(back) => held = handed_back(rt, refusal, back, before),
        }
    }
    None
}

/// Checks that the order has all steps, and that the calls in it have the stamps from 1 on.
fn expect_told<C: Tried, R: Abort>(rt: &R, finished: &Finished<C>, steps: usize, clock: u64) {
    expect_eq(rt, finished.order.len(), steps);
    let mut stamps = 0u64;
    let mut are_in_turn = true;
    for place in finished.order.as_slice() {
        let history = finished.histories.get(place.0);
        let step = history.and_then(|history| history.get(place.1));
        if let Some(Step::Call { stamp, .. }) = step {
            stamps = stamps.saturating_add(1);
            are_in_turn = are_in_turn && *stamp == stamps;
        }
    }
    expect_eq(rt, (are_in_turn, stamps), (true, clock));
}

/// Finishes a run of one pass, until the finish succeeds, and checks the number of keys then in the first stripe.
pub(crate) fn expect_finished<C: Tried, L: Ledger, M: Site<C::Hasher>, R: Abort + Print>(
    rt: &R,
    refusal: &mut Refusal,
    closed: Closed<C, L, M>,
    passes: Vec<Pass<C, L>>,
    count: usize,
)
where
    C::Hasher: Drop,
{
    let steps = steps_of(&closed).1;
    let (passes_made, clock, _) = clocks_of(passes.as_slice());
    expect_eq(rt, passes_made, 1);
    match finished(rt, refusal, closed, passes) {
        Some(run) => {
            expect_told(rt, &run, steps, clock);
            expect_eq(rt, count_of(run.parts.as_slice()), Some(count));
        }
        None => expect(rt, false),
    }
}

/// Returns the number of keys of the first part.
fn count_of<C: Tried>(parts: &[C]) -> Option<usize> {
    match parts.first() {
        Some(part) => Some(part.count()),
        None => None,
    }
}
