// A recording of one stripe and one pass that is finished. A refused finish hands everything back as it was, and is made
// again until it succeeds.
use crate::expect::{expect, expect_eq};
use scc::recorded::{
    Calls, Closed, FinishError, Finished, Pass, Receipt, Recorded, Site, Step, Unfinished,
};
use std::io::Print;
use std::process::Abort;
use std::sync::ledger::Ledger;
use test_kit::refusals::{Refusal, TRIES};

/// What a run must have been.
pub(crate) trait Told<C: Calls> {
    /// Reports that the finish was refused.
    fn meet<R: Print>(&self, rt: &R, refusal: &mut Refusal);

    /// Returns the stamp of the last call.
    fn last(&self) -> u64;

    /// Returns whether these are all steps of the run.
    fn are_steps(&self, history: &[Step<C::Call, C::Reply>]) -> bool;

    /// Returns whether these are all receipts of the run.
    fn are_receipts(&self, receipts: &[Receipt<C::Call, C::Reply>]) -> bool;

    /// Returns whether this is what the run left in the container.
    fn is_left(&self, container: &C) -> bool;
}

/// Checks that a refused finish handed back the stripe and the pass as they were.
fn expect_back<C: Calls + Drop, T: Told<C>, L: Ledger, M: Site<C::Hasher>, R: Abort>(
    rt: &R,
    told: &T,
    back: &Unfinished<C, L, M>,
)
where
    C::Hasher: Drop,
{
    let sizes = (
        back.recorded.passes,
        back.recorded.stripes.len(),
        back.passes.len(),
    );
    expect_eq(rt, (back.cause, sizes), (FinishError::Memory, (1, 1, 1)));
    for guarded in back.recorded.stripes.as_slice() {
        let stripe = &guarded.stripe;
        let numbers = (stripe.number, stripe.opened, stripe.last);
        expect_eq(rt, numbers, (0, 0, told.last()));
        expect(rt, told.are_steps(stripe.history.as_slice()));
        expect(rt, told.is_left(&stripe.container));
    }
    for pass in back.passes.as_slice() {
        expect_eq(rt, (pass.number(), pass.clock()), (0, told.last()));
        expect(rt, told.are_receipts(pass.receipts()));
    }
}

/// Reports a refused finish, and returns what it handed back.
fn handed_back<C: Calls + Drop, T: Told<C>, L: Ledger, M: Site<C::Hasher>, R: Abort + Print>(
    rt: &R,
    refusal: &mut Refusal,
    told: &T,
    back: Unfinished<C, L, M>,
) -> (Closed<C, L, M>, Vec<Pass<C, L>>)
where
    C::Hasher: Drop,
{
    told.meet(rt, refusal);
    expect_back(rt, told, &back);
    (back.recorded, back.passes)
}

/// Finishes the recording. Returns `None` if the finish is refused each time.
fn finished<C: Calls + Drop, T: Told<C>, L: Ledger, M: Site<C::Hasher>, R: Abort + Print>(
    rt: &R,
    refusal: &mut Refusal,
    told: &T,
    recorded: Recorded<C, L, M>,
    passes: Vec<Pass<C, L>>,
) -> Option<Finished<C>>
where
    C::Hasher: Drop,
{
    let mut held = match recorded.finish(passes) {
        Ok(run) => return Some(run),
        Err(back) => handed_back(rt, refusal, told, back),
    };
    for _ in 0..TRIES {
        match held.0.finish(held.1) {
            Ok(run) => return Some(run),
            Err(back) => held = handed_back(rt, refusal, told, back),
        }
    }
    None
}

/// Checks that the finished run is one stripe's, in the order of its history.
fn expect_told<C: Calls + Drop, T: Told<C>, R: Abort>(rt: &R, told: &T, run: &Finished<C>) {
    expect_eq(
        rt,
        (run.histories.len(), run.parts.len(), run.opened.as_slice()),
        (1, 1, [0].as_slice()),
    );
    for history in run.histories.as_slice() {
        expect(rt, told.are_steps(history.as_slice()));
        expect_eq(rt, run.order.len(), history.len());
    }
    for (index, place) in run.order.iter().enumerate() {
        expect_eq(rt, *place, (0, index));
    }
    for part in run.parts.as_slice() {
        expect(rt, told.is_left(part));
    }
}

/// Finishes the recording until the finish succeeds, and checks what it tells.
pub(crate) fn expect_finished<
    C: Calls + Drop,
    T: Told<C>,
    L: Ledger,
    M: Site<C::Hasher>,
    R: Abort + Print,
>(rt: &R, refusal: &mut Refusal, told: &T, recorded: Recorded<C, L, M>, passes: Vec<Pass<C, L>>)
where
    C::Hasher: Drop,
{
    match finished(rt, refusal, told, recorded, passes) {
        Some(run) => expect_told(rt, told, &run),
        None => expect(rt, false),
    }
}
