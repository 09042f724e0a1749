// Recorded containers of each kind whose calls are refused: the pass keeps its clock and its receipts, and the call is
// made again until it succeeds, with the reply of a call that was never refused.
use crate::expect::{expect, expect_eq};
use crate::finishing::expect_finished;
use crate::kinds::{CALLS, Cache, Index, Map, Set, Tried, What};
use crate::opened::{Trial, outlast};
use scc_common::Shared;
use scc_history::CallError;
use scc_recorded::{Pass, Recorded, Site};
use std::io::Print;
use std::process::Abort;
use std::sync::Wait;
use std::sync::ledger::Ledger;
use test_kit::refusals::{Refusal, TRIES};
use test_kit::zero::Zero;

/// Checks that the clock of `pass` and the number of its receipts are `clock`. They are equal if it is the only pass.
pub(crate) fn expect_clock<C: Tried, L: Ledger, R: Abort>(rt: &R, pass: &Pass<C, L>, clock: usize) {
    expect_eq(
        rt,
        (pass.clock(), pass.receipts().len()),
        (clock as u64, clock),
    );
}

/// Makes a call once, and returns whether its reply is the wanted one, or `None` if the call has no key.
pub(crate) fn make_call<C: Tried, L: Ledger, M: Site<C::Hasher>, R: Wait>(
    rt: &R,
    recorded: &Recorded<C, L, M>,
    pass: &mut Pass<C, L>,
    asked: (C::Call, C::Reply),
) -> Option<Result<bool, CallError>> {
    let (call, wanted) = asked;
    if let Some(_key) = C::key(&call) {
        match recorded.call(rt, pass, call) {
            Ok(reply) => Some(Ok(reply == wanted)),
            Err(cause) => Some(Err(cause)),
        }
    } else {
        None
    }
}

/// Makes the call with this number until it succeeds.
fn expect_call<C: Tried, L: Ledger, M: Site<C::Hasher>, R: Abort + Print + Wait>(
    rt: &R,
    refusal: &mut Refusal,
    recorded: &Recorded<C, L, M>,
    pass: &mut Pass<C, L>,
    number: u64,
) {
    let before = pass.receipts().len();
    for _ in 0..TRIES {
        match make_call(rt, recorded, pass, C::call_of(number)) {
            Some(Err(cause)) => {
                C::meet(rt, refusal, What::Call(cause));
                expect_clock(rt, pass, before);
            }
            answer => {
                expect_eq(rt, answer, Some(Ok(true)));
                break;
            }
        }
    }
    expect_clock(rt, pass, before.saturating_add(1));
}

/// Counts the keys of both stripes. If a stripe is refused, the stripes before it are counted and recorded, and the
/// next call counts both.
fn expect_length<C: Tried, L: Ledger, M: Site<C::Hasher>, R: Abort + Print + Wait>(
    rt: &R,
    refusal: &mut Refusal,
    recorded: &Recorded<C, L, M>,
    pass: &mut Pass<C, L>,
    count: usize,
) {
    for _ in 0..TRIES {
        let before = pass.receipts().len();
        let answer = recorded.len(rt, pass);
        let added = pass.receipts().len().saturating_sub(before);
        expect_clock(rt, pass, before.saturating_add(added));
        match answer {
            Ok(counted) => {
                expect_eq(rt, (counted, added), (count, 2));
                return;
            }
            Err(cause) => {
                C::meet(rt, refusal, What::Length);
                expect_eq(rt, (cause, added < 2), (CallError::Room, true));
            }
        }
    }
    expect(rt, false);
}

/// Clears both stripes. If a stripe is refused, the stripes before it are cleared and recorded, and the next call
/// clears both.
fn expect_clearing<C: Tried, L: Ledger, M: Site<C::Hasher>, R: Abort + Print + Wait>(
    rt: &R,
    refusal: &mut Refusal,
    recorded: &Recorded<C, L, M>,
    pass: &mut Pass<C, L>,
) {
    for _ in 0..TRIES {
        let before = pass.receipts().len();
        let answer = recorded.clear(rt, pass);
        let added = pass.receipts().len().saturating_sub(before);
        expect_clock(rt, pass, before.saturating_add(added));
        match answer {
            Ok(()) => {
                expect_eq(rt, added, 2);
                return;
            }
            Err(cause) => {
                C::meet(rt, refusal, What::Clearing);
                expect_eq(rt, (cause, added < 2), (CallError::Room, true));
            }
        }
    }
    expect(rt, false);
}

/// Makes all calls with one pass: one key is present after them, none after the clearing, and then one again. The
/// second stripe has room for three steps, so the clearing asks for more after the first stripe is cleared.
fn call_all<C: Tried, L: Ledger, M: Site<C::Hasher>, R: Abort + Print + Wait>(
    rt: &R,
    refusal: &mut Refusal,
    recorded: &Recorded<C, L, M>,
    pass: &mut Pass<C, L>,
) {
    for number in 0..CALLS {
        expect_call(rt, refusal, recorded, pass, number);
    }
    for _ in 0..3 {
        expect_length(rt, refusal, recorded, pass, 1);
    }
    expect_clearing(rt, refusal, recorded, pass);
    expect_length(rt, refusal, recorded, pass, 0);
    expect_call(rt, refusal, recorded, pass, 0);
}

// All calls on two stripes, and the finish. The second stripe stays empty.
#[derive(Drop)]
struct EachCall;

impl<C: Tried> Trial<C> for EachCall
where
    C::Hasher: Drop,
{
    fn hasher(hasher: Shared<Zero>) -> C::Hasher {
        C::hasher(hasher)
    }

    fn run<L: Ledger, M: Site<C::Hasher>, R: AllocGlobal + Abort + Print + Wait>(
        rt: &R,
        refusal: &mut Refusal,
        opened: &mut Option<(Recorded<C, L, M>, Vec<Pass<C, L>>)>,
    ) {
        let Some((recorded, handed)) = opened.take() else {
            return expect(rt, false);
        };
        let mut passes = handed;
        for pass in passes.as_mut_slice() {
            call_all(rt, refusal, &recorded, pass);
        }
        expect_finished(rt, refusal, recorded.close(), passes, 1);
    }
}

#[test]
fn recorded_map_is_refused_in_turn(rt: HostRuntime) {
    outlast::<Map, EachCall, _>(&rt, "a recorded map", (0, 64), 2);
}

#[test]
fn recorded_set_is_refused_in_turn(rt: HostRuntime) {
    outlast::<Set, EachCall, _>(&rt, "a recorded set", (0, 64), 2);
}

#[test]
fn recorded_index_is_refused_in_turn(rt: HostRuntime) {
    outlast::<Index, EachCall, _>(&rt, "a recorded index", (0, 64), 2);
}

#[test]
fn recorded_cache_is_refused_in_turn(rt: HostRuntime) {
    outlast::<Cache, EachCall, _>(&rt, "a recorded cache", (0, 128), 2);
}
