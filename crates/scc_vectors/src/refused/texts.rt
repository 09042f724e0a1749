// Recorded maps of texts: every clone is made before anything is changed, so a refused call leaves everything as it
// was, and the call that succeeds is right.
ghost use Rattle.std.specs.Prelude.{IfSome, IsSome};
ghost use Rattle.scc.specs.MapCalls.{map_key};

use crate::expect::{expect, expect_eq};
use crate::refused::finishing::{Told, expect_finished};
use crate::refused::opened::{Trial, outlast};
use scc::hash_map::Owned;
use scc::recorded::{MapCall, Pass, Receipt, Recorded, Reply, Shared, Site, Step};
use std::io::Print;
use std::process::Abort;
use std::sync::Wait;
use std::sync::ledger::Ledger;
use test_kit::refusals::{Refusal, TRIES};
use test_kit::zero::Zero;

type Names = Owned<String, String, Shared<Zero>>;

/// Returns a text, or `None` if memory is refused each time.
pub(crate) fn text<R: AllocGlobal + Print>(
    rt: &R,
    refusal: &mut Refusal,
    of: &str,
) -> Option<String> {
    for _ in 0..TRIES {
        match String::from_str(rt.alloc(), of) {
            Ok(text) => return Some(text),
            Err(_) => refusal.meet(rt, "a text"),
        }
    }
    None
}

/// Returns the call with this number: an insertion, an upsertion or a removal.
fn call_of(number: u64, key: String, value: String) -> MapCall<String, String>
    ensures { IsSome (map_key result) }
{
    match number {
        0 => MapCall::Insert(key, value),
        1 => MapCall::Upsert(key, value),
        _ => MapCall::Remove(key),
    }
}

/// Returns the call with this number and its texts, or `None` if a text is refused each time.
fn made<R: AllocGlobal + Print>(
    rt: &R,
    refusal: &mut Refusal,
    number: u64,
) -> Option<MapCall<String, String>>
    ensures { IfSome result (λ call. IsSome (map_key call)) }
{
    let Some(key) = text(rt, refusal, "a") else {
        return None;
    };
    match text(rt, refusal, if number == 0 { "x" } else { "y" }) {
        Some(value) => Some(call_of(number, key, value)),
        None => None,
    }
}

/// Returns whether `reply` is the reply of the call with this number.
fn is_answer(number: u64, reply: &Reply<String, String>) -> bool {
    match reply {
        Reply::Inserted => number == 0,
        Reply::Old(Some(old)) => number == 1 && old.as_str() == "x",
        Reply::Pair(Some(pair)) => number == 2 && pair.0.as_str() == "a" && pair.1.as_str() == "y",
        _ => false,
    }
}

/// Makes the call with this number once. Returns whether its reply is right, or `None` if a text or the call was
/// refused.
fn ask<L: Ledger, M: Site<Shared<Zero>>, R: AllocGlobal + Print + Wait>(
    rt: &R,
    refusal: &mut Refusal,
    recorded: &Recorded<Names, L, M>,
    pass: &mut Pass<Names, L>,
    number: u64,
) -> Option<bool> {
    let Some(call) = made(rt, refusal, number) else {
        return None;
    };
    match recorded.call(rt, pass, call) {
        Ok(reply) => Some(is_answer(number, &reply)),
        Err(_) => {
            refusal.meet(rt, "a recorded call of texts");
            None
        }
    }
}

/// Makes the call with this number until it succeeds. A refused call leaves the pass as it was.
fn expect_answer<L: Ledger, M: Site<Shared<Zero>>, R: AllocGlobal + Abort + Print + Wait>(
    rt: &R,
    refusal: &mut Refusal,
    recorded: &Recorded<Names, L, M>,
    pass: &mut Pass<Names, L>,
    number: u64,
) {
    let before = (pass.clock(), pass.receipts().len());
    for _ in 0..TRIES {
        match ask(rt, refusal, recorded, pass, number) {
            Some(is_right) => {
                expect(rt, is_right);
                break;
            }
            None => expect_eq(rt, (pass.clock(), pass.receipts().len()), before),
        }
    }
    expect_receipts(rt, pass, number);
}

/// Checks that the pass has the receipts of the calls up to this number.
fn expect_receipts<L: Ledger, R: Abort>(rt: &R, pass: &Pass<Names, L>, number: u64) {
    let made = number.saturating_add(1);
    expect_eq(
        rt,
        (pass.clock(), pass.receipts().len() as u64),
        (made, made),
    );
    expect(rt, are_receipts(pass.receipts()));
}

/// Returns whether `call` is the call with this number.
fn is_call(number: u64, call: &MapCall<String, String>) -> bool {
    match call {
        MapCall::Insert(key, value) => {
            number == 0 && key.as_str() == "a" && value.as_str() == "x"
        }
        MapCall::Upsert(key, value) => {
            number == 1 && key.as_str() == "a" && value.as_str() == "y"
        }
        MapCall::Remove(key) => number == 2 && key.as_str() == "a",
        _ => false,
    }
}

/// Returns whether these are the receipts of the first calls, in their order.
fn are_receipts(receipts: &[Receipt<MapCall<String, String>, Reply<String, String>>]) -> bool {
    let mut number = 0u64;
    for receipt in receipts {
        let is_right = is_call(number, &receipt.call) && is_answer(number, &receipt.reply);
        number = number.saturating_add(1);
        if !is_right || receipt.stripe != 0 || receipt.stamp != number {
            return false;
        }
    }
    true
}

// The three calls and the finish.
#[derive(Drop)]
struct ThreeCalls;

impl Told<Names> for ThreeCalls {
    fn meet<R: Print>(&self, rt: &R, refusal: &mut Refusal) {
        refusal.meet(rt, "a finish of calls of texts");
    }

    fn last(&self) -> u64 {
        3
    }

    // The first array comes before the first call, and the removal shrinks nothing.
    fn are_steps(&self, history: &[Step<MapCall<String, String>, Reply<String, String>>]) -> bool {
        let array = Step::Resize {
            stamp: 1,
            buckets: 2,
        };
        let mut number = 0u64;
        for step in history.get(1..).unwrap_or(&[]) {
            let Step::Call {
                stamp,
                pass,
                call,
                reply,
            } = step
            else {
                return false;
            };
            let is_right = is_call(number, call) && is_answer(number, reply);
            number = number.saturating_add(1);
            if !is_right || *pass != 0 || *stamp != number {
                return false;
            }
        }
        history.first() == Some(&array) && number == 3
    }

    fn are_receipts(
        &self,
        receipts: &[Receipt<MapCall<String, String>, Reply<String, String>>],
    ) -> bool {
        receipts.len() == 3 && are_receipts(receipts)
    }

    fn is_left(&self, map: &Names) -> bool {
        map.is_empty() && map.capacity() == 64
    }
}

impl Trial<Names> for ThreeCalls {
    fn hasher(hasher: Shared<Zero>) -> Shared<Zero> {
        hasher
    }

    fn run<L: Ledger, M: Site<Shared<Zero>>, R: AllocGlobal + Abort + Print + Wait>(
        rt: &R,
        refusal: &mut Refusal,
        opened: &mut Option<(Recorded<Names, L, M>, Vec<Pass<Names, L>>)>,
    ) {
        let Some((recorded, handed)) = opened.take() else {
            return expect(rt, false);
        };
        let mut passes = handed;
        for pass in passes.as_mut_slice() {
            for number in 0..3 {
                expect_answer(rt, refusal, &recorded, pass, number);
            }
        }
        expect_finished(rt, refusal, &ThreeCalls, recorded, passes);
    }
}

#[test]
fn recorded_strings_on_a_map(rt: HostRuntime) {
    outlast::<Names, ThreeCalls, _>(&rt, "a recorded map of texts", (0, 0), 1);
}
