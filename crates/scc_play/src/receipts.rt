//! The replies to a worker's calls, from the receipts of these calls.
ghost use Rattle.std.specs.Prelude.{◌≡◌, ℕ, ◌<◌, length, map, min, IfOk, IfSome, true, drop};
ghost use Rattle.std.specs.List.{AllByRecursion, sum_by};
ghost use Rattle.scc_play.specs.Answered.{AreAnswered, AreInOrder, IsAnswered, IsJoint, calls_by};
ghost use Rattle.scc_recorded.specs.Adds.{number_or_zero};

use crate::printed::Printed;
use scc_history::Receipt;
use scc_script::line::WorkerCall;
use std::alloc::{AllocError, Global};

/// Returns the calls of worker `worker`, in their order. Fails if memory is refused.
pub(crate) fn calls_of<P: Printed>(
    alloc: Global,
    worker: usize,
    calls: &[WorkerCall<P::Call>],
) -> Result<Vec<P::Call>, AllocError>
    ensures { IfOk result (λ v. v.items ≡ calls_by worker calls.now) }
{
    let mut own = Vec::new(alloc);
    for call in calls {
        if call.worker == worker {
            own.push(P::same_call(&call.call))?;
        }
    }
    Ok(own)
}

/// Returns whether all receipts are of the call `call`.
fn are_all_of<P: Printed>(call: &P::Call, receipts: &[Receipt<P::Call, P::Reply>]) -> bool
    ensures { result ≡ true → AllByRecursion (λ r. r.call ≡ call.now) receipts.now }
{
    for receipt in receipts {
        if receipt.call != *call {
            return false;
        }
    }
    true
}

/// Returns whether the receipts are of one stripe after another, stripe 0 first.
fn are_in_order<A, R>(receipts: &[Receipt<A, R>]) -> bool
    ensures { result ≡ true → AreInOrder receipts.now }
{
    for i in 0..receipts.len() {
        if receipts[i].stripe != i {
            return false;
        }
    }
    true
}

/// Returns the sum of the numbers in the replies of `receipts`, at most `usize::MAX`.
fn sum_of<P: Printed>(receipts: &[Receipt<P::Call, P::Reply>]) -> usize
    ensures { result ≡ min 18446744073709551615 (sum_by (λ r. number_or_zero (P.counted r.reply)) receipts.now) }
{
    let mut sum: usize = 0;
    for receipt in receipts {
        sum = sum.saturating_add(P::counted(&receipt.reply).unwrap_or(0));
    }
    sum
}

/// Returns the reply to a call of all stripes, from the receipts of the stripes.
fn joint_reply<P: Printed>(receipts: &[Receipt<P::Call, P::Reply>]) -> P::Reply
    requires { 0 < length receipts.now }
    ensures { IsJoint P.key_of P.counted P.count_reply (map (λ r. r.reply) receipts.now) result }
{
    if receipts.len() == 1 {
        return P::same_reply(&receipts[0].reply);
    }
    match P::counted(&receipts[0].reply) {
        None => P::same_reply(&receipts[0].reply),
        Some(_) => P::count_reply(sum_of::<P>(receipts)),
    }
}

/// Returns the reply to `call`, or `None` if `receipts` are not the receipts that `call` must have.
fn reply_of<P: Printed>(
    stripes: usize,
    call: &P::Call,
    receipts: &[Receipt<P::Call, P::Reply>],
) -> Option<P::Reply>
    requires { 0 < stripes }
    ensures { IfSome result (λ reply. IsAnswered P.key_of P.counted P.count_reply stripes call.now receipts.now reply) }
{
    if !are_all_of::<P>(call, receipts) {
        return None;
    }
    match P::key(call) {
        Some(_) => {
            if receipts.len() == 1 {
                Some(P::same_reply(&receipts[0].reply))
            } else {
                None
            }
        }
        None => {
            if receipts.len() == stripes && are_in_order(receipts) {
                Some(joint_reply::<P>(receipts))
            } else {
                None
            }
        }
    }
}

/// Returns the number of records that `call` makes.
fn record_count<P: Printed>(stripes: usize, call: &P::Call) -> usize {
    match P::key(call) {
        Some(_) => 1,
        None => stripes,
    }
}

/// Returns the replies to the calls of a worker, or `None` if `receipts` are not the receipts that these calls must
/// have. Fails if memory is refused.
pub(crate) fn replies_of<P: Printed>(
    alloc: Global,
    stripes: usize,
    calls: &[P::Call],
    receipts: &[Receipt<P::Call, P::Reply>],
) -> Result<Option<Vec<P::Reply>>, AllocError>
    requires { 0 < stripes }
    ensures { IfOk result (λ o. IfSome o
        (λ replies. AreAnswered P.key_of P.counted P.count_reply stripes calls.now receipts.now replies.items)) }
{
    let mut replies = Vec::new(alloc);
    let mut rest = receipts;
    for call in calls {
        let count = record_count::<P>(stripes, call);
        if rest.len() < count {
            return Ok(None);
        }
        let (here, after) = rest.split_at(count);
        let Some(reply) = reply_of::<P>(stripes, call, here) else {
            return Ok(None);
        };
        replies.push(reply)?;
        rest = after;
    }
    if rest.is_empty() {
        Ok(Some(replies))
    } else {
        Ok(None)
    }
}
