//! Checks of a finished run: its order, its receipts, its records on a plain list, and its contents.

use crate::plain::Plain;
use crate::turns::Turns;
use scc_calls::{Calls, Step};
use scc_history::Receipt;
use scc_recorded::{FinishError, Finished, Pass, Recorded, Site};
use std::alloc::{AllocError, Global};
use std::sync::ledger::Ledger;

/// Returns the receipts of each pass, in the order of `passes`.
fn receipts_of<C: Calls, L: Ledger>(
    alloc: Global,
    passes: &[Pass<C, L>],
) -> Result<Vec<Vec<Receipt<C::Call, C::Reply>>>, AllocError> {
    let mut lists = Vec::new(alloc);
    for pass in passes {
        let mut list = Vec::new(alloc);
        for receipt in pass.receipts() {
            list.push(Receipt {
                stripe: receipt.stripe,
                stamp: receipt.stamp,
                call: receipt.call.clone()?,
                reply: receipt.reply.clone()?,
            })?;
        }
        lists.push(list)?;
    }
    Ok(lists)
}

/// Finishes a run with a pass missing, which must be refused, and then with all passes in another order. Returns the
/// finished run if both went as they must.
pub(crate) fn finish_late<C: Calls + Drop, L: Ledger, M: Site<C::Hasher>>(
    recorded: Recorded<C, L, M>,
    passes: Vec<Pass<C, L>>,
) -> Result<Option<Finished<C>>, AllocError>
where
    C::Hasher: Drop,
{
    let mut passes = passes;
    let Some(last) = passes.pop() else {
        return Ok(None);
    };
    let Err(unfinished) = recorded.finish(passes) else {
        return Ok(None);
    };
    let is_missing = unfinished.cause == FinishError::Missing;
    let mut passes = unfinished.passes;
    passes.reverse();
    passes.push(last)?;
    match unfinished.recorded.finish(passes) {
        Ok(finished) if is_missing => Ok(Some(finished)),
        _ => Ok(None),
    }
}

/// Returns the step at `place`, if there is one.
fn step_at<C: Calls>(
    finished: &Finished<C>,
    place: (usize, usize),
) -> Option<&Step<C::Call, C::Reply>> {
    finished.histories.get(place.0)?.get(place.1)
}

/// Returns whether the order has each step of each history once, in the order of the history.
pub(crate) fn has_each_place<C: Calls>(
    alloc: Global,
    finished: &Finished<C>,
) -> Result<bool, AllocError> {
    let mut next = vec![in alloc; 0usize; finished.histories.len()]?;
    let mut right = true;
    for place in finished.order.iter() {
        match next.get_mut(place.0) {
            Some(index) => {
                right = right && *index == place.1;
                *index = index.saturating_add(1);
            }
            None => right = false,
        }
    }
    for (count, history) in next.iter().zip(finished.histories.iter()) {
        right = right && *count == history.len();
    }
    Ok(right)
}

/// Returns whether the stamps of calls don't fall along the order.
fn has_rising_stamps<C: Calls>(finished: &Finished<C>) -> bool {
    let mut last = 0u64;
    let mut right = true;
    for place in finished.order.iter() {
        if let Some(Step::Call { stamp, .. }) = step_at(finished, *place) {
            right = right && last <= *stamp;
            last = *stamp;
        }
    }
    right
}

/// Returns whether a record is the receipt at `place`.
fn is_receipt<C: Turns>(
    receipts: &[Receipt<C::Call, C::Reply>],
    place: usize,
    at: (usize, u64),
    call: &C::Call,
    reply: &C::Reply,
) -> bool {
    match receipts.get(place) {
        Some(receipt) => {
            (receipt.stripe, receipt.stamp) == at
                && receipt.call == *call
                && receipt.reply == *reply
        }
        None => false,
    }
}

/// Returns the number of call records if the records of each pass, along the order, are the pass's receipts one for
/// one.
fn count_receipted<C: Turns>(
    alloc: Global,
    finished: &Finished<C>,
    receipts: &[Vec<Receipt<C::Call, C::Reply>>],
) -> Result<Option<usize>, AllocError> {
    let mut next = vec![in alloc; 0usize; receipts.len()]?;
    let mut right = true;
    let mut count = 0usize;
    for place in finished.order.iter() {
        let Some(
            Step::Call {
                stamp,
                pass,
                call,
                reply,
            },
        ) = step_at(finished, *place)
        else {
            continue;
        };
        let (Some(list), Some(made)) = (receipts.get(*pass), next.get_mut(*pass)) else {
            return Ok(None);
        };
        right = right && is_receipt::<C>(list.as_slice(), *made, (place.0, *stamp), call, reply);
        *made = made.saturating_add(1);
        count = count.saturating_add(1);
    }
    for (made, list) in next.iter().zip(receipts) {
        right = right && *made == list.len();
    }
    Ok(if right { Some(count) } else { None })
}

/// Makes the steps of a run on one stripe on a plain list. Returns whether each call gets its recorded reply.
fn plays_on<C: Turns>(
    alloc: Global,
    plain: &mut Plain,
    finished: &Finished<C>,
) -> Result<bool, AllocError> {
    let mut right = true;
    for place in finished.order.iter() {
        match step_at(finished, *place) {
            Some(Step::Call { call, reply, .. }) => {
                right = C::plays(alloc, plain, call, reply)? && right;
            }
            Some(Step::Resize { buckets, .. }) => plain.regroup(alloc, *buckets)?,
            None => right = false,
        }
    }
    Ok(right)
}

/// Returns whether a part holds the pairs of the list, and no others.
fn holds<C: Turns>(alloc: Global, plain: &mut Plain, part: &C) -> Result<bool, AllocError> {
    let mut met = Vec::new(alloc);
    if !part.collect(&mut met) || part.count() != plain.len() {
        return Ok(false);
    }
    if C::is_ordered() {
        plain.is_met_in_order_by(alloc, met.as_slice())
    } else {
        Ok(plain.is_met_by(met.as_slice()))
    }
}

/// Returns the number of call records of a run on one stripe if all checks hold.
fn count_checked<C: Turns>(
    alloc: Global,
    finished: &Finished<C>,
    receipts: &[Vec<Receipt<C::Call, C::Reply>>],
) -> Result<Option<usize>, AllocError> {
    let ordered = has_each_place(alloc, finished)? && has_rising_stamps(finished);
    let mut plain = Plain::new(alloc);
    let played = plays_on(alloc, &mut plain, finished)?;
    let held = match finished.parts.first() {
        Some(part) => finished.parts.len() == 1 && holds(alloc, &mut plain, part)?,
        None => false,
    };
    if ordered && played && held {
        count_receipted(alloc, finished, receipts)
    } else {
        Ok(None)
    }
}

/// Finishes a run on one stripe. Returns the number of its call records if all checks hold.
pub(crate) fn finish_as_plain<C: Turns, L: Ledger, M: Site<C::Hasher>>(
    alloc: Global,
    recorded: Recorded<C, L, M>,
    passes: Vec<Pass<C, L>>,
) -> Result<Option<usize>, AllocError>
where
    C::Hasher: Drop,
{
    let receipts = receipts_of(alloc, passes.as_slice())?;
    match finish_late(recorded, passes)? {
        Some(finished) => count_checked(alloc, &finished, receipts.as_slice()),
        None => Ok(None),
    }
}
