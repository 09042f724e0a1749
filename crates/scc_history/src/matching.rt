//! The receipts of a caller beside the records of its calls.
ghost use Rattle.scc_history.specs.Orders.{AllStand, steps_at};
ghost use Rattle.scc_history.specs.Receipts.{DiffersFirst, Matches, calls_of, seen};
ghost use Rattle.std.specs.Prelude.{◌≡◌, ℕ, ◌+◌, ◌<◌, [], ◌∷◌, ◌++◌, ◌↔◌, map, true, IfNone, IfSome, IfOk, OnOk, IsTrue, slice_index_or, vec_len};

use crate::log::Receipt;
use crate::order::Histories;
use scc_calls::Step;
use std::alloc::{AllocError, Global};

/// Returns the first place at which `receipts` and `records` differ or one of them has ended, or `None` if they match.
pub fn first_difference<'a, A: PartialEq, R: PartialEq>(
    receipts: &[Receipt<A, R>],
    records: &[Receipt<&'a A, &'a R>],
) -> Option<usize>
    ensures none { IfNone result (Matches A.eq R.eq receipts.now (map seen records.now)) }
    ensures some { IfSome result (λ j. DiffersFirst A.eq R.eq receipts.now (map seen records.now) j) }
{
    for j in 0..receipts.len() {
        if j >= records.len() || !same(&receipts[j], &records[j]) {
            return Some(j);
        }
    }
    if receipts.len() < records.len() {
        return Some(receipts.len());
    }
    None
}

fn same<'a, A: PartialEq, R: PartialEq>(a: &Receipt<A, R>, b: &Receipt<&'a A, &'a R>) -> bool
    ensures { IsTrue result ↔ ((a.now.stripe ≡ b.now.stripe) × (a.now.stamp ≡ b.now.stamp)
        × (A.eq a.now.call b.now.call.now ≡ true) × (R.eq a.now.reply b.now.reply.now ≡ true)) }
{
    a.stripe == b.stripe && a.stamp == b.stamp && a.call == *b.call && a.reply == *b.reply
}

/// Returns, for each of `passes` passes, the records of its calls along `order`, as receipts. Fails if memory is
/// refused.
pub fn records_by_pass<'a, H: Histories>(
    alloc: Global,
    stripes: &'a [H],
    order: &[(usize, usize)],
    passes: usize,
) -> Result<Vec<Vec<Receipt<&'a H::Call, &'a H::Reply>>>, AllocError>
    requires { AllStand (map H.history stripes.now) order.now }
    ensures len { IfOk result (λ v. vec_len v ≡ passes) }
    ensures records { IfOk result (λ v. (n : ℕ) (d : _) → n < passes
        → map seen (slice_index_or v.items n d).items ≡ calls_of n (steps_at (map H.history stripes.now) order.now)) }
{
    let mut records = empty_lists(alloc, passes)?;
    for place in order {
        tell(&mut records, place.0, &stripes[place.0].history()[place.1])?;
    }
    Ok(records)
}

/// Returns `count` empty lists. Fails if memory is refused.
fn empty_lists<'a, A, R>(
    alloc: Global,
    count: usize,
) -> Result<Vec<Vec<Receipt<&'a A, &'a R>>>, AllocError>
    ensures len { IfOk result (λ v. vec_len v ≡ count) }
    ensures empty { IfOk result (λ v. (n : ℕ) (d : _) → n < count → (slice_index_or v.items n d).items ≡ []) }
{
    let mut lists = Vec::new(alloc);
    lists.reserve(count)?;
    for _i in 0..count {
        lists.push_reserved(Vec::new(alloc));
    }
    Ok(lists)
}

/// Adds `step` of stripe `stripe` to the list of the pass that made it, if it is a call. Fails if memory is refused.
fn tell<'a, A, R>(
    records: &mut Vec<Vec<Receipt<&'a A, &'a R>>>,
    stripe: usize,
    step: &'a Step<A, R>,
) -> Result<(), AllocError>
    ensures len { vec_len records.new ≡ vec_len records.old }
    ensures told { OnOk result ((n : ℕ) (d : _) → n < vec_len records.old
        → map seen (slice_index_or records.new.items n d).items
        ≡ map seen (slice_index_or records.old.items n d).items ++ calls_of n ((stripe, step.now) ∷ [])) }
{
    if let Step::Call {
        stamp,
        pass,
        call,
        reply,
    } = step
    {
        if *pass < records.len() {
            records[*pass].push(Receipt {
                stripe,
                stamp: *stamp,
                call,
                reply,
            })?;
        }
    }
    Ok(())
}
