//! The comparisons before a run is finished.
ghost use Rattle.scc_calls.specs.Histories.{CallsRouted, StepRouted, FirstMisrouted};
ghost use Rattle.scc_common.specs.Routing.{stripe_of};
ghost use Rattle.scc_history.specs.Receipts.{AreAll, seen};
ghost use Rattle.scc_recorded.specs.Closing.{AllMatch, FirstDisagrees, lesser_of};
ghost use Rattle.std.specs.List.{AllByRecursion};
ghost use Rattle.std.specs.Prelude.{◌≡◌, ◌<◌, ◌↔◌, [], length, map, take, IfOk, IfNone, IfSome, IsTrue, slice_get, slice_index_or};

use crate::counted::CountedStripe;
use crate::passes::Pass;
use crate::setups::Site;
use scc_calls::{Calls, Step, route};
use scc_history::{Histories, Receipt, first_difference};
use std::alloc::{AllocError, Global};
use std::sync::ledger::Ledger;

/// Returns whether the numbers of the passes are the numbers below `count`, each once. Fails if memory is refused.
pub(crate) fn are_all<C: Calls, L: Ledger>(
    alloc: Global,
    passes: &[Pass<C, L>],
    count: usize,
) -> Result<bool, AllocError>
    ensures { IfOk result (λ b. IsTrue b ↔ AreAll count (map (λ p. p.log.number) passes.now)) }
{
    if passes.len() != count {
        return Ok(false);
    }
    let mut seen: Vec<bool> = vec![in alloc; false; count]?;
    for k in 0..passes.len() {
        let number = passes[k].log.number;
        if number >= count || seen[number] {
            return Ok(false);
        }
        seen[number] = true;
    }
    Ok(true)
}

/// Returns stripe and index of the first call that doesn't stand in its own stripe, or `None` if there is none.
pub(crate) fn misrouted<C: Calls, M: Site<C::Hasher>>(
    hasher: &C::Hasher,
    stripes: &[CountedStripe<C, M>],
) -> Option<(usize, usize)>
    requires { 0 < length stripes.now }
    ensures none { IfNone result (CallsRouted C.key_of
        (stripe_of C.Hasher.BuildHasher C.Hasher.Hasher.Hasher C.Key.Hash.hash_input hasher.now (length stripes.now))
        0 (map (λ s. s.stripe.history.items) stripes.now)) }
    ensures some { IfSome result (λ p. FirstMisrouted C.key_of
        (stripe_of C.Hasher.BuildHasher C.Hasher.Hasher.Hasher C.Key.Hash.hash_input hasher.now (length stripes.now))
        (map (λ s. s.stripe.history.items) stripes.now) p.0 p.1) }
{
    for i in 0..stripes.len() {
        let history = stripes[i].history();
        if let Some(j) = misplaced::<C>(hasher, stripes.len(), i, history) {
            return Some((i, j));
        }
    }
    None
}

/// Returns the index of the first call in `history` that doesn't route to stripe `part`, or `None` if there is none.
fn misplaced<C: Calls>(
    hasher: &C::Hasher,
    count: usize,
    part: usize,
    history: &[Step<C::Call, C::Reply>],
) -> Option<usize>
    requires { 0 < count }
    ensures none { IfNone result (AllByRecursion
        (StepRouted C.key_of (stripe_of C.Hasher.BuildHasher C.Hasher.Hasher.Hasher C.Key.Hash.hash_input hasher.now
        count) part) history.now) }
    ensures some { IfSome result (λ j. AllByRecursion
        (StepRouted C.key_of (stripe_of C.Hasher.BuildHasher C.Hasher.Hasher.Hasher C.Key.Hash.hash_input hasher.now
        count) part) (take j history.now)
        × IfSome (slice_get history.now j)
        (λ step. ¬ StepRouted C.key_of
        (stripe_of C.Hasher.BuildHasher C.Hasher.Hasher.Hasher C.Key.Hash.hash_input hasher.now count) part step)
        × (j < length history.now)) }
{
    for j in 0..history.len() {
        if !is_placed::<C>(hasher, count, part, &history[j]) {
            return Some(j);
        }
    }
    None
}

fn is_placed<C: Calls>(
    hasher: &C::Hasher,
    count: usize,
    part: usize,
    step: &Step<C::Call, C::Reply>,
) -> bool
    requires { 0 < count }
    ensures { IsTrue result ↔ StepRouted C.key_of
        (stripe_of C.Hasher.BuildHasher C.Hasher.Hasher.Hasher C.Key.Hash.hash_input hasher.now count) part step.now }
{
    match step {
        Step::Call { call, .. } => match C::key(call) {
            Some(key) => route::<C>(hasher, count, key) == part,
            None => true,
        },
        Step::Resize { .. } => true,
    }
}

/// Returns the least number of a pass whose receipts differ from its records, with the first place at which they
/// differ. Returns `None` if there is no such pass.
pub(crate) fn first_disagreement<'b, 'a: 'b, C: Calls, L: Ledger>(
    passes: &'b [Pass<C, L>],
    records: &'b [Vec<Receipt<&'a C::Call, &'a C::Reply>>],
) -> Option<(usize, usize)>
    requires { AllByRecursion (λ n. n < length records.now) (map (λ p. p.log.number) passes.now) }
    ensures none { IfNone result (AllMatch C.Call.eq C.Reply.eq (λ p. p.log.number) (λ p. p.log.receipts.items)
        passes.now (λ n. slice_index_or (map (λ v. map seen v.items) records.now) n [])) }
    ensures some { IfSome result (λ r. FirstDisagrees C.Call.eq C.Reply.eq (λ p. p.log.number)
        (λ p. p.log.receipts.items) passes.now (λ n. slice_index_or (map (λ v. map seen v.items) records.now) n [])
        r.0 r.1) }
{
    let mut first = None;
    for k in 0..passes.len() {
        let log = &passes[k].log;
        let found = first_difference(log.receipts.as_slice(), records[log.number].as_slice());
        first = lesser(first, log.number, found);
    }
    first
}

/// Returns the disagreement of the pass with the lesser number. `first` is the least one so far; `found` is the place
/// in pass `number`, if it has one.
fn lesser(
    first: Option<(usize, usize)>,
    number: usize,
    found: Option<usize>,
) -> Option<(usize, usize)>
    ensures { result ≡ lesser_of first number found }
{
    match (first, found) {
        (first, None) => first,
        (None, Some(place)) => Some((number, place)),
        (Some((least, at)), Some(place)) => {
            if number < least {
                Some((number, place))
            } else {
                Some((least, at))
            }
        }
    }
}
