//! The text of a finished run.
ghost use Rattle.std.specs.Prelude.{◌≡◌, ℕ, ◌<◌, List, length, map, IfOk, IfSome, true};
ghost use Rattle.std.specs.List.{AllByRecursion, flat_map, sum_by};
ghost use Rattle.std.specs.List.Sorted.{IsPermutation, IsSorted};
ghost use Rattle.std.specs.String.{string_bytes};
ghost use Rattle.scc_history.specs.Stamps.{calls_in};
ghost use Rattle.scc_play.specs.Output.{output_of};
ghost use Rattle.scc_play.specs.Played.{IsMadeBy};

use crate::printed::Printed;
use crate::texts::output_text;
use scc_calls::Step;
use scc_history::count_all_calls;
use scc_recorded::Finished;
use std::alloc::{AllocError, Global};

/// Returns whether each call of `history` was made by a worker below `workers`.
fn is_known<A, R>(workers: usize, history: &[Step<A, R>]) -> bool
    ensures { result ≡ true → AllByRecursion (IsMadeBy workers) history.now }
{
    for step in history {
        if let Step::Call { pass, .. } = step {
            if *pass >= workers {
                return false;
            }
        }
    }
    true
}

/// Returns whether each call of all `histories` was made by a worker below `workers`.
fn are_known<A, R>(workers: usize, histories: &[Vec<Step<A, R>>]) -> bool
    ensures { result ≡ true → AllByRecursion (AllByRecursion (IsMadeBy workers)) (map (λ h. h.items) histories.now) }
{
    for history in histories {
        if !is_known(workers, history.as_slice()) {
            return false;
        }
    }
    true
}

/// Returns whether all numbers are 0.
fn are_none(numbers: &[usize]) -> bool
    ensures { result ≡ true → AllByRecursion (λ n. n ≡ 0) numbers.now }
{
    for number in numbers {
        if *number != 0 {
            return false;
        }
    }
    true
}

/// Returns the contents of all parts, in rising order. Fails if memory is refused.
fn sorted_items<P: Printed + Drop>(alloc: Global, parts: Vec<P>) -> Result<Vec<P::Item>, AllocError>
    ensures same { IfOk result (λ items. IsPermutation (flat_map P.shown parts.items) items.items) }
    ensures rising { IfOk result (λ items. IsSorted P.Item.cmp items.items) }
{
    let mut items = Vec::new(alloc);
    let mut parts = parts;
    while !parts.is_empty() {
        let mut part = parts.remove(0);
        part.take_items(&mut items)?;
    }
    items.sort_unstable();
    Ok(items)
}

/// Returns the output of a run. Returns `None` if some stripe began with an array, or if some call was made by no
/// worker below `workers`. Fails if memory is refused.
pub(crate) fn whole_text<P: Printed + Drop>(
    alloc: Global,
    workers: usize,
    replies: &[Vec<P::Reply>],
    finished: Finished<P>,
) -> Result<Option<String>, AllocError>
    ensures known { IfOk result (λ o. IfSome o
        (λ text. AllByRecursion (AllByRecursion (IsMadeBy workers)) (map (λ h. h.items) finished.histories.items))) }
    ensures opened { IfOk result (λ o. IfSome o (λ text. AllByRecursion (λ n. n ≡ 0) finished.opened.items)) }
    ensures text { IfOk result (λ o. IfSome o (λ text. (items : List P.Item) × IsPermutation
        (flat_map P.shown finished.parts.items) items × IsSorted P.Item.cmp items
        × (string_bytes text ≡ output_of P.reply_line P.item_line (map (λ v. v.items) replies.now) items
        (sum_by calls_in (map (λ h. h.items) finished.histories.items))))) }
{
    let Finished {
        parts,
        histories,
        opened,
        order: _,
    } = finished;
    if !are_known(workers, histories.as_slice()) || !are_none(opened.as_slice()) {
        return Ok(None);
    }
    let Some(records) = count_all_calls(histories.as_slice()) else {
        return Ok(None);
    };
    let items = sorted_items(alloc, parts)?;
    let text = output_text::<P>(alloc, replies, items.as_slice(), records)?;
    Ok(Some(text))
}
