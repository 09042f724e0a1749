//! The steps of all stripes in the order of their stamps.
ghost use Rattle.scc_calls.specs.declared.steps.Step.{Step};
ghost use Rattle.scc_history.specs.Orders.{IsOnlyStampOrder, least};
ghost use Rattle.scc_history.specs.Stamps.{Rises};
ghost use Rattle.scc_history.specs.Queues.{JoinsQueue, Queued};
ghost use Rattle.std.specs.BinaryHeap.{IsHeap, heap_items};
ghost use Rattle.std.specs.Ordering.{nat_cmp, ordering_then};
ghost use Rattle.std.specs.Prelude.{◌≡◌, ℕ, ◌+◌, ◌<◌, ◌≤◌, List, length, map, drop, IfOk, OnOk};

use scc_calls::Step;
use std::alloc::{AllocError, Global};
use std::cmp::Reverse;
use std::collections::BinaryHeap;

/// A value that has the history of a stripe.
pub trait Histories {
    type Call;

    type Reply;

    ghost history: { Self → List (Step Self.Call Self.Reply) };

    // The stamp of the last call.
    ghost last: { Self → ℕ };

    /// Returns the history. The stamps of its calls rise.
    fn history(&self) -> &[Step<Self::Call, Self::Reply>]
        ensures same { result.now ≡ history self.now }
        ensures rising { Rises 0 (history self.now) (last self.now) × (last self.now ≤ 18446744073709551615) }
        ensures short { length (history self.now) < 18446744073709551616 };
}

/// Returns the least stamp of `history` from step `from` on. No step after a call has a lesser stamp than the call, so
/// nothing after the next call is read.
fn number_at<A, R>(history: &[Step<A, R>], from: usize) -> u64
    requires within { from < length history.now }
    requires rising { (last : ℕ) × Rises 0 history.now last × (last ≤ 18446744073709551615) }
    ensures { result ≡ least (drop from history.now) }
{
    let mut low = u64::MAX;
    for j in from..history.len() {
        match &history[j] {
            Step::Call { stamp, .. } => return low.min(*stamp),
            Step::Resize { stamp, .. } => low = low.min(*stamp),
        }
    }
    low
}

/// Adds the step at `place` of `history` to the queue `next`, if there is such a step. Fails if memory is refused.
fn queue_step<A, R>(
    next: &mut BinaryHeap<Reverse<(u64, usize)>>,
    history: &[Step<A, R>],
    place: usize,
    stripe: usize,
) -> Result<(), AllocError>
    requires { (last : ℕ) × Rises 0 history.now last × (last ≤ 18446744073709551615) }
    ensures joins { OnOk result (JoinsQueue (λ x. x.0) history.now place stripe (heap_items next.old)
        (heap_items next.new)) }
    ensures heap { OnOk result (IsHeap (λ x y. ordering_then (nat_cmp y.0.0 x.0.0) (nat_cmp y.0.1 x.0.1))
        (heap_items next.old) → IsHeap (λ x y. ordering_then (nat_cmp y.0.0 x.0.0) (nat_cmp y.0.1 x.0.1))
        (heap_items next.new)) }
{
    if place < history.len() {
        next.push(Reverse((number_at(history, place), stripe)))?;
    }
    Ok(())
}

/// Returns the first step of each history that has one, with its order number and its stripe. Fails if memory is
/// refused.
fn first_steps<H: Histories>(
    alloc: Global,
    stripes: &[H],
) -> Result<BinaryHeap<Reverse<(u64, usize)>>, AllocError>
    ensures waiting { IfOk result (λ h. Queued (λ x. x.0) (map H.history stripes.now) (length stripes.now)
        (map (λ _. 0) stripes.now) (heap_items h)) }
    ensures heap { IfOk result (λ h. IsHeap (λ x y. ordering_then (nat_cmp y.0.0 x.0.0) (nat_cmp y.0.1 x.0.1))
        (heap_items h)) }
{
    let mut next = BinaryHeap::new(alloc);
    for i in 0..stripes.len() {
        queue_step(&mut next, stripes[i].history(), 0, i)?;
    }
    Ok(next)
}

/// Returns the places of all steps in the order of their stamps. There is only one such order. Takes time proportional
/// to the number of steps times the logarithm of the number of stripes. Fails if memory is refused.
pub fn stamp_order<H: Histories>(
    alloc: Global,
    stripes: &[H],
) -> Result<Vec<(usize, usize)>, AllocError>
    ensures { IfOk result (λ v. IsOnlyStampOrder (map H.history stripes.now) v.items) }
{
    let mut done: Vec<usize> = vec![in alloc; 0; stripes.len()]?;
    let mut next = first_steps(alloc, stripes)?;
    let mut order = Vec::new(alloc);
    while let Some(Reverse((_, i))) = next.pop() {
        let history = stripes[i].history();
        let j = done[i];
        order.push((i, j))?;
        done[i] = j + 1;
        queue_step(&mut next, history, j + 1, i)?;
    }
    Ok(order)
}
