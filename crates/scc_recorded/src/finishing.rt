//! A finished run, and why a run can't be finished.
ghost use Rattle.scc_calls.specs.Histories.{CallsRouted};
ghost use Rattle.scc_common.specs.Routing.{stripe_of};
ghost use Rattle.scc_history.specs.Orders.{IsOnlyStampOrder, steps_at};
ghost use Rattle.scc_history.specs.Receipts.{AreAll, calls_of};
ghost use Rattle.scc_history.specs.Stamps.{calls_in};
ghost use Rattle.scc_recorded.specs.Closing.{AllMatch};
ghost use Rattle.scc_recorded.specs.Finished.{IsFinishedRun, IsRefusedRun};
ghost use Rattle.std.specs.List.{range_with_len, sum_by};
ghost use Rattle.std.specs.Prelude.{◌≡◌, ◌+◌, ◌<◌, ◌≤◌, [], length, map, Err, IfOk, IfErr, Some, vec_len, vec_capacity};

use crate::Recorded;
use crate::checks::{are_all, first_disagreement, misrouted};
use crate::closing::{Closed, list_for};
use crate::counted::CountedStripe;
use crate::passes::Pass;
use crate::setups::Site;
use scc_calls::{Calls, Step, every_merge_is_a_run};
use scc_history::{records_by_pass, stamp_order};
use std::fmt::Debug;
use std::io;
use std::sync::ledger::Ledger;
use thiserror::Error;

/// What a run was: the containers, their histories and the order of the steps.
#[derive(Drop)]
pub struct Finished<C: Calls> {
    /// The container of each stripe.
    pub parts: Vec<C>,
    /// The history of each stripe.
    pub histories: Vec<Vec<Step<C::Call, C::Reply>>>,
    /// The number of buckets of each stripe at opening.
    pub opened: Vec<usize>,
    /// The places of all steps, each a stripe and an index, in the order of their stamps.
    pub order: Vec<(usize, usize)>,
}

/// A run that can't be finished: the container, the passes and the cause.
#[derive(Drop)]
pub struct Unfinished<C: Calls, L: Ledger, M: Site<C::Hasher>> {
    pub recorded: Closed<C, L, M>,
    pub passes: Vec<Pass<C, L>>,
    pub cause: FinishError,
}

impl<C: Calls + Drop, L: Ledger, M: Site<C::Hasher>> Closed<C, L, M>
where
    C::Hasher: Drop,
{
    /// Returns what the run was. It succeeds if the passes are all that were handed out, each call stands in the
    /// stripe of its key, and each pass has a receipt for each of its call records and no other. If the passes are
    /// all, they have as many receipts together as the stripes have call records, also if `finish` fails.
    ///
    /// Takes time proportional to the number of records times the logarithm of the number of stripes. If it fails,
    /// container and passes come back unchanged. `Missing` comes first, then `Misrouted`, then `Disagrees`; `Memory`
    /// comes only if memory for a list is refused.
    pub fn finish(self, passes: Vec<Pass<C, L>>) -> Result<Finished<C>, Unfinished<C, L, M>>
        ensures parts { IfOk result (λ f. (f.parts.items ≡ map (λ s. s.stripe.container) self.stripes.items)
            × (map (λ h. h.items) f.histories.items ≡ map (λ s. s.stripe.history.items) self.stripes.items)
            × (f.opened.items ≡ map (λ s. s.stripe.opened) self.stripes.items)) }
        ensures finished { IfOk result (IsFinishedRun self.hasher self.passes passes.items M.chosen) }
        ensures back { IfErr result (λ u. (u.recorded ≡ self) × (u.passes ≡ passes)) }
        ensures refused { IfErr result (λ u. IsRefusedRun u.recorded.hasher u.recorded.passes
            (map (λ s. s.stripe.history.items) u.recorded.stripes.items) u.passes.items u.cause) }
        ensures counted { IfErr result (λ u. AreAll u.recorded.passes (map (λ p. p.log.number) u.passes.items)
            → sum_by (λ s. calls_in s.stripe.history.items) u.recorded.stripes.items
            ≡ sum_by (λ p. length p.log.receipts.items) u.passes.items) }
    {
        let mut closed = self;
        let mut passes = passes;
        closed.count(&mut passes);
        closed.finish_counted(passes)
    }

    /// Proves that there are as many call records as receipts, if there are as many passes as were handed out.
    fn count(&mut self, passes: &mut Vec<Pass<C, L>>)
        ensures same { (self.new ≡ self.old) × (passes.new ≡ passes.old) }
        ensures equal { AreAll self.old.passes (map (λ p. p.log.number) passes.old.items)
            → sum_by (λ s. calls_in s.stripe.history.items) self.old.stripes.items
            ≡ sum_by (λ p. length p.log.receipts.items) passes.old.items }
    {
        if passes.len() == self.passes {
            self.audit(passes.as_mut_slice());
        }
    }

    /// Returns what the run was, as `finish` does. There must be as many call records as receipts if the passes are
    /// all.
    fn finish_counted(self, passes: Vec<Pass<C, L>>) -> Result<Finished<C>, Unfinished<C, L, M>>
        requires { AreAll self.passes (map (λ p. p.log.number) passes.items)
            → sum_by (λ s. calls_in s.stripe.history.items) self.stripes.items
            ≡ sum_by (λ p. length p.log.receipts.items) passes.items }
        ensures parts { IfOk result (λ f. (f.parts.items ≡ map (λ s. s.stripe.container) self.stripes.items)
            × (map (λ h. h.items) f.histories.items ≡ map (λ s. s.stripe.history.items) self.stripes.items)
            × (f.opened.items ≡ map (λ s. s.stripe.opened) self.stripes.items)) }
        ensures finished { IfOk result (IsFinishedRun self.hasher self.passes passes.items M.chosen) }
        ensures back { IfErr result (λ u. (u.recorded ≡ self) × (u.passes ≡ passes)) }
        ensures refused { IfErr result (λ u. IsRefusedRun u.recorded.hasher u.recorded.passes
            (map (λ s. s.stripe.history.items) u.recorded.stripes.items) u.passes.items u.cause) }
    {
        let order = match self.order_of(passes.as_slice()) {
            Ok(order) => order,
            Err(cause) => {
                return Err(Unfinished {
                    recorded: self,
                    passes,
                    cause,
                });
            }
        };
        every_merge_is_a_run::<C>();
        let room = self.stripes.len();
        let (Ok(mut parts), Ok(mut histories), Ok(mut opened)) = (
            list_for(self.alloc, room),
            list_for(self.alloc, room),
            list_for(self.alloc, room),
        ) else {
            return Err(Unfinished {
                recorded: self,
                passes,
                cause: FinishError::Memory,
            });
        };
        let Closed {
            stripes,
            hasher: _,
            passes: _,
            count: _,
            alloc: _,
            handed: _,
            stripe_count: _,
        } = self;
        move_out(stripes, &mut parts, &mut histories, &mut opened);
        Ok(Finished {
            parts,
            histories,
            opened,
            order,
        })
    }

    /// Returns the stamp order if nothing speaks against the run, else the first cause against it.
    fn order_of(&self, passes: &[Pass<C, L>]) -> Result<Vec<(usize, usize)>, FinishError>
        ensures complete { IfOk result (λ v. AreAll self.now.passes (map (λ p. p.log.number) passes.now)) }
        ensures routed { IfOk result (λ v. CallsRouted C.key_of
            (stripe_of C.Hasher.BuildHasher C.Hasher.Hasher.Hasher C.Key.Hash.hash_input self.now.hasher
            (vec_len self.now.stripes)) 0 (map (λ s. s.stripe.history.items) self.now.stripes.items)) }
        ensures order { IfOk result (λ v. IsOnlyStampOrder (map (λ s. s.stripe.history.items) self.now.stripes.items)
            v.items) }
        ensures receipts { IfOk result (λ v. AllMatch C.Call.eq C.Reply.eq (λ p. p.log.number)
            (λ p. p.log.receipts.items) passes.now
            (λ n. calls_of n (steps_at (map (λ s. s.stripe.history.items) self.now.stripes.items) v.items))) }
        ensures refused { IfErr result (IsRefusedRun self.now.hasher self.now.passes
            (map (λ s. s.stripe.history.items) self.now.stripes.items) passes.now) }
    {
        let Ok(complete) = are_all(self.alloc, passes, self.passes) else {
            return Err(FinishError::Memory);
        };
        if !complete {
            return Err(FinishError::Missing);
        }
        if let Some((stripe, index)) = misrouted(&self.hasher, self.stripes.as_slice()) {
            return Err(FinishError::Misrouted { stripe, index });
        }
        let Ok(order) = stamp_order(self.alloc, self.stripes.as_slice()) else {
            return Err(FinishError::Memory);
        };
        let Ok(records) = records_by_pass(
            self.alloc,
            self.stripes.as_slice(),
            order.as_slice(),
            self.passes,
        ) else {
            return Err(FinishError::Memory);
        };
        if let Some((pass, receipt)) = first_disagreement(passes, records.as_slice()) {
            return Err(FinishError::Disagrees { pass, receipt });
        }
        Ok(order)
    }
}

impl<C: Calls + Drop, L: Ledger, M: Site<C::Hasher>> Recorded<C, L, M>
where
    C::Hasher: Drop,
{
    /// Returns what the run was: [`Recorded::close`], and then [`Closed::finish`], with its costs and its errors. If
    /// it fails, the stripes come back in the order of their numbers and without their locks, so a further try is made
    /// by [`Closed::finish`].
    pub fn finish(self, passes: Vec<Pass<C, L>>) -> Result<Finished<C>, Unfinished<C, L, M>>
        ensures finished { IfOk result (IsFinishedRun self.hasher self.passes passes.items M.chosen) }
        ensures stripes { IfOk result (λ f. vec_len f.parts ≡ self.stripes) }
        ensures back { IfErr result (λ u. (u.passes ≡ passes) × (vec_len u.recorded.stripes ≡ self.stripes)
            × (u.recorded.passes ≡ self.passes) × (u.recorded.hasher ≡ self.hasher)) }
        ensures numbers { IfErr result (λ u. map (λ s. s.stripe.number) u.recorded.stripes.items
            ≡ range_with_len 0 self.stripes) }
        ensures refused { IfErr result (λ u. IsRefusedRun u.recorded.hasher u.recorded.passes
            (map (λ s. s.stripe.history.items) u.recorded.stripes.items) u.passes.items u.cause) }
        ensures counted { IfErr result (λ u. AreAll u.recorded.passes (map (λ p. p.log.number) u.passes.items)
            → sum_by (λ s. calls_in s.stripe.history.items) u.recorded.stripes.items
            ≡ sum_by (λ p. length p.log.receipts.items) u.passes.items) }
    {
        self.close().finish(passes)
    }
}

/// Moves the containers, the histories and the numbers of buckets at opening of all stripes to the three lists.
fn move_out<C: Calls + Drop, M: Site<C::Hasher>>(
    stripes: Vec<CountedStripe<C, M>>,
    parts: &mut Vec<C>,
    histories: &mut Vec<Vec<Step<C::Call, C::Reply>>>,
    opened: &mut Vec<usize>,
)
    requires empty { (parts.old.items ≡ []) × (histories.old.items ≡ []) × (opened.old.items ≡ []) }
    requires room { (vec_len stripes ≤ vec_capacity parts.old) × (vec_len stripes ≤ vec_capacity histories.old)
        × (vec_len stripes ≤ vec_capacity opened.old) }
    ensures parts { parts.new.items ≡ map (λ s. s.stripe.container) stripes.items }
    ensures histories { map (λ h. h.items) histories.new.items ≡ map (λ s. s.stripe.history.items) stripes.items }
    ensures opened { opened.new.items ≡ map (λ s. s.stripe.opened) stripes.items }
{
    let mut stripes = stripes;
    while !stripes.is_empty() {
        let (container, history, buckets) = stripes.remove(0).into_parts();
        parts.push_reserved(container);
        histories.push_reserved(history);
        opened.push_reserved(buckets);
    }
}

/// Why a run was not finished.
#[derive(Clone, Copy, Debug, PartialEq, Error)]
pub enum FinishError {
    /// The passes are not all that were handed out, each once.
    #[error("a pass is missing")]
    Missing,
    /// The key of the call at `index` of the history of `stripe` doesn't route to this stripe. It is the first such
    /// call, by stripe and then by index.
    #[error("misrouted record")]
    Misrouted { stripe: usize, index: usize },
    /// Receipt number `receipt` of pass `pass` differs from call record number `receipt` of this pass, or one of them
    /// is missing. It is the first such receipt, by pass and then by receipt.
    #[error("receipt disagrees")]
    Disagrees { pass: usize, receipt: usize },
    /// Memory for a list was refused.
    #[error("out of memory")]
    Memory,
}

impl From<FinishError> for io::Error {
    /// Returns an error of the kind `OutOfMemory` for `Memory`, and of the kind `InvalidData` for the rest.
    fn from(error: FinishError) -> io::Error {
        match error {
            FinishError::Memory => io::Error::from(io::ErrorKind::OutOfMemory),
            _ => io::Error::from(io::ErrorKind::InvalidData),
        }
    }
}
