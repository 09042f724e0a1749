//! The replies that workers got, and the end of their run.
ghost use Rattle.std.specs.Prelude.{◌≡◌, ℕ, ◌<◌, List, length, map, IfOk, IfSome, Ok, Some, slice_get, vec_len};
ghost use Rattle.std.specs.String.{string_bytes};
ghost use Rattle.scc_common.specs.Routing.{stripe_of};
ghost use Rattle.scc_calls.specs.declared.fixed.Request.{Request};
ghost use Rattle.scc_calls.specs.Histories.{CallsRouted, FirstMisrouted};
ghost use Rattle.scc_history.specs.Orders.{IsOnlyStampOrder, steps_at};
ghost use Rattle.scc_history.specs.Receipts.{AreAll, calls_of as records_of};
ghost use Rattle.scc_recorded.specs.Closing.{FirstDisagrees};
ghost use Rattle.scc_play.specs.Answered.{calls_by};
ghost use Rattle.scc_play.specs.Ended.{IfPlayed};
ghost use Rattle.scc_play.specs.Played.{IsPlayed};
ghost use Rattle.scc_play.specs.Telling.{AreTold};

use crate::ends::{Cause, End};
use crate::finished_text::whole_text;
use crate::printed::Printed;
use crate::receipts::{calls_of, replies_of};
use scc_recorded::{Closed, FinishError, Pass, Site};
use scc_script::line::WorkerCall;
use std::alloc::{AllocError, Global};
use std::sync::ledger::Ledger;

/// Returns the replies that each worker got. Returns `None` if the passes are not in order, or if their receipts are
/// not those of the script's calls. Fails if memory is refused.
fn replies_of_workers<P: Printed, L: Ledger>(
    alloc: Global,
    stripes: usize,
    calls: &[WorkerCall<P::Call>],
    passes: &[Pass<P, L>],
) -> Result<Option<Vec<Vec<P::Reply>>>, AllocError>
    requires { 0 < stripes }
    ensures { IfOk result (λ o. IfSome o
        (λ told. AreTold P.key_of P.counted P.count_reply stripes calls.now (λ p. p.log.number)
        (λ p. p.log.receipts.items) (λ v. v.items) 0 passes.now told.items)) }
{
    let mut told = Vec::new(alloc);
    for k in 0..passes.len() {
        let pass = &passes[k];
        if pass.number() != k {
            return Ok(None);
        }
        let own = calls_of::<P>(alloc, k, calls)?;
        let Some(replies) = replies_of::<P>(alloc, stripes, own.as_slice(), pass.receipts())? else {
            return Ok(None);
        };
        told.push(replies)?;
    }
    Ok(Some(told))
}

/// Returns the calls of each worker, in its order. Fails if memory is refused.
pub(crate) fn calls_of_workers<P: Printed>(
    alloc: Global,
    workers: usize,
    calls: &[WorkerCall<P::Call>],
) -> Result<Vec<Vec<P::Call>>, AllocError>
    ensures len { IfOk result (λ v. vec_len v ≡ workers) }
    ensures each { IfOk result (λ v. (w : ℕ) → w < workers
        → IfSome (slice_get v.items w) (λ l. l.items ≡ calls_by w calls.now)) }
{
    let mut lists = Vec::new(alloc);
    for worker in 0..workers {
        lists.push(calls_of::<P>(alloc, worker, calls)?)?;
    }
    Ok(lists)
}

/// Returns why the run isn't finished. Fails if the cause is that memory was refused.
fn cause_of(error: FinishError) -> Result<Cause, AllocError>
    ensures missing { result ≡ Ok Cause.Missing → error ≡ FinishError.Missing }
    ensures misrouted { result ≡ Ok Cause.Misrouted → (i : ℕ) × (j : ℕ) × (error ≡ FinishError.Misrouted i j) }
    ensures disagrees { result ≡ Ok Cause.Disagrees → (n : ℕ) × (k : ℕ) × (error ≡ FinishError.Disagrees n k) }
{
    match error {
        FinishError::Missing => Ok(Cause::Missing),
        FinishError::Misrouted { .. } => Ok(Cause::Misrouted),
        FinishError::Disagrees { .. } => Ok(Cause::Disagrees),
        FinishError::Memory => Err(AllocError),
    }
}

/// Returns the output of a run that is over, or why it isn't finished, or that what was recorded is not what the
/// script has. Fails if memory is refused.
pub fn finish_run<P: Printed + Drop, L: Ledger, M: Site<P::Hasher>>(
    alloc: Global,
    workers: usize,
    stripes: usize,
    calls: &[WorkerCall<P::Call>],
    closed: Closed<P, L, M>,
    passes: Vec<Pass<P, L>>,
) -> Result<End, AllocError>
where
    P::Hasher: Drop,
    requires stripes { (vec_len closed.stripes ≡ stripes) × (0 < stripes) }
    requires workers { closed.passes ≡ workers }
    ensures missing { result ≡ Ok (End.Unfinished Cause.Missing)
        → ¬ AreAll closed.passes (map (λ p. p.log.number) passes.items) }
    ensures misrouted { result ≡ Ok (End.Unfinished Cause.Misrouted)
        → (i : ℕ) × (j : ℕ) × FirstMisrouted P.key_of
        (stripe_of P.Hasher.BuildHasher P.Hasher.Hasher.Hasher P.Key.Hash.hash_input closed.hasher
        (vec_len closed.stripes)) (map (λ s. s.stripe.history.items) closed.stripes.items) i j }
    ensures disagrees { result ≡ Ok (End.Unfinished Cause.Disagrees)
        → (n : ℕ) × (k : ℕ) × ∥ ((places : List (ℕ × ℕ))
        × IsOnlyStampOrder (map (λ s. s.stripe.history.items) closed.stripes.items) places
        × FirstDisagrees P.Call.eq P.Reply.eq (λ p. p.log.number) (λ p. p.log.receipts.items) passes.items
        (λ m. records_of m (steps_at (map (λ s. s.stripe.history.items) closed.stripes.items) places)) n k) ∥₁ }
    ensures differs { result ≡ Ok End.Differs
        → AreAll closed.passes (map (λ p. p.log.number) passes.items)
        × CallsRouted P.key_of (stripe_of P.Hasher.BuildHasher P.Hasher.Hasher.Hasher P.Key.Hash.hash_input
        closed.hasher (vec_len closed.stripes)) 0 (map (λ s. s.stripe.history.items) closed.stripes.items) }
    ensures played { IfOk result (λ e. IfPlayed e (λ text. ∥ ((r : Request P.Hasher) × (M.chosen ≡ Some r)
        × IsPlayed (record {
          limits = P.limits;
          empty = P.empty;
          key_of = P.key_of;
          moves = P.means;
          resizes = P.resizes;
          whole = P.whole;
          whole_moves = P.whole_means;
          whole_resizes = P.whole_resizes;
          counted = P.counted;
          count = P.count_reply;
          state = P.state;
          shown = P.shown;
          order = P.Item.cmp;
          reply = P.reply_line;
          content = P.item_line;
        })
        (stripe_of P.Hasher.BuildHasher P.Hasher.Hasher.Hasher P.Key.Hash.hash_input r.hasher) r workers stripes
        calls.now text) ∥₁)) }
{
    let listed = replies_of_workers::<P, L>(alloc, stripes, calls, passes.as_slice())?;
    let finished = match closed.finish(passes) {
        Ok(finished) => finished,
        Err(unfinished) => {
            let cause = cause_of(unfinished.cause)?;
            return Ok(End::Unfinished(cause));
        }
    };
    let Some(told) = listed else {
        return Ok(End::Differs);
    };
    match whole_text::<P>(alloc, workers, told.as_slice(), finished)? {
        Some(text) => Ok(End::Played(text)),
        None => Ok(End::Differs),
    }
}
