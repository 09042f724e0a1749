//! Sessions under names, in a recorded map whose keys are texts.
ghost use Rattle.std.specs.Prelude.{◌≡◌, ℕ, ◌+◌, ◌<◌, length, map, IfOk, OnOk, Some, slice_get};
ghost use Rattle.scc_history.specs.Orders.{StampsRise, steps_at};
ghost use Rattle.scc_history.specs.Receipts.{calls_of};

use scc_calls::{MapCall, Reply};
use scc_common::Shared;
use scc_history::CallError;
use scc_owned::map::Owned;
use scc_recorded::{Finished, Pass, Recorded, Site, Unfinished};
use std::hash::BuildHasher;
use std::sync::Wait;
use std::sync::ledger::Ledger;

/// The ends of sessions, by their names.
pub type Ends<H> = Owned<String, u64, Shared<H>>;

/// Sets the end of the session `name` to `end`, and returns the reply, which has the old end. The pass gets one
/// receipt, with a later stamp than all that it had.
pub fn renew<H: BuildHasher, L: Ledger, M: Site<Shared<H>>, R: Wait>(
    rt: &R,
    store: &Recorded<Ends<H>, L, M>,
    pass: &mut Pass<Ends<H>, L>,
    name: String,
    end: u64,
) -> Result<Reply<String, u64>, CallError>
    ensures later { OnOk result (pass.old.log.clock < pass.new.log.clock) }
    ensures kept { OnOk result (length pass.new.log.receipts.items ≡ length pass.old.log.receipts.items + 1) }
{
    store.call(rt, pass, MapCall::Upsert(name, end))
}

/// Finishes the run. Then each pass has one receipt for each call record with its number: every renewal was answered,
/// and every answered renewal is recorded. Along the order the stamps of calls don't fall.
pub fn audit_sessions<H: BuildHasher + Drop, L: Ledger, M: Site<Shared<H>>>(
    store: Recorded<Ends<H>, L, M>,
    passes: Vec<Pass<Ends<H>, L>>,
) -> Result<Finished<Ends<H>>, Unfinished<Ends<H>, L, M>>
    ensures answered { IfOk result (λ f. (k : ℕ) (p : _) → slice_get passes.items k ≡ Some p
        → length p.log.receipts.items
        ≡ length (calls_of p.log.number (steps_at (map (λ h. h.items) f.histories.items) f.order.items))) }
    ensures stamps { IfOk result (λ f. StampsRise (map (λ h. h.items) f.histories.items) f.order.items) }
{
    store.finish(passes)
}
