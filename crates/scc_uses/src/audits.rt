//! What an auditor of recorded containers may rely on.
ghost use Rattle.std.specs.Prelude.{◌≡◌, ℕ, ◌<◌, length, map, IfOk, OnOk, Some, slice_get};
ghost use Rattle.scc_history.specs.Orders.{steps_at};
ghost use Rattle.scc_recorded.specs.Setups.{request_of};
ghost use Rattle.scc_history.specs.Receipts.{calls_of};
ghost use Rattle.scc_calls.specs.Copies.{ClonesEqual};

use scc_calls::{Calls, MapCall, Reply};
use scc_common::Shared;
use scc_history::{CallError, Log, Stripe};
use scc_owned::map::Owned;
use scc_recorded::{Closed, Finished, Pass, Recorded, Setup, Site, Unfinished};
use std::alloc::Global;
use std::hash::BuildHasher;
use std::sync::Wait;
use std::sync::ledger::{Blank, Ledger};

/// Makes a call by `first`, tells `second` the clock of `first`, and makes a later call by `second`. The stamp of the
/// later call is greater.
pub fn one_after_another<C: Calls>(
    stripe: &mut Stripe<C>,
    first: &mut Log<C>,
    second: &mut Log<C>,
    call: C::Call,
    later: C::Call,
) -> Result<(), CallError>
    requires calls { ClonesEqual C.Call.is_clone C.Call.eq }
    requires replies { ClonesEqual C.Reply.is_clone C.Reply.eq }
    ensures { OnOk result (first.new.clock < second.new.clock) }
{
    stripe.step(first, call)?;
    second.told(first);
    stripe.step(second, later)?;
    Ok(())
}

/// Finishes a run. Then each pass has one receipt for each call record with its number: every call was answered, and
/// every answered call is recorded.
pub fn audit<C: Calls + Drop, L: Ledger, M: Site<C::Hasher>>(
    closed: Closed<C, L, M>,
    passes: Vec<Pass<C, L>>,
) -> Result<Finished<C>, Unfinished<C, L, M>>
where
    C::Hasher: Drop,
    ensures { IfOk result (λ f. (k : ℕ) (p : _) → slice_get passes.items k ≡ Some p
        → length p.log.receipts.items
        ≡ length (calls_of p.log.number (steps_at (map (λ h. h.items) f.histories.items) f.order.items))) }
{
    closed.finish(passes)
}

/// Makes one insertion into a recorded map of two stripes, and returns its reply. Returns `None` if memory is refused.
pub fn insert_once<H: BuildHasher + Drop, L: Ledger, M: Site<Shared<H>>, R: Wait>(
    rt: &R,
    alloc: Global,
    hasher: Shared<H>,
    receipts: Blank,
    records: Blank,
) -> Option<Reply<u64, u64>>
    requires receipts { (receipts.name ≡ L.name) × (receipts.parts ≡ L.parts) × (receipts.parts ≡ 1) }
    requires records { (records.name ≡ M.name) × (records.parts ≡ M.parts) × (records.parts ≡ 2) }
    requires site { (M.chosen ≡ Some (request_of 0 0 hasher 2)) × (M.all ≡ 2) }
{
    let setup = Setup {
        capacity: 0,
        maximum: 0,
        hasher,
    };
    let (recorded, mut passes) = Recorded::<Owned<u64, u64, Shared<H>>, L, M>::open(
        alloc, setup, 2, 1, receipts, records,
    ).ok()?;
    let mut pass = passes.pop()?;
    recorded.call(rt, &mut pass, MapCall::Insert(1, 10)).ok()
}
