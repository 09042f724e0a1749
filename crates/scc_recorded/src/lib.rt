//! Containers in stripes behind locks, whose calls are recorded, and what their histories prove at the end. The crate also
//! names what a user of such containers needs of the crates below: calls as values, histories, errors, the hasher with
//! several owners, and the owned containers that stripes are made of.
#![tactic(auto)]

ghost use Rattle.scc_calls.specs.Copies.{ClonesEqual, MayNotClone};
ghost use Rattle.scc_calls.specs.declared.fixed.Request.{Request};
ghost use Rattle.scc_calls.specs.declared.fixed.Setting.{Setting};
ghost use Rattle.scc_history.specs.Added.{AddsReceipt};
ghost use Rattle.scc_recorded.specs.Getting.{GetsReceipt, SamePass};
ghost use Rattle.scc_recorded.specs.Adds.{MayAnswer};
ghost use Rattle.std.specs.List.{range_with_len};
ghost use Rattle.std.specs.Prelude.{◌≡◌, ◌<◌, ◌⊎◌, Err, IfOk, OnErr, IsSome, Some, map, vec_len};

mod all_stripes;
mod auditing;
mod checks;
mod closing;
mod counted;
mod finishing;
mod opening;
mod passes;
mod setups;

use crate::closing::StripeRoom;
use crate::counted::{Count, PartCount};
pub use closing::Closed;
pub use counted::CountedStripe;
pub use finishing::{FinishError, Finished, Unfinished};
pub use passes::Pass;
pub use scc_calls::{
    CacheCall, Calls, Copied, IndexCall, MapCall, Refused, Reply, Request, SetCall, Setting, Step,
    WholeCalls, every_merge_is_a_run, route, run, runs_mean,
};
pub use scc_common::{CloneOwner, MakeError, Shared};
pub use scc_history::{CallError, Log, Receipt, Stripe, count_all_calls, count_calls};
pub use scc_owned::index::Owned as OwnedIndex;
pub use scc_owned::map::Owned as OwnedMap;
pub use scc_owned_cache::Owned as OwnedCache;
pub use scc_owned_set::Owned as OwnedSet;
pub use setups::{Setup, Site};
use std::alloc::Global;
use std::sync::ledger::Ledger;
use std::sync::{Mutex, Wait};

/// A container in stripes, each behind a lock with its history. Threads share it by reference.
///
/// `L` is the ledger of the receipts, in one part for each pass. `M` is the ledger of the call records, in one part
/// for each stripe; it names the request for which the stripes were made.
#[derive(Drop)]
pub struct Recorded<C: Calls, L: Ledger, M: Site<C::Hasher>> {
    /// The number of stripes.
    pub stripes: usize,
    /// The number of passes that were handed out.
    pub passes: usize,
    pub(crate) locks: Vec<LockedStripe<C, M>>,
    pub(crate) count: Mutex<Count<L, M>>,
    pub hasher: C::Hasher,
    pub(crate) alloc: Global,
    pub(crate) room: Mutex<StripeRoom<C, M>>,
    pub(crate) handed: PartCount<L>,
    pub(crate) stripe_count: PartCount<M>,
    pub ghost placed: { ∥ ((r : Request C.Hasher) × (M.chosen ≡ Some r) × (r.hasher ≡ hasher)) ∥₁ },
    pub ghost number: { vec_len locks ≡ stripes },
    pub ghost some: { 0 < stripes },
    pub ghost all: { M.all ≡ stripes },
    pub ghost handed_all: { handed.count ≡ passes },
    pub ghost stripe_count_all: { stripe_count.count ≡ stripes },
    pub ghost numbers: { map (λ l. l.number) locks.items ≡ range_with_len 0 stripes },
}

// A stripe behind its lock, with its number.
#[derive(Drop)]
pub(crate) struct LockedStripe<C: Calls, M: Site<C::Hasher>> {
    pub(crate) number: usize,
    pub(crate) lock: Mutex<CountedStripe<C, M>>,
}

impl<C: Calls, M: Site<C::Hasher>> LockedStripe<C, M> {
    /// Makes one recorded call on the stripe. The receipt has the number of the stripe.
    pub(crate) fn call_locked<L: Ledger, R: Wait>(
        &self,
        rt: &R,
        pass: &mut Pass<C, L>,
        count: &Mutex<Count<L, M>>,
        call: C::Call,
    ) -> Result<C::Reply, CallError>
        requires calls { ClonesEqual C.Call.is_clone C.Call.eq }
        requires replies { ClonesEqual C.Reply.is_clone C.Reply.eq }
        ensures number { pass.new.log.number ≡ pass.old.log.number }
        ensures ok { IfOk result (λ r. (pass.old.log.clock < pass.new.log.clock)
            × AddsReceipt C.Call.is_clone C.Reply.eq self.now.number pass.new.log.clock call r
            pass.old.log.receipts.items pass.new.log.receipts.items) }
        ensures err { OnErr result ((pass.new.log.clock ≡ pass.old.log.clock)
            × (pass.new.log.receipts.items ≡ pass.old.log.receipts.items)) }
        ensures answers { IfOk result (λ r. MayAnswer C.moves call r) }
        ensures refused { result ≡ Err CallError.Container
            → ∥ ((g : Setting C.Hasher) × (s : C.State)
            × (C.may_refuse g s call ⊎ (IsSome (C.key_of call) × MayNotClone C.Reply.is_infallible (C.answer g s call))))
            ∥₁ }
    {
        self.lock
            .lock(rt)
            .call_counted(rt, self.number, pass, count, call)
    }
}

impl<C: Calls, L: Ledger, M: Site<C::Hasher>> Recorded<C, L, M> {
    /// Returns stripe `i`.
    pub(crate) fn locked_stripe(&self, i: usize) -> &LockedStripe<C, M>
        requires { i < self.now.stripes }
        ensures { result.now.number ≡ i }
    {
        &self.locks[i]
    }

    /// Makes a call with a key on the stripe of its key. The receipt has the number of this stripe. Any thread may
    /// call it, and may wait for the lock of the stripe. Once the call is made, and the stripe still locked, it may wait
    /// for the lock of the count, which all stripes share and which is held for two additions.
    ///
    /// Fails with `Room` if memory for the record, the receipt or a clone of the call is refused, or if no stamp is
    /// left; then nothing changed. Fails with `Container` only if the container may refuse the call for memory, or if
    /// a clone of its reply may be refused.
    pub fn call<R: Wait>(
        &self,
        rt: &R,
        pass: &mut Pass<C, L>,
        call: C::Call,
    ) -> Result<C::Reply, CallError>
        requires keyed { IsSome (C.key_of call) }
        requires calls { ClonesEqual C.Call.is_clone C.Call.eq }
        requires replies { ClonesEqual C.Reply.is_clone C.Reply.eq }
        ensures number { pass.new.log.number ≡ pass.old.log.number }
        ensures receipt { IfOk result (λ r. GetsReceipt self.now.hasher self.now.stripes pass.old call r pass.new) }
        ensures unchanged { OnErr result (SamePass pass.old pass.new) }
        ensures answers { IfOk result (λ r. MayAnswer C.moves call r) }
        ensures refused { result ≡ Err CallError.Container
            → ∥ ((g : Setting C.Hasher) × (s : C.State)
            × (C.may_refuse g s call ⊎ (IsSome (C.key_of call) × MayNotClone C.Reply.is_infallible (C.answer g s call))))
            ∥₁ }
    {
        let Some(key) = C::key(&call) else {
            unreachable!();
        };
        let place = route::<C>(&self.hasher, self.stripes, key);
        self.locked_stripe(place)
            .call_locked(rt, pass, &self.count, call)
    }
}
