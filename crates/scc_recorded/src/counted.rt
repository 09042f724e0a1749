//! What a lock guards: a stripe with its part of a ledger, and the books of receipts and records.
ghost use Rattle.scc_calls.specs.Calling.{MayNotReply};
ghost use Rattle.scc_calls.specs.Copies.{ClonesEqual};
ghost use Rattle.scc_calls.specs.Made.{IsMadeFor};
ghost use Rattle.scc_calls.specs.declared.fixed.Request.{Request};
ghost use Rattle.scc_history.specs.Added.{AddsReceipt};
ghost use Rattle.scc_history.specs.Stamps.{calls_in};
ghost use Rattle.scc_recorded.specs.Adds.{MayAnswer};
ghost use Rattle.std.specs.Prelude.{◌≡◌, ◌+◌, ◌<◌, ◌≤◌, ◌⊎◌, Err, IsSome, IfOk, OnOk, OnErr, Some};

use crate::passes::Pass;
use crate::setups::Site;
use scc_calls::Calls;
use scc_common::MakeError;
use scc_history::{CallError, Stripe};
use std::alloc::Global;
use std::marker::PhantomData;
use std::sync::ledger::{Book, Ledger, Share};
use std::sync::{Mutex, Wait};

/// A stripe that was made for the request of its site, with its part of the ledger of records.
#[derive(Drop)]
pub struct CountedStripe<C: Calls, M: Site<C::Hasher>> {
    pub stripe: Stripe<C>,
    pub(crate) ledger: Share<M>,
    pub ghost placed: { ∥ ((r : Request C.Hasher) × (M.chosen ≡ Some r)
        × IsMadeFor C.limits r (C.setting stripe.container)) ∥₁ },
    pub ghost part: { ledger.parts ≡ 1 },
    pub ghost counted: { ledger.amount ≡ calls_in stripe.history.items },
}

impl<C: Calls, M: Site<C::Hasher>> CountedStripe<C, M> {
    /// Returns an empty stripe, which takes one part of the ledger from `all`. Fails if memory is refused.
    pub(crate) fn open(
        alloc: Global,
        number: usize,
        skipped: u32,
        slots: usize,
        maximum: usize,
        hasher: C::Hasher,
        all: &mut Share<M>,
    ) -> Result<CountedStripe<C, M>, MakeError>
    where
        C::Hasher: Drop,
        requires site { M.chosen ≡ Some (record {
          hasher = hasher;
          skipped = skipped;
          slots = slots;
          maximum = maximum;
        }) }
        requires skipped { skipped ≤ 4 }
        requires part { (0 < all.old.parts) × (all.old.amount ≡ 0) }
        ensures { OnOk result ((all.new.parts + 1 ≡ all.old.parts) × (all.new.amount ≡ 0)) }
    {
        let stripe = Stripe::open(alloc, number, skipped, slots, maximum, hasher)?;
        let ledger = all.split_off(1, 0);
        Ok(CountedStripe { stripe, ledger })
    }

    /// Makes one recorded call on the stripe, whose number is `number`, and counts it in both books.
    pub(crate) fn call_counted<L: Ledger, R: Wait>(
        &mut self,
        rt: &R,
        number: usize,
        pass: &mut Pass<C, L>,
        count: &Mutex<Count<L, M>>,
        call: C::Call,
    ) -> Result<C::Reply, CallError>
        requires calls { ClonesEqual C.Call.is_clone C.Call.eq }
        requires replies { ClonesEqual C.Reply.is_clone C.Reply.eq }
        ensures number { pass.new.log.number ≡ pass.old.log.number }
        ensures ok { IfOk result (λ r. (pass.old.log.clock < pass.new.log.clock)
            × AddsReceipt C.Call.is_clone C.Reply.eq number pass.new.log.clock call r pass.old.log.receipts.items
            pass.new.log.receipts.items) }
        ensures err { OnErr result ((pass.new.log.clock ≡ pass.old.log.clock)
            × (pass.new.log.receipts.items ≡ pass.old.log.receipts.items)) }
        ensures answers { IfOk result (λ r. MayAnswer C.moves call r) }
        ensures refused { result ≡ Err CallError.Container
            → C.may_refuse (C.setting self.old.stripe.container) (C.state self.old.stripe.container) call
            ⊎ (IsSome (C.key_of call) × MayNotReply C.size (C.resizes (C.setting self.old.stripe.container))
            (C.answer (C.setting self.old.stripe.container)) C.Reply.is_infallible (C.state self.old.stripe.container)
            call) }
    {
        let CountedStripe {
            stripe,
            ledger: records,
        } = self;
        let Pass {
            log,
            ledger: receipts,
        } = pass;
        stripe.number = number;
        let reply = stripe.step(log, call)?;
        count.lock(rt).add(receipts, records);
        Ok(reply)
    }
}

/// The number of the parts of a ledger. It is a type of its own, since a fact beside a token of the ledger can't name
/// this number.
#[derive(Drop)]
pub struct PartCount<L: Ledger> {
    pub count: usize,
    of: PhantomData<L>,
    pub ghost all: { count ≡ L.parts },
    pub ghost some: { 0 < count },
}

impl<L: Ledger> PartCount<L> {
    /// Returns `count`, the number of the ledger's parts.
    pub(crate) fn new(count: usize) -> PartCount<L>
        requires all { count ≡ L.parts }
        requires some { 0 < count }
        ensures { result.count ≡ count }
    {
        PartCount {
            count,
            of: PhantomData,
        }
    }
}

/// The books of all receipts and of all call records, whose totals are equal.
#[derive(Drop)]
pub struct Count<L: Ledger, M: Ledger> {
    pub(crate) receipts: Book<L>,
    pub(crate) records: Book<M>,
    pub ghost equal: { receipts.total ≡ records.total },
}

impl<L: Ledger, M: Ledger> Count<L, M> {
    /// Returns two books whose totals are 0.
    pub(crate) fn new(receipts: Book<L>, records: Book<M>) -> Count<L, M>
        requires { (receipts.total ≡ 0) × (records.total ≡ 0) }
    {
        Count { receipts, records }
    }

    /// Counts one receipt and one record.
    pub(crate) fn add(&mut self, pass: &mut Share<L>, stripe: &mut Share<M>)
        requires { (0 < pass.old.parts) × (0 < stripe.old.parts) }
        ensures pass { (pass.new.parts ≡ pass.old.parts) × (pass.new.amount ≡ pass.old.amount + 1) }
        ensures stripe { (stripe.new.parts ≡ stripe.old.parts) × (stripe.new.amount ≡ stripe.old.amount + 1) }
    {
        let Count { receipts, records } = self;
        receipts.add(pass, 1);
        records.add(stripe, 1);
    }
}
