//! What a caller holds.
ghost use Rattle.std.specs.Prelude.{◌≡◌, ◌+◌, ◌<◌, [], length, max};

use scc_calls::Calls;
use scc_history::{Log, Receipt};
use std::alloc::Global;
use std::sync::ledger::{Ledger, Share};

/// The right to call a recorded container, with the receipts of the calls that were made with it.
#[derive(Drop)]
pub struct Pass<C: Calls, L: Ledger> {
    pub log: Log<C>,
    pub(crate) ledger: Share<L>,
    pub ghost part: { ledger.parts ≡ 1 },
    pub ghost counted: { ledger.amount ≡ length log.receipts.items },
}

impl<C: Calls, L: Ledger> Pass<C, L> {
    /// Returns the number of the pass among the passes that were handed out with it, from 0.
    pub fn number(&self) -> usize
        ensures { result ≡ self.now.log.number }
    {
        self.log.number
    }

    /// Returns the greatest stamp that the pass knows of. Its next call gets a greater stamp.
    pub fn clock(&self) -> u64
        ensures { result ≡ self.now.log.clock }
    {
        self.log.clock
    }

    /// Returns the receipts of the pass, in the order of its calls.
    pub fn receipts(&self) -> &[Receipt<C::Call, C::Reply>]
        ensures { result.now ≡ self.now.log.receipts.items }
    {
        self.log.receipts.as_slice()
    }

    /// Raises the clock, so that later calls of this pass get stamps above all that `other` knows of.
    pub fn told(&mut self, other: &Pass<C, L>)
        ensures clock { self.new.log.clock ≡ max self.old.log.clock other.now.log.clock }
        ensures same { (self.new.log.number ≡ self.old.log.number)
            × (self.new.log.receipts.items ≡ self.old.log.receipts.items) }
    {
        self.log.told(&other.log);
    }

    /// Returns a pass without receipts, which takes one part of the ledger from `all`.
    pub(crate) fn open(alloc: Global, number: usize, all: &mut Share<L>) -> Pass<C, L>
        requires part { (0 < all.old.parts) × (all.old.amount ≡ 0) }
        ensures log { (result.log.number ≡ number) × (result.log.clock ≡ 0) × (result.log.receipts.items ≡ []) }
        ensures rest { (all.new.parts + 1 ≡ all.old.parts) × (all.new.amount ≡ 0) }
    {
        let log = Log::new(alloc, number);
        let ledger = all.split_off(1, 0);
        Pass { log, ledger }
    }
}
