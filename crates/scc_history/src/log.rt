//! What a caller keeps of its calls.
ghost use Rattle.scc_history.specs.Stamps.{RisesTo, RisesTo-prop};
ghost use Rattle.std.specs.Prelude.{◌≡◌, max, []};

use scc_calls::Calls;
use std::alloc::Global;
use std::fmt::Debug;

/// The number of a caller, the greatest stamp that it knows of, and its receipts in the order of its calls.
#[derive(Drop)]
pub struct Log<C: Calls> {
    pub number: usize,
    /// The clock. No receipt has a greater stamp.
    pub clock: u64,
    pub receipts: Vec<Receipt<C::Call, C::Reply>>,
    pub ghost rising: { RisesTo 0 receipts.items clock } by { RisesTo-prop 0 receipts.items clock },
}

impl<C: Calls> Log<C> {
    /// Returns a log without receipts, at clock 0.
    pub fn new(alloc: Global, number: usize) -> Log<C>
        ensures number { result.number ≡ number }
        ensures clock { result.clock ≡ 0 }
        ensures receipts { result.receipts.items ≡ [] }
    {
        Log {
            number,
            clock: 0,
            receipts: Vec::new(alloc),
        }
    }

    /// Raises the clock to the clock of `other` if that is greater. Later stamps of this log are then above all stamps
    /// of `other`.
    pub fn told(&mut self, other: &Log<C>)
        ensures clock { self.new.clock ≡ max self.old.clock other.now.clock }
        ensures same { (self.new.number ≡ self.old.number) × (self.new.receipts.items ≡ self.old.receipts.items) }
    {
        if self.clock < other.clock {
            self.clock = other.clock;
        }
    }
}

/// A call with its reply, and the stamp of its record.
#[derive(Clone, Copy, Debug, PartialEq)]
pub struct Receipt<A, R> {
    /// The number of the stripe on which the call was made.
    pub stripe: usize,
    pub stamp: u64,
    pub call: A,
    pub reply: R,
}
