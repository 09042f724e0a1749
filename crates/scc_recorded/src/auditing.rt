//! The ledgers prove that there are as many call records as receipts.
ghost use Rattle.scc_history.specs.Stamps.{calls_in};
ghost use Rattle.std.specs.List.{sum_by};
ghost use Rattle.std.specs.Prelude.{◌≡◌, ◌+◌, ◌<◌, length};

use crate::closing::Closed;
use crate::counted::{Count, CountedStripe};
use crate::passes::Pass;
use crate::setups::Site;
use scc_calls::Calls;
use scc_history::count_calls;
use std::sync::ledger::{Book, Ledger, Share};

impl<C: Calls, L: Ledger, M: Site<C::Hasher>> Closed<C, L, M> {
    /// Proves by the ledgers that all passes together have as many receipts as all stripes have call records. Compares
    /// nothing and changes nothing. `finish` proves this too.
    pub fn audit(&mut self, passes: &mut [Pass<C, L>])
        requires { length passes.old ≡ self.old.passes }
        ensures equal { sum_by (λ s. calls_in s.stripe.history.items) self.old.stripes.items
            ≡ sum_by (λ p. length p.log.receipts.items) passes.old }
        ensures same { (self.new ≡ self.old) × (passes.new ≡ passes.old) }
    {
        let Closed {
            stripes,
            hasher: _,
            passes: _,
            count,
            alloc: _,
            handed: _,
            stripe_count: _,
        } = self;
        let Count { receipts, records } = count;
        Pass::audit_all(passes, receipts);
        CountedStripe::audit_all(stripes.as_mut_slice(), records);
    }
}

impl<C: Calls, L: Ledger> Pass<C, L> {
    /// Proves that the total of `book` is the number of all receipts.
    fn audit_all(passes: &mut [Pass<C, L>], book: &mut Book<L>)
        requires { (length passes.old ≡ L.parts) × (0 < L.parts) }
        ensures total { book.old.total ≡ sum_by (λ p. length p.log.receipts.items) passes.old }
        ensures same { (book.new.total ≡ book.old.total) × (passes.new ≡ passes.old) }
    {
        let first = &mut passes[0];
        let Pass { log: _, ledger } = first;
        let mut seen = ledger.empty();
        Pass::audit_from(passes, book, &mut seen);
    }

    /// Adds the share of each pass to `seen`, audits the book once all shares are there, and gives the shares back.
    fn audit_from(passes: &mut [Pass<C, L>], book: &mut Book<L>, seen: &mut Share<L>)
        requires parts { seen.old.parts + length passes.old ≡ L.parts }
        requires backed { (seen.old.parts ≡ 0) → (seen.old.amount ≡ 0) }
        ensures total { book.old.total ≡ seen.old.amount + sum_by (λ p. length p.log.receipts.items) passes.old }
        ensures same { (book.new.total ≡ book.old.total) × (seen.new.parts ≡ seen.old.parts)
            × (seen.new.amount ≡ seen.old.amount) }
        ensures passes { passes.new ≡ passes.old }
    {
        if passes.is_empty() {
            book.audit(seen);
            return;
        }
        let (front, rest) = passes.split_at_mut(1);
        let first = &mut front[0];
        let amount = first.log.receipts.len() as u64;
        let Pass { log: _, ledger } = first;
        ledger.give(seen, 1, amount);
        Pass::audit_from(rest, book, seen);
        seen.give(ledger, 1, amount);
    }
}

impl<C: Calls, M: Site<C::Hasher>> CountedStripe<C, M> {
    /// Proves that the total of `book` is the number of all call records.
    fn audit_all(stripes: &mut [CountedStripe<C, M>], book: &mut Book<M>)
        requires { (length stripes.old ≡ M.parts) × (0 < M.parts) }
        ensures total { book.old.total ≡ sum_by (λ s. calls_in s.stripe.history.items) stripes.old }
        ensures same { (book.new.total ≡ book.old.total) × (stripes.new ≡ stripes.old) }
    {
        let first = &mut stripes[0];
        let CountedStripe { stripe: _, ledger } = first;
        let mut seen = ledger.empty();
        CountedStripe::audit_from(stripes, book, &mut seen);
    }

    /// Adds the share of each stripe to `seen`, audits the book once all shares are there, and gives the shares back.
    fn audit_from(stripes: &mut [CountedStripe<C, M>], book: &mut Book<M>, seen: &mut Share<M>)
        requires parts { seen.old.parts + length stripes.old ≡ M.parts }
        requires backed { (seen.old.parts ≡ 0) → (seen.old.amount ≡ 0) }
        ensures total { book.old.total ≡ seen.old.amount + sum_by (λ s. calls_in s.stripe.history.items) stripes.old }
        ensures same { (book.new.total ≡ book.old.total) × (seen.new.parts ≡ seen.old.parts)
            × (seen.new.amount ≡ seen.old.amount) }
        ensures stripes { stripes.new ≡ stripes.old }
    {
        if stripes.is_empty() {
            book.audit(seen);
            return;
        }
        let (front, rest) = stripes.split_at_mut(1);
        let first = &mut front[0];
        let amount = count_calls(first.stripe.history.as_slice()) as u64;
        let CountedStripe { stripe: _, ledger } = first;
        ledger.give(seen, 1, amount);
        CountedStripe::audit_from(rest, book, seen);
        seen.give(ledger, 1, amount);
    }
}
