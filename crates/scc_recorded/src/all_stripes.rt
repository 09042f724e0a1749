//! Calls on every stripe, one after another.
ghost use Rattle.scc_calls.specs.Copies.{ClonesEqual};
ghost use Rattle.scc_recorded.specs.Adds.{Adds, IsOf, number_or_zero};
ghost use Rattle.std.specs.List.{sum_by};
ghost use Rattle.std.specs.Prelude.{◌≡◌, ℕ, ◌<◌, Err, OnOk, OnErr, IfOk, min, length, drop};

use crate::Recorded;
use crate::passes::Pass;
use crate::setups::Site;
use scc_calls::WholeCalls;
use scc_history::{CallError, Receipt};
use std::sync::Wait;
use std::sync::ledger::Ledger;

impl<C: WholeCalls, L: Ledger, M: Site<C::Hasher>> Recorded<C, L, M> {
    /// Clears all stripes, stripe 0 first. Each stripe has a call, a stamp and a receipt of its own.
    ///
    /// Fails only with `Room`: if memory for a record, a receipt or a clone of the call is refused, or if no stamp is
    /// left. Then the stripes that were called before are cleared and recorded, and their receipts are in the pass.
    pub fn clear<R: Wait>(&self, rt: &R, pass: &mut Pass<C, L>) -> Result<(), CallError>
        requires calls { ClonesEqual C.Call.is_clone C.Call.eq }
        requires replies { ClonesEqual C.Reply.is_clone C.Reply.eq }
        ensures number { pass.new.log.number ≡ pass.old.log.number }
        ensures ok { OnOk result (Adds (IsOf C.Call.is_clone C.means C.clears) pass.old.log.clock pass.new.log.clock
            self.now.stripes pass.old.log.receipts.items pass.new.log.receipts.items) }
        ensures err { OnErr result ((n : ℕ) × (n < self.now.stripes)
            × Adds (IsOf C.Call.is_clone C.means C.clears) pass.old.log.clock pass.new.log.clock n
            pass.old.log.receipts.items pass.new.log.receipts.items) }
        ensures room { result ≡ Err CallError.Container → ⊥ }
    {
        for i in 0..self.stripes {
            let cleared = self.locked_stripe(i);
            if let Err(error) = cleared.call_locked(rt, pass, &self.count, C::clear_call()) {
                return Err(error);
            }
        }
        Ok(())
    }

    /// Returns the sum of the entries of all stripes, at most `usize::MAX`. The stripes are counted one after another;
    /// each has a call, a stamp and a receipt of its own.
    ///
    /// Fails only with `Room`: if memory for a record, a receipt or a clone of the call is refused, or if no stamp is
    /// left. Then the stripes that were called before are counted and recorded, and their receipts are in the pass.
    pub fn len<R: Wait>(&self, rt: &R, pass: &mut Pass<C, L>) -> Result<usize, CallError>
        requires calls { ClonesEqual C.Call.is_clone C.Call.eq }
        requires replies { ClonesEqual C.Reply.is_clone C.Reply.eq }
        ensures number { pass.new.log.number ≡ pass.old.log.number }
        ensures ok { OnOk result (Adds (IsOf C.Call.is_clone C.means C.counts) pass.old.log.clock pass.new.log.clock
            self.now.stripes pass.old.log.receipts.items pass.new.log.receipts.items) }
        ensures err { OnErr result ((n : ℕ) × (n < self.now.stripes)
            × Adds (IsOf C.Call.is_clone C.means C.counts) pass.old.log.clock pass.new.log.clock n
            pass.old.log.receipts.items pass.new.log.receipts.items) }
        ensures room { result ≡ Err CallError.Container → ⊥ }
        ensures sum { IfOk result (λ n. n ≡ min 18446744073709551615
            (sum_by (λ r. number_or_zero (C.counted r.reply))
            (drop (length pass.old.log.receipts.items) pass.new.log.receipts.items))) }
    {
        let before = pass.log.receipts.len();
        for i in 0..self.stripes {
            let counted = self.locked_stripe(i);
            if let Err(error) = counted.call_locked(rt, pass, &self.count, C::len_call()) {
                return Err(error);
            }
        }
        Ok(sum_of::<C>(&pass.log.receipts[before..]))
    }
}

/// Returns the sum of the numbers in the replies of `receipts`, at most `usize::MAX`.
fn sum_of<C: WholeCalls>(receipts: &[Receipt<C::Call, C::Reply>]) -> usize
    ensures { result ≡ min 18446744073709551615 (sum_by (λ r. number_or_zero (C.counted r.reply)) receipts.now) }
{
    let mut sum: usize = 0;
    for receipt in receipts {
        sum = sum.saturating_add(C::counted(&receipt.reply).unwrap_or(0));
    }
    sum
}
