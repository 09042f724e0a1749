//! How a recorded container is opened.
ghost use Rattle.scc_recorded.specs.Setups.{AreWide, IsStripes, request_of};
ghost use Rattle.std.specs.List.{AllByRecursion, range_with_len};
ghost use Rattle.std.specs.Prelude.{◌≡◌, ◌+◌, ◌<◌, ◌≤◌, [], IfOk, Some, map, vec_len};

use crate::closing::{StripeRoom, list_for};
use crate::counted::{Count, CountedStripe, PartCount};
use crate::passes::Pass;
use crate::setups::{Setup, Site, bits_among, share_among};
use crate::{LockedStripe, Recorded};
use scc_calls::Calls;
use scc_common::{CloneOwner, MakeError};
use std::alloc::Global;
use std::sync::Mutex;
use std::sync::ledger::{Blank, Ledger, Share as Part};

impl<C: Calls + Drop, L: Ledger, M: Site<C::Hasher>> Recorded<C, L, M>
where
    C::Hasher: CloneOwner + Drop,
{
    /// Returns an empty container in `stripes` stripes, and `passes` passes, numbered from 0.
    ///
    /// The slots and the maximum are divided evenly among the stripes; there mustn't be more stripes than get 64 slots
    /// each. Fails if memory is refused, or if the hasher can't be shared with one more owner.
    pub fn open(
        alloc: Global,
        setup: Setup<C::Hasher>,
        stripes: usize,
        passes: usize,
        receipts: Blank,
        records: Blank,
    ) -> Result<(Recorded<C, L, M>, Vec<Pass<C, L>>), MakeError>
        requires receipts { (receipts.name ≡ L.name) × (receipts.parts ≡ L.parts) × (receipts.parts ≡ passes) }
        requires records { (records.name ≡ M.name) × (records.parts ≡ M.parts) × (records.parts ≡ stripes) }
        requires site { M.chosen ≡ Some (request_of setup.capacity setup.maximum setup.hasher stripes) }
        requires all { M.all ≡ stripes }
        requires stripes { IsStripes stripes }
        requires wide { AreWide C.limits setup.capacity setup.maximum stripes }
        requires passes { 0 < passes }
        ensures stripes { IfOk result (λ r. (r.0.stripes ≡ stripes) × (r.0.passes ≡ passes)
            × (r.0.hasher ≡ setup.hasher)) }
        ensures numbers { IfOk result (λ r. map (λ p. p.log.number) r.1.items ≡ range_with_len 0 passes) }
        ensures new { IfOk result (λ r. AllByRecursion (λ p. (p.log.clock ≡ 0) × (p.log.receipts.items ≡ []))
            r.1.items) }
    {
        let (book, mut all) = receipts.open::<L>();
        let (other, rest) = records.open::<M>();
        let handed = pass_all(alloc, passes, &mut all)?;
        let slots = share_among(setup.capacity, stripes);
        let maximum = share_among(setup.maximum, stripes);
        let hasher = setup.hasher;
        let locks = lock_all(
            alloc,
            bits_among(stripes),
            slots,
            maximum,
            stripes,
            &hasher,
            rest,
        )?;
        let Ok(list) = list_for(alloc, stripes) else {
            return Err(MakeError);
        };
        let recorded = Recorded {
            stripes,
            passes,
            locks,
            count: Mutex::new(Count::new(book, other)),
            hasher,
            alloc,
            room: Mutex::new(StripeRoom { list }),
            handed: PartCount::new(passes),
            stripe_count: PartCount::new(stripes),
        };
        Ok((recorded, handed))
    }
}

/// Returns `passes` passes without receipts, numbered from 0. Fails if memory is refused.
fn pass_all<C: Calls, L: Ledger>(
    alloc: Global,
    passes: usize,
    all: &mut Part<L>,
) -> Result<Vec<Pass<C, L>>, MakeError>
    requires part { (all.old.parts ≡ passes) × (all.old.amount ≡ 0) }
    ensures numbers { IfOk result (λ v. map (λ p. p.log.number) v.items ≡ range_with_len 0 passes) }
    ensures new { IfOk result (λ v. AllByRecursion (λ p. (p.log.clock ≡ 0) × (p.log.receipts.items ≡ [])) v.items) }
{
    let mut handed = Vec::new(alloc);
    if handed.reserve(passes).is_err() {
        return Err(MakeError);
    }
    for number in 0..passes {
        let pass = Pass::open(alloc, number, all);
        handed.push_reserved(pass);
    }
    Ok(handed)
}

/// Returns `stripes` empty stripes, each behind a lock. Fails if memory is refused, or if the hasher can't be shared
/// with one more owner.
fn lock_all<C: Calls + Drop, M: Site<C::Hasher>>(
    alloc: Global,
    skipped: u32,
    slots: usize,
    maximum: usize,
    stripes: usize,
    hasher: &C::Hasher,
    rest: Part<M>,
) -> Result<Vec<LockedStripe<C, M>>, MakeError>
where
    C::Hasher: CloneOwner + Drop,
    requires site { M.chosen ≡ Some (record {
      hasher = hasher.now;
      skipped = skipped;
      slots = slots;
      maximum = maximum;
    }) }
    requires skipped { skipped ≤ 4 }
    requires part { (rest.parts ≡ stripes) × (rest.amount ≡ 0) }
    ensures len { IfOk result (λ v. vec_len v ≡ stripes) }
    ensures numbers { IfOk result (λ v. map (λ l. l.number) v.items ≡ range_with_len 0 stripes) }
{
    let mut rest = rest;
    let mut locks = Vec::new(alloc);
    for number in 0..stripes {
        let Ok(shared) = hasher.clone_owner() else {
            return Err(MakeError);
        };
        let guarded = CountedStripe::open(
            alloc, number, skipped, slots, maximum, shared, &mut rest,
        )?;
        let lock = Mutex::new(guarded);
        if locks.push(LockedStripe { number, lock }).is_err() {
            return Err(MakeError);
        }
    }
    Ok(locks)
}
