// Recorded containers of one pass, which are opened again until memory isn't refused, and what is tried with them.
ghost use Rattle.std.specs.Prelude.{◌≡◌, Some};
ghost use Rattle.scc_recorded.specs.Setups.{AreWide, IsStripes, request_of};

use crate::expect::expect;
use scc::recorded::{Calls, CloneOwner, Pass, Recorded, Setup, Shared, Site};
use std::io::Print;
use std::marker::Brand;
use std::process::Abort;
use std::sync::ledger::{Blank, Ledger};
use std::sync::{Arc, Wait};
use test_kit::refusals::{Refusal, TRIES};
use test_kit::zero::Zero;

/// What is tried with a recorded container of a kind.
pub(crate) trait Trial<C: Calls + Drop> {
    /// Returns the hasher that the container is made with.
    fn hasher(hasher: Shared<Zero>) -> C::Hasher;

    /// Takes the container with its only pass, and tries it. A trait's method can't be proved if it is handed such a
    /// container by value.
    fn run<L: Ledger, M: Site<C::Hasher>, R: AllocGlobal + Abort + Print + Wait>(
        rt: &R,
        refusal: &mut Refusal,
        opened: &mut Option<(Recorded<C, L, M>, Vec<Pass<C, L>>)>,
    );
}

/// What is tried with a recorded container that is lent, and with each of its passes. A cache of texts has so many types
/// that the borrow check covers no `run` of `Trial` that takes one.
pub(crate) trait LentTrial<C: Calls + Drop> {
    /// Returns the hasher that the container is made with.
    fn hasher(hasher: Shared<Zero>) -> C::Hasher;

    /// Tries the container.
    fn run<L: Ledger, M: Site<C::Hasher>, R: AllocGlobal + Abort + Print + Wait>(
        rt: &R,
        refusal: &mut Refusal,
        recorded: &Recorded<C, L, M>,
        pass: &mut Pass<C, L>,
    );
}

/// The trial that lends the container to another one.
pub(crate) struct Lends<T> {
    _lent: T,
}

impl<C: Calls + Drop, T: LentTrial<C>> Trial<C> for Lends<T> {
    fn hasher(hasher: Shared<Zero>) -> C::Hasher {
        T::hasher(hasher)
    }

    fn run<L: Ledger, M: Site<C::Hasher>, R: AllocGlobal + Abort + Print + Wait>(
        rt: &R,
        refusal: &mut Refusal,
        opened: &mut Option<(Recorded<C, L, M>, Vec<Pass<C, L>>)>,
    ) {
        match opened {
            Some((recorded, passes)) => {
                for pass in passes.as_mut_slice() {
                    T::run(rt, refusal, recorded, pass);
                }
            }
            None => expect(rt, false),
        }
    }
}

/// Returns one owner of the hasher, or `None` if memory is refused each time.
fn shared<R: AllocGlobal + Print>(rt: &R, refusal: &mut Refusal) -> Option<Shared<Zero>> {
    for _ in 0..TRIES {
        match Arc::new(rt.alloc(), Zero) {
            Ok(owner) => return Some(Shared::new(owner)),
            Err(_) => refusal.meet(rt, "a shared hasher"),
        }
    }
    None
}

/// Opens a container and tries it. Returns whether it could be opened.
fn open_and_run<
    C: Calls + Drop,
    T: Trial<C>,
    L: Ledger,
    M: Site<C::Hasher>,
    R: AllocGlobal + Abort + Print + Wait,
>(
    rt: &R,
    refusal: &mut Refusal,
    setup: Setup<C::Hasher>,
    stripes: usize,
    receipts: Blank,
    records: Blank,
) -> bool
where
    C::Hasher: CloneOwner + Drop,
    requires receipts { (receipts.name ≡ L.name) × (receipts.parts ≡ L.parts) × (receipts.parts ≡ 1) }
    requires records { (records.name ≡ M.name) × (records.parts ≡ M.parts) × (records.parts ≡ stripes) }
    requires site { (M.chosen ≡ Some (request_of setup.capacity setup.maximum setup.hasher stripes)) × (M.all ≡ stripes) }
    requires stripes { IsStripes stripes }
    requires wide { AreWide C.limits setup.capacity setup.maximum stripes }
{
    match Recorded::<C, L, M>::open(rt.alloc(), setup, stripes, 1, receipts, records) {
        Ok(opened) => {
            T::run(rt, refusal, &mut Some(opened));
            true
        }
        Err(_) => false,
    }
}

/// Opens a container whose hasher has several owners, and tries it. Returns whether it could be opened.
fn attempt<C: Calls + Drop, T: Trial<C>, R: AllocGlobal + Abort + Print + Wait>(
    rt: &R,
    refusal: &mut Refusal,
    what: &str,
    slots: (usize, usize),
    stripes: usize,
) -> bool
where
    C::Hasher: CloneOwner + Drop,
    requires stripes { IsStripes stripes }
    requires wide { AreWide C.limits slots.0 slots.1 stripes }
{
    let Some(owner) = shared(rt, refusal) else {
        return false;
    };
    let setup = Setup {
        capacity: slots.0,
        maximum: slots.1,
        hasher: T::hasher(owner),
    };
    let records = Blank::new(stripes as u64);
    let is_open = open_and_run::<C, T, Brand, Brand, R>(
        rt,
        refusal,
        setup,
        stripes,
        Blank::new(1),
        records,
    );
    if !is_open {
        refusal.meet(rt, what);
    }
    is_open
}

/// Opens a container for so many slots, and with so many at most if it is a cache, until it isn't refused. Then tries
/// it. A refusal is told as that of `what`.
pub(crate) fn outlast<C: Calls + Drop, T: Trial<C>, R: AllocGlobal + Abort + Print + Wait>(
    rt: &R,
    what: &str,
    slots: (usize, usize),
    stripes: usize,
)
where
    C::Hasher: CloneOwner + Drop,
    requires stripes { IsStripes stripes }
    requires wide { AreWide C.limits slots.0 slots.1 stripes }
{
    let mut refusal = Refusal::new();
    for _ in 0..TRIES {
        if attempt::<C, T, R>(rt, &mut refusal, what, slots, stripes) {
            return;
        }
    }
    expect(rt, false);
}
