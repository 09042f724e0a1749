//! The stripes without their locks.
ghost use Rattle.scc_calls.specs.declared.fixed.Request.{Request};
ghost use Rattle.std.specs.List.{range_with_len};
ghost use Rattle.std.specs.Prelude.{◌≡◌, ◌+◌, ◌<◌, ◌≤◌, map, MatchOption, Some, slice_get, vec_len, [], vec_capacity, IfOk};

use crate::counted::{Count, CountedStripe, PartCount};
use crate::setups::Site;
use crate::{LockedStripe, Recorded};
use scc_calls::{Calls, Step};
use scc_history::{Histories, Stripe};
use std::alloc::{AllocError, Global};
use std::sync::ledger::Ledger;

/// The stripes of a container on which no call is made any more.
#[derive(Drop)]
pub struct Closed<C: Calls, L: Ledger, M: Site<C::Hasher>> {
    pub stripes: Vec<CountedStripe<C, M>>,
    pub hasher: C::Hasher,
    /// The number of passes that were handed out.
    pub passes: usize,
    pub(crate) count: Count<L, M>,
    pub(crate) alloc: Global,
    pub(crate) handed: PartCount<L>,
    pub(crate) stripe_count: PartCount<M>,
    pub ghost placed: { ∥ ((r : Request C.Hasher) × (M.chosen ≡ Some r) × (r.hasher ≡ hasher)) ∥₁ },
    pub ghost some: { 0 < vec_len stripes },
    pub ghost all: { vec_len stripes ≡ M.all },
    pub ghost handed_all: { handed.count ≡ passes },
    pub ghost stripe_count_all: { stripe_count.count ≡ vec_len stripes },
}

impl<C: Calls + Drop, L: Ledger, M: Site<C::Hasher>> Recorded<C, L, M>
where
    C::Hasher: Drop,
{
    /// Takes the stripes out of their locks, in the order of their numbers. Allocates nothing.
    pub fn close(self) -> Closed<C, L, M>
        ensures stripes { vec_len result.stripes ≡ self.stripes }
        ensures passes { result.passes ≡ self.passes }
        ensures hasher { result.hasher ≡ self.hasher }
        ensures numbers { map (λ s. s.stripe.number) result.stripes.items ≡ range_with_len 0 self.stripes }
    {
        let Recorded {
            stripes: _,
            locks,
            count,
            hasher,
            passes,
            alloc,
            room,
            handed,
            stripe_count,
        } = self;
        let mut locks = locks;
        let StripeRoom { list } = room.into_inner();
        let mut stripes = list;
        while !locks.is_empty() {
            stripes.push_reserved(locks.remove(0).into_stripe());
        }
        Closed {
            stripes,
            hasher,
            passes,
            count: count.into_inner(),
            alloc,
            handed,
            stripe_count,
        }
    }
}

impl<C: Calls, M: Site<C::Hasher>> LockedStripe<C, M> {
    /// Takes the stripe out of its lock. Nothing is known of what was behind a lock, so the stripe is given its number
    /// once more.
    fn into_stripe(self) -> CountedStripe<C, M>
        ensures { result.stripe.number ≡ self.number }
    {
        let LockedStripe { number, lock } = self;
        let mut counted = lock.into_inner();
        counted.stripe.number = number;
        counted
    }
}

impl<C: Calls, L: Ledger, M: Site<C::Hasher>> Closed<C, L, M> {
    /// Returns stripe `i`, or `None` if there is no such stripe.
    pub fn stripe(&self, i: usize) -> Option<&Stripe<C>>
        ensures { MatchOption result (vec_len self.now.stripes ≤ i)
            (λ s. slice_get (map (λ g. g.stripe) self.now.stripes.items) i ≡ Some s.now) }
    {
        if i < self.stripes.len() {
            Some(&self.stripes[i].stripe)
        } else {
            None
        }
    }
}

impl<C: Calls, M: Site<C::Hasher>> Histories for CountedStripe<C, M> {
    type Call = C::Call;

    type Reply = C::Reply;

    ghost history = { λ g. g.stripe.history.items };

    ghost last = { λ g. g.stripe.last };

    fn history(&self) -> &[Step<C::Call, C::Reply>] {
        self.stripe.history.as_slice()
    }
}

impl<C: Calls, M: Site<C::Hasher>> CountedStripe<C, M> {
    /// Returns the container, the history and the number of buckets at opening.
    pub(crate) fn into_parts(self) -> (C, Vec<Step<C::Call, C::Reply>>, usize)
        ensures { (result.0 ≡ self.stripe.container) × (result.1 ≡ self.stripe.history)
            × (result.2 ≡ self.stripe.opened) }
    {
        let CountedStripe { stripe, ledger: _ } = self;
        let Stripe {
            number: _,
            container,
            history,
            last: _,
            opened,
        } = stripe;
        (container, history, opened)
    }
}

// An empty list with room for all stripes. It is behind a lock, so that threads may share the container that holds it.
#[derive(Drop)]
pub struct StripeRoom<C: Calls, M: Site<C::Hasher>> {
    pub(crate) list: Vec<CountedStripe<C, M>>,
    pub ghost empty: { list.items ≡ [] },
    pub ghost reserved: { M.all ≤ vec_capacity list },
}

/// Returns an empty list with room for `count` items. Fails if memory is refused.
pub(crate) fn list_for<T>(alloc: Global, count: usize) -> Result<Vec<T>, AllocError>
    ensures { IfOk result (λ v. (v.items ≡ []) × (count ≤ vec_capacity v)) }
{
    Vec::with_capacity(alloc, count)
}
