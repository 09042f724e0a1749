//! Calls on a whole cache: comparing, making a cache of items. They look at the stripes one after another.
ghost use Rattle.std.specs.Prelude.{◌<◌, List, length, IfOk};
ghost use Rattle.std.specs.Iterator.{Drains, IsFinite};
ghost use Rattle.scc_shared_cache.specs.Stripes.{hasher_of, stripes_of};
ghost use Rattle.scc_common.specs.Rules.{AllKeep};
ghost use Rattle.scc_stripes.specs.Sizes.{IsBitsAsked};
ghost use Rattle.scc_stripes.specs.Stripes.{stripe_bits, stripe_count};

use crate::{HashCache, RuledCache, SharedCache};
use scc_common::{InsertError, MakeError, Rule};
use std::alloc::Global;
use std::cell::Cell;
use std::hash::{BuildHasher, Hash};
use std::sync::Wait;

impl<K: Eq + Hash, V: PartialEq, R: Rule<K, V>, H: BuildHasher> SharedCache<K, V, R, H> {
    /// Returns whether each pair of either cache has an equal key with an equal value in the other cache. Each stripe
    /// is looked at as it is at that moment. One stripe of each cache is locked at a time, for reading. A cache may be
    /// compared with itself. Neither the order of the pairs nor the maximum matters, and nothing is refreshed.
    pub fn eq_sync(&self, rt: &impl Wait, other: &Self) -> bool {
        self.is_within(rt, other) && other.is_within(rt, self)
    }

    /// Returns whether each pair of this cache has an equal key with an equal value in `other`.
    fn is_within(&self, rt: &impl Wait, other: &Self) -> bool {
        for stripe in 0..self.stripes.stripes() {
            if !self.is_stripe_within(rt, stripe, other) {
                return false;
            }
        }
        true
    }

    /// Returns whether each pair of stripe `stripe` is in `other`. It never waits while it holds that stripe. If a
    /// stripe of `other` can't be read at once, it releases its own stripe, waits for the stripe of `other`, and
    /// begins again.
    fn is_stripe_within(&self, rt: &impl Wait, stripe: usize, other: &Self) -> bool
        requires { stripe < stripe_count self.now.stripes }
    {
        for _ in rt.forever() {
            let busy = Cell::new(None);
            let within = self
                .stripes
                .read(rt, stripe)
                .iter_lent(&mut |k, v| other.has_pair(&busy, k, v));
            match busy.get() {
                None => return within,
                Some(there) => other.wait_until_readable(rt, there),
            }
        }
        unreachable!()
    }

    /// Returns whether `k` is in this cache with a value that equals `v`. If the stripe of `k` can't be read at once,
    /// writes the number of that stripe to `busy` and returns false.
    fn has_pair(&self, busy: &Cell<Option<usize>>, k: &K, v: &V) -> bool {
        let stripe = self.stripes.route(k);
        match self.stripes.try_read(stripe) {
            Some(guard) => match guard.read_sync(k, |_, w| *w == *v) {
                Some(same) => same,
                None => false,
            },
            None => {
                busy.set(Some(stripe));
                false
            }
        }
    }

    /// Waits until stripe `stripe` can be read. Returns at once if there is no such stripe.
    fn wait_until_readable(&self, rt: &impl Wait, stripe: usize) {
        if stripe < self.stripes.stripes() {
            let _readable = self.stripes.read(rt, stripe);
        }
    }
}

impl<K: Eq + Hash, V, R: Rule<K, V>, H: BuildHasher> SharedCache<K, V, R, H> {
    /// Puts in the pairs in their order, and drops those whose key is there. Stops at the first pair for which memory
    /// is refused. Returns whether memory was refused for none.
    fn put_all(&self, rt: &impl Wait, pairs: Vec<(K, V)>) -> bool
    where
        K: Drop,
        V: Drop,
        requires { AllKeep R.holds pairs.items }
    {
        for (k, v) in pairs {
            match self.put_sync(rt, k, v) {
                Ok(_evicted) => {}
                Err(InsertError::Exists(_pair)) => {}
                Err(InsertError::Memory(_pair)) => return false,
            }
        }
        true
    }
}

impl<K: Eq + Hash + Drop, V: Drop, H: BuildHasher + Default + Drop> HashCache<K, V, H> {
    /// Returns a cache of `items`, put in their order, so that the first value of a key stays unless its pair is
    /// evicted in between. Capacity and maximum are the number of items. Fails if memory is refused; then the items
    /// are dropped. The iterator must end.
    pub fn try_from_iter<I: IntoIterator<Item = (K, V)>>(
        rt: &impl Wait,
        alloc: Global,
        items: I,
    ) -> Result<Self, MakeError>
        requires { (it : I.IntoIter) → I.into_iter_gives items it
            → I.IntoIter.can_next it × IsFinite (I.IntoIter.remaining it) }
        ensures stripes { IfOk result (λ c. (it : I.IntoIter) × (xs : List (K × V)) × I.into_iter_gives items it
            × Drains I.IntoIter.next_gives it xs × IsBitsAsked (length xs) (length xs) (stripe_bits (stripes_of c))) }
        ensures hasher { IfOk result (λ c. H.is_default (hasher_of c)) }
    {
        let Ok(pairs) = Vec::from_iter(alloc, items) else {
            return Err(MakeError);
        };
        let count = pairs.len();
        let made = HashCache::with_capacity_and_hasher(alloc, count, count, H::default())?;
        if made.put_all(rt, pairs) {
            Ok(made)
        } else {
            Err(MakeError)
        }
    }
}

impl<K: Eq + Hash + Drop, V: Drop, R: Rule<K, V>, H: BuildHasher + Default + Drop> RuledCache<
    K,
    V,
    R,
    H,
> {
    /// Returns a cache of `items`, each of which must keep the rule, put in their order, so that the first value of a
    /// key stays unless its pair is evicted in between. Capacity and maximum are the number of items. Fails if memory
    /// is refused; then the items are dropped. The iterator must end.
    pub fn try_from_iter<I: IntoIterator<Item = (K, V)>>(
        rt: &impl Wait,
        alloc: Global,
        items: I,
    ) -> Result<Self, MakeError>
        requires ends { (it : I.IntoIter) → I.into_iter_gives items it
            → I.IntoIter.can_next it × IsFinite (I.IntoIter.remaining it) }
        requires kept { (it : I.IntoIter) (xs : List (K × V)) → I.into_iter_gives items it
            → Drains I.IntoIter.next_gives it xs → AllKeep R.holds xs }
        ensures stripes { IfOk result (λ c. (it : I.IntoIter) × (xs : List (K × V)) × I.into_iter_gives items it
            × Drains I.IntoIter.next_gives it xs × IsBitsAsked (length xs) (length xs) (stripe_bits (stripes_of c))) }
        ensures hasher { IfOk result (λ c. H.is_default (hasher_of c)) }
    {
        let Ok(pairs) = Vec::from_iter(alloc, items) else {
            return Err(MakeError);
        };
        let count = pairs.len();
        let made = RuledCache::with_capacity_and_hasher(alloc, count, count, H::default())?;
        if made.put_all(rt, pairs) {
            Ok(made)
        } else {
            Err(MakeError)
        }
    }
}
