//! The entries of a set under a rule. An entry holds the lock of its stripe.
ghost use Rattle.std.specs.Prelude.{◌≡◌, List, IfSome, IsSomeAnd};
ghost use Rattle.std.specs.Fn.{CalledAt, TakesAt};
ghost use Rattle.scc_shared_set.specs.KeyRules.{AllKeep, TakesEach};
ghost use Rattle.scc_owned_set.specs.SetWalks.{Declines, PassesAt};
ghost use Rattle.scc_shared_set.specs.SetEntries.{occupied_key, occupied_front, occupied_stripe, HasLaterSeat, HasSeatIn, HasUniqueKeys, IsFirstOfStripe, IsLastOfStripe, IsNext, IsNextPastRemoved, HasSameRest};
ghost use Rattle.scc_shared_set.specs.Stripes.{stripes_of};
ghost use Rattle.scc_stripes.specs.Walks.{AreOfStripes};

use crate::ruled::OccupiedEntry;
use crate::{HeldKey, RuledSet};
use scc_common::Rule;
use std::hash::{BuildHasher, Hash};
use std::sync::Wait;

impl<K: Eq + Hash, R: Rule<K, ()>, H: BuildHasher> RuledSet<K, R, H> {
    /// Returns the entry of the first key of the first stripe that has a key, or `None` if no stripe has one.
    pub fn begin_sync(&self, rt: &impl Wait) -> Option<OccupiedEntry<'_, K, R, H>>
        ensures first { IfSome result IsFirstOfStripe }
        ensures unique { IfSome result (HasUniqueKeys K.eq) }
        ensures seat { IfSome result (HasSeatIn (stripes_of self.now)) }
    {
        match self.map.begin_sync(rt) {
            Some(entry) => Some(HeldKey { entry }),
            None => None,
        }
    }

    /// Returns the first entry on whose key `p` returns true, stripe after stripe, in the order of each stripe's list.
    /// Returns `None` if there is no such key.
    pub fn any_sync<P: FnMut(&K) -> bool>(
        &self,
        rt: &impl Wait,
        mut p: P,
    ) -> Option<OccupiedEntry<'_, K, R, H>>
        requires { TakesEach R.holds P.FnMut }
        ensures kept { IfSome result (λ o. R.holds (occupied_key o) tt) }
        ensures first { IfSome result (λ o. (ks : List K) × (q : P) × AllKeep R.holds ks
            × AllKeep R.holds (occupied_front o) × Declines (CalledAt P.FnMut) p ks q
            × PassesAt (CalledAt P.FnMut) q (occupied_front o) (occupied_key o)
            × AreOfStripes K.eq (λ k. k) (occupied_stripe o) ks) }
        ensures unique { IfSome result (HasUniqueKeys K.eq) }
        ensures seat { IfSome result (HasSeatIn (stripes_of self.now)) }
    {
        match self.map.any_sync(
            rt,
            move |key: &K, _value: &()| -> bool
                requires { TakesAt P.FnMut p key.now }
                ensures { CalledAt P.FnMut p.entry key.entry.now result p.exit }
            { p(key) },
        ) {
            Some(entry) => Some(HeldKey { entry }),
            None => None,
        }
    }
}

impl<'a, K: Eq + Hash, R: Rule<K, ()>, H: BuildHasher> HeldKey<
    scc_owned::ruled_map::locked::OccupiedEntry<'a, K, (), R, H>,
> {
    /// Returns the stored key, which keeps the rule.
    pub fn get(&self) -> &K
        ensures key { result.now ≡ occupied_key self.now }
        ensures kept { R.holds result.now tt }
    {
        self.entry.key()
    }

    /// Returns the number of the locked stripe.
    pub fn stripe(&self) -> usize
        ensures { result ≡ occupied_stripe self.now }
    {
        self.entry.stripe()
    }

    /// Removes the key, and returns it. Then the array of the stripe may shrink, and the lock is released.
    pub fn remove_entry(self) -> K
        ensures key { result ≡ occupied_key self.entry }
        ensures kept { R.holds result tt }
    {
        self.entry.remove_entry().0
    }

    /// Returns the next entry in the list of the stripe. If this entry is the last of its stripe, returns the first
    /// entry of a later stripe, or `None` if no later stripe has one. The lock of a stripe is released before the next
    /// stripe is locked. Resizes nothing.
    pub fn next_sync(self, rt: &impl Wait) -> Option<OccupiedEntry<'a, K, R, H>>
        ensures next { (IsLastOfStripe self.entry → ⊥) → IsSomeAnd result (IsNext self.entry) }
        ensures later { IsLastOfStripe self.entry → IfSome result IsFirstOfStripe }
        ensures stays { (IsLastOfStripe self.entry → ⊥) → IfSome result (HasSameRest self.entry) }
        ensures goes_on { IsLastOfStripe self.entry → IfSome result (HasLaterSeat self.entry) }
        ensures unique { IfSome result (HasUniqueKeys K.eq) }
    {
        match self.entry.next_sync(rt) {
            Some(entry) => Some(HeldKey { entry }),
            None => None,
        }
    }

    /// Removes the key, and returns it with the next entry in the list of the stripe. If the key was the last of its
    /// stripe, returns the first entry of a later stripe, or `None` if no later stripe has one. Resizes nothing.
    pub fn remove_and_sync(self, rt: &impl Wait) -> (K, Option<OccupiedEntry<'a, K, R, H>>)
        ensures key { result.0 ≡ occupied_key self.entry }
        ensures kept { R.holds result.0 tt }
        ensures next { (IsLastOfStripe self.entry → ⊥) → IsSomeAnd result.1 (IsNextPastRemoved self.entry) }
        ensures later { IsLastOfStripe self.entry → IfSome result.1 IsFirstOfStripe }
        ensures stays { (IsLastOfStripe self.entry → ⊥) → IfSome result.1 (HasSameRest self.entry) }
        ensures goes_on { IsLastOfStripe self.entry → IfSome result.1 (HasLaterSeat self.entry) }
        ensures unique { IfSome result.1 (HasUniqueKeys K.eq) }
    {
        let ((key, _), next) = self.entry.remove_and_sync(rt);
        match next {
            Some(entry) => (key, Some(HeldKey { entry })),
            None => (key, None),
        }
    }
}
