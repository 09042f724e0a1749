//! Calls on a whole set: comparing, cloning, making a set of items. They look at the stripes one after another.
ghost use Rattle.std.specs.Prelude.{◌≡◌, List, length, IfOk};
ghost use Rattle.std.specs.Iterator.{Drains, IsFinite};
ghost use Rattle.scc_common.specs.Rules.{ClonesKeep};
ghost use Rattle.scc_stripes.specs.Sizes.{IsBitsAsked};
ghost use Rattle.scc_stripes.specs.Stripes.{stripe_bits};
ghost use Rattle.scc_shared_set.specs.Stripes.{hasher_of, stripes_of};

use super::{HashSet, KeySet};
use scc_common::{KeyError, MakeError};
use scc_shared::Paired;
use std::alloc::Global;
use std::hash::{BuildHasher, Hash};
use std::sync::Wait;

impl<E: Paired, H: BuildHasher> KeySet<E, H>
where
    E::Key: Eq + Hash,
    E::Value: PartialEq,
{
    /// Returns whether each key of either set has an equal key in the other set. Each stripe is looked at as it is at
    /// that moment. One stripe of each set is locked at a time, for reading. A set may be compared with itself.
    pub fn eq_sync(&self, rt: &impl Wait, other: &Self) -> bool {
        self.map.eq_sync(rt, &other.map)
    }
}

impl<E: Paired + Drop, H: BuildHasher + Drop> KeySet<E, H>
where
    E::Key: Eq + Hash + Clone + Drop,
    E::Value: Clone + Drop,
{
    /// Returns a set with clones of the keys that each stripe holds when it is looked at, under the same hasher. It
    /// asks for the capacity of this set. One stripe of this set is locked at a time, for reading. The new stripes get
    /// their locks after the last clone. Under a rule, a clone of a key must keep it. Fails if memory is refused, if a
    /// clone fails, or if two clones are equal.
    pub fn try_clone(&self, rt: &impl Wait) -> Result<Self, MakeError>
        requires { ClonesKeep E.allows E.Key.is_clone E.Value.is_clone }
        ensures hasher { IfOk result (λ s. hasher_of s ≡ hasher_of self.now) }
    {
        match self.map.try_clone(rt) {
            Ok(map) => Ok(KeySet { map }),
            Err(e) => Err(e),
        }
    }
}

impl<K: Eq + Hash + Drop, H: BuildHasher + Default + Drop> HashSet<K, H> {
    /// Returns a set of `items`, inserted in their order, so that the first of equal keys stays, with a capacity for
    /// all of them. Fails if memory is refused; then the items are dropped. The iterator must end.
    pub fn try_from_iter<I: IntoIterator<Item = K>>(
        rt: &impl Wait,
        alloc: Global,
        items: I,
    ) -> Result<Self, MakeError>
        requires { (it : I.IntoIter) → I.into_iter_gives items it
            → I.IntoIter.can_next it × IsFinite (I.IntoIter.remaining it) }
        ensures stripes { IfOk result (λ s. (it : I.IntoIter) × (xs : List K) × I.into_iter_gives items it
            × Drains I.IntoIter.next_gives it xs × IsBitsAsked (length xs) 1024 (stripe_bits (stripes_of s))) }
        ensures hasher { IfOk result (λ s. H.is_default (hasher_of s)) }
    {
        let Ok(keys) = Vec::from_iter(alloc, items) else {
            return Err(MakeError);
        };
        let made = HashSet::with_capacity_and_hasher(alloc, keys.len(), H::default())?;
        for k in keys {
            match made.insert_sync(rt, k) {
                Ok(()) => {}
                Err(KeyError::Exists(_)) => {}
                Err(KeyError::Memory(_)) => return Err(MakeError),
            }
        }
        Ok(made)
    }
}
