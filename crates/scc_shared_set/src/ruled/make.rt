//! How a set under a rule is made of items.
ghost use Rattle.scc_shared_set.specs.KeyRules.{AllKeep};
ghost use Rattle.scc_shared_set.specs.Stripes.{hasher_of, stripes_of};
ghost use Rattle.scc_stripes.specs.Sizes.{IsBitsAsked};
ghost use Rattle.scc_stripes.specs.Stripes.{stripe_bits};
ghost use Rattle.std.specs.Iterator.{Drains, IsFinite};
ghost use Rattle.std.specs.Prelude.{◌≡◌, List, length, IfOk};

use crate::RuledSet;
use scc_common::{KeyError, MakeError, Rule};
use std::alloc::Global;
use std::hash::{BuildHasher, Hash};
use std::sync::Wait;

impl<K: Eq + Hash + Drop, R: Rule<K, ()>, H: BuildHasher + Default + Drop> RuledSet<K, R, H> {
    /// Returns a set of `items`, each of which must keep the rule, inserted in their order, so that the first of equal
    /// keys stays, with a capacity for all of them. Fails if memory is refused; then the items are dropped. The iterator
    /// must end.
    pub fn try_from_iter<I: IntoIterator<Item = K>>(
        rt: &impl Wait,
        alloc: Global,
        items: I,
    ) -> Result<Self, MakeError>
        requires ends { (it : I.IntoIter) → I.into_iter_gives items it
            → I.IntoIter.can_next it × IsFinite (I.IntoIter.remaining it) }
        requires kept { (it : I.IntoIter) (xs : List K) → I.into_iter_gives items it
            → Drains I.IntoIter.next_gives it xs → AllKeep R.holds xs }
        ensures stripes { IfOk result (λ s. (it : I.IntoIter) × (xs : List K) × I.into_iter_gives items it
            × Drains I.IntoIter.next_gives it xs × IsBitsAsked (length xs) 1024 (stripe_bits (stripes_of s))) }
        ensures hasher { IfOk result (λ s. H.is_default (hasher_of s)) }
    {
        let Ok(keys) = Vec::from_iter(alloc, items) else {
            return Err(MakeError);
        };
        let made = RuledSet::with_capacity_and_hasher(alloc, keys.len(), H::default())?;
        for k in keys {
            match made.insert_sync(rt, k) {
                Ok(()) => {}
                Err(KeyError::Exists(_)) => {}
                Err(KeyError::Memory(_)) => return Err(MakeError),
            }
        }
        Ok(made)
    }
}
