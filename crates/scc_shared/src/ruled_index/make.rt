//! How a index under a rule is made of items.
ghost use Rattle.std.specs.Iterator.{Drains, IsFinite};
ghost use Rattle.std.specs.Prelude.{◌≡◌, List, length, IfOk};
ghost use Rattle.scc_common.specs.Rules.{AllKeep};
ghost use Rattle.scc_shared.specs.Stripes.{hasher_of, stripes_of};
ghost use Rattle.scc_stripes.specs.Sizes.{IsBitsAsked};
ghost use Rattle.scc_stripes.specs.Stripes.{stripe_bits};

use crate::ruled_index::RuledIndex;
use scc_common::{InsertError, MakeError, Rule};
use std::alloc::Global;
use std::hash::{BuildHasher, Hash};
use std::sync::Wait;

impl<K: Eq + Hash + Drop, V: Drop, R: Rule<K, V>, H: BuildHasher + Default + Drop> RuledIndex<
    K,
    V,
    R,
    H,
> {
    /// Returns an index of `items`, each of which must keep the rule, inserted in their order, so that the first of equal
    /// keys stays, with a capacity for all of them. Fails if memory is refused; then the items are dropped. The iterator
    /// must end.
    pub fn try_from_iter<I: IntoIterator<Item = (K, V)>>(
        rt: &impl Wait,
        alloc: Global,
        items: I,
    ) -> Result<Self, MakeError>
        requires ends { (it : I.IntoIter) → I.into_iter_gives items it
            → I.IntoIter.can_next it × IsFinite (I.IntoIter.remaining it) }
        requires kept { (it : I.IntoIter) (xs : List (K × V)) → I.into_iter_gives items it
            → Drains I.IntoIter.next_gives it xs → AllKeep R.holds xs }
        ensures stripes { IfOk result (λ m. (it : I.IntoIter) × (xs : List (K × V)) × I.into_iter_gives items it
            × Drains I.IntoIter.next_gives it xs × IsBitsAsked (length xs) 1024 (stripe_bits (stripes_of m))) }
        ensures hasher { IfOk result (λ m. H.is_default (hasher_of m)) }
    {
        let Ok(pairs) = Vec::from_iter(alloc, items) else {
            return Err(MakeError);
        };
        let made = RuledIndex::with_capacity_and_hasher(alloc, pairs.len(), H::default())?;
        for (k, v) in pairs {
            match made.insert_sync(rt, k, v) {
                Ok(()) => {}
                Err(InsertError::Exists(_)) => {}
                Err(InsertError::Memory(_)) => return Err(MakeError),
            }
        }
        Ok(made)
    }
}
