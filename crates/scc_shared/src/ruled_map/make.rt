//! How a map under a rule is made of items.
ghost use Rattle.std.specs.Iterator.{Drains, IsFinite};
ghost use Rattle.std.specs.Prelude.{◌≡◌, List, length, IfOk};
ghost use Rattle.scc_common.specs.Rules.{AllKeep};
ghost use Rattle.scc_shared.specs.Stripes.{hasher_of, stripes_of};
ghost use Rattle.scc_stripes.specs.Sizes.{IsBitsAsked};
ghost use Rattle.scc_stripes.specs.Stripes.{stripe_bits};

use crate::ruled_map::RuledMap;
use scc_common::{MakeError, Rule};
use std::alloc::Global;
use std::hash::{BuildHasher, Hash};
use std::sync::Wait;

impl<K: Eq + Hash + Drop, V: Drop, R: Rule<K, V>, H: BuildHasher + Default + Drop> RuledMap<
    K,
    V,
    R,
    H,
> {
    /// Returns a map of `items`, each of which must keep the rule, upserted in their order, with a capacity for all of
    /// them. Fails if memory is refused; then the items are dropped. The iterator must end.
    pub fn try_from_iter<I: IntoIterator<Item = (K, V)>>(
        rt: &impl Wait,
        alloc: Global,
        items: I,
    ) -> Result<Self, MakeError>
        requires ends { (it : I.IntoIter) → I.into_iter_gives items it
            → I.IntoIter.can_next it × IsFinite (I.IntoIter.remaining it) }
        requires kept { (it : I.IntoIter) (xs : List (K × V)) → I.into_iter_gives items it
            → Drains I.IntoIter.next_gives it xs → AllKeep R.holds xs }
        ensures stripes { IfOk result (λ m. (it : I.IntoIter) × (xs : List (K × V)) × I.into_iter_gives items it
            × Drains I.IntoIter.next_gives it xs × IsBitsAsked (length xs) 1024 (stripe_bits (stripes_of m))) }
        ensures hasher { IfOk result (λ m. H.is_default (hasher_of m)) }
    {
        let Ok(pairs) = Vec::from_iter(alloc, items) else {
            return Err(MakeError);
        };
        let made = RuledMap::with_capacity_and_hasher(alloc, pairs.len(), H::default())?;
        if made.upsert_all(rt, pairs) {
            Ok(made)
        } else {
            Err(MakeError)
        }
    }

    /// Upserts the pairs in their order, up to the first for which memory is refused. Returns whether memory was
    /// refused for none.
    fn upsert_all(&self, rt: &impl Wait, pairs: Vec<(K, V)>) -> bool
        requires { AllKeep R.holds pairs.items }
    {
        for (k, v) in pairs {
            if self.upsert_sync(rt, k, v).is_err() {
                return false;
            }
        }
        true
    }
}
