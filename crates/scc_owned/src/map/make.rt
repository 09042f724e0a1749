//! How a map is made from items.
ghost use Rattle.scc_common.specs.Contents.{entries, hash_in, settings_of};
ghost use Rattle.scc_common.specs.Pairs.{IsUnique};
ghost use Rattle.scc_owned.specs.MapCollections.{FindsItems, IsCollected, UpsertsAll};
ghost use Rattle.std.specs.Iterator.{Drains, IsFinite};
ghost use Rattle.std.specs.Prelude.{List, IfOk, OnOk};

use crate::Map;
use scc_common::{Hashes, MakeError};
use std::alloc::Global;
use std::hash::{BuildHasher, Hash};

impl<K: Eq + Hash, V, H: BuildHasher> Map<K, V, H> {
    /// Returns a map of the items, upserted in their order, so that the last value of a key wins. The array is made
    /// for one pair an item; without items there is no array. Fails if memory is refused, and then drops the items.
    /// The iterator must end.
    pub fn try_from_iter<I: IntoIterator<Item = (K, V)>>(
        alloc: Global,
        items: I,
    ) -> Result<Self, MakeError>
    where
        K: Drop,
        V: Drop,
        H: Default + Drop,
        requires { (it : I.IntoIter) → I.into_iter_gives items it
            → I.IntoIter.can_next it × IsFinite (I.IntoIter.remaining it) }
        ensures items { IfOk result (λ m. (it : I.IntoIter) × (xs : List (K × V)) × I.into_iter_gives items it
            × Drains I.IntoIter.next_gives it xs × IsCollected K.eq (hash_in ⟦<H as Hashes<K>>⟧.hash_of) xs m
            × FindsItems K.eq xs (entries m)) }
        ensures hasher { IfOk result (λ m. H.is_default (settings_of m).hasher) }
        ensures unique { IfOk result (λ m. IsUnique K.eq m) }
    {
        let Ok(pairs) = Vec::from_iter(alloc, items) else {
            return Err(MakeError);
        };
        let mut made = Map::with_capacity_and_hasher(alloc, pairs.len(), H::default())?;
        made.upsert_all(pairs)?;
        Ok(made)
    }

    /// Upserts the pairs in their order. Stops with an error at the first pair for which memory is refused.
    fn upsert_all(&mut self, pairs: Vec<(K, V)>) -> Result<(), MakeError>
    where
        K: Drop,
        V: Drop,
        ensures { OnOk result (UpsertsAll K.eq (hash_in ⟦<H as Hashes<K>>⟧.hash_of) self.old pairs.items self.new) }
    {
        for (k, v) in pairs {
            match self.upsert_sync(k, v) {
                Ok(_) => {}
                Err(_) => return Err(MakeError),
            }
        }
        Ok(())
    }
}
