//! How an index is made from items.
ghost use Rattle.scc_common.specs.Contents.{entries, hash_in, settings_of};
ghost use Rattle.scc_common.specs.Pairs.{IsUnique};
ghost use Rattle.scc_owned.specs.IndexCollections.{FindsFirst, InsertsAll, IsCollected, StopsAt};
ghost use Rattle.std.specs.Iterator.{Drains, IsFinite};
ghost use Rattle.std.specs.Prelude.{List, IfOk, IfErr, OnOk};

use crate::Index;
use scc_common::{Hashes, InsertError, MakeError};
use std::alloc::Global;
use std::hash::{BuildHasher, Hash};

impl<K: Eq + Hash, V, H: BuildHasher> Index<K, V, H> {
    /// Returns an index of the items, inserted in their order, so that the first of equal keys stays. The array is
    /// made for one pair an item; without items there is no array. Fails if memory is refused, and then drops the
    /// items. The iterator must end.
    pub fn try_from_iter<I: IntoIterator<Item = (K, V)>>(
        alloc: Global,
        items: I,
    ) -> Result<Self, MakeError>
    where
        K: Drop,
        V: Drop,
        H: Default + Drop,
        requires { (it : I.IntoIter) → I.into_iter_gives items it
            → I.IntoIter.can_next it × IsFinite (I.IntoIter.remaining it) }
        ensures items { IfOk result (λ m. (it : I.IntoIter) × (xs : List (K × V)) × I.into_iter_gives items it
            × Drains I.IntoIter.next_gives it xs × IsCollected K.eq (hash_in ⟦<H as Hashes<K>>⟧.hash_of) xs m
            × FindsFirst K.eq xs (entries m)) }
        ensures hasher { IfOk result (λ m. H.is_default (settings_of m).hasher) }
        ensures unique { IfOk result (λ m. IsUnique K.eq m) }
    {
        let Ok(pairs) = Vec::from_iter(alloc, items) else {
            return Err(MakeError);
        };
        let mut made = Index::with_capacity_and_hasher(alloc, pairs.len(), H::default())?;
        let Ok(()) = made.insert_all(pairs) else {
            return Err(MakeError);
        };
        Ok(made)
    }

    /// Inserts the pairs in their order. Stops at the first pair for which memory is refused, and returns that pair.
    fn insert_all(&mut self, pairs: Vec<(K, V)>) -> Result<(), (K, V)>
    where
        K: Drop,
        V: Drop,
        ensures refused { IfErr result (λ p. StopsAt K.eq (hash_in ⟦<H as Hashes<K>>⟧.hash_of) self.old pairs.items p
            self.new) }
        ensures run { OnOk result (InsertsAll K.eq (hash_in ⟦<H as Hashes<K>>⟧.hash_of) self.old pairs.items
            self.new) }
    {
        for (k, v) in pairs {
            match self.insert_sync(k, v) {
                Ok(()) => {}
                Err(InsertError::Exists(_pair)) => {}
                Err(InsertError::Memory(pair)) => return Err(pair),
            }
        }
        Ok(())
    }
}
