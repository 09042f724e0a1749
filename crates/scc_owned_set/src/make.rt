//! How a set is made: empty, or from items.
ghost use Rattle.scc_common.specs.Contents.{entries, settings_of, hash_in};
ghost use Rattle.scc_owned_set.specs.Collections.{FindsItems, InsertsAll, IsCollected, StopsAt};
ghost use Rattle.scc_owned_set.specs.Keys.{find, IsUnique};
ghost use Rattle.scc_table.specs.Making.{IsNew, MakesEmpty};
ghost use Rattle.std.specs.Arc.{arc_value};
ghost use Rattle.std.specs.Iterator.{Drains, IsFinite};
ghost use Rattle.std.specs.Option.{option_or};
ghost use Rattle.std.specs.Prelude.{◌≡◌, ◌<◌, ◌≤◌, IfErr, IfOk, List, OnOk};

use crate::Owned;
use scc_common::{Hashes, KeyError, MakeError, Shared};
use std::alloc::Global;
use std::hash::{BuildHasher, BuildHasherDefault, Hash};
use std::sync::Arc;

impl<K: Eq + Hash> Owned<K> {
    /// Returns an empty set without an array. Allocates nothing.
    pub fn new(alloc: Global) -> Self
        ensures { IsNew (settings_of result).hasher result }
    {
        Owned::with_hasher(alloc, BuildHasherDefault::new())
    }

    /// Returns an empty set with an array for at least `capacity` keys at one a slot, by the rules of
    /// `with_capacity_and_hasher`.
    pub fn with_capacity(alloc: Global, capacity: usize) -> Result<Self, MakeError>
        ensures { MakesEmpty (λ s. (settings_of s).hasher) 0 capacity result }
    {
        Owned::with_capacity_and_hasher(alloc, capacity, BuildHasherDefault::new())
    }
}

impl<K: Eq + Hash, H: BuildHasher> Owned<K, Shared<H>> {
    /// Returns an empty set that skips `skipped` bits of each hash and shares `hasher` with the other parts. Otherwise
    /// as `with_capacity_and_hasher`.
    pub fn part(
        alloc: Global,
        skipped: u32,
        capacity: usize,
        hasher: Arc<H>,
    ) -> Result<Self, MakeError>
    where
        H: Drop,
        requires { skipped ≤ 4 }
        ensures { MakesEmpty (λ _. arc_value hasher) skipped capacity result }
    {
        Owned::skipping(alloc, skipped, capacity, Shared::new(hasher))
    }
}

impl<K: Eq + Hash, H: BuildHasher> Owned<K, H> {
    /// Returns an empty set without an array. Allocates nothing.
    pub fn with_hasher(alloc: Global, hasher: H) -> Self
        ensures { IsNew hasher result }
    {
        Owned {
            map: scc_owned::map::Owned::with_hasher(alloc, hasher),
        }
    }

    /// Returns an empty set with an array of the least power of two of slots that is at least `capacity` and at least
    /// 64, or without an array if `capacity` is 0. These slots are the set's minimum. Fails if an array of that size
    /// can't be allocated.
    pub fn with_capacity_and_hasher(
        alloc: Global,
        capacity: usize,
        hasher: H,
    ) -> Result<Self, MakeError>
    where
        H: Drop,
        ensures { MakesEmpty (λ _. hasher) 0 capacity result }
    {
        match scc_owned::map::Owned::with_capacity_and_hasher(alloc, capacity, hasher) {
            Ok(map) => Ok(Owned { map }),
            Err(e) => Err(e),
        }
    }

    /// Makes what `with_capacity_and_hasher` makes, but skips `skipped` bits of each hash.
    pub fn skipping(
        alloc: Global,
        skipped: u32,
        capacity: usize,
        hasher: H,
    ) -> Result<Self, MakeError>
    where
        H: Drop,
        requires { skipped ≤ 4 }
        ensures { MakesEmpty (λ _. hasher) skipped capacity result }
    {
        match scc_owned::map::Owned::skipping(alloc, skipped, capacity, hasher) {
            Ok(map) => Ok(Owned { map }),
            Err(e) => Err(e),
        }
    }

    /// Returns a set of the items, inserted in their order, so that the first of equal keys stays. The array is made
    /// for one key an item; without items there is no array. Fails if memory is refused, and then drops the items. The
    /// iterator must end.
    pub fn try_from_iter<I: IntoIterator<Item = K>>(
        alloc: Global,
        items: I,
    ) -> Result<Self, MakeError>
    where
        K: Drop,
        H: Default + Drop,
        requires { (it : I.IntoIter) → I.into_iter_gives items it
            → I.IntoIter.can_next it × IsFinite (I.IntoIter.remaining it) }
        ensures items { IfOk result (λ s. (it : I.IntoIter) × (xs : List K) × I.into_iter_gives items it
            × Drains I.IntoIter.next_gives it xs × IsCollected K.eq (hash_in ⟦<H as Hashes<K>>⟧.hash_of) xs s
            × FindsItems K.eq xs (entries s)) }
        ensures hasher { IfOk result (λ s. H.is_default (settings_of s).hasher) }
        ensures unique { IfOk result (λ s. IsUnique K.eq s) }
    {
        let Ok(keys) = Vec::from_iter(alloc, items) else {
            return Err(MakeError);
        };
        let mut made = Owned::with_capacity_and_hasher(alloc, keys.len(), H::default())?;
        let Ok(()) = made.insert_all(keys) else {
            return Err(MakeError);
        };
        Ok(made)
    }

    /// Inserts the keys in their order. Stops at the first key for which memory is refused, and returns that key.
    fn insert_all(&mut self, keys: Vec<K>) -> Result<(), K>
    where
        K: Drop,
        requires { IsUnique K.eq self.old }
        ensures refused { IfErr result (λ k. StopsAt K.eq (hash_in ⟦<H as Hashes<K>>⟧.hash_of) self.old keys.items k
            self.new) }
        ensures run { OnOk result (InsertsAll K.eq (hash_in ⟦<H as Hashes<K>>⟧.hash_of) self.old keys.items self.new) }
        ensures settings { OnOk result (settings_of self.new ≡ settings_of self.old) }
        ensures finds { OnOk result ((q : K) → find K.eq (entries self.new) q
            ≡ option_or (find K.eq (entries self.old) q) (find K.eq keys.items q)) }
        ensures unique { OnOk result (IsUnique K.eq self.new) }
    {
        for k in keys {
            match self.insert_sync(k) {
                Ok(()) => {}
                Err(KeyError::Exists(_)) => {}
                Err(KeyError::Memory(k)) => return Err(k),
            }
        }
        Ok(())
    }
}
