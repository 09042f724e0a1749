//! How a cache is made: empty, or from items.
ghost use Rattle.scc_owned_cache.specs.Caches.{IsCacheState};
ghost use Rattle.scc_owned_cache.specs.Collections.{IsCollected, PutsAll};
ghost use Rattle.scc_owned_cache.specs.Making.{IsNewCache, MakesEmptyCache};
ghost use Rattle.scc_common.specs.Contents.{settings_of, hash_in};
ghost use Rattle.std.specs.Arc.{arc_value};
ghost use Rattle.std.specs.Iterator.{Drains, IsFinite};
ghost use Rattle.std.specs.Prelude.{◌≤◌, List, IfOk, OnOk};

use crate::{DEFAULT_MAXIMUM_CAPACITY, Owned};
use scc_buckets::sizes::slots_for;
use scc_common::{Hashes, InsertError, MakeError, Rule, Shared};
use scc_table::Table;
use std::alloc::Global;
use std::hash::{BuildHasher, BuildHasherDefault, Hash};
use std::sync::Arc;

impl<K: Eq + Hash, V> Owned<K, V> {
    /// Returns an empty cache without an array, with a maximum of 256 slots. Allocates nothing.
    pub fn new(alloc: Global) -> Self
        ensures { IsNewCache (settings_of result.contents).hasher result }
    {
        Owned::with_hasher(alloc, BuildHasherDefault::new())
    }

    /// Returns an empty cache with the default hasher, by the rules of `with_capacity_and_hasher`.
    pub fn with_capacity(alloc: Global, capacity: usize, maximum: usize) -> Result<Self, MakeError>
        ensures { MakesEmptyCache (λ c. (settings_of c.contents).hasher) 0 capacity maximum result }
    {
        Owned::with_capacity_and_hasher(alloc, capacity, maximum, BuildHasherDefault::new())
    }
}

impl<K: Eq + Hash, V, H: BuildHasher, R: Rule<K, V>> Owned<K, V, Shared<H>, R> {
    /// Returns an empty cache that skips `skipped` bits of each hash and shares `hasher` with the other parts.
    /// Otherwise as `with_capacity_and_hasher`.
    pub fn part(
        alloc: Global,
        skipped: u32,
        capacity: usize,
        maximum: usize,
        hasher: Arc<H>,
    ) -> Result<Self, MakeError>
    where
        H: Drop,
        requires { skipped ≤ 4 }
        ensures { MakesEmptyCache (λ _. arc_value hasher) skipped capacity maximum result }
    {
        Owned::skipping(alloc, skipped, capacity, maximum, Shared::new(hasher))
    }
}

impl<K: Eq + Hash, V, H: BuildHasher, R: Rule<K, V>> Owned<K, V, H, R> {
    /// Makes what `with_capacity_and_hasher` makes, but skips `skipped` bits of each hash.
    pub fn skipping(
        alloc: Global,
        skipped: u32,
        capacity: usize,
        maximum: usize,
        hasher: H,
    ) -> Result<Self, MakeError>
    where
        H: Drop,
        requires { skipped ≤ 4 }
        ensures made { MakesEmptyCache (λ _. hasher) skipped capacity maximum result }
        ensures state { IfOk result (λ c. IsCacheState K.eq (hash_in ⟦<H as Hashes<K>>⟧.hash_of c.contents) c) }
    {
        match Table::with_capacity(alloc, skipped, capacity, hasher) {
            Ok(table) => {
                let maximum = slots_for(maximum.max(32 * table.bucket_count()));
                Ok(Owned { table, maximum })
            }
            Err(e) => Err(e),
        }
    }
}

impl<K: Eq + Hash, V, H: BuildHasher> Owned<K, V, H> {
    /// Returns an empty cache without an array, with a maximum of 256 slots. Allocates nothing.
    pub fn with_hasher(alloc: Global, hasher: H) -> Self
        ensures { IsNewCache hasher result }
    {
        Owned {
            table: Table::new(alloc, 0, hasher),
            maximum: DEFAULT_MAXIMUM_CAPACITY,
        }
    }

    /// Returns an empty cache with an array of the least power of two of slots that is at least `capacity` and at
    /// least 64, or without an array if `capacity` is 0. These slots are the cache's minimum. Its maximum is the
    /// greatest of `maximum`, the slots made and 64, raised to a power of two, at most 2^63. Fails if an array of that
    /// size can't be allocated.
    pub fn with_capacity_and_hasher(
        alloc: Global,
        capacity: usize,
        maximum: usize,
        hasher: H,
    ) -> Result<Self, MakeError>
    where
        H: Drop,
        ensures { MakesEmptyCache (λ _. hasher) 0 capacity maximum result }
    {
        Owned::skipping(alloc, 0, capacity, maximum, hasher)
    }

    /// Returns a cache of the items, put in their order, so that the first value of a key stays unless it was evicted
    /// before the next one came. Capacity and maximum are made for one pair an item. Fails if memory is refused, and
    /// then drops the items. The iterator must end.
    pub fn try_from_iter<I: IntoIterator<Item = (K, V)>>(
        alloc: Global,
        items: I,
    ) -> Result<Self, MakeError>
    where
        K: Drop,
        V: Drop,
        H: Default + Drop,
        requires { (it : I.IntoIter) → I.into_iter_gives items it
            → I.IntoIter.can_next it × IsFinite (I.IntoIter.remaining it) }
        ensures items { IfOk result (λ c. (it : I.IntoIter) × (xs : List (K × V)) × I.into_iter_gives items it
            × Drains I.IntoIter.next_gives it xs × IsCollected K.eq (hash_in ⟦<H as Hashes<K>>⟧.hash_of) xs c) }
        ensures hasher { IfOk result (λ c. H.is_default (settings_of c.contents).hasher) }
        ensures state { IfOk result (λ c. IsCacheState K.eq (hash_in ⟦<H as Hashes<K>>⟧.hash_of c.contents) c) }
    {
        let Ok(pairs) = Vec::from_iter(alloc, items) else {
            return Err(MakeError);
        };
        let count = pairs.len();
        let mut made = Owned::skipping(alloc, 0, count, count, H::default())?;
        made.put_all(pairs)?;
        Ok(made)
    }

    /// Puts in the pairs in their order. Stops with an error at the first pair for which memory is refused. Drops a
    /// pair whose key is there.
    fn put_all(&mut self, pairs: Vec<(K, V)>) -> Result<(), MakeError>
    where
        K: Drop,
        V: Drop,
        requires { IsCacheState K.eq (hash_in ⟦<H as Hashes<K>>⟧.hash_of self.old.contents) self.old }
        ensures puts { OnOk result (PutsAll K.eq (hash_in ⟦<H as Hashes<K>>⟧.hash_of) self.old pairs.items self.new) }
        ensures state { OnOk result (IsCacheState K.eq (hash_in ⟦<H as Hashes<K>>⟧.hash_of self.new.contents)
            self.new) }
    {
        for (k, v) in pairs {
            match self.put_sync(k, v) {
                Ok(_) => {}
                Err(InsertError::Exists(_)) => {}
                Err(InsertError::Memory(_)) => return Err(MakeError),
            }
        }
        Ok(())
    }
}
