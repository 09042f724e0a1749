//! The calls that make an entry of a borrowed cache, and those that end the borrow. An entry holds the place that one
//! search found.
ghost use Rattle.scc_owned_cache.specs.CacheSteps.{IsAbsent, TakesAt};
ghost use Rattle.scc_owned_cache.specs.Caches.{IsCacheState};
ghost use Rattle.scc_owned_cache.specs.Entries.{Memory, occupied_cache, occupied_pair, occupied_place, entry_guard, IsEntryOf, IsRefreshed, IsPut, rests_if_refused, rests_if_none, replaced_guard, Replaces, occupied_guard, vacant_guard, vacant_key};
ghost use Rattle.scc_owned_cache.specs.KeyCalls.{PutsByRule};
ghost use Rattle.scc_owned_cache.specs.Relocations.{RelocatesNoneWithin};
ghost use Rattle.scc_common.specs.Contents.{bucket_count, hash_in};
ghost use Rattle.std.specs.Borrow.{sem};
ghost use Rattle.std.specs.Prelude.{◌≡◌, IfOk, IfErr, IfSome, IfNone};

use crate::borrowed::{Entry, OccupiedEntry, ReplaceResult, VacantEntry};
use crate::held::{HeldEntry, HeldOccupied, HeldReplace, HeldVacant};
use crate::{EvictedEntry, Owned};
use scc_common::{Hashes, InsertError, Rule};
use std::hash::{BuildHasher, Hash};

impl<K: Eq + Hash, V, H: BuildHasher, R: Rule<K, V>> Owned<K, V, H, R> {
    /// Returns the entry of `k`: occupied at the stored pair, which becomes the most recent of its bucket, or vacant
    /// with `k`, and then nothing changes. Allocates nothing and makes no array. If the bucket of a stored pair waits,
    /// it is relocated first, and no other bucket is.
    pub fn entry_sync(&mut self, k: K) -> Entry<'_, K, V, H, R>
    where
        K: Drop,
        ensures same_cache { (entry_guard result).ghost_name ≡ self.entry.ghost_name }
        ensures entry { IsEntryOf K.eq self.old k result }
        ensures state { IsCacheState K.eq (hash_in ⟦<H as Hashes<K>>⟧.hash_of (entry_guard result).now.contents)
            (entry_guard result).now }
    {
        let hash = self.table.hash(&k);
        match self.refresh(hash, &k) {
            Some(place) => HeldEntry::Occupied(HeldOccupied::at(self, place, ())),
            None => HeldEntry::Vacant(HeldVacant::of_key(self, k, hash, ())),
        }
    }

    /// Returns the occupied entry of `k`, whose pair becomes the most recent of its bucket. If no key equals `k`,
    /// returns `None`, and nothing changes. Allocates nothing. If the bucket of the pair waits, it is relocated first,
    /// and no other bucket is.
    pub fn get_sync(&mut self, k: &K) -> Option<OccupiedEntry<'_, K, V, H, R>>
        ensures same_cache { IfSome result (λ o. (occupied_guard o).ghost_name ≡ self.entry.ghost_name) }
        ensures entry { IfSome result (IsRefreshed K.eq self.old k.now) }
        ensures missing { IfNone result (IsAbsent (hash_in ⟦<H as Hashes<K>>⟧.hash_of self.old.contents) K.eq
            self.old.contents k.now) }
        ensures* kept { sem 𝓛 (rests_if_none K.row V.row H.row R.row H.Hasher.row K.Hash H.BuildHasher R.Rule H.Hasher.Hasher
            self.entry result) }
    {
        let hash = self.table.hash(k);
        match self.refresh(hash, k) {
            Some(place) => Some(HeldOccupied::at(self, place, ())),
            None => None,
        }
    }

    /// Puts `k` in the place of the key that equals it, keeps the value, makes the pair the most recent of its bucket,
    /// and returns the entry with the old key. If no key equals `k`, nothing changes, and the vacant entry is
    /// returned. Allocates nothing. If the bucket of a stored pair waits, it is relocated first, and no other bucket
    /// is.
    pub fn replace_sync(&mut self, k: K) -> ReplaceResult<'_, K, V, H, R>
        ensures same_cache { (replaced_guard result).ghost_name ≡ self.entry.ghost_name }
        ensures step { Replaces K.eq self.old k result }
    {
        let hash = self.table.hash(&k);
        match self.refresh(hash, &k) {
            Some(place) => {
                let old = self.replace_key_at(place, k);
                HeldReplace::Replaced(HeldOccupied::at(self, place, ()), old)
            }
            None => HeldReplace::NotReplaced(HeldVacant::of_key(self, k, hash, ())),
        }
    }
}

impl<'a, N, K: Eq + Hash, V, H: BuildHasher, R: Rule<K, V>> HeldOccupied<
    &'a mut Owned<K, V, H, R>,
    N,
    K,
    V,
    H,
    R,
> {
    /// Removes the pair, and returns its value. The array may shrink.
    pub fn remove(self) -> V
    where
        N: Drop,
        K: Drop,
        ensures value { result ≡ (occupied_pair self.entry).1 }
        ensures kept { R.holds (occupied_pair self.entry).0 result }
        ensures removed { TakesAt (hash_in ⟦<H as Hashes<K>>⟧.hash_of (occupied_cache self.entry).contents)
            (occupied_cache self.entry) (occupied_place self.entry) self.exit.0.now }
        ensures state { IsCacheState K.eq (hash_in ⟦<H as Hashes<K>>⟧.hash_of self.exit.0.now.contents)
            self.exit.0.now }
        ensures relocates { RelocatesNoneWithin (λ p. hash_in ⟦<H as Hashes<K>>⟧.hash_of (occupied_cache self.entry).contents
            p.0) (occupied_cache self.entry).contents self.exit.0.now.contents }
    {
        let (_key, value) = self.remove_entry();
        value
    }

    /// Removes the pair, and returns it. The array may shrink.
    pub fn remove_entry(self) -> (K, V)
    where
        N: Drop,
        ensures pair { result ≡ occupied_pair self.entry }
        ensures kept { R.holds result.0 result.1 }
        ensures removed { TakesAt (hash_in ⟦<H as Hashes<K>>⟧.hash_of (occupied_cache self.entry).contents)
            (occupied_cache self.entry) (occupied_place self.entry) self.exit.0.now }
        ensures state { IsCacheState K.eq (hash_in ⟦<H as Hashes<K>>⟧.hash_of self.exit.0.now.contents)
            self.exit.0.now }
        ensures relocates { RelocatesNoneWithin (λ p. hash_in ⟦<H as Hashes<K>>⟧.hash_of (occupied_cache self.entry).contents
            p.0) (occupied_cache self.entry).contents self.exit.0.now.contents }
    {
        let place = self.place;
        self.guard.remove_at(place)
    }
}

impl<'a, K: Eq + Hash, V, H: BuildHasher, R: Rule<K, V>> VacantEntry<'a, K, V, H, R> {
    /// Returns the key, and leaves the cache as it is.
    pub fn into_key(self) -> K
        ensures key { result ≡ vacant_key self.entry }
        ensures unchanged { self.exit.0.now ≡ (vacant_guard self.entry).now }
    {
        self.key
    }

    /// Puts in the key with `value`, which must keep the rule, as `put_entry` does, ends the borrow, and returns the
    /// evicted pair, if any.
    pub fn put(self, value: V) -> Result<EvictedEntry<K, V>, InsertError<K, V>>
        requires { R.holds (vacant_key self) value }
        ensures { PutsByRule K.eq ⟦<H as Hashes<K>>⟧.hash_of (vacant_guard self.entry).now
            (vacant_key self.entry, value) result self.exit.0.now }
    {
        let hash = self.hash;
        let key = self.key;
        match self.guard.put_new(hash, key, value) {
            Ok((evicted, _)) => Ok(evicted),
            Err(pair) => Err(InsertError::Memory(pair)),
        }
    }

    /// Puts in the key with `value`, which must keep the rule, as the most recent pair of its bucket, by the rules of
    /// `put_sync`, and returns the evicted pair, if any, and the new pair's entry. Memory is refused only if there is
    /// no array; then key and value come back and nothing changes.
    pub fn put_entry(
        self,
        value: V,
    ) -> Result<(EvictedEntry<K, V>, OccupiedEntry<'a, K, V, H, R>), InsertError<K, V>>
        requires { R.holds (vacant_key self) value }
        ensures put { IfOk result (λ r. IsPut K.eq self.entry value r.0 r.1) }
        ensures refused { IfErr result (λ e. (e ≡ Memory (vacant_key self.entry, value))
            × (bucket_count (vacant_guard self.entry).now.contents ≡ 0)) }
        ensures* kept { sem 𝓛 (rests_if_refused K.row V.row H.row R.row H.Hasher.row K.Hash H.BuildHasher R.Rule H.Hasher.Hasher
            (vacant_guard self.entry) result) }
    {
        let HeldVacant {
            guard,
            key,
            hash,
            rest,
            of: _,
        } = self;
        match guard.put_new(hash, key, value) {
            Ok((evicted, place)) => Ok((evicted, HeldOccupied::at(guard, place, rest))),
            Err(pair) => Err(InsertError::Memory(pair)),
        }
    }
}
