//! The calls of an entry of a locked stripe that release the lock, and those that put in a pair.
ghost use Rattle.scc_owned_cache.specs.Entries.{Memory, occupied_pair, IsPut, vacant_key, vacant_guard};
ghost use Rattle.scc_owned_cache.specs.Evictions.{IsEvictedFor};
ghost use Rattle.scc_owned_cache.specs.Seats.{occupied_stripe, vacant_stripe};
ghost use Rattle.scc_common.specs.Contents.{bucket_count};
ghost use Rattle.std.specs.Prelude.{◌≡◌, IfOk, IfErr};
ghost use Rattle.std.specs.Sync.RwLock.{write_guard_value};

use crate::EvictedEntry;
use crate::held::{HeldOccupied, HeldVacant};
use crate::locked::{OccupiedEntry, VacantEntry};
use scc_common::{InsertError, Rule};
use std::hash::{BuildHasher, Hash};

impl<'a, K: Eq + Hash, V, H: BuildHasher, R: Rule<K, V>> OccupiedEntry<'a, K, V, H, R> {
    /// Returns the number of the locked stripe.
    pub fn stripe(&self) -> usize
        ensures { result ≡ occupied_stripe self.now }
    {
        self.rest.stripe()
    }

    /// Removes the pair, returns its value, and releases the lock. The array may shrink.
    pub fn remove(self) -> V
    where
        K: Drop,
        ensures value { result ≡ (occupied_pair self.entry).1 }
        ensures kept { R.holds (occupied_pair self.entry).0 result }
    {
        let (_key, value) = self.remove_entry();
        value
    }

    /// Removes the pair, returns it, and releases the lock. The array may shrink.
    pub fn remove_entry(self) -> (K, V)
        ensures pair { result ≡ occupied_pair self.entry }
        ensures kept { R.holds result.0 result.1 }
    {
        let HeldOccupied {
            mut guard,
            place,
            rest: _,
            of: _,
        } = self;
        guard.remove_at(place)
    }
}

impl<'a, K: Eq + Hash, V, H: BuildHasher, R: Rule<K, V>> VacantEntry<'a, K, V, H, R> {
    /// Returns the number of the locked stripe.
    pub fn stripe(&self) -> usize
        ensures { result ≡ vacant_stripe self.now }
    {
        self.rest.stripe()
    }

    /// Returns the key, and releases the lock.
    pub fn into_key(self) -> K
        ensures key { result ≡ vacant_key self.entry }
    {
        let HeldVacant {
            guard: _,
            key,
            hash: _,
            rest: _,
            of: _,
        } = self;
        key
    }

    /// Puts in the key with `value`, which must keep the rule, as the most recent pair of its bucket, and returns the
    /// evicted pair, if any, and the new pair's entry. Memory is refused only if the stripe has no array; then key and
    /// value come back and the lock is released.
    pub fn put_entry(
        self,
        value: V,
    ) -> Result<(EvictedEntry<K, V>, OccupiedEntry<'a, K, V, H, R>), InsertError<K, V>>
        requires { R.holds (vacant_key self) value }
        ensures put { IfOk result (λ r. IsPut K.eq self.entry value r.0 r.1) }
        ensures refused { IfErr result (λ e. (bucket_count (write_guard_value (vacant_guard self.entry)).contents ≡ 0)
            × (e ≡ Memory (vacant_key self.entry, value))) }
        ensures evicted { IfOk result (λ r. IsEvictedFor K.eq R.holds (vacant_key self.entry) r.0) }
    {
        let HeldVacant {
            mut guard,
            key,
            hash,
            rest,
            of: _,
        } = self;
        match guard.put_new(hash, key, value) {
            Ok((evicted, place)) => Ok((evicted, HeldOccupied::at(guard, place, rest))),
            Err(pair) => Err(InsertError::Memory(pair)),
        }
    }
}
