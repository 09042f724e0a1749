//! The puts through an entry of a locked stripe.
ghost use Rattle.scc_owned_cache.specs.Entries.{entry_key, FailsOrRefuses, IsVacant, OrPuts, OrPutsSome, Refuses, RefusesSome, SetsEntry};
ghost use Rattle.scc_owned_cache.specs.Evictions.{IsEvictedFor};
ghost use Rattle.std.specs.Fn.{FnOnceTakesAt, FnOnceReturnsAt};
ghost use Rattle.std.specs.Prelude.{Ok, Err, IfOk, IfErr};

use crate::EvictedEntry;
use crate::held::{HeldEntry, HeldOccupied, HeldVacant};
use crate::locked::{Entry, OccupiedEntry};
use scc_common::{InsertError, Rule, TryInsertError};
use std::alloc::Global;
use std::default::MadeWith;
use std::hash::{BuildHasher, Hash};

impl<'a, K: Eq + Hash, V, H: BuildHasher, R: Rule<K, V>> Entry<'a, K, V, H, R> {
    /// Puts in `default`, which must keep the rule, if the entry is vacant, by the rules of `put_sync`, and returns the
    /// evicted pair, if any, and the occupied entry. An occupied entry stays as it is, and never fails.
    pub fn or_put(
        self,
        default: V,
    ) -> Result<(EvictedEntry<K, V>, OccupiedEntry<'a, K, V, H, R>), InsertError<K, V>>
    where
        V: Drop,
        requires { IsVacant self → R.holds (entry_key self) default }
        ensures entry { IfOk result (λ r. OrPuts K.eq self.entry default r.0 r.1) }
        ensures refused { IfErr result (Refuses self.entry default) }
        ensures evicted { IfOk result (λ r. IsEvictedFor K.eq R.holds (entry_key self.entry) r.0) }
    {
        match self {
            HeldEntry::Occupied(entry) => {
                drop(default);
                Ok((None, entry))
            }
            HeldEntry::Vacant(entry) => entry.put_entry(default),
        }
    }

    /// Puts in the result of `f`, which must keep the rule, if the entry is vacant, as `or_put` does. `f` isn't called
    /// on an occupied entry.
    pub fn or_put_with<F: FnOnce() -> V>(
        self,
        f: F,
    ) -> Result<(EvictedEntry<K, V>, OccupiedEntry<'a, K, V, H, R>), InsertError<K, V>>
        requires callable { IsVacant self → F.pre f }
        requires keeps { IsVacant self → (v : V) → F.post f v → R.holds (entry_key self) v }
        ensures entry { IfOk result (λ r. OrPutsSome K.eq self.entry (λ k v. F.post f v) r.0 r.1) }
        ensures refused { IfErr result (RefusesSome self.entry (λ k v. F.post f v)) }
        ensures evicted { IfOk result (λ r. IsEvictedFor K.eq R.holds (entry_key self.entry) r.0) }
    {
        match self {
            HeldEntry::Occupied(entry) => Ok((None, entry)),
            HeldEntry::Vacant(entry) => {
                let value = f();
                entry.put_entry(value)
            }
        }
    }

    /// Puts in the result of `f` on the key, which must keep the rule, if the entry is vacant, as `or_put` does. `f`
    /// isn't called on an occupied entry.
    pub fn or_put_with_key<F: FnOnce(&K) -> V>(
        self,
        f: F,
    ) -> Result<(EvictedEntry<K, V>, OccupiedEntry<'a, K, V, H, R>), InsertError<K, V>>
        requires callable { IsVacant self → FnOnceTakesAt F.FnOnce f (entry_key self) }
        requires keeps { IsVacant self → (v : V) → FnOnceReturnsAt F.FnOnce f (entry_key self) v
            → R.holds (entry_key self) v }
        ensures entry { IfOk result (λ r. OrPutsSome K.eq self.entry (FnOnceReturnsAt F.FnOnce f) r.0 r.1) }
        ensures refused { IfErr result (RefusesSome self.entry (FnOnceReturnsAt F.FnOnce f)) }
        ensures evicted { IfOk result (λ r. IsEvictedFor K.eq R.holds (entry_key self.entry) r.0) }
    {
        match self {
            HeldEntry::Occupied(entry) => Ok((None, entry)),
            HeldEntry::Vacant(entry) => {
                let value = f(&entry.key);
                entry.put_entry(value)
            }
        }
    }

    /// Puts in the value that `f` makes, which must keep the rule, if the entry is vacant, as `or_put` does. If `f`
    /// fails, its error comes back, the key is dropped and the lock is released. `f` isn't called on an occupied entry.
    pub fn or_try_put_with<E, F: FnOnce() -> Result<V, E>>(
        self,
        f: F,
    ) -> Result<(EvictedEntry<K, V>, OccupiedEntry<'a, K, V, H, R>), TryInsertError<K, V, E>>
    where
        K: Drop,
        requires callable { IsVacant self → F.pre f }
        requires keeps { IsVacant self → (v : V) → F.post f (Ok v) → R.holds (entry_key self) v }
        ensures entry { IfOk result (λ r. OrPutsSome K.eq self.entry (λ k v. F.post f (Ok v)) r.0 r.1) }
        ensures refused { IfErr result (FailsOrRefuses self.entry (λ k v. F.post f (Ok v)) (λ k e. F.post f (Err e))) }
        ensures evicted { IfOk result (λ r. IsEvictedFor K.eq R.holds (entry_key self.entry) r.0) }
    {
        self.or_try_put_with_key(
            move |_key: &K| -> Result<V, E>
                requires { F.pre f }
                ensures { F.post f result }
            { f() },
        )
    }

    /// Puts in the value that `f` makes of the key, which must keep the rule, if the entry is vacant, as `or_put` does.
    /// If `f` fails, its error comes back, the key is dropped and the lock is released. `f` isn't called on an occupied
    /// entry.
    pub fn or_try_put_with_key<E, F: FnOnce(&K) -> Result<V, E>>(
        self,
        f: F,
    ) -> Result<(EvictedEntry<K, V>, OccupiedEntry<'a, K, V, H, R>), TryInsertError<K, V, E>>
    where
        K: Drop,
        requires callable { IsVacant self → FnOnceTakesAt F.FnOnce f (entry_key self) }
        requires keeps { IsVacant self → (v : V) → FnOnceReturnsAt F.FnOnce f (entry_key self) (Ok v)
            → R.holds (entry_key self) v }
        ensures entry { IfOk result (λ r. OrPutsSome K.eq self.entry (λ k v. FnOnceReturnsAt F.FnOnce f k (Ok v))
            r.0 r.1) }
        ensures refused { IfErr result (FailsOrRefuses self.entry (λ k v. FnOnceReturnsAt F.FnOnce f k (Ok v))
            (λ k e. FnOnceReturnsAt F.FnOnce f k (Err e))) }
        ensures evicted { IfOk result (λ r. IsEvictedFor K.eq R.holds (entry_key self.entry) r.0) }
    {
        match self {
            HeldEntry::Occupied(entry) => Ok((None, entry)),
            HeldEntry::Vacant(entry) => {
                let HeldVacant {
                    mut guard,
                    key,
                    hash,
                    rest,
                    of: _,
                } = entry;
                match f(&key) {
                    Ok(value) => match guard.put_new(hash, key, value) {
                        Ok((evicted, place)) => {
                            Ok((evicted, HeldOccupied::at(guard, place, rest)))
                        }
                        Err(pair) => Err(TryInsertError::Memory(pair)),
                    },
                    Err(error) => Err(TryInsertError::Failed(error)),
                }
            }
        }
    }

    /// Puts in the default value, which must keep the rule, if the entry is vacant, as `or_put` does.
    pub fn or_default(
        self,
    ) -> Result<(EvictedEntry<K, V>, OccupiedEntry<'a, K, V, H, R>), InsertError<K, V>>
    where
        V: MadeWith<Global>,
        requires { IsVacant self → (v : V) → V.is_made_with v → R.holds (entry_key self) v }
        ensures entry { IfOk result (λ r. OrPutsSome K.eq self.entry (λ k v. V.is_made_with v) r.0 r.1) }
        ensures refused { IfErr result (RefusesSome self.entry (λ k v. V.is_made_with v)) }
        ensures evicted { IfOk result (λ r. IsEvictedFor K.eq R.holds (entry_key self.entry) r.0) }
    {
        match self {
            HeldEntry::Occupied(entry) => Ok((None, entry)),
            HeldEntry::Vacant(entry) => {
                let value = V::made_with(entry.allocator());
                entry.put_entry(value)
            }
        }
    }

    /// Sets the value of an occupied entry, which keeps its key and its place, or puts in `value` at a vacant entry,
    /// as `or_put` does. `value` must keep the rule.
    pub fn put_entry(
        self,
        value: V,
    ) -> Result<(EvictedEntry<K, V>, OccupiedEntry<'a, K, V, H, R>), InsertError<K, V>>
    where
        V: Drop,
        requires { R.holds (entry_key self) value }
        ensures entry { IfOk result (λ r. SetsEntry K.eq self.entry value r.0 r.1) }
        ensures refused { IfErr result (Refuses self.entry value) }
        ensures evicted { IfOk result (λ r. IsEvictedFor K.eq R.holds (entry_key self.entry) r.0) }
    {
        match self {
            HeldEntry::Occupied(entry) => {
                let mut entry = entry;
                let _old = entry.put(value);
                Ok((None, entry))
            }
            HeldEntry::Vacant(entry) => entry.put_entry(value),
        }
    }
}
