//! The insertions through an entry of a locked stripe, alike for maps and indexes. A value has to be one that the entry
//! allows under its key; pairs and versions that keep no rule allow every value. `or_insert`, `or_insert_with` and `or_default` call
//! `or_insert_with_key`, `or_try_insert_with` calls `or_try_insert_with_key`.
ghost use Rattle.scc_owned.specs.Held.{entry_guard, entry_key, vacant_guard, vacant_key};
ghost use Rattle.scc_owned.specs.Insertions.{InsertsAtVacant, InsertsThrough, IsVacant, OrInserts, OrInsertsSome, Refuses, RefusesSome, TriesThrough, rests_if_refused, rests_if_tried};
ghost use Rattle.std.specs.Fn.{FnOnceTakesAt, FnOnceReturnsAt};
ghost use Rattle.std.specs.Prelude.{◌≡◌, Ok, Err};

use crate::held::{HeldEntry, HeldOccupied, HeldVacant};
use crate::locked::{Entry, OccupiedEntry, VacantEntry};
use crate::stored::Stored;
use scc_common::{Hashes, InsertError, TryInsertError};
use std::alloc::Global;
use std::default::MadeWith;
use std::hash::{BuildHasher, Hash};

impl<'a, E: Stored, H: BuildHasher> Entry<'a, E, H>
where
    E::Key: Eq + Hash,
{
    /// Inserts `default` if the entry is vacant, and returns the occupied entry. An occupied entry stays as it is, and
    /// never fails.
    pub fn or_insert(
        self,
        default: E::Value,
    ) -> Result<OccupiedEntry<'a, E, H>, InsertError<E::Key, E::Value>>
    where
        E::Value: Drop,
        requires { IsVacant self → E.allows (entry_key self) default }
        ensures { InsertsThrough E.lookups.made E.Key.eq ⟦<H as Hashes<E::Key>>⟧.hash_of E.taking self.entry
            (OrInserts E.lookups.made self.entry default) (Refuses self.entry default) result }
    {
        self.or_insert_with_key(
            move |_key: &E::Key| -> E::Value
                ensures { result ≡ default }
            { default },
        )
    }

    /// Inserts the result of `f` if the entry is vacant, and returns the occupied entry. `f` isn't called on an
    /// occupied entry.
    pub fn or_insert_with<F: FnOnce() -> E::Value>(
        self,
        f: F,
    ) -> Result<OccupiedEntry<'a, E, H>, InsertError<E::Key, E::Value>>
        requires callable { IsVacant self → F.pre f }
        requires keeps { IsVacant self → (v : E.Value) → F.post f v → E.allows (entry_key self) v }
        ensures { InsertsThrough E.lookups.made E.Key.eq ⟦<H as Hashes<E::Key>>⟧.hash_of E.taking self.entry
            (OrInsertsSome E.lookups.made self.entry (λ k v. F.post f v)) (RefusesSome self.entry (λ k v. F.post f v)) result }
    {
        self.or_insert_with_key(
            move |_key: &E::Key| -> E::Value
                requires { F.pre f }
                ensures { F.post f result }
            { f() },
        )
    }

    /// Inserts the result of `f` on the key if the entry is vacant, and returns the occupied entry. `f` isn't called
    /// on an occupied entry.
    pub fn or_insert_with_key<F: FnOnce(&E::Key) -> E::Value>(
        self,
        f: F,
    ) -> Result<OccupiedEntry<'a, E, H>, InsertError<E::Key, E::Value>>
        requires callable { IsVacant self → FnOnceTakesAt F.FnOnce f (entry_key self) }
        requires keeps { IsVacant self → (v : E.Value) → FnOnceReturnsAt F.FnOnce f (entry_key self) v
            → E.allows (entry_key self) v }
        ensures { InsertsThrough E.lookups.made E.Key.eq ⟦<H as Hashes<E::Key>>⟧.hash_of E.taking self.entry
            (OrInsertsSome E.lookups.made self.entry (FnOnceReturnsAt F.FnOnce f))
            (RefusesSome self.entry (FnOnceReturnsAt F.FnOnce f)) result }
    {
        match self {
            HeldEntry::Occupied(entry) => {
                let HeldOccupied {
                    guard,
                    place,
                    rest,
                    of: _,
                } = entry;
                Ok(HeldOccupied::at(guard, place, rest))
            }
            HeldEntry::Vacant(entry) => {
                let value = f(entry.key());
                entry.insert_entry(value)
            }
        }
    }

    /// Inserts the value that `f` makes if the entry is vacant, and returns the occupied entry. If `f` fails, its error
    /// comes back, the key is dropped and the lock is released. `f` isn't called on an occupied entry.
    pub fn or_try_insert_with<X, F: FnOnce() -> Result<E::Value, X>>(
        self,
        f: F,
    ) -> Result<OccupiedEntry<'a, E, H>, TryInsertError<E::Key, E::Value, X>>
    where
        E::Key: Drop,
        requires callable { IsVacant self → F.pre f }
        requires keeps { IsVacant self → (v : E.Value) → F.post f (Ok v) → E.allows (entry_key self) v }
        ensures { TriesThrough E.lookups.made E.Key.eq ⟦<H as Hashes<E::Key>>⟧.hash_of E.taking self.entry (λ k v. F.post f (Ok v))
            (λ k x. F.post f (Err x)) result }
    {
        self.or_try_insert_with_key(
            move |_key: &E::Key| -> Result<E::Value, X>
                requires { F.pre f }
                ensures { F.post f result }
            { f() },
        )
    }

    /// Inserts the value that `f` makes of the key if the entry is vacant, and returns the occupied entry. If `f` fails,
    /// its error comes back, the key is dropped and the lock is released. `f` isn't called on an occupied entry.
    pub fn or_try_insert_with_key<X, F: FnOnce(&E::Key) -> Result<E::Value, X>>(
        self,
        f: F,
    ) -> Result<OccupiedEntry<'a, E, H>, TryInsertError<E::Key, E::Value, X>>
    where
        E::Key: Drop,
        requires callable { IsVacant self → FnOnceTakesAt F.FnOnce f (entry_key self) }
        requires keeps { IsVacant self → (v : E.Value) → FnOnceReturnsAt F.FnOnce f (entry_key self) (Ok v)
            → E.allows (entry_key self) v }
        ensures { TriesThrough E.lookups.made E.Key.eq ⟦<H as Hashes<E::Key>>⟧.hash_of E.taking self.entry
            (λ k v. FnOnceReturnsAt F.FnOnce f k (Ok v)) (λ k x. FnOnceReturnsAt F.FnOnce f k (Err x)) result }
    {
        match self {
            HeldEntry::Occupied(entry) => {
                let HeldOccupied {
                    guard,
                    place,
                    rest,
                    of: _,
                } = entry;
                Ok(HeldOccupied::at(guard, place, rest))
            }
            HeldEntry::Vacant(entry) => {
                let HeldVacant {
                    mut guard,
                    key,
                    hash,
                    rest,
                    of: _,
                } = entry;
                match f(&key) {
                    Ok(value) => match E::insert_into(&mut *guard, hash, key, value) {
                        Ok(place) => Ok(HeldOccupied::at(guard, place, rest)),
                        Err(pair) => Err(TryInsertError::Memory(pair)),
                    },
                    Err(error) => Err(TryInsertError::Failed(error)),
                }
            }
        }
    }

    /// Inserts the default value if the entry is vacant, and returns the occupied entry.
    pub fn or_default(self) -> Result<OccupiedEntry<'a, E, H>, InsertError<E::Key, E::Value>>
    where
        E::Value: MadeWith<Global>,
        requires { IsVacant self → (v : E.Value) → E.Value.is_made_with v → E.allows (entry_key self) v }
        ensures { InsertsThrough E.lookups.made E.Key.eq ⟦<H as Hashes<E::Key>>⟧.hash_of E.taking self.entry
            (OrInsertsSome E.lookups.made self.entry (λ k v. E.Value.is_made_with v))
            (RefusesSome self.entry (λ k v. E.Value.is_made_with v)) result }
    {
        let alloc = self.allocator();
        self.or_insert_with_key(
            move |_key: &E::Key| -> E::Value
                ensures { E.Value.is_made_with result }
            { E::Value::made_with(alloc) },
        )
    }
}

impl<'a, E: Stored, H: BuildHasher> VacantEntry<'a, E, H>
where
    E::Key: Eq + Hash,
{
    /// Inserts the key with `value`, and returns its entry. If memory is refused, key and value come back and the lock
    /// is released.
    pub fn insert_entry(
        self,
        value: E::Value,
    ) -> Result<OccupiedEntry<'a, E, H>, InsertError<E::Key, E::Value>>
        requires { E.allows (vacant_key self) value }
        ensures { InsertsAtVacant E.lookups.made E.Key.eq ⟦<H as Hashes<E::Key>>⟧.hash_of E.taking self.entry value result }
    {
        let HeldVacant {
            mut guard,
            key,
            hash,
            rest,
            of: _,
        } = self;
        match E::insert_into(&mut *guard, hash, key, value) {
            Ok(place) => Ok(HeldOccupied::at(guard, place, rest)),
            Err(pair) => Err(InsertError::Memory(pair)),
        }
    }
}
