//! The insertions through an entry of a borrowed container, alike for maps and indexes. Each goes on from the search that made the entry. `or_insert`,
//! `or_insert_with` and `or_default` call `or_insert_with_key`, `or_try_insert_with` calls `or_try_insert_with_key`.
ghost use Rattle.scc_owned.specs.Held.{entry_guard, entry_key, vacant_guard, vacant_key};
ghost use Rattle.scc_owned.specs.Insertions.{InsertsAtVacant, InsertsThrough, IsVacant, OrInserts, OrInsertsSome, Refuses, RefusesSome, TriesThrough, rests_if_refused, rests_if_tried};
ghost use Rattle.std.specs.Borrow.{sem};
ghost use Rattle.std.specs.Fn.{FnOnceTakesAt, FnOnceReturnsAt};
ghost use Rattle.std.specs.Prelude.{◌≡◌, Ok, Err};

use crate::borrowed::{Entry, OccupiedEntry, VacantEntry};
use crate::held::{HeldEntry, HeldOccupied, HeldVacant};
use crate::stored::Unruled;
use scc_common::{Hashes, InsertError, TryInsertError};
use std::alloc::Global;
use std::default::MadeWith;
use std::hash::{BuildHasher, Hash};

impl<'a, E: Unruled, H: BuildHasher> Entry<'a, E, H>
where
    E::Key: Eq + Hash,
{
    /// Inserts `default` if the entry is vacant, and returns the occupied entry. An occupied entry stays as it is, and
    /// never fails.
    pub fn or_insert(
        self,
        default: E::Value,
    ) -> Result<OccupiedEntry<'a, E, H>, InsertError<E::Key, E::Value>>
    where
        E::Value: Drop,
        ensures inserts { InsertsThrough E.lookups.made E.Key.eq ⟦<H as Hashes<E::Key>>⟧.hash_of E.taking self.entry
            (OrInserts E.lookups.made self.entry default) (Refuses self.entry default) result }
        ensures* kept { sem 𝓛 (rests_if_refused E.row E.Value.row H.row E.Key.row H.Hasher.row E.taking E.Keyed E.Key.Hash H.BuildHasher H.Hasher.Hasher
            (entry_guard self.entry) (entry_key self.entry) result) }
    {
        self.or_insert_with_key(
            move |_key: &E::Key| -> E::Value
                ensures { result ≡ default }
            { default },
        )
    }

    /// Inserts the result of `f` if the entry is vacant, and returns the occupied entry. `f` isn't called on an
    /// occupied entry.
    pub fn or_insert_with<F: FnOnce() -> E::Value>(
        self,
        f: F,
    ) -> Result<OccupiedEntry<'a, E, H>, InsertError<E::Key, E::Value>>
        requires { IsVacant self → F.pre f }
        ensures inserts { InsertsThrough E.lookups.made E.Key.eq ⟦<H as Hashes<E::Key>>⟧.hash_of E.taking self.entry
            (OrInsertsSome E.lookups.made self.entry (λ k v. F.post f v)) (RefusesSome self.entry (λ k v. F.post f v)) result }
        ensures* kept { sem 𝓛 (rests_if_refused E.row E.Value.row H.row E.Key.row H.Hasher.row E.taking E.Keyed E.Key.Hash H.BuildHasher H.Hasher.Hasher
            (entry_guard self.entry) (entry_key self.entry) result) }
    {
        self.or_insert_with_key(
            move |_key: &E::Key| -> E::Value
                requires { F.pre f }
                ensures { F.post f result }
            { f() },
        )
    }

    /// Inserts the result of `f` on the key if the entry is vacant, and returns the occupied entry. `f` isn't called
    /// on an occupied entry.
    pub fn or_insert_with_key<F: FnOnce(&E::Key) -> E::Value>(
        self,
        f: F,
    ) -> Result<OccupiedEntry<'a, E, H>, InsertError<E::Key, E::Value>>
        requires { IsVacant self → FnOnceTakesAt F.FnOnce f (entry_key self) }
        ensures inserts { InsertsThrough E.lookups.made E.Key.eq ⟦<H as Hashes<E::Key>>⟧.hash_of E.taking self.entry
            (OrInsertsSome E.lookups.made self.entry (FnOnceReturnsAt F.FnOnce f))
            (RefusesSome self.entry (FnOnceReturnsAt F.FnOnce f)) result }
        ensures* kept { sem 𝓛 (rests_if_refused E.row E.Value.row H.row E.Key.row H.Hasher.row E.taking E.Keyed E.Key.Hash H.BuildHasher H.Hasher.Hasher
            (entry_guard self.entry) (entry_key self.entry) result) }
    {
        match self {
            HeldEntry::Occupied(entry) => {
                let HeldOccupied {
                    guard,
                    place,
                    rest,
                    of: _,
                } = entry;
                Ok(HeldOccupied::at(guard, place, rest))
            }
            HeldEntry::Vacant(entry) => {
                let value = f(entry.key());
                entry.insert_entry(value)
            }
        }
    }

    /// Inserts the value that `f` makes if the entry is vacant, and returns the occupied entry. If `f` fails, its error
    /// comes back, the key is dropped and the container stays as it is. `f` isn't called on an occupied entry.
    pub fn or_try_insert_with<X, F: FnOnce() -> Result<E::Value, X>>(
        self,
        f: F,
    ) -> Result<OccupiedEntry<'a, E, H>, TryInsertError<E::Key, E::Value, X>>
    where
        E::Key: Drop,
        requires { IsVacant self → F.pre f }
        ensures inserts { TriesThrough E.lookups.made E.Key.eq ⟦<H as Hashes<E::Key>>⟧.hash_of E.taking self.entry (λ k v. F.post f (Ok v))
            (λ k x. F.post f (Err x)) result }
        ensures* kept { sem 𝓛 (rests_if_tried E.row E.Value.row H.row E.Key.row H.Hasher.row E.taking E.Keyed E.Key.Hash H.BuildHasher H.Hasher.Hasher
            (entry_guard self.entry) (entry_key self.entry) result) }
    {
        self.or_try_insert_with_key(
            move |_key: &E::Key| -> Result<E::Value, X>
                requires { F.pre f }
                ensures { F.post f result }
            { f() },
        )
    }

    /// Inserts the value that `f` makes of the key if the entry is vacant, and returns the occupied entry. If `f` fails,
    /// its error comes back, the key is dropped and the container stays as it is. `f` isn't called on an occupied entry.
    pub fn or_try_insert_with_key<X, F: FnOnce(&E::Key) -> Result<E::Value, X>>(
        self,
        f: F,
    ) -> Result<OccupiedEntry<'a, E, H>, TryInsertError<E::Key, E::Value, X>>
    where
        E::Key: Drop,
        requires { IsVacant self → FnOnceTakesAt F.FnOnce f (entry_key self) }
        ensures inserts { TriesThrough E.lookups.made E.Key.eq ⟦<H as Hashes<E::Key>>⟧.hash_of E.taking self.entry
            (λ k v. FnOnceReturnsAt F.FnOnce f k (Ok v)) (λ k x. FnOnceReturnsAt F.FnOnce f k (Err x)) result }
        ensures* kept { sem 𝓛 (rests_if_tried E.row E.Value.row H.row E.Key.row H.Hasher.row E.taking E.Keyed E.Key.Hash H.BuildHasher H.Hasher.Hasher
            (entry_guard self.entry) (entry_key self.entry) result) }
    {
        match self {
            HeldEntry::Occupied(entry) => {
                let HeldOccupied {
                    guard,
                    place,
                    rest,
                    of: _,
                } = entry;
                Ok(HeldOccupied::at(guard, place, rest))
            }
            HeldEntry::Vacant(entry) => {
                let HeldVacant {
                    guard,
                    key,
                    hash,
                    rest,
                    of: _,
                } = entry;
                match f(&key) {
                    Ok(value) => match E::insert_into(guard, hash, key, value) {
                        Ok(place) => Ok(HeldOccupied::at(guard, place, rest)),
                        Err(pair) => Err(TryInsertError::Memory(pair)),
                    },
                    Err(error) => Err(TryInsertError::Failed(error)),
                }
            }
        }
    }

    /// Inserts the default value if the entry is vacant, and returns the occupied entry.
    pub fn or_default(self) -> Result<OccupiedEntry<'a, E, H>, InsertError<E::Key, E::Value>>
    where
        E::Value: MadeWith<Global>,
        ensures inserts { InsertsThrough E.lookups.made E.Key.eq ⟦<H as Hashes<E::Key>>⟧.hash_of E.taking self.entry
            (OrInsertsSome E.lookups.made self.entry (λ k v. E.Value.is_made_with v)) (RefusesSome self.entry (λ k v. E.Value.is_made_with v)) result }
        ensures* kept { sem 𝓛 (rests_if_refused E.row E.Value.row H.row E.Key.row H.Hasher.row E.taking E.Keyed E.Key.Hash H.BuildHasher H.Hasher.Hasher
            (entry_guard self.entry) (entry_key self.entry) result) }
    {
        let alloc = self.allocator();
        self.or_insert_with_key(
            move |_key: &E::Key| -> E::Value
                ensures { E.Value.is_made_with result }
            { E::Value::made_with(alloc) },
        )
    }
}

impl<'a, E: Unruled, H: BuildHasher> VacantEntry<'a, E, H>
where
    E::Key: Eq + Hash,
{
    /// Inserts the key with `value`, and returns its entry. If memory is refused, key and value come back.
    pub fn insert_entry(
        self,
        value: E::Value,
    ) -> Result<OccupiedEntry<'a, E, H>, InsertError<E::Key, E::Value>>
        ensures inserts { InsertsAtVacant E.lookups.made E.Key.eq ⟦<H as Hashes<E::Key>>⟧.hash_of E.taking self.entry value result }
        ensures* kept { sem 𝓛 (rests_if_refused E.row E.Value.row H.row E.Key.row H.Hasher.row E.taking E.Keyed E.Key.Hash H.BuildHasher H.Hasher.Hasher
            (vacant_guard self.entry) (vacant_key self.entry) result) }
    {
        let HeldVacant {
            guard,
            key,
            hash,
            rest,
            of: _,
        } = self;
        match E::insert_into(guard, hash, key, value) {
            Ok(place) => Ok(HeldOccupied::at(guard, place, rest)),
            Err(pair) => Err(InsertError::Memory(pair)),
        }
    }
}
