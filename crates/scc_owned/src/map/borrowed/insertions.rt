//! The insertion through an entry of a borrowed map that sets the value of an occupied entry.
ghost use Rattle.scc_owned.specs.Held.{entry_guard, entry_key};
ghost use Rattle.scc_owned.specs.Insertions.{InsertsThrough, Refuses, rests_if_refused};
ghost use Rattle.scc_owned.specs.Lends.{pair_keys, pair_row};
ghost use Rattle.scc_owned.specs.Lookups.{pair_lookups};
ghost use Rattle.scc_owned.specs.MapEntries.{SetsEntry};
ghost use Rattle.std.specs.Borrow.{sem};
ghost use Rattle.std.specs.Prelude.{◌≡◌, false};

use crate::held::{HeldEntry, HeldOccupied};
use crate::map::borrowed::{Entry, OccupiedEntry};
use scc_common::{Hashes, InsertError};
use std::hash::{BuildHasher, Hash};

impl<'a, K: Eq + Hash, V, H: BuildHasher> Entry<'a, K, V, H> {
    /// Sets the value of an occupied entry, which keeps its key, or inserts `value` at a vacant entry. Returns the
    /// entry.
    pub fn insert_entry(self, value: V) -> Result<OccupiedEntry<'a, K, V, H>, InsertError<K, V>>
    where
        V: Drop,
        ensures inserts { InsertsThrough pair_lookups.made K.eq ⟦<H as Hashes<K>>⟧.hash_of false self.entry
            (SetsEntry self.entry value) (Refuses self.entry value) result }
        ensures* kept { sem 𝓛 (rests_if_refused (pair_row K.row V.row) V.row H.row K.row H.Hasher.row false pair_keys K.Hash H.BuildHasher H.Hasher.Hasher
            (entry_guard self.entry) (entry_key self.entry) result) }
    {
        match self {
            HeldEntry::Occupied(entry) => {
                let HeldOccupied {
                    guard,
                    place,
                    rest,
                    of,
                } = entry;
                let _old = guard.write_at(place, value);
                Ok(HeldOccupied {
                    guard,
                    place,
                    rest,
                    of,
                })
            }
            HeldEntry::Vacant(entry) => entry.insert_entry(value),
        }
    }
}
