//! The insertion through an entry of a locked stripe that sets the value of an occupied entry.
ghost use Rattle.scc_owned.specs.Held.{entry_key};
ghost use Rattle.scc_owned.specs.Insertions.{InsertsThrough, Refuses};
ghost use Rattle.scc_owned.specs.Lookups.{pair_lookups};
ghost use Rattle.scc_owned.specs.MapEntries.{SetsEntry};
ghost use Rattle.std.specs.Prelude.{◌≡◌, false};

use crate::held::{HeldEntry, HeldOccupied};
use crate::map::locked::{Entry, OccupiedEntry};
use scc_common::{Hashes, InsertError};
use std::hash::{BuildHasher, Hash};

impl<'a, K: Eq + Hash, V, H: BuildHasher> Entry<'a, K, V, H> {
    /// Sets the value of an occupied entry, which keeps its key, or inserts `value` at a vacant entry. Returns the
    /// entry.
    pub fn insert_entry(self, value: V) -> Result<OccupiedEntry<'a, K, V, H>, InsertError<K, V>>
    where
        V: Drop,
        ensures { InsertsThrough pair_lookups.made K.eq ⟦<H as Hashes<K>>⟧.hash_of false self.entry
            (SetsEntry self.entry value) (Refuses self.entry value) result }
    {
        match self {
            HeldEntry::Occupied(entry) => {
                let mut entry = entry;
                let _old = entry.insert(value);
                Ok(entry)
            }
            HeldEntry::Vacant(entry) => entry.insert_entry(value),
        }
    }
}
