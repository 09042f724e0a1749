//! The calls that make an entry of a borrowed container, alike for maps and indexes. An entry holds the place that one
//! search found.
ghost use Rattle.scc_common.specs.Contents.{entries, IsUniqueBy};
ghost use Rattle.scc_owned.specs.Held.{entry_guard, occupied_guard, rests_if_none};
ghost use Rattle.scc_owned.specs.Lookups.{IsEntryOf, IsOccupiedAt};
ghost use Rattle.std.specs.Borrow.{sem};
ghost use Rattle.std.specs.Prelude.{◌≡◌, None, IfSome, IfNone};

use crate::Owned;
use crate::borrowed::{Entry, OccupiedEntry};
use crate::held::{HeldEntry, HeldOccupied, HeldVacant};
use crate::stored::Stored;
use std::hash::{BuildHasher, Hash};

impl<E: Stored, H: BuildHasher> Owned<E, H>
where
    E::Key: Eq + Hash,
{
    /// Returns the entry of `k`: occupied at the stored pair, or vacant with `k`. Allocates nothing and makes no
    /// array.
    pub fn entry_sync(&mut self, k: E::Key) -> Entry<'_, E, H>
    where
        E::Key: Drop,
        ensures same_container { (entry_guard result).ghost_name ≡ self.entry.ghost_name }
        ensures entry { IsEntryOf E.lookups E.Key.eq self.old k result }
        ensures unique { IsUniqueBy E.Key.eq E.key_of self.old }
    {
        let hash = self.table.hash(&k);
        match self.table.search(hash, &k) {
            Some(place) => HeldEntry::Occupied(HeldOccupied::at(self, place, ())),
            None => HeldEntry::Vacant(HeldVacant::of_key(self, k, hash, ())),
        }
    }

    /// Returns the occupied entry of `k`, or `None` if no key equals `k`.
    pub fn get_sync(&mut self, k: &E::Key) -> Option<OccupiedEntry<'_, E, H>>
        ensures same_container { IfSome result (λ o. (occupied_guard o).ghost_name ≡ self.entry.ghost_name) }
        ensures entry { IfSome result (IsOccupiedAt E.lookups E.Key.eq self.old k.now) }
        ensures unique { IsUniqueBy E.Key.eq E.key_of self.old }
        ensures missing { IfNone result (E.lookups.find (E.Key.eq k.now) (entries self.old) ≡ None) }
        ensures* kept { sem 𝓛 (rests_if_none E.row H.row E.Key.row H.Hasher.row E.Keyed E.Key.Hash H.BuildHasher H.Hasher.Hasher
            self.entry result) }
    {
        let hash = self.table.hash(k);
        match self.table.search(hash, k) {
            Some(place) => Some(HeldOccupied::at(self, place, ())),
            None => None,
        }
    }
}
