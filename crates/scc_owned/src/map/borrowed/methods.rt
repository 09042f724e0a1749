//! The calls that make an entry of a borrowed map, and those that end the borrow. An entry holds the place that one
//! search found.
ghost use Rattle.scc_common.specs.Contents.{notes_of, waiting_of};
ghost use Rattle.scc_common.specs.Pairs.{IsUnique};
ghost use Rattle.scc_common.specs.Steps.{Holds};
ghost use Rattle.scc_owned.specs.Held.{occupied_contents, occupied_pair, occupied_front, occupied_back};
ghost use Rattle.scc_owned.specs.MapEntries.{replaced_guard, Replaces};
ghost use Rattle.scc_table.specs.Arrays.{ShrinksByRule};
ghost use Rattle.std.specs.Prelude.{◌≡◌, ◌++◌, None, ⊤};

use crate::Map;
use crate::held::{HeldOccupied, HeldReplace, HeldVacant};
use crate::map::borrowed::ReplaceResult;
use std::hash::{BuildHasher, Hash};

impl<K: Eq + Hash, V, H: BuildHasher> Map<K, V, H> {
    /// Puts `k` in the place of the key that equals it, keeps the value, and returns the entry with the old key. If no
    /// key equals `k`, inserts nothing and returns the vacant entry. Allocates nothing.
    pub fn replace_sync(&mut self, k: K) -> ReplaceResult<'_, K, V, H>
        ensures same_map { (replaced_guard result).ghost_name ≡ self.entry.ghost_name }
        ensures step { Replaces K.eq self.old k result }
        ensures noted { notes_of (replaced_guard result).now ≡ notes_of self.old }
        ensures waiting { waiting_of (replaced_guard result).now ≡ waiting_of self.old }
        ensures unique { IsUnique K.eq (replaced_guard result).now }
    {
        let hash = self.table.hash(&k);
        match self.table.search(hash, &k) {
            Some(place) => {
                let old = self.replace_key_at(place, k);
                HeldReplace::Replaced(HeldOccupied::at(self, place, ()), old)
            }
            None => HeldReplace::NotReplaced(HeldVacant::of_key(self, k, hash, ())),
        }
    }
}

impl<'a, N, K: Eq + Hash, V, H: BuildHasher> HeldOccupied<&'a mut Map<K, V, H>, N, (K, V), H> {
    /// Removes the pair, and returns its value. The array may shrink.
    pub fn remove(self) -> V
    where
        N: Drop,
        K: Drop,
        ensures value { result ≡ (occupied_pair self.entry).1 }
        ensures removed { Holds (occupied_contents self.entry) (occupied_front self.entry ++ occupied_back self.entry)
            self.exit.0.now }
        ensures unique { IsUnique K.eq self.exit.0.now }
        ensures array { ShrinksByRule ⊤ (occupied_contents self.entry) self.exit.0.now }
    {
        let (_key, value) = self.remove_entry();
        value
    }

    /// Removes the pair, and returns it. The array may shrink.
    pub fn remove_entry(self) -> (K, V)
    where
        N: Drop,
        ensures pair { result ≡ occupied_pair self.entry }
        ensures removed { Holds (occupied_contents self.entry) (occupied_front self.entry ++ occupied_back self.entry)
            self.exit.0.now }
        ensures unique { IsUnique K.eq self.exit.0.now }
        ensures array { ShrinksByRule ⊤ (occupied_contents self.entry) self.exit.0.now }
    {
        let place = self.place;
        self.guard.remove_at(place)
    }
}
