//! Entries in the order of the index's list.
ghost use Rattle.scc_common.specs.Contents.{entries, waiting_of};
ghost use Rattle.scc_common.specs.PairWalks.{PassesAt, PassesNone};
ghost use Rattle.scc_common.specs.Pairs.{IsUnique};
ghost use Rattle.scc_common.specs.Walks.{CalledOn, CallableWhile};
ghost use Rattle.scc_owned.specs.Lends.{pair_keys, version_row};
ghost use Rattle.scc_owned.specs.Held.{occupied_contents, occupied_pair, occupied_front, occupied_back, rests_if_none, occupied_guard};
ghost use Rattle.scc_owned.specs.EntrySteps.{StandsIn, IsNext, IsNextPastRemoved, rests_removed_alone};
ghost use Rattle.std.specs.Borrow.{sem};
ghost use Rattle.std.specs.Prelude.{◌≡◌, [], IfSome, IfNone, false};

use crate::Index;
use crate::held::HeldOccupied;
use crate::index::borrowed::OccupiedEntry;
use std::hash::{BuildHasher, Hash};

impl<K: Eq + Hash, V, H: BuildHasher> Index<K, V, H> {
    /// Returns the first entry of the index's list on whose pair `p` returns true, or `None` if there is none. Calls
    /// `p` on the pairs in the order of the list until it returns true.
    pub fn any_sync<P: FnMut(&K, &V) -> bool>(&mut self, p: P) -> Option<OccupiedEntry<'_, K, V, H>>
        requires { CallableWhile P.FnMut false p (entries self.old) }
        ensures same_index { IfSome result (λ o. (occupied_guard o).ghost_name ≡ self.entry.ghost_name) }
        ensures here { IfSome result (StandsIn self.old) }
        ensures first { IfSome result (λ o. PassesAt (CalledOn P.FnMut) p (occupied_front o) (occupied_pair o)) }
        ensures none { IfNone result (PassesNone (CalledOn P.FnMut) p (entries self.old)) }
        ensures* kept { sem 𝓛 (rests_if_none (version_row K.row V.row) H.row K.row H.Hasher.row pair_keys K.Hash H.BuildHasher H.Hasher.Hasher
            self.entry result) }
    {
        let mut p = p;
        match self.first_passing(&mut p) {
            Some(place) => Some(HeldOccupied::at(self, place, ())),
            None => None,
        }
    }
}

impl<'a, K: Eq + Hash, V, H: BuildHasher> OccupiedEntry<'a, K, V, H> {
    /// Removes the version, and returns the entry that stood next in the index's list, or `None` if the version was
    /// the last. Resizes nothing. Holders of the version keep it.
    pub fn remove_and_sync(self) -> Option<OccupiedEntry<'a, K, V, H>>
    where
        K: Drop,
        V: Drop,
        ensures next { IfSome result (IsNextPastRemoved self.entry) }
        ensures waiting { IfSome result (λ o. waiting_of (occupied_contents o) ≡ waiting_of (occupied_contents self.entry)) }
        ensures unique { IfSome result (λ o. IsUnique K.eq (occupied_contents o)) }
        ensures last { IfNone result (occupied_back self.entry ≡ []) }
        ensures* kept { sem 𝓛 (rests_removed_alone (version_row K.row V.row) H.row K.row H.Hasher.row pair_keys K.Hash H.BuildHasher H.Hasher.Hasher
            self.entry result) }
    {
        let HeldOccupied {
            guard,
            place,
            rest,
            of: _,
        } = self;
        match guard.take_with_next(place) {
            Some(place) => Some(HeldOccupied::at(guard, place, rest)),
            None => None,
        }
    }
}
