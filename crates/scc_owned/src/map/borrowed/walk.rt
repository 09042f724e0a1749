//! Entries in the order of the map's list.
ghost use Rattle.scc_common.specs.Contents.{entries};
ghost use Rattle.scc_common.specs.PairWalks.{PassesAt, PassesNone};
ghost use Rattle.scc_common.specs.Walks.{CalledOn, CallableWhile};
ghost use Rattle.scc_owned.specs.Lends.{pair_keys, pair_row};
ghost use Rattle.scc_owned.specs.Held.{occupied_pair, occupied_front, occupied_back, rests_if_none, occupied_guard};
ghost use Rattle.scc_owned.specs.EntrySteps.{StandsIn, IsNext, RemovesWithNext, rests_removed};
ghost use Rattle.std.specs.Borrow.{sem};
ghost use Rattle.std.specs.Prelude.{◌≡◌, [], IfSome, IfNone, false};

use crate::Map;
use crate::held::HeldOccupied;
use crate::map::borrowed::OccupiedEntry;
use std::hash::{BuildHasher, Hash};

impl<K: Eq + Hash, V, H: BuildHasher> Map<K, V, H> {
    /// Returns the first entry of the map's list on whose pair `p` returns true, or `None` if there is none. Calls `p`
    /// on the pairs in the order of the list until it returns true.
    pub fn any_sync<P: FnMut(&K, &V) -> bool>(&mut self, p: P) -> Option<OccupiedEntry<'_, K, V, H>>
        requires { CallableWhile P.FnMut false p (entries self.old) }
        ensures same_map { IfSome result (λ o. (occupied_guard o).ghost_name ≡ self.entry.ghost_name) }
        ensures here { IfSome result (StandsIn self.old) }
        ensures first { IfSome result (λ o. PassesAt (CalledOn P.FnMut) p (occupied_front o) (occupied_pair o)) }
        ensures none { IfNone result (PassesNone (CalledOn P.FnMut) p (entries self.old)) }
        ensures* kept { sem 𝓛 (rests_if_none (pair_row K.row V.row) H.row K.row H.Hasher.row pair_keys K.Hash H.BuildHasher H.Hasher.Hasher
            self.entry result) }
    {
        let mut p = p;
        match self.first_passing(&mut p) {
            Some(place) => Some(HeldOccupied::at(self, place, ())),
            None => None,
        }
    }
}

impl<'a, K: Eq + Hash, V, H: BuildHasher> OccupiedEntry<'a, K, V, H> {
    /// Removes the pair, and returns it with the entry that stood next in the map's list. If the pair was the last,
    /// returns it alone, as an `Err`. Resizes nothing.
    pub fn remove_and_sync(self) -> Result<((K, V), OccupiedEntry<'a, K, V, H>), (K, V)>
        ensures removes { RemovesWithNext K.eq self.entry result }
        ensures* kept { sem 𝓛 (rests_removed (pair_row K.row V.row) H.row K.row H.Hasher.row pair_keys K.Hash H.BuildHasher H.Hasher.Hasher
            self.entry result) }
    {
        let HeldOccupied {
            guard,
            place,
            rest,
            of: _,
        } = self;
        let (pair, next) = guard.take_with_next(place);
        match next {
            Some(place) => Ok((pair, HeldOccupied::at(guard, place, rest))),
            None => Err(pair),
        }
    }
}
