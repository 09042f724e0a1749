//! The calls at a place of a set, by which an entry goes from key to key.
ghost use Rattle.scc_common.specs.Contents.{entries, notes_of, waiting_of};
ghost use Rattle.scc_common.specs.Steps.{Holds, HoldsExactly};
ghost use Rattle.scc_owned_set.specs.Keys.{IsUnique};
ghost use Rattle.scc_owned_set.specs.SetWalks.{CallableWhile, PassesAt, PassesNone};
ghost use Rattle.scc_table.specs.Arrays.{ShrinksByRule};
ghost use Rattle.scc_table.specs.Placed.{front_of};
ghost use Rattle.scc_table.specs.Places.{IsPlace, StandsAt, index_of};
ghost use Rattle.std.specs.Fn.{CalledAt};
ghost use Rattle.std.specs.Prelude.{◌≡◌, [], suc, length, remove, slice_get, Some, MatchOption, ⊤, false};

use crate::Owned;
use scc_buckets::Place;
use std::hash::{BuildHasher, Hash};

impl<K: Eq + Hash, H: BuildHasher> Owned<K, H> {
    /// Returns the place of the first key of the list, or `None` if the set is empty.
    pub(crate) fn first_place(&self) -> Option<Place>
        ensures { MatchOption result (entries self.now ≡ []) (StandsAt self.now 0) }
    {
        self.map.first_place()
    }

    /// Returns the place after `place`, or `None` if `place` is the last.
    pub(crate) fn next_place(&self, place: Place) -> Option<Place>
        requires { IsPlace self.now place }
        ensures { MatchOption result (suc (index_of self.now place) ≡ length (entries self.now))
            (StandsAt self.now (suc (index_of self.now place))) }
    {
        self.map.next_place(place)
    }

    /// Returns the key at `place`.
    pub fn key_at(&self, place: Place) -> &K
        requires { IsPlace self.now place }
        ensures { slice_get (entries self.now) (index_of self.now place) ≡ Some result.now }
    {
        self.map.pair_at(place).0
    }

    /// Returns the place of the first key on which `p` returns true, or `None`. Calls `p` on the keys in the order of
    /// the list until it returns true.
    pub(crate) fn first_passing<P: FnMut(&K) -> bool>(&self, mut p: P) -> Option<Place>
        requires { CallableWhile P.FnMut (λ answer. answer ≡ false) p (entries self.now) }
        ensures { MatchOption result (PassesNone (CalledAt P.FnMut) p (entries self.now))
            (λ place. IsPlace self.now place
            × ((k : K) → slice_get (entries self.now) (index_of self.now place) ≡ Some k
            → PassesAt (CalledAt P.FnMut) p (front_of self.now place) k)) }
    {
        let mut at = self.first_place();
        while let Some(place) = at {
            if p(self.key_at(place)) {
                return Some(place);
            }
            at = self.next_place(place);
        }
        None
    }

    /// Removes the key at `place` and returns it. Then the array may shrink.
    pub(crate) fn remove_at(&mut self, place: Place) -> K
        requires { IsPlace self.old place }
        ensures key { slice_get (entries self.old) (index_of self.old place) ≡ Some result }
        ensures others { Holds self.old (remove (entries self.old) (index_of self.old place)) self.new }
        ensures unique { IsUnique K.eq self.new }
        ensures array { ShrinksByRule ⊤ self.old self.new }
    {
        self.map.remove_at(place).0
    }

    /// Removes the key at `place` without a resize, and returns it with the place of the key that followed.
    pub(crate) fn take_with_next(&mut self, place: Place) -> (K, Option<Place>)
        requires { IsPlace self.old place }
        ensures key { slice_get (entries self.old) (index_of self.old place) ≡ Some result.0 }
        ensures others { HoldsExactly self.old (remove (entries self.old) (index_of self.old place)) self.new }
        ensures noted { notes_of self.new ≡ notes_of self.old }
        ensures waiting { waiting_of self.new ≡ waiting_of self.old }
        ensures next { MatchOption result.1 (suc (index_of self.old place) ≡ length (entries self.old))
            (StandsAt self.new (index_of self.old place)) }
        ensures unique { IsUnique K.eq self.new }
    {
        let (pair, next) = self.map.take_with_next(place);
        (pair.0, next)
    }
}
