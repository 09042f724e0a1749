//! Walks over the pairs of a map, from place to place.
ghost use Rattle.scc_common.specs.Contents.{entries};
ghost use Rattle.scc_common.specs.PairWalks.{Declines, PassesFirst};
ghost use Rattle.scc_common.specs.Pairs.{IsUnique};
ghost use Rattle.scc_common.specs.Walks.{CalledOn, CallableWhile, Walks};
ghost use Rattle.scc_owned.specs.Shrinking.{TakesWithNextByRule};
ghost use Rattle.scc_table.specs.Places.{IsPlace, index_of, StandsAt};
ghost use Rattle.std.specs.Prelude.{◌≡◌, [], suc, length, Some, MatchOption, false, true};

use crate::Map;
use scc_buckets::Place;
use std::hash::{BuildHasher, Hash};

impl<K: Eq + Hash, V, H: BuildHasher> Map<K, V, H> {
    /// Returns the place of the first pair on which `p` returns true, or `None`. Calls `p` on the pairs in the order
    /// of the list until it returns true.
    pub fn first_passing<P: FnMut(&K, &V) -> bool>(&self, p: &mut P) -> Option<Place>
        requires { CallableWhile P.FnMut false p.old (entries self.now) }
        ensures place { MatchOption result (Declines (CalledOn P.FnMut) p.old (entries self.now) p.new)
            (λ place. IsPlace self.now place
            × PassesFirst (CalledOn P.FnMut) p.old (entries self.now) (index_of self.now place)) }
        ensures unique { IsUnique K.eq self.now }
    {
        let mut at = self.first_place();
        while let Some(place) = at {
            let (key, value) = self.table.pair_at(place);
            if p(key, value) {
                return Some(place);
            }
            at = self.next_place(place);
        }
        None
    }

    /// Calls `f` on the pairs in the order of the list until `f` returns false. Returns false if it did, else true.
    /// The closure is lent, and can go on to other maps.
    pub fn iter_lent<F: FnMut(&K, &V) -> bool>(&self, f: &mut F) -> bool
        requires { CallableWhile F.FnMut true f.old (entries self.now) }
        ensures walks { Walks (CalledOn F.FnMut) f.old (entries self.now) result f.new }
        ensures unique { IsUnique K.eq self.now }
    {
        let mut at = self.first_place();
        while let Some(place) = at {
            let (key, value) = self.table.pair_at(place);
            if !f(key, value) {
                return false;
            }
            at = self.next_place(place);
        }
        true
    }
}
