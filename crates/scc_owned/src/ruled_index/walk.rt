//! Walks over the pairs of an index under a rule, from place to place. Each closure is lent, and can go on to other
//! indexes. A walk that stops early has read the pairs up to its stop, and says of these alone that they keep the rule.
ghost use Rattle.scc_common.specs.Contents.{entries, notes_of, waiting_of};
ghost use Rattle.scc_common.specs.PairWalks.{Declines, PassesFirst};
ghost use Rattle.scc_common.specs.Pairs.{IsUnique};
ghost use Rattle.scc_common.specs.Steps.{Holds, HoldsExactly};
ghost use Rattle.scc_common.specs.Walks.{CalledOn, CallableWhile, Walks};
ghost use Rattle.scc_owned.specs.IndexWalks.{Retains};
ghost use Rattle.scc_common.specs.Rules.{AllKeep};
ghost use Rattle.scc_common.specs.RuleWalks.{TakesEach};
ghost use Rattle.scc_table.specs.Arrays.{ShrinksByRule};
ghost use Rattle.scc_table.specs.Places.{IsPlace, index_of};
ghost use Rattle.std.specs.Prelude.{◌≡◌, ℕ, List, suc, take, true, IsTrue, MatchOption, ⊤};

use crate::ruled_index::RuledIndex;
use scc_buckets::Place;
use scc_common::Rule;
use std::hash::{BuildHasher, Hash};

impl<K: Eq + Hash, V, R: Rule<K, V>, H: BuildHasher> RuledIndex<K, V, R, H> {
    /// Calls `f` on every pair once, in the order of the list, and removes the versions of the pairs on which `f` returns
    /// false. Then the array may shrink.
    pub fn retain_lent<F: FnMut(&K, &V) -> bool>(&mut self, f: &mut F)
    where
        K: Drop,
        V: Drop,
        requires { TakesEach R.holds F.FnMut }
        ensures step { (stay : List (K × V)) × AllKeep R.holds (entries self.old) × AllKeep R.holds stay
            × Retains (CalledOn F.FnMut) f.old (entries self.old) stay f.new × Holds self.old stay self.new }
        ensures was_unique { IsUnique K.eq self.old }
        ensures unique { IsUnique K.eq self.new }
        ensures array { ShrinksByRule ⊤ self.old self.new }
    {
        self.retain_all(f);
        self.table.shrink();
    }

    /// Walks as `retain_lent` does, without a resize.
    fn retain_all<F: FnMut(&K, &V) -> bool>(&mut self, f: &mut F)
    where
        K: Drop,
        V: Drop,
        requires { TakesEach R.holds F.FnMut }
        ensures step { (stay : List (K × V)) × AllKeep R.holds (entries self.old) × AllKeep R.holds stay
            × Retains (CalledOn F.FnMut) f.old (entries self.old) stay f.new × HoldsExactly self.old stay self.new }
        ensures noted { notes_of self.new ≡ notes_of self.old }
        ensures waiting { waiting_of self.new ≡ waiting_of self.old }
        ensures was_unique { IsUnique K.eq self.old }
    {
        let mut at = self.first_place();
        while let Some(place) = at {
            let (key, value) = self.pair_at(place);
            if f(key, value) {
                at = self.next_place(place);
            } else {
                at = self.take_with_next(place);
            }
        }
    }

    /// Calls `f` on the pairs in the order of the list until `f` returns false. Returns false if it did, else true.
    pub fn iter_lent<F: FnMut(&K, &V) -> bool>(&self, f: &mut F) -> bool
        requires { TakesEach R.holds F.FnMut }
        ensures walks { (n : ℕ) × AllKeep R.holds (take n (entries self.now))
            × Walks (CalledOn F.FnMut) f.old (take n (entries self.now)) result f.new
            × (IsTrue result → take n (entries self.now) ≡ entries self.now) }
        ensures unique { IsUnique K.eq self.now }
    {
        self.walk_while(f)
    }

    /// Calls `f` on the pairs in the order of the list until `f` returns false. Returns false if it did, else true. `f` may
    /// be called on any pairs, whatever the rule says of them.
    pub fn iter_sync<F: FnMut(&K, &V) -> bool>(&self, f: F) -> bool
        requires { CallableWhile F.FnMut true f (entries self.now) }
        ensures { (last : F) × Walks (CalledOn F.FnMut) f (entries self.now) result last }
    {
        let mut f = f;
        self.walk_while(&mut f)
    }

    /// Calls `f` on the pairs in the order of the list until `f` returns false. Returns false if it did, else true. `f` may
    /// be called on the pairs up to any place if each of them keeps the rule.
    fn walk_while<F: FnMut(&K, &V) -> bool>(&self, f: &mut F) -> bool
        requires { (n : ℕ) → AllKeep R.holds (take n (entries self.now))
            → CallableWhile F.FnMut true f.old (take n (entries self.now)) }
        ensures walks { (n : ℕ) × AllKeep R.holds (take n (entries self.now))
            × Walks (CalledOn F.FnMut) f.old (take n (entries self.now)) result f.new
            × (IsTrue result → take n (entries self.now) ≡ entries self.now) }
        ensures unique { IsUnique K.eq self.now }
    {
        let mut at = self.first_place();
        while let Some(place) = at {
            let (key, value) = self.pair_at(place);
            if !f(key, value) {
                return false;
            }
            at = self.next_place(place);
        }
        true
    }

    /// Returns the place of the first pair on which `p` returns true, or `None`. Calls `p` on the pairs in the order of
    /// the list until it returns true.
    pub fn first_passing<P: FnMut(&K, &V) -> bool>(&self, p: &mut P) -> Option<Place>
        requires { TakesEach R.holds P.FnMut }
        ensures place { MatchOption result
            (AllKeep R.holds (entries self.now) × Declines (CalledOn P.FnMut) p.old (entries self.now) p.new)
            (λ place. IsPlace self.now place
            × PassesFirst (CalledOn P.FnMut) p.old (entries self.now) (index_of self.now place)
            × AllKeep R.holds (take (suc (index_of self.now place)) (entries self.now))) }
        ensures unique { IsUnique K.eq self.now }
    {
        let mut at = self.first_place();
        while let Some(place) = at {
            let (key, value) = self.pair_at(place);
            if p(key, value) {
                return Some(place);
            }
            at = self.next_place(place);
        }
        None
    }
}
