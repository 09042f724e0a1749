//! Walks over the pairs of an index, from place to place.
ghost use Rattle.scc_common.specs.Contents.{entries, notes_of, waiting_of};
ghost use Rattle.scc_common.specs.PairWalks.{Declines, PassesFirst};
ghost use Rattle.scc_common.specs.Pairs.{IsUnique};
ghost use Rattle.scc_common.specs.Steps.{Holds, HoldsExactly};
ghost use Rattle.scc_common.specs.Walks.{CalledOn, CallableWhile, Walks};
ghost use Rattle.scc_owned.specs.IndexWalks.{CallableOnAll, Retains};
ghost use Rattle.scc_table.specs.Arrays.{ShrinksByRule};
ghost use Rattle.scc_table.specs.Places.{IsPlace, StandsAt, index_of};
ghost use Rattle.std.specs.List.Sorted.{IsPermutation};
ghost use Rattle.std.specs.Prelude.{◌≡◌, suc, List, [], length, remove, MatchOption, ⊤, false, true};

use crate::Index;
use scc_buckets::Place;
use std::hash::{BuildHasher, Hash};

impl<K: Eq + Hash, V, H: BuildHasher> Index<K, V, H> {
    /// Calls `f` on every pair once, in some order, and removes the versions of the pairs on which `f` returns false.
    /// Then the array may shrink.
    pub fn retain_sync<F: FnMut(&K, &V) -> bool>(&mut self, f: F)
    where
        K: Drop,
        V: Drop,
        requires { (es : List (K × V)) → IsPermutation (entries self.old) es → CallableOnAll F.FnMut f es }
        ensures step { (es : List (K × V)) × (stay : List (K × V)) × (last : F) × IsPermutation (entries self.old) es
            × Retains (CalledOn F.FnMut) f es stay last × Holds self.old stay self.new }
        ensures unique { IsUnique K.eq self.new }
        ensures array { ShrinksByRule ⊤ self.old self.new }
    {
        let mut f = f;
        self.retain_lent(&mut f);
    }

    /// As `retain_sync`, but the closure is lent, and can go on to other indexes.
    pub fn retain_lent<F: FnMut(&K, &V) -> bool>(&mut self, f: &mut F)
    where
        K: Drop,
        V: Drop,
        requires { (es : List (K × V)) → IsPermutation (entries self.old) es → CallableOnAll F.FnMut f.old es }
        ensures step { (es : List (K × V)) × (stay : List (K × V)) × IsPermutation (entries self.old) es
            × Retains (CalledOn F.FnMut) f.old es stay f.new × Holds self.old stay self.new }
        ensures was_unique { IsUnique K.eq self.old }
        ensures unique { IsUnique K.eq self.new }
        ensures array { ShrinksByRule ⊤ self.old self.new }
    {
        self.retain_all(f);
        self.table.shrink();
    }

    /// Walks as `retain_lent` does, in the order of the list and without a resize.
    fn retain_all<F: FnMut(&K, &V) -> bool>(&mut self, f: &mut F)
    where
        K: Drop,
        V: Drop,
        requires { CallableOnAll F.FnMut f.old (entries self.old) }
        ensures step { (stay : List (K × V)) × Retains (CalledOn F.FnMut) f.old (entries self.old) stay f.new
            × HoldsExactly self.old stay self.new }
        ensures was_unique { IsUnique K.eq self.old }
        ensures noted { notes_of self.new ≡ notes_of self.old }
        ensures waiting { waiting_of self.new ≡ waiting_of self.old }
    {
        let mut at = self.first_place();
        while let Some(place) = at {
            let (key, value) = self.pair_at(place);
            if f(key, value) {
                at = self.next_place(place);
            } else {
                at = self.take_with_next(place);
            }
        }
    }

    /// Returns the place of the first pair on which `p` returns true, or `None`. Calls `p` on the pairs in the order
    /// of the list until it returns true.
    pub fn first_passing<P: FnMut(&K, &V) -> bool>(&self, p: &mut P) -> Option<Place>
        requires { CallableWhile P.FnMut false p.old (entries self.now) }
        ensures place { MatchOption result (Declines (CalledOn P.FnMut) p.old (entries self.now) p.new)
            (λ place. IsPlace self.now place
            × PassesFirst (CalledOn P.FnMut) p.old (entries self.now) (index_of self.now place)) }
        ensures unique { IsUnique K.eq self.now }
    {
        let mut at = self.first_place();
        while let Some(place) = at {
            let (key, value) = self.pair_at(place);
            if p(key, value) {
                return Some(place);
            }
            at = self.next_place(place);
        }
        None
    }

    /// Calls `f` on the pairs in the order of the list until `f` returns false. Returns false if it did, else true.
    /// The closure is lent, and can go on to other indexes.
    pub fn iter_lent<F: FnMut(&K, &V) -> bool>(&self, f: &mut F) -> bool
        requires { CallableWhile F.FnMut true f.old (entries self.now) }
        ensures walks { Walks (CalledOn F.FnMut) f.old (entries self.now) result f.new }
        ensures unique { IsUnique K.eq self.now }
    {
        let mut at = self.first_place();
        while let Some(place) = at {
            let (key, value) = self.pair_at(place);
            if !f(key, value) {
                return false;
            }
            at = self.next_place(place);
        }
        true
    }
}
