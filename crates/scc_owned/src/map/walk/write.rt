//! Walks that write into the pairs of a map, and take pairs out of it.
ghost use Rattle.scc_common.specs.Contents.{entries, notes_of, waiting_of};
ghost use Rattle.scc_common.specs.PairWalks.{CallableToWrite, CalledToWrite, Retains, TakesToWrite};
ghost use Rattle.scc_common.specs.Pairs.{IsUnique, with_pair_value};
ghost use Rattle.scc_common.specs.Steps.{Holds, HoldsExactly};
ghost use Rattle.scc_owned.specs.Shrinking.{ClearsByRule, RetainsByRule};
ghost use Rattle.scc_table.specs.Places.{IsPlace, index_of, with_write_at};
ghost use Rattle.std.specs.List.Sorted.{IsPermutation};
ghost use Rattle.std.specs.Prelude.{◌≡◌, List, [], Some, slice_get, ⊤};

use crate::Map;
use scc_buckets::Place;
use std::hash::{BuildHasher, Hash};

impl<K: Eq + Hash, V, H: BuildHasher> Map<K, V, H> {
    /// Calls `f` on every pair once, in some order, with the value to write, and removes the pairs on which `f`
    /// returns false. Then the array may shrink.
    pub fn retain_sync<F: FnMut(&K, &mut V) -> bool>(&mut self, f: F)
    where
        K: Drop,
        V: Drop,
        requires { (es : List (K × V)) → IsPermutation (entries self.old) es
            → CallableToWrite F.FnMut (λ answer. ⊤) f es }
        ensures { RetainsByRule (IsUnique K.eq) ((es : List (K × V)) × (stay : List (K × V)) × (last : F)
            × IsPermutation (entries self.old) es × Retains (CalledToWrite F.FnMut) f es stay last
            × Holds self.old stay self.new) self.old self.new }
    {
        let mut f = f;
        self.retain_lent(&mut f);
    }

    /// As `retain_sync`, but the closure is lent, and can go on to other maps.
    pub fn retain_lent<F: FnMut(&K, &mut V) -> bool>(&mut self, f: &mut F)
    where
        K: Drop,
        V: Drop,
        requires { (es : List (K × V)) → IsPermutation (entries self.old) es
            → CallableToWrite F.FnMut (λ answer. ⊤) f.old es }
        ensures { RetainsByRule (IsUnique K.eq) ((es : List (K × V)) × (stay : List (K × V))
            × IsPermutation (entries self.old) es × Retains (CalledToWrite F.FnMut) f.old es stay f.new
            × Holds self.old stay self.new) self.old self.new }
    {
        self.retain_all(f);
        self.table.shrink();
    }

    /// Walks as `retain_lent` does, in the order of the list and without a resize.
    fn retain_all<F: FnMut(&K, &mut V) -> bool>(&mut self, f: &mut F)
    where
        K: Drop,
        V: Drop,
        requires { CallableToWrite F.FnMut (λ answer. ⊤) f.old (entries self.old) }
        ensures step { (stay : List (K × V)) × Retains (CalledToWrite F.FnMut) f.old (entries self.old) stay f.new
            × HoldsExactly self.old stay self.new }
        ensures noted { notes_of self.new ≡ notes_of self.old }
        ensures waiting { waiting_of self.new ≡ waiting_of self.old }
        ensures was_unique { IsUnique K.eq self.old }
    {
        let mut at = self.first_place();
        while let Some(place) = at {
            if self.visit(place, f) {
                at = self.next_place(place);
            } else {
                let (_pair, next) = self.take_with_next(place);
                at = next;
            }
        }
    }

    /// Calls `f` on the pair at `place`, with the value to write.
    pub(crate) fn visit<R, F: FnMut(&K, &mut V) -> R>(&mut self, place: Place, f: &mut F) -> R
        requires within { IsPlace self.old place }
        requires callable { (p : K × V) → slice_get (entries self.old) (index_of self.old place) ≡ Some p
            → TakesToWrite F.FnMut f.old p }
        ensures { (p : K × V) × (w : V) × (slice_get (entries self.old) (index_of self.old place) ≡ Some p)
            × CalledToWrite F.FnMut f.old p result w f.new
            × (self.new ≡ with_write_at with_pair_value self.old place w) }
    {
        let (key, value) = self.parts_mut_at(place);
        f(key, value)
    }
}
