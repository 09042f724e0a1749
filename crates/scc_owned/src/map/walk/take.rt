//! The walk that takes pairs out of a map into a list.
ghost use Rattle.scc_common.specs.Contents.{entries, notes_of, waiting_of};
ghost use Rattle.scc_common.specs.PairWalks.{CallableToWrite, CalledToWrite, GoesOn, Takes};
ghost use Rattle.scc_common.specs.Pairs.{IsUnique};
ghost use Rattle.scc_common.specs.Steps.{Holds, HoldsExactly};
ghost use Rattle.scc_owned.specs.Shrinking.{TakesByRule, TakesIntoByRule};
ghost use Rattle.scc_table.specs.Places.{IsPlace};
ghost use Rattle.std.specs.List.Sorted.{IsPermutation};
ghost use Rattle.std.specs.Prelude.{◌≡◌, ◌≤◌, ◌<◌, ◌++◌, List, length, Some, OnErr};
ghost use Rattle.std.specs.Vec.{vec_len, vec_capacity};

use crate::Map;
use crate::map::walk::sink::Sink;
use scc_buckets::Place;
use scc_common::{Verdict, WalkError};
use std::hash::{BuildHasher, Hash};

impl<K: Eq + Hash, V, H: BuildHasher> Map<K, V, H> {
    /// Calls `f` on the pairs in some order, each at most once, with the value to write, until `f` stops the walk.
    /// Returns false if `f` stopped it, else true. A pair on which `f` returns `Take` or `TakeStop` goes to the end of
    /// `taken`. Before each call of `f`, room for one pair is made in `taken`; if its memory is refused, the walk ends
    /// with an error, and what the walk did so far stays. If a pair was taken, the array may shrink.
    pub fn iter_mut_sync<F: FnMut(&K, &mut V) -> Verdict>(
        &mut self,
        f: F,
        taken: &mut Vec<(K, V)>,
    ) -> Result<bool, WalkError>
        requires { (es : List (K × V)) → IsPermutation (entries self.old) es → CallableToWrite F.FnMut GoesOn f es }
        ensures { TakesByRule (IsUnique K.eq) (λ list. list.items) vec_len vec_capacity ((es : List (K × V))
            × (stay : List (K × V)) × (more : List (K × V)) × (last : F) × IsPermutation (entries self.old) es
            × Takes (CalledToWrite F.FnMut) f es stay more result last
            × (taken.new.items ≡ taken.old.items ++ more) × Holds self.old stay self.new) self.old taken.old result
            self.new taken.new }
    {
        self.iter_mut_into(f, taken)
    }

    /// As `iter_mut_sync`, but the taken pairs go to the end of any list that takes pairs.
    pub fn iter_mut_into<F: FnMut(&K, &mut V) -> Verdict, L: Sink<K, V>>(
        &mut self,
        f: F,
        taken: &mut L,
    ) -> Result<bool, WalkError>
        requires { (es : List (K × V)) → IsPermutation (entries self.old) es → CallableToWrite F.FnMut GoesOn f es }
        ensures { TakesByRule (IsUnique K.eq) L.pairs (λ list. length (L.pairs list)) L.capacity ((es : List (K × V))
            × (stay : List (K × V)) × (more : List (K × V)) × (last : F) × IsPermutation (entries self.old) es
            × Takes (CalledToWrite F.FnMut) f es stay more result last
            × (L.pairs taken.new ≡ L.pairs taken.old ++ more) × Holds self.old stay self.new) self.old taken.old result
            self.new taken.new }
    {
        let mut f = f;
        self.iter_mut_lent(&mut f, taken)
    }

    /// As `iter_mut_into`, but the closure is lent, and can go on to other maps.
    pub fn iter_mut_lent<F: FnMut(&K, &mut V) -> Verdict, L: Sink<K, V>>(
        &mut self,
        f: &mut F,
        taken: &mut L,
    ) -> Result<bool, WalkError>
        requires { (es : List (K × V)) → IsPermutation (entries self.old) es → CallableToWrite F.FnMut GoesOn f.old es }
        ensures { TakesByRule (IsUnique K.eq) L.pairs (λ list. length (L.pairs list)) L.capacity ((es : List (K × V))
            × (stay : List (K × V)) × (more : List (K × V)) × IsPermutation (entries self.old) es
            × Takes (CalledToWrite F.FnMut) f.old es stay more result f.new
            × (L.pairs taken.new ≡ L.pairs taken.old ++ more) × Holds self.old stay self.new) self.old taken.old result
            self.new taken.new }
    {
        let before = self.len();
        let result = self.take_walk(f, taken);
        if self.len() < before {
            self.table.shrink();
        }
        result
    }

    /// Walks as `iter_mut_lent` does, in the order of the list and without a resize.
    fn take_walk<F: FnMut(&K, &mut V) -> Verdict, L: Sink<K, V>>(
        &mut self,
        f: &mut F,
        taken: &mut L,
    ) -> Result<bool, WalkError>
        requires { CallableToWrite F.FnMut GoesOn f.old (entries self.old) }
        ensures step { (stay : List (K × V)) × (more : List (K × V))
            × Takes (CalledToWrite F.FnMut) f.old (entries self.old) stay more result f.new
            × (L.pairs taken.new ≡ L.pairs taken.old ++ more) × HoldsExactly self.old stay self.new }
        ensures noted { notes_of self.new ≡ notes_of self.old }
        ensures waiting { waiting_of self.new ≡ waiting_of self.old }
        ensures full { OnErr result (L.capacity taken.new ≤ length (L.pairs taken.new)) }
        ensures room { L.capacity taken.old ≤ L.capacity taken.new }
    {
        let mut at = self.table.first_place();
        while let Some(place) = at {
            match taken.reserve_one() {
                Ok(()) => {}
                Err(_) => return Err(WalkError),
            }
            match self.visit(place, f) {
                Verdict::Keep => {
                    at = self.next_place(place);
                }
                Verdict::Take => {
                    at = self.take_into(place, taken);
                }
                Verdict::KeepStop => return Ok(false),
                Verdict::TakeStop => {
                    let _ = self.take_into(place, taken);
                    return Ok(false);
                }
            }
        }
        Ok(true)
    }

    /// Moves the pair at `place` to the end of `taken`, which has room, and returns the place of the pair that
    /// followed.
    fn take_into<L: Sink<K, V>>(&mut self, place: Place, taken: &mut L) -> Option<Place>
        requires within { IsPlace self.old place }
        requires room { length (L.pairs taken.old) < L.capacity taken.old }
        ensures { TakesIntoByRule L.pairs L.capacity self.old place taken.old result self.new taken.new }
    {
        let (pair, next) = self.take_with_next(place);
        taken.push_pair(pair);
        next
    }
}
