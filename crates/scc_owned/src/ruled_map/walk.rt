//! Walks over the pairs of a map under a rule, from place to place. Each closure is lent, and can go on to other maps. A
//! walk that stops early has read the pairs up to its stop, and says of these alone that they keep the rule.
ghost use Rattle.scc_common.specs.Contents.{entries, notes_of, waiting_of};
ghost use Rattle.scc_common.specs.PairWalks.{CalledToWrite, Declines, PassesFirst, Retains, Takes};
ghost use Rattle.scc_common.specs.Pairs.{IsUnique};
ghost use Rattle.scc_common.specs.Steps.{Holds, HoldsExactly};
ghost use Rattle.scc_common.specs.Walks.{CalledOn, CallableWhile, Walks};
ghost use Rattle.scc_owned.specs.Shrinking.{RetainsByRule, TakesByRule, TakesIntoByRule};
ghost use Rattle.scc_common.specs.Rules.{AllKeep};
ghost use Rattle.scc_common.specs.RuleWalks.{KeepsEachAlways, TakesEach, TakesEachToWrite};
ghost use Rattle.scc_table.specs.Places.{IsPlace, index_of};
ghost use Rattle.std.specs.Prelude.{◌≡◌, ◌≤◌, ◌<◌, ◌++◌, ℕ, List, length, suc, take, true, IsTrue, MatchOption, OnErr};

use crate::map::Sink;
use crate::ruled_map::RuledMap;
use scc_buckets::Place;
use scc_common::{Rule, Verdict, WalkError};
use std::hash::{BuildHasher, Hash};

impl<K: Eq + Hash, V, R: Rule<K, V>, H: BuildHasher> RuledMap<K, V, R, H> {
    /// Calls `f` on the pairs in the order of the list until `f` returns false. Returns false if it did, else true.
    pub fn iter_lent<F: FnMut(&K, &V) -> bool>(&self, f: &mut F) -> bool
        requires { TakesEach R.holds F.FnMut }
        ensures walks { (n : ℕ) × AllKeep R.holds (take n (entries self.now))
            × Walks (CalledOn F.FnMut) f.old (take n (entries self.now)) result f.new
            × (IsTrue result → take n (entries self.now) ≡ entries self.now) }
        ensures unique { IsUnique K.eq self.now }
    {
        self.walk_while(f)
    }

    /// Calls `f` on the pairs in the order of the list until `f` returns false. Returns false if it did, else true. `f` may
    /// be called on any pairs, whatever the rule says of them.
    pub fn iter_sync<F: FnMut(&K, &V) -> bool>(&self, f: F) -> bool
        requires { CallableWhile F.FnMut true f (entries self.now) }
        ensures { (last : F) × Walks (CalledOn F.FnMut) f (entries self.now) result last }
    {
        let mut f = f;
        self.walk_while(&mut f)
    }

    /// Calls `f` on the pairs in the order of the list until `f` returns false. Returns false if it did, else true. `f` may
    /// be called on the pairs up to any place if each of them keeps the rule.
    fn walk_while<F: FnMut(&K, &V) -> bool>(&self, f: &mut F) -> bool
        requires { (n : ℕ) → AllKeep R.holds (take n (entries self.now))
            → CallableWhile F.FnMut true f.old (take n (entries self.now)) }
        ensures walks { (n : ℕ) × AllKeep R.holds (take n (entries self.now))
            × Walks (CalledOn F.FnMut) f.old (take n (entries self.now)) result f.new
            × (IsTrue result → take n (entries self.now) ≡ entries self.now) }
        ensures unique { IsUnique K.eq self.now }
    {
        let mut at = self.first_place();
        while let Some(place) = at {
            let (key, value) = self.pair_at(place);
            if !f(key, value) {
                return false;
            }
            at = self.next_place(place);
        }
        true
    }

    /// Returns the place of the first pair on which `p` returns true, or `None`. Calls `p` on the pairs in the order of
    /// the list until it returns true.
    pub fn first_passing<P: FnMut(&K, &V) -> bool>(&self, p: &mut P) -> Option<Place>
        requires { TakesEach R.holds P.FnMut }
        ensures place { MatchOption result
            (AllKeep R.holds (entries self.now) × Declines (CalledOn P.FnMut) p.old (entries self.now) p.new)
            (λ place. IsPlace self.now place
            × PassesFirst (CalledOn P.FnMut) p.old (entries self.now) (index_of self.now place)
            × AllKeep R.holds (take (suc (index_of self.now place)) (entries self.now))) }
        ensures unique { IsUnique K.eq self.now }
    {
        let mut at = self.first_place();
        while let Some(place) = at {
            let (key, value) = self.pair_at(place);
            if p(key, value) {
                return Some(place);
            }
            at = self.next_place(place);
        }
        None
    }

    /// Calls `f` on every pair once, in the order of the list, with the value to write, and removes the pairs on which
    /// `f` returns false. What `f` leaves must keep the rule, also in a pair that goes. Then the array may shrink.
    pub fn retain_lent<F: FnMut(&K, &mut V) -> bool>(&mut self, f: &mut F)
    where
        K: Drop,
        V: Drop,
        requires callable { TakesEachToWrite R.holds F.FnMut }
        requires keeps { KeepsEachAlways R.holds F.FnMut }
        ensures { RetainsByRule (IsUnique K.eq) ((stay : List (K × V)) × AllKeep R.holds (entries self.old)
            × AllKeep R.holds stay × Retains (CalledToWrite F.FnMut) f.old (entries self.old) stay f.new
            × Holds self.old stay self.new) self.old self.new }
    {
        self.retain_all(f);
        self.table.shrink();
    }

    /// Walks as `retain_lent` does, without a resize.
    fn retain_all<F: FnMut(&K, &mut V) -> bool>(&mut self, f: &mut F)
    where
        K: Drop,
        V: Drop,
        requires callable { TakesEachToWrite R.holds F.FnMut }
        requires keeps { KeepsEachAlways R.holds F.FnMut }
        ensures step { (stay : List (K × V)) × AllKeep R.holds (entries self.old) × AllKeep R.holds stay
            × Retains (CalledToWrite F.FnMut) f.old (entries self.old) stay f.new × HoldsExactly self.old stay self.new }
        ensures noted { notes_of self.new ≡ notes_of self.old }
        ensures waiting { waiting_of self.new ≡ waiting_of self.old }
        ensures was_unique { IsUnique K.eq self.old }
    {
        let mut at = self.first_place();
        while let Some(place) = at {
            if self.visit(place, f) {
                at = self.next_place(place);
            } else {
                let (_pair, next) = self.take_with_next(place);
                at = next;
            }
        }
    }

    /// Calls `f` on the pairs in the order of the list, with the value to write, until `f` stops the walk. Returns false
    /// if `f` stopped it, else true. A pair on which `f` returns `Take` or `TakeStop` goes to the end of `taken`. What `f`
    /// leaves must keep the rule, also in a pair that is taken. Before each call of `f`, room for one pair is made in
    /// `taken`; if its memory is refused, the walk ends with an error, and what the walk did so far stays. If a pair was
    /// taken, the array may shrink.
    pub fn iter_mut_lent<F: FnMut(&K, &mut V) -> Verdict, L: Sink<K, V>>(
        &mut self,
        f: &mut F,
        taken: &mut L,
    ) -> Result<bool, WalkError>
        requires callable { TakesEachToWrite R.holds F.FnMut }
        requires keeps { KeepsEachAlways R.holds F.FnMut }
        ensures { TakesByRule (IsUnique K.eq) L.pairs (λ list. length (L.pairs list)) L.capacity ((es : List (K × V))
            × (rest : List (K × V)) × (stay : List (K × V)) × (more : List (K × V)) × (entries self.old ≡ es ++ rest)
            × AllKeep R.holds es × AllKeep R.holds stay × AllKeep R.holds more
            × Takes (CalledToWrite F.FnMut) f.old es stay more result f.new
            × (L.pairs taken.new ≡ L.pairs taken.old ++ more) × Holds self.old (stay ++ rest) self.new) self.old taken.old
            result self.new taken.new }
    {
        let before = self.len();
        let result = self.take_walk(f, taken);
        if self.len() < before {
            self.table.shrink();
        }
        result
    }

    /// Walks as `iter_mut_lent` does, without a resize.
    fn take_walk<F: FnMut(&K, &mut V) -> Verdict, L: Sink<K, V>>(
        &mut self,
        f: &mut F,
        taken: &mut L,
    ) -> Result<bool, WalkError>
        requires callable { TakesEachToWrite R.holds F.FnMut }
        requires keeps { KeepsEachAlways R.holds F.FnMut }
        ensures step { (es : List (K × V)) × (rest : List (K × V)) × (stay : List (K × V)) × (more : List (K × V))
            × (entries self.old ≡ es ++ rest) × AllKeep R.holds es × AllKeep R.holds stay × AllKeep R.holds more
            × Takes (CalledToWrite F.FnMut) f.old es stay more result f.new
            × (L.pairs taken.new ≡ L.pairs taken.old ++ more) × HoldsExactly self.old (stay ++ rest) self.new }
        ensures noted { notes_of self.new ≡ notes_of self.old }
        ensures waiting { waiting_of self.new ≡ waiting_of self.old }
        ensures full { OnErr result (L.capacity taken.new ≤ length (L.pairs taken.new)) }
        ensures room { L.capacity taken.old ≤ L.capacity taken.new }
    {
        let mut at = self.first_place();
        while let Some(place) = at {
            match taken.reserve_one() {
                Ok(()) => {}
                Err(_) => {
                    let (_key, _value) = self.pair_at(place);
                    return Err(WalkError);
                }
            }
            match self.visit(place, f) {
                Verdict::Keep => {
                    at = self.next_place(place);
                }
                Verdict::Take => {
                    at = self.take_into(place, taken);
                }
                Verdict::KeepStop => return Ok(false),
                Verdict::TakeStop => {
                    let _ = self.take_into(place, taken);
                    return Ok(false);
                }
            }
        }
        Ok(true)
    }

    /// Moves the pair at `place` to the end of `taken`, which has room, and returns the place of the pair that followed.
    fn take_into<L: Sink<K, V>>(&mut self, place: Place, taken: &mut L) -> Option<Place>
        requires within { IsPlace self.old place }
        requires room { length (L.pairs taken.old) < L.capacity taken.old }
        ensures { TakesIntoByRule L.pairs L.capacity self.old place taken.old result self.new taken.new }
    {
        let (pair, next) = self.take_with_next(place);
        taken.push_pair(pair);
        next
    }
}
