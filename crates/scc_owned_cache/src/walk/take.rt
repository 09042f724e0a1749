//! The walk that takes pairs out of a cache into a list.
ghost use Rattle.scc_owned_cache.specs.CacheWalks.{GoesOver, LeavesPairs, ShrinksIfTaken};
ghost use Rattle.scc_owned_cache.specs.Caches.{Cached};
ghost use Rattle.scc_owned_cache.specs.TakingWalks.{MovesOut, TakesByRule, TakesInOrder};
ghost use Rattle.scc_common.specs.Contents.{entries, hash_in};
ghost use Rattle.scc_common.specs.PairWalks.{GoesOn, Takes};
ghost use Rattle.scc_common.specs.RuleWalks.{CallableToWriteKept, CalledToWriteKept, KeepsEachAlways};
ghost use Rattle.scc_common.specs.Steps.{HoldsExactly};
ghost use Rattle.scc_table.specs.Places.{IsPlace};
ghost use Rattle.std.specs.Prelude.{◌≡◌, ◌<◌, ◌++◌, List, Some};
ghost use Rattle.std.specs.Vec.{vec_len, vec_capacity};

use crate::Owned;
use scc_buckets::Place;
use scc_common::{Hashes, Rule, Verdict, WalkError};
use std::hash::{BuildHasher, Hash};

impl<K: Eq + Hash, V, H: BuildHasher, R: Rule<K, V>> Owned<K, V, H, R> {
    /// Calls `f` on the pairs in the order of the lists, with the value to write, until `f` stops the walk. Returns
    /// false if `f` stopped it, else true. A pair on which `f` returns `Take` or `TakeStop` goes to the end of `taken`.
    /// What `f` leaves must keep the rule, also in a pair that is taken. Before each call of `f`, room for one pair is
    /// made in `taken`; if its memory is refused, the walk ends with an error, and what the walk did so far stays. If a
    /// pair was taken, the array may shrink, and then every bucket of the new array waits. The closure is lent, and can
    /// go on to other caches.
    pub fn iter_mut_lent<F: FnMut(&K, &mut V) -> Verdict>(
        &mut self,
        f: &mut F,
        taken: &mut Vec<(K, V)>,
    ) -> Result<bool, WalkError>
        requires callable { CallableToWriteKept R.holds F.FnMut GoesOn f.old (entries self.old.contents) }
        requires keeps { KeepsEachAlways R.holds F.FnMut }
        ensures { TakesByRule K.eq ⟦<H as Hashes<K>>⟧.hash_of ((es : List (K × V)) × (stay : List (K × V))
            × (more : List (K × V)) × (left : Cached (K × V) H)
            × GoesOver (hash_in ⟦<H as Hashes<K>>⟧.hash_of self.old.contents) self.old.contents es
            × Takes (CalledToWriteKept R.holds F.FnMut) f.old es stay more result f.new
            × (taken.new.items ≡ taken.old.items ++ more)
            × LeavesPairs (hash_in ⟦<H as Hashes<K>>⟧.hash_of self.old.contents) self.old stay left
            × ShrinksIfTaken (hash_in ⟦<H as Hashes<K>>⟧.hash_of self.old.contents) more left self.new) self.old
            taken.old result self.new taken.new }
    {
        let before = self.len();
        let result = self.take_walk(f, taken);
        if self.len() < before {
            self.table.shrink_within();
        }
        result
    }

    /// Walks as `iter_mut_lent` does, in the order of the list and without a resize.
    fn take_walk<F: FnMut(&K, &mut V) -> Verdict>(
        &mut self,
        f: &mut F,
        taken: &mut Vec<(K, V)>,
    ) -> Result<bool, WalkError>
        requires callable { CallableToWriteKept R.holds F.FnMut GoesOn f.old (entries self.old.contents) }
        requires keeps { KeepsEachAlways R.holds F.FnMut }
        ensures { TakesInOrder ((stay : List (K × V)) × (more : List (K × V))
            × Takes (CalledToWriteKept R.holds F.FnMut) f.old (entries self.old.contents) stay more result f.new
            × (taken.new.items ≡ taken.old.items ++ more) × HoldsExactly self.old.contents stay self.new.contents)
            self.old taken.old result self.new taken.new }
    {
        let mut at = self.table.first_place();
        while let Some(place) = at {
            match taken.reserve(1) {
                Ok(()) => {}
                Err(_) => return Err(WalkError),
            }
            match self.visit(place, f) {
                Verdict::Keep => {
                    at = self.next_place(place);
                }
                Verdict::Take => {
                    at = self.take_into(place, taken);
                }
                Verdict::KeepStop => return Ok(false),
                Verdict::TakeStop => {
                    let _ = self.take_into(place, taken);
                    return Ok(false);
                }
            }
        }
        Ok(true)
    }

    /// Moves the pair at `place` to the end of `taken`, which has room, and returns the place of the pair that
    /// followed.
    fn take_into(&mut self, place: Place, taken: &mut Vec<(K, V)>) -> Option<Place>
        requires within { IsPlace self.old.contents place }
        requires room { vec_len taken.old < vec_capacity taken.old }
        ensures { MovesOut self.old place taken.old result self.new taken.new }
    {
        let (pair, next) = self.take_with_next(place);
        taken.push_reserved(pair);
        next
    }
}
