//! Walks that write into the pairs of a cache, and take pairs out of it. No walk makes a pair more recent.
ghost use Rattle.scc_owned_cache.specs.CacheSteps.{ShrinksTo};
ghost use Rattle.scc_owned_cache.specs.CacheWalks.{GoesOver, LeavesPairs};
ghost use Rattle.scc_owned_cache.specs.Caches.{Cached, IsCacheState};
ghost use Rattle.scc_owned_cache.specs.Relocations.{RelocatesNoneWithin};
ghost use Rattle.scc_common.specs.Contents.{entries, hash_in, notes_of, waiting_of};
ghost use Rattle.scc_common.specs.PairWalks.{Retains};
ghost use Rattle.scc_common.specs.Pairs.{IsUnique};
ghost use Rattle.scc_common.specs.RuleWalks.{CallableToWriteKept, CalledToWriteKept, KeepsEachAlways};
ghost use Rattle.scc_common.specs.Steps.{HoldsExactly};
ghost use Rattle.std.specs.Prelude.{◌≡◌, List, ⊤};

use crate::Owned;
use scc_common::{Hashes, Rule};
use std::hash::{BuildHasher, Hash};

impl<K: Eq + Hash, V, H: BuildHasher, R: Rule<K, V>> Owned<K, V, H, R> {
    /// Calls `f` on every pair once, in the order of the lists, with the value to write, and removes the pairs on which
    /// `f` returns false. What `f` leaves must keep the rule, also in a pair that goes. Then the array may shrink, and
    /// every bucket of the new array waits. The closure is lent, and can go on to other caches.
    pub fn retain_lent<F: FnMut(&K, &mut V) -> bool>(&mut self, f: &mut F)
    where
        K: Drop,
        V: Drop,
        requires callable { CallableToWriteKept R.holds F.FnMut (λ answer. ⊤) f.old (entries self.old.contents) }
        requires keeps { KeepsEachAlways R.holds F.FnMut }
        ensures step { (es : List (K × V)) × (stay : List (K × V)) × (left : Cached (K × V) H)
            × GoesOver (hash_in ⟦<H as Hashes<K>>⟧.hash_of self.old.contents) self.old.contents es
            × Retains (CalledToWriteKept R.holds F.FnMut) f.old es stay f.new
            × LeavesPairs (hash_in ⟦<H as Hashes<K>>⟧.hash_of self.old.contents) self.old stay left
            × ShrinksTo (λ e. hash_in ⟦<H as Hashes<K>>⟧.hash_of self.old.contents e.0) left self.new }
        ensures was_unique { IsUnique K.eq self.old.contents }
        ensures state { IsCacheState K.eq (hash_in ⟦<H as Hashes<K>>⟧.hash_of self.new.contents) self.new }
        ensures relocates { RelocatesNoneWithin (λ p. hash_in ⟦<H as Hashes<K>>⟧.hash_of self.old.contents p.0)
            self.old.contents self.new.contents }
    {
        self.retain_all(f);
        self.table.shrink_within();
    }

    /// Walks as `retain_lent` does, in the order of the list and without a resize.
    fn retain_all<F: FnMut(&K, &mut V) -> bool>(&mut self, f: &mut F)
    where
        K: Drop,
        V: Drop,
        requires callable { CallableToWriteKept R.holds F.FnMut (λ answer. ⊤) f.old (entries self.old.contents) }
        requires keeps { KeepsEachAlways R.holds F.FnMut }
        ensures step { (stay : List (K × V)) × Retains (CalledToWriteKept R.holds F.FnMut) f.old (entries self.old.contents) stay
            f.new × HoldsExactly self.old.contents stay self.new.contents }
        ensures refused { notes_of self.new.contents ≡ notes_of self.old.contents }
        ensures maximum { self.new.maximum ≡ self.old.maximum }
        ensures waiting { waiting_of self.new.contents ≡ waiting_of self.old.contents }
        ensures state { IsCacheState K.eq (hash_in ⟦<H as Hashes<K>>⟧.hash_of self.old.contents) self.old }
    {
        let mut at = self.table.first_place();
        while let Some(place) = at {
            if self.visit(place, f) {
                at = self.next_place(place);
            } else {
                let (_pair, next) = self.take_with_next(place);
                at = next;
            }
        }
    }
}
