//! Walks over the pairs of a cache. No walk makes a pair more recent.
ghost use Rattle.scc_owned_cache.specs.CacheSteps.{Clears};
ghost use Rattle.scc_owned_cache.specs.Caches.{IsCacheState};
ghost use Rattle.scc_owned_cache.specs.Relocations.{RelocatesNoneWithin};
ghost use Rattle.scc_owned_cache.specs.TakingWalks.{TakesOutWithNext};
ghost use Rattle.scc_common.specs.Contents.{entries, notes_of, waiting_of, hash_in};
ghost use Rattle.scc_common.specs.Pairs.{IsUnique};
ghost use Rattle.scc_common.specs.RuleWalks.{CallableOnKept, CalledOnKept};
ghost use Rattle.scc_common.specs.Steps.{HoldsExactly};
ghost use Rattle.scc_common.specs.Walks.{Walks};
ghost use Rattle.scc_table.specs.Places.{IsPlace, StandsAt, index_of};
ghost use Rattle.std.specs.Prelude.{◌≡◌, suc, [], length, true, MatchOption};

use crate::Owned;
use scc_buckets::Place;
use scc_common::{Hashes, Rule, Valued};
use std::hash::{BuildHasher, Hash};

impl<K: Eq + Hash, V, H: BuildHasher, R: Rule<K, V>> Owned<K, V, H, R> {
    /// Removes all pairs. Then the array may shrink, and every bucket of the new array waits.
    pub fn clear_sync(&mut self)
    where
        K: Drop,
        V: Drop,
        ensures empty { entries self.new.contents ≡ [] }
        ensures step { Clears (hash_in ⟦<H as Hashes<K>>⟧.hash_of self.old.contents) self.old self.new }
        ensures state { IsCacheState K.eq (hash_in ⟦<H as Hashes<K>>⟧.hash_of self.new.contents) self.new }
        ensures relocates { RelocatesNoneWithin (λ p. hash_in ⟦<H as Hashes<K>>⟧.hash_of self.old.contents p.0)
            self.old.contents self.new.contents }
    {
        self.take_all();
        self.table.shrink_within();
    }

    /// Removes all pairs, without a resize.
    fn take_all(&mut self)
    where
        K: Drop,
        V: Drop,
        ensures empty { HoldsExactly self.old.contents [] self.new.contents }
        ensures refused { notes_of self.new.contents ≡ notes_of self.old.contents }
        ensures maximum { self.new.maximum ≡ self.old.maximum }
        ensures waiting { waiting_of self.new.contents ≡ waiting_of self.old.contents }
    {
        let mut at = self.table.first_place();
        while let Some(place) = at {
            let (_pair, next) = self.take_with_next(place);
            at = next;
        }
    }

    /// Returns the place after `place`, or `None` if `place` is the last.
    pub fn next_place(&self, place: Place) -> Option<Place>
        requires { IsPlace self.now.contents place }
        ensures { MatchOption result (suc (index_of self.now.contents place) ≡ length (entries self.now.contents))
            (StandsAt self.now.contents (suc (index_of self.now.contents place))) }
    {
        self.table.next_place(place)
    }

    /// Removes the pair at `place` without a resize, and returns it with the place of the pair that followed.
    pub fn take_with_next(&mut self, place: Place) -> ((K, V), Option<Place>)
        requires { IsPlace self.old.contents place }
        ensures takes { TakesOutWithNext self.old place result self.new }
        ensures kept { R.holds result.0.0 result.0.1 }
    {
        let (entry, next) = self.table.take_with_next(place);
        (entry.into_pair(), next)
    }

    /// Calls `f` on the pairs in the order of the lists until `f` returns false. Returns false if it did, else true.
    /// The closure is lent, and can go on to other caches.
    pub fn iter_lent<F: FnMut(&K, &V) -> bool>(&self, f: &mut F) -> bool
        requires { CallableOnKept R.holds F.FnMut true f.old (entries self.now.contents) }
        ensures walks { Walks (CalledOnKept R.holds F.FnMut) f.old (entries self.now.contents) result f.new }
        ensures unique { IsUnique K.eq self.now.contents }
        ensures state { IsCacheState K.eq (hash_in ⟦<H as Hashes<K>>⟧.hash_of self.now.contents) self.now }
    {
        let mut at = self.table.first_place();
        while let Some(place) = at {
            let (key, value) = self.table.entry_at(place).parts();
            if !f(key, value) {
                return false;
            }
            at = self.next_place(place);
        }
        true
    }
}
