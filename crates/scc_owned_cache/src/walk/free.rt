//! The walks of a cache under no rule. No walk makes a pair more recent.
ghost use Rattle.scc_owned_cache.specs.CacheSteps.{ShrinksTo};
ghost use Rattle.scc_owned_cache.specs.CacheWalks.{GoesOver, LeavesPairs, ShrinksIfTaken};
ghost use Rattle.scc_owned_cache.specs.Caches.{Cached, IsCacheState};
ghost use Rattle.scc_owned_cache.specs.Relocations.{RelocatesNoneWithin};
ghost use Rattle.scc_owned_cache.specs.TakingWalks.{TakesByRule};
ghost use Rattle.scc_common.specs.Contents.{entries, hash_in};
ghost use Rattle.scc_common.specs.PairWalks.{CallableToWrite, CalledToWrite, GoesOn, Retains, Takes};
ghost use Rattle.scc_common.specs.Pairs.{IsUnique};
ghost use Rattle.scc_common.specs.Walks.{CalledOn, CallableWhile, Walks};
ghost use Rattle.std.specs.List.Sorted.{IsPermutation};
ghost use Rattle.std.specs.Prelude.{◌≡◌, ◌++◌, List, true, ⊤};

use crate::Owned;
use scc_common::{Hashes, Verdict, WalkError};
use std::hash::{BuildHasher, Hash};

impl<K: Eq + Hash, V, H: BuildHasher> Owned<K, V, H> {
    /// Calls `f` on the pairs, each at most once, until `f` returns false. Returns false if it did, else true. Goes
    /// over each bucket from its least to its most recent pair; the order of the pairs stays.
    pub fn iter_sync<F: FnMut(&K, &V) -> bool>(&self, f: F) -> bool
        requires { (es : List (K × V)) → IsPermutation (entries self.now.contents) es
            → CallableWhile F.FnMut true f es }
        ensures { (es : List (K × V)) × (last : F)
            × GoesOver (hash_in ⟦<H as Hashes<K>>⟧.hash_of self.now.contents) self.now.contents es
            × Walks (CalledOn F.FnMut) f es result last }
    {
        let mut f = f;
        self.iter_lent(&mut f)
    }

    /// Calls `f` on every pair once, in some order, with the value to write, and removes the pairs on which `f`
    /// returns false. The other pairs keep the order of their list. Then the array may shrink, and every bucket of the
    /// new array waits.
    pub fn retain_sync<F: FnMut(&K, &mut V) -> bool>(&mut self, f: F)
    where
        K: Drop,
        V: Drop,
        requires { (es : List (K × V)) → IsPermutation (entries self.old.contents) es
            → CallableToWrite F.FnMut (λ answer. ⊤) f es }
        ensures step { (es : List (K × V)) × (stay : List (K × V)) × (last : F) × (left : Cached (K × V) H)
            × GoesOver (hash_in ⟦<H as Hashes<K>>⟧.hash_of self.old.contents) self.old.contents es
            × Retains (CalledToWrite F.FnMut) f es stay last
            × LeavesPairs (hash_in ⟦<H as Hashes<K>>⟧.hash_of self.old.contents) self.old stay left
            × ShrinksTo (λ e. hash_in ⟦<H as Hashes<K>>⟧.hash_of self.old.contents e.0) left self.new }
        ensures was_unique { IsUnique K.eq self.old.contents }
        ensures state { IsCacheState K.eq (hash_in ⟦<H as Hashes<K>>⟧.hash_of self.new.contents) self.new }
        ensures relocates { RelocatesNoneWithin (λ p. hash_in ⟦<H as Hashes<K>>⟧.hash_of self.old.contents p.0)
            self.old.contents self.new.contents }
    {
        let mut f = f;
        self.retain_lent(&mut f);
    }

    /// Calls `f` on the pairs in some order, each at most once, with the value to write, until `f` stops the walk.
    /// Returns false if `f` stopped it, else true. A pair on which `f` returns `Take` or `TakeStop` goes to the end of
    /// `taken`; the other pairs keep the order of their list. Before each call of `f`, room for one pair is made in
    /// `taken`; if its memory is refused, the walk ends with an error, and what the walk did so far stays. If a pair
    /// was taken, the array may shrink, and then every bucket of the new array waits.
    pub fn iter_mut_sync<F: FnMut(&K, &mut V) -> Verdict>(
        &mut self,
        f: F,
        taken: &mut Vec<(K, V)>,
    ) -> Result<bool, WalkError>
        requires { (es : List (K × V)) → IsPermutation (entries self.old.contents) es
            → CallableToWrite F.FnMut GoesOn f es }
        ensures { TakesByRule K.eq ⟦<H as Hashes<K>>⟧.hash_of ((es : List (K × V)) × (stay : List (K × V))
            × (more : List (K × V)) × (last : F) × (left : Cached (K × V) H)
            × GoesOver (hash_in ⟦<H as Hashes<K>>⟧.hash_of self.old.contents) self.old.contents es
            × Takes (CalledToWrite F.FnMut) f es stay more result last × (taken.new.items ≡ taken.old.items ++ more)
            × LeavesPairs (hash_in ⟦<H as Hashes<K>>⟧.hash_of self.old.contents) self.old stay left
            × ShrinksIfTaken (hash_in ⟦<H as Hashes<K>>⟧.hash_of self.old.contents) more left self.new) self.old
            taken.old result self.new taken.new }
    {
        let mut f = f;
        self.iter_mut_lent(&mut f, taken)
    }
}
