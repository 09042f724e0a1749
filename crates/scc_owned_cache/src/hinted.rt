//! Look-ups of a cache whose search begins with a hint, the hash of the key under some hasher. If the cache's own
//! hasher gives the same hash, the pair is there and no bucket waits, the key isn't hashed again.
ghost use Rattle.scc_owned_cache.specs.CacheSteps.{AnswersOn, IsAbsent, IsPresent};
ghost use Rattle.scc_common.specs.Contents.{hash_in};
ghost use Rattle.scc_common.specs.Rules.{ReadsKept};
ghost use Rattle.std.specs.Borrow.{Bor};
ghost use Rattle.std.specs.Prelude.{◌≡◌, IfSome, IsTrue, MatchOption};

use crate::Owned;
use scc_common::{Hashes, Rule, Valued};
use std::hash::{BuildHasher, Hash};

impl<K: Eq + Hash, V, H: BuildHasher, R: Rule<K, V>> Owned<K, V, H, R> {
    /// Returns the pair of `k`, or `None` if no key equals `k`. The order of the pairs stays.
    #[inline(always)]
    fn pair_by_hint(&self, hint: u64, k: &K) -> Option<(&K, &V)>
        ensures found { MatchOption result (IsAbsent (hash_in ⟦<H as Hashes<K>>⟧.hash_of self.now.contents) K.eq
            self.now.contents k.now) (λ r. IsPresent (hash_in ⟦<H as Hashes<K>>⟧.hash_of self.now.contents) K.eq
            self.now.contents k.now (r.0.now, r.1.now)) }
        ensures kept { IfSome result (λ r. R.holds r.0.now r.1.now) }
    {
        match self.table.find_by_hint(hint, k) {
            Some(entry) => Some(entry.parts()),
            None => None,
        }
    }

    /// Returns whether a key equals `k`, as `contains_sync` does.
    #[inline(always)]
    pub fn contains_by_hint(&self, hint: u64, k: &K) -> bool
        ensures yes { IsTrue result → (p : K × V)
            × IsPresent (hash_in ⟦<H as Hashes<K>>⟧.hash_of self.now.contents) K.eq self.now.contents k.now p }
        ensures no { (IsTrue result → ⊥) → IsAbsent (hash_in ⟦<H as Hashes<K>>⟧.hash_of self.now.contents) K.eq
            self.now.contents k.now }
        ensures kept { IsTrue result → (v : V) × R.holds k.now v }
    {
        match self.pair_by_hint(hint, k) {
            Some(_) => true,
            None => false,
        }
    }

    /// Returns the result of `f` on the pair of `k`, as `read_sync` does.
    #[inline(always)]
    pub fn read_by_hint<A, F: FnOnce(&K, &V) -> A>(&self, hint: u64, k: &K, f: F) -> Option<A>
        requires { (a : Bor K) (b : Bor V) → IsPresent (hash_in ⟦<H as Hashes<K>>⟧.hash_of self.now.contents) K.eq
            self.now.contents k.now (a.now, b.now) → R.holds a.now b.now → F.pre f a b }
        ensures answer { MatchOption result (IsAbsent (hash_in ⟦<H as Hashes<K>>⟧.hash_of self.now.contents) K.eq
            self.now.contents k.now) (AnswersOn (hash_in ⟦<H as Hashes<K>>⟧.hash_of self.now.contents) K.eq F.FnOnce f
            self.now.contents k.now) }
        ensures kept { IfSome result (ReadsKept K.eq R.holds F.FnOnce f k.now) }
    {
        match self.pair_by_hint(hint, k) {
            Some((key, value)) => Some(f(key, value)),
            None => None,
        }
    }
}
