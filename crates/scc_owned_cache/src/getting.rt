//! The calls that refresh the pair of a key and read it, or put in what a closure makes of a key that is missing. The
//! closure is called only then.
ghost use Rattle.scc_owned_cache.specs.CacheSteps.{AnswersOn, IsAbsent};
ghost use Rattle.scc_owned_cache.specs.Caches.{IsCacheState};
ghost use Rattle.scc_owned_cache.specs.KeyCalls.{FailsToRecall, Recalls, RecallsCloned, RefreshesAndReads};
ghost use Rattle.scc_owned_cache.specs.Relocations.{RelocatesOne};
ghost use Rattle.scc_common.specs.Contents.{hash_in};
ghost use Rattle.scc_common.specs.Rules.{IsCalledOn, ReadsKept};
ghost use Rattle.std.specs.Fn.{FnOnceReturnsAt, FnOnceTakesAt};
ghost use Rattle.std.specs.Prelude.{◌≡◌, Ok, Err, IfErr, IfOk, IfSome, MatchOption, OnSome};

use crate::Owned;
use scc_common::{Hashes, Rule};
use std::hash::{BuildHasher, Hash};

impl<K: Eq + Hash, V, H: BuildHasher, R: Rule<K, V>> Owned<K, V, H, R> {
    /// Makes the pair of `k` the most recent of its bucket, and returns the result of `f` on it. If no key equals `k`,
    /// nothing changes, `f` isn't called and the result is `None`.
    #[inline(always)]
    pub fn refresh_sync<A, F: FnOnce(&K, &V) -> A>(&mut self, k: &K, f: F) -> Option<A>
        requires { IsCalledOn K.eq R.holds F.FnOnce f k.now }
        ensures answer { MatchOption result (IsAbsent (hash_in ⟦<H as Hashes<K>>⟧.hash_of self.old.contents) K.eq
            self.old.contents k.now × (self.new ≡ self.old))
            (AnswersOn (hash_in ⟦<H as Hashes<K>>⟧.hash_of self.old.contents) K.eq F.FnOnce f
            self.old.contents k.now) }
        ensures step { IfSome result (λ r. RefreshesAndReads (hash_in ⟦<H as Hashes<K>>⟧.hash_of self.old.contents) K.eq
            F.FnOnce f self.old k.now r self.new) }
        ensures kept { IfSome result (ReadsKept K.eq R.holds F.FnOnce f k.now) }
        ensures relocates { OnSome result (RelocatesOne (hash_in ⟦<H as Hashes<K>>⟧.hash_of self.old.contents k.now)
            self.old.contents self.new.contents) }
        ensures state { IsCacheState K.eq (hash_in ⟦<H as Hashes<K>>⟧.hash_of self.new.contents) self.new }
    {
        let hash = self.table.hash(k);
        let place = self.refresh(hash, k)?;
        let (key, value) = self.pair_at(place);
        Some(f(key, value))
    }

    /// Returns the value of `k`, and makes its pair the most recent of its bucket. If no key equals `k`, calls `make`
    /// with `k`, puts in the pair, which must keep the rule, and returns the value. If memory is refused for a first
    /// array, the value is returned all the same.
    #[inline(always)]
    pub fn get_or_put_with<F: FnOnce(&K) -> V>(&mut self, k: K, make: F) -> V
    where
        K: Drop,
        V: Copy,
        requires callable { FnOnceTakesAt F.FnOnce make k }
        requires keeps { (v : V) → FnOnceReturnsAt F.FnOnce make k v → R.holds k v }
        ensures step { Recalls (hash_in ⟦<H as Hashes<K>>⟧.hash_of self.old.contents) K.eq
            (FnOnceReturnsAt F.FnOnce make k) self.old k result self.new }
        ensures kept { R.holds k result }
    {
        let hash = self.table.hash(&k);
        match self.refresh(hash, &k) {
            Some(place) => *self.pair_at(place).1,
            None => {
                let value = make(&k);
                let _ = self.put_new(hash, k, value);
                value
            }
        }
    }

    /// As `get_or_put_with`, but if `make` fails, its error is returned and nothing changes.
    #[inline(always)]
    pub fn get_or_try_put_with<E, F: FnOnce(&K) -> Result<V, E>>(
        &mut self,
        k: K,
        make: F,
    ) -> Result<V, E>
    where
        K: Drop,
        V: Copy,
        requires callable { FnOnceTakesAt F.FnOnce make k }
        requires keeps { (v : V) → FnOnceReturnsAt F.FnOnce make k (Ok v) → R.holds k v }
        ensures step { IfOk result (λ v. Recalls (hash_in ⟦<H as Hashes<K>>⟧.hash_of self.old.contents) K.eq
            (λ v. FnOnceReturnsAt F.FnOnce make k (Ok v)) self.old k v self.new) }
        ensures kept { IfOk result (R.holds k) }
        ensures failed { IfErr result (λ e. FnOnceReturnsAt F.FnOnce make k (Err e) × (self.new ≡ self.old)) }
    {
        let hash = self.table.hash(&k);
        match self.refresh(hash, &k) {
            Some(place) => Ok(*self.pair_at(place).1),
            None => match make(&k) {
                Ok(value) => {
                    let _ = self.put_new(hash, k, value);
                    Ok(value)
                }
                Err(error) => Err(error),
            },
        }
    }

    /// As `get_or_put_with`, but returns a clone of the value, which must keep the rule if the value does. If memory
    /// for the clone is refused, returns what `make` makes, and puts nothing in.
    #[inline(always)]
    pub fn get_or_put_cloned<F: FnOnce(&K) -> V>(&mut self, k: K, make: F) -> V
    where
        K: Drop,
        V: Clone,
        requires callable { FnOnceTakesAt F.FnOnce make k }
        requires keeps { (v : V) → FnOnceReturnsAt F.FnOnce make k v → R.holds k v }
        requires clones { (v w : V) → R.holds k v → V.is_clone v w → R.holds k w }
        ensures step { RecallsCloned (hash_in ⟦<H as Hashes<K>>⟧.hash_of self.old.contents) K.eq V.is_clone
            V.is_infallible (FnOnceReturnsAt F.FnOnce make k) self.old k result self.new }
        ensures kept { R.holds k result }
    {
        let hash = self.table.hash(&k);
        match self.refresh(hash, &k) {
            Some(place) => match self.pair_at(place).1.clone() {
                Ok(value) => value,
                Err(_) => make(&k),
            },
            None => {
                let value = make(&k);
                match value.clone() {
                    Ok(copy) => {
                        let _ = self.put_new(hash, k, value);
                        copy
                    }
                    Err(_) => value,
                }
            }
        }
    }

    /// As `get_or_put_cloned`, but if `make` fails, its error is returned and nothing is put in.
    #[inline(always)]
    pub fn get_or_try_put_cloned<E, F: FnOnce(&K) -> Result<V, E>>(
        &mut self,
        k: K,
        make: F,
    ) -> Result<V, E>
    where
        K: Drop,
        V: Clone,
        requires callable { FnOnceTakesAt F.FnOnce make k }
        requires keeps { (v : V) → FnOnceReturnsAt F.FnOnce make k (Ok v) → R.holds k v }
        requires clones { (v w : V) → R.holds k v → V.is_clone v w → R.holds k w }
        ensures step { IfOk result (λ v. RecallsCloned (hash_in ⟦<H as Hashes<K>>⟧.hash_of self.old.contents) K.eq
            V.is_clone V.is_infallible (λ w. FnOnceReturnsAt F.FnOnce make k (Ok w)) self.old k v self.new) }
        ensures kept { IfOk result (R.holds k) }
        ensures failed { IfErr result (λ e. FnOnceReturnsAt F.FnOnce make k (Err e) × FailsToRecall (hash_in
            ⟦<H as Hashes<K>>⟧.hash_of self.old.contents) K.eq V.is_clone V.is_infallible self.old k self.new) }
    {
        let hash = self.table.hash(&k);
        match self.refresh(hash, &k) {
            Some(place) => match self.pair_at(place).1.clone() {
                Ok(value) => Ok(value),
                Err(_) => make(&k),
            },
            None => match make(&k) {
                Ok(value) => match value.clone() {
                    Ok(copy) => {
                        let _ = self.put_new(hash, k, value);
                        Ok(copy)
                    }
                    Err(_) => Ok(value),
                },
                Err(error) => Err(error),
            },
        }
    }
}
