//! The calls on an index under a rule that name a key. A closure must take what the rule allows; what a call does to the
//! index, it does as the call of an index without a rule.
ghost use Rattle.scc_common.specs.Closures.{Reads};
ghost use Rattle.scc_common.specs.Contents.{entries, hash_in};
ghost use Rattle.scc_common.specs.Pairs.{find, FindsInstead, IsUnique};
ghost use Rattle.scc_common.specs.Rules.{IsCalledOn, IsKeptAt, ReadsKept};
ghost use Rattle.scc_owned.specs.Entries.{Exists, Memory};
ghost use Rattle.scc_owned.specs.IndexSteps.{Inserts, Removes, RemovesIf};
ghost use Rattle.scc_owned.specs.RuledReplies.{IsTestedOn, PassesKept};
ghost use Rattle.scc_table.specs.Arrays.{GrowsByRule, ShrinksByRule};
ghost use Rattle.std.specs.Arc.{arc_value};
ghost use Rattle.std.specs.Prelude.{◌≡◌, ◌⊎◌, IfErr, IfOk, IfSome, IsSome, IsTrue, MatchOption, None, Some};
ghost use Rattle.std.specs.Result.{OnErr, OnOk};

use crate::ruled_index::RuledIndex;
use scc_common::{Hashes, InsertError, MakeError, Rule, Version};
use std::hash::{BuildHasher, Hash};
use std::sync::Arc;

impl<K: Eq + Hash, V, R: Rule<K, V>, H: BuildHasher> RuledIndex<K, V, R, H> {
    /// Returns the version of `k`, or `None` if no key equals `k`.
    #[inline(always)]
    pub fn find_version(&self, k: &K) -> Option<&Version<K, V>>
        ensures { MatchOption result (find K.eq (entries self.now) k.now ≡ None)
            (λ v. find K.eq (entries self.now) k.now ≡ Some v.now) }
    {
        let hash = self.table.hash(k);
        match self.table.find(hash, k) {
            Some(entry) => Some(entry.version()),
            None => None,
        }
    }

    /// Returns the version of `k` to keep, or `None` if no key equals `k`. The version keeps the rule, and its value may
    /// stand under `k`. Fails if the version has 2^63 - 1 owners. The search begins with `hint`, as in `read_by_hint`.
    pub fn peek_shared_by_hint(
        &self,
        hint: u64,
        k: &K,
    ) -> Result<Option<Arc<Version<K, V>>>, MakeError>
        ensures version { IfOk result (λ o. MatchOption o (find K.eq (entries self.now) k.now ≡ None)
            (λ a. find K.eq (entries self.now) k.now ≡ Some (arc_value a))) }
        ensures refused { OnErr result (IsSome (find K.eq (entries self.now) k.now)) }
        ensures kept { IfOk result (λ o. IfSome o (λ a. IsKeptAt K.eq R.holds k.now (arc_value a))) }
    {
        let Some(entry) = self.table.find_by_hint(hint, k) else {
            return Ok(None);
        };
        match entry.clone_owner() {
            Ok(version) => Ok(Some(version)),
            Err(_) => Err(MakeError),
        }
    }

    /// Returns the result of `f` on the pair of `k`. If no key equals `k`, returns `None` and doesn't call `f`. The
    /// search begins with `hint`, the hash of `k` under some hasher. If the index's own hasher gives the same hash, the
    /// version is there and no bucket waits, `k` isn't hashed again.
    #[inline(always)]
    pub fn read_by_hint<A, F: FnOnce(&K, &V) -> A>(&self, hint: u64, k: &K, f: F) -> Option<A>
        requires { IsCalledOn K.eq R.holds F.FnOnce f k.now }
        ensures step { Reads F.FnOnce f (find K.eq (entries self.now) k.now) result }
        ensures answer { IfSome result (ReadsKept K.eq R.holds F.FnOnce f k.now) }
    {
        match self.table.find_by_hint(hint, k) {
            Some(entry) => {
                let version = entry.version();
                Some(f(version.key(), version.value()))
            }
            None => None,
        }
    }

    /// Inserts a version of the pair, which must keep the rule, if no key equals `k`. If a key equals `k`, or if memory
    /// is refused, the pair comes back.
    #[inline(always)]
    pub fn insert_sync(&mut self, k: K, v: V) -> Result<(), InsertError<K, V>>
        requires { R.holds k v }
        ensures step { Inserts K.eq self.old (k, v) result self.new }
        ensures finds { OnOk result (FindsInstead K.eq (entries self.old) k (Some (k, v)) (entries self.new)) }
        ensures same { OnErr result ((q : K) → find K.eq (entries self.new) q ≡ find K.eq (entries self.old) q) }
        ensures unique { IsUnique K.eq self.new }
        ensures array { GrowsByRule (λ p. p.0) (hash_in ⟦<H as Hashes<K>>⟧.hash_of self.old) (find K.eq (entries self.old) k) self.old k result self.new }
        ensures back { IfErr result (λ e. (e ≡ Exists (k, v)) ⊎ (e ≡ Memory (k, v))) }
    {
        let hash = self.table.hash(&k);
        match self.table.search(hash, &k) {
            Some(_) => Err(InsertError::Exists((k, v))),
            None => match self.insert_new(hash, k, v) {
                Ok(_) => Ok(()),
                Err(pair) => Err(InsertError::Memory(pair)),
            },
        }
    }

    /// Removes the version whose key equals `k`, and returns whether there was one. Holders of the version keep it.
    /// After a removal the array may shrink.
    #[inline(always)]
    pub fn remove_sync(&mut self, k: &K) -> bool
    where
        K: Drop,
        V: Drop,
        ensures step { Removes K.eq self.old k.now result self.new }
        ensures finds { IsTrue result → FindsInstead K.eq (entries self.old) k.now None (entries self.new) }
        ensures unique { IsUnique K.eq self.new }
        ensures array { ShrinksByRule (IsTrue result) self.old self.new }
    {
        let hash = self.table.hash(k);
        match self.table.remove(hash, k) {
            Some(_removed) => true,
            None => false,
        }
    }

    /// Calls `f` on the value of `k`, removes the version if `f` returns true, and returns the result of `f`. If no key
    /// equals `k`, `f` isn't called and the result is false. After a removal the array may shrink.
    #[inline(always)]
    pub fn remove_if_sync<F: FnOnce(&V) -> bool>(&mut self, k: &K, f: F) -> bool
    where
        K: Drop,
        V: Drop,
        requires { IsTestedOn R.holds F.FnOnce f k.now }
        ensures step { RemovesIf F.FnOnce f K.eq self.old k.now result self.new (find K.eq (entries self.old) k.now) }
        ensures finds { IsTrue result → FindsInstead K.eq (entries self.old) k.now None (entries self.new) }
        ensures unique { IsUnique K.eq self.new }
        ensures array { ShrinksByRule (IsTrue result) self.old self.new }
        ensures answer { IsTrue result → PassesKept R.holds F.FnOnce f k.now }
    {
        match self.table.search(self.table.hash(k), k) {
            Some(place) => {
                if f(self.pair_at(place).1) {
                    self.remove_at(place);
                    true
                } else {
                    false
                }
            }
            None => false,
        }
    }
}
