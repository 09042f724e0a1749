//! The calls on an index that name a key, and its walk for reading.
ghost use Rattle.scc_common.specs.Closures.{Reads};
ghost use Rattle.scc_common.specs.Contents.{entries, hash_in};
ghost use Rattle.scc_common.specs.Pairs.{find, FindsInstead, IsUnique};
ghost use Rattle.scc_common.specs.Walks.{CalledOn, CallableWhile, Walks};
ghost use Rattle.scc_owned.specs.IndexSteps.{Inserts, Removes, RemovesIf};
ghost use Rattle.std.specs.Arc.{arc_value};
ghost use Rattle.std.specs.Borrow.{Bor};
ghost use Rattle.std.specs.Fn.{FnOnceTakesAt};
ghost use Rattle.std.specs.List.Sorted.{IsPermutation};
ghost use Rattle.std.specs.Option.{option_copied};
ghost use Rattle.std.specs.Prelude.{◌≡◌, ◌↔◌, List, Some, None, IsTrue, IsSome, IsOk, IfOk, ◌==◌, true, OnErr, MatchOption, remove, false};
ghost use Rattle.std.specs.Result.{OnOk};
ghost use Rattle.scc_table.specs.Arrays.{GrowsByRule, ShrinksByRule};

use crate::Index;
use scc_common::{Hashes, InsertError, MakeError, SharedVersion, Version};
use std::hash::{BuildHasher, Hash};
use std::sync::Arc;

/// Returns one more owner of the version of `entry`, or `None` if there is no entry. Fails if the version has 2^63 - 1
/// owners.
#[inline(always)]
fn share<K, V>(entry: Option<&SharedVersion<K, V>>) -> Result<Option<Arc<Version<K, V>>>, MakeError>
    ensures version { IfOk result (λ o. MatchOption o (option_copied entry.entry ≡ None)
        (λ a. option_copied entry.entry ≡ Some (arc_value a))) }
    ensures refused { OnErr result (IsSome (option_copied entry.entry)) }
{
    let Some(shared) = entry else {
        return Ok(None);
    };
    match shared.clone_owner() {
        Ok(version) => Ok(Some(version)),
        Err(_) => Err(MakeError),
    }
}

impl<K: Eq + Hash, V, H: BuildHasher> Index<K, V, H> {
    /// Returns whether a key equals `k`.
    #[inline(always)]
    pub fn contains(&self, k: &K) -> bool
        ensures { IsTrue result ↔ IsSome (find K.eq (entries self.now) k.now) }
    {
        self.contains_sync(k)
    }

    /// Returns the version of `k`, or `None` if no key equals `k`. Allocates nothing, counts no owner and takes no
    /// lock.
    #[inline(always)]
    pub fn peek(&self, k: &K) -> Option<&Version<K, V>>
        ensures { MatchOption result (find K.eq (entries self.now) k.now ≡ None)
            (λ v. find K.eq (entries self.now) k.now ≡ Some v.now) }
    {
        let hash = self.table.hash(k);
        match self.table.find(hash, k) {
            Some(shared) => Some(shared.version()),
            None => None,
        }
    }

    /// Returns the version of `k`, as `peek` does. The search begins with `hint`, as in `contains_by_hint`.
    #[inline(always)]
    pub fn peek_by_hint(&self, hint: u64, k: &K) -> Option<&Version<K, V>>
        ensures { MatchOption result (find K.eq (entries self.now) k.now ≡ None)
            (λ v. find K.eq (entries self.now) k.now ≡ Some v.now) }
    {
        match self.table.find_by_hint(hint, k) {
            Some(shared) => Some(shared.version()),
            None => None,
        }
    }

    /// Reads the pair of `k` as `peek_with` does. The search begins with `hint`, as in `contains_by_hint`.
    #[inline(always)]
    pub fn peek_with_by_hint<R, F: FnOnce(&K, &V) -> R>(&self, hint: u64, k: &K, f: F) -> Option<R>
        requires { (a : Bor K) (b : Bor V) → find K.eq (entries self.now) k.now ≡ Some (a.now, b.now) → F.pre f a b }
        ensures answer { Reads F.FnOnce f (find K.eq (entries self.now) k.now) result }
    {
        match self.peek_by_hint(hint, k) {
            Some(version) => Some(f(version.key(), version.value())),
            None => None,
        }
    }

    /// Returns the version of `k` to keep, or `None` if no key equals `k`. The version never changes and lives as long
    /// as its holders. Allocates nothing. Fails if the version has 2^63 - 1 owners.
    pub fn peek_shared(&self, k: &K) -> Result<Option<Arc<Version<K, V>>>, MakeError>
        ensures version { IfOk result (λ o. MatchOption o (find K.eq (entries self.now) k.now ≡ None)
            (λ a. find K.eq (entries self.now) k.now ≡ Some (arc_value a))) }
        ensures refused { OnErr result (IsSome (find K.eq (entries self.now) k.now)) }
    {
        let hash = self.table.hash(k);
        share(self.table.find(hash, k))
    }

    /// Returns the version of `k` to keep, as `peek_shared` does. The search begins with `hint`, as in
    /// `contains_by_hint`.
    pub fn peek_shared_by_hint(
        &self,
        hint: u64,
        k: &K,
    ) -> Result<Option<Arc<Version<K, V>>>, MakeError>
        ensures version { IfOk result (λ o. MatchOption o (find K.eq (entries self.now) k.now ≡ None)
            (λ a. find K.eq (entries self.now) k.now ≡ Some (arc_value a))) }
        ensures refused { OnErr result (IsSome (find K.eq (entries self.now) k.now)) }
    {
        share(self.table.find_by_hint(hint, k))
    }

    /// Returns the result of `f` on the pair of `k`. If no key equals `k`, returns `None` and doesn't call `f`.
    #[inline(always)]
    pub fn peek_with<R, F: FnOnce(&K, &V) -> R>(&self, k: &K, f: F) -> Option<R>
        requires { (a : Bor K) (b : Bor V) → find K.eq (entries self.now) k.now ≡ Some (a.now, b.now) → F.pre f a b }
        ensures answer { Reads F.FnOnce f (find K.eq (entries self.now) k.now) result }
    {
        match self.peek(k) {
            Some(version) => Some(f(version.key(), version.value())),
            None => None,
        }
    }

    /// Reads the pair of `k` as `peek_with` does.
    #[inline(always)]
    pub fn read_sync<R, F: FnOnce(&K, &V) -> R>(&self, k: &K, f: F) -> Option<R>
        requires { (a : Bor K) (b : Bor V) → find K.eq (entries self.now) k.now ≡ Some (a.now, b.now) → F.pre f a b }
        ensures answer { Reads F.FnOnce f (find K.eq (entries self.now) k.now) result }
    {
        self.peek_with(k, f)
    }

    /// Inserts a version of the pair if no key equals `k`. If a key equals `k`, the index stays as it is and the
    /// supplied pair comes back. The pair also comes back if memory for the version, for the first array, for the
    /// versions that its bucket waits for or for its overflow list is refused: all memory is asked for before anything
    /// changes. A doubling whose memory is refused doesn't make the insertion fail.
    #[inline(always)]
    pub fn insert_sync(&mut self, k: K, v: V) -> Result<(), InsertError<K, V>>
        ensures step { Inserts K.eq self.old (k, v) result self.new }
        ensures finds { OnOk result (FindsInstead K.eq (entries self.old) k (Some (k, v)) (entries self.new)) }
        ensures same { OnErr result ((q : K) → find K.eq (entries self.new) q ≡ find K.eq (entries self.old) q) }
        ensures unique { IsUnique K.eq self.new }
        ensures array { GrowsByRule (λ p. p.0) (hash_in ⟦<H as Hashes<K>>⟧.hash_of self.old) (find K.eq (entries self.old) k) self.old k result self.new }
    {
        let hash = self.table.hash(&k);
        match self.table.search(hash, &k) {
            Some(_) => Err(InsertError::Exists((k, v))),
            None => match self.table.insert_made(hash, (k, v)) {
                Ok(_) => Ok(()),
                Err(pair) => Err(InsertError::Memory(pair)),
            },
        }
    }

    /// Removes the version whose key equals `k`, and returns whether there was one. Holders of the version keep it.
    /// After a removal the array may shrink.
    #[inline(always)]
    pub fn remove_sync(&mut self, k: &K) -> bool
    where
        K: Drop,
        V: Drop,
        ensures step { Removes K.eq self.old k.now result self.new }
        ensures finds { IsTrue result → FindsInstead K.eq (entries self.old) k.now None (entries self.new) }
        ensures unique { IsUnique K.eq self.new }
        ensures array { ShrinksByRule (IsTrue result) self.old self.new }
    {
        let hash = self.table.hash(k);
        match self.table.remove(hash, k) {
            Some(_removed) => true,
            None => false,
        }
    }

    /// Calls `f` on the value of `k`, removes the version if `f` returns true, and returns the result of `f`. If no
    /// key equals `k`, `f` isn't called and the result is false. After a removal the array may shrink.
    #[inline(always)]
    pub fn remove_if_sync<F: FnOnce(&V) -> bool>(&mut self, k: &K, f: F) -> bool
    where
        K: Drop,
        V: Drop,
        requires { (p : K × V) → find K.eq (entries self.old) k.now ≡ Some p → FnOnceTakesAt F.FnOnce f p.1 }
        ensures step { RemovesIf F.FnOnce f K.eq self.old k.now result self.new (find K.eq (entries self.old) k.now) }
        ensures finds { IsTrue result → FindsInstead K.eq (entries self.old) k.now None (entries self.new) }
        ensures unique { IsUnique K.eq self.new }
        ensures array { ShrinksByRule (IsTrue result) self.old self.new }
    {
        match self.table.search(self.table.hash(k), k) {
            Some(place) => {
                if f(self.table.version_at(place).value()) {
                    let _version = self.table.remove_at(place);
                    true
                } else {
                    false
                }
            }
            None => false,
        }
    }

    /// Calls `f` on the pairs in some order, each at most once, until `f` returns false. Returns false if it did, else
    /// true.
    #[inline(always)]
    pub fn iter_sync<F: FnMut(&K, &V) -> bool>(&self, f: F) -> bool
        requires { (es : List (K × V)) → IsPermutation (entries self.now) es → CallableWhile F.FnMut true f es }
        ensures { (es : List (K × V)) × (last : F) × IsPermutation (entries self.now) es
            × Walks (CalledOn F.FnMut) f es result last }
    {
        self.table.walk(f)
    }
}
