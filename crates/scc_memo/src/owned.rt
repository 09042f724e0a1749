//! A memo for one owner: a pure function with a cache of its values.
ghost use Rattle.std.specs.Prelude.{◌≡◌, ◌*◌, ◌⊎◌, ◌↔◌, true, length, Option, IsSome, IsTrue, MatchOption};
ghost use Rattle.scc_common.specs.Contents.{bucket_count, entries, hash_in, settings_of};
ghost use Rattle.scc_owned_cache.specs.CacheSteps.{IsAbsent, IsPresent, Removes};
ghost use Rattle.scc_owned_cache.specs.Caches.{IsCacheState};
ghost use Rattle.scc_owned_cache.specs.Making.{IsNewCache};
ghost use Rattle.scc_owned_cache.specs.Relocations.{RelocatesNoneWithin};
ghost use Rattle.scc_memo.specs.Making.{MakesEmpty};
ghost use Rattle.scc_memo.specs.Memos.{HasValues, Remembers};

use scc_common::{Hashes, MakeError};
use scc_owned_cache::Owned;
use scc_owned_cache::borrowed::Entry;
use std::alloc::Global;
use std::hash::{BuildHasher, BuildHasherDefault, FoldHasher, Hash};
use std::marker::Model;

/// A function that has one value for each key, and the same value for equal keys.
pub trait Pure {
    type Key: Eq + Hash;

    type Value;

    // The value of a key.
    ghost value: { Self → Self.Key → Self.Value };

    // Whether the value of a key is wanted: the function may be called on it. A memo calls the function only on a key
    // that it lacks, so who calls `get` says that the value is wanted, if the memo lacks it. If nothing is said here,
    // every value is.
    ghost wanted: { Self → Self.Key → Type 0 } = { λ _ _. Unit {0} };

    /// Returns the value of `k`.
    fn of(&self, k: &Self::Key) -> Self::Value
        requires { wanted self.now k.now }
        ensures { result ≡ value self.now k.now };

    // Equal keys have the same value.
    ghost equal_alike: { (p : Self) (j k : Self.Key) → Self.Key.eq j k ≡ true → value p j ≡ value p k };
}

/// A pure function with a cache of its values. A contract sees the function and the cache. Every pair of the cache is
/// a key with the function's value of it.
#[derive(Drop)]
pub struct Memo<P: Pure, H: BuildHasher = BuildHasherDefault<FoldHasher>> {
    function: P,
    cache: Owned<P::Key, P::Value, H>,
}

impl<P: Pure, H: BuildHasher> Model for Memo<P, H> {
    ghost use Rattle.scc_memo.specs.Memos.{Memoized, memo_code, HasValues};
    ghost use Rattle.std.specs.Coded.{coded×};

    ghost Value = { Memoized P (P.Key × P.Value) H };

    ghost coded = { memo_code P.code (coded× P.Key.code P.Value.code) H.code };

    ghost view = { λ m. record { function = m.function; cache = m.cache } };

    ghost invariant = { λ m. HasValues (P.value m.function) m.cache.contents };
}

impl<P: Pure> Memo<P> {
    /// Returns a memo of `function` without values or an array, with a maximum of 256 slots. Allocates nothing.
    pub fn new(alloc: Global, function: P) -> Self
        ensures function { result.function ≡ function }
        ensures cache { IsNewCache (settings_of result.cache.contents).hasher result.cache }
    {
        Memo::with_hasher(alloc, function, BuildHasherDefault::new())
    }

    /// Returns a memo of `function` without values, by the rules of `with_capacity_and_hasher`.
    pub fn with_capacity(
        alloc: Global,
        function: P,
        minimum: usize,
        maximum: usize,
    ) -> Result<Self, MakeError>
    where
        P: Drop,
        ensures { (hasher : BuildHasherDefault FoldHasher) × MakesEmpty function hasher minimum maximum result }
    {
        Memo::with_capacity_and_hasher(alloc, function, minimum, maximum, BuildHasherDefault::new())
    }
}

impl<P: Pure, H: BuildHasher> Memo<P, H> {
    /// Returns a memo of `function` without values or an array, with a maximum of 256 slots. Allocates nothing.
    pub fn with_hasher(alloc: Global, function: P, hasher: H) -> Self
        ensures function { result.function ≡ function }
        ensures cache { IsNewCache hasher result.cache }
    {
        Memo {
            function,
            cache: Owned::with_hasher(alloc, hasher),
        }
    }

    /// Returns a memo of `function` with an empty cache. `minimum` and `maximum` are numbers of slots, as in the
    /// cache's `with_capacity_and_hasher`. Fails if memory is refused.
    pub fn with_capacity_and_hasher(
        alloc: Global,
        function: P,
        minimum: usize,
        maximum: usize,
        hasher: H,
    ) -> Result<Self, MakeError>
    where
        P: Drop,
        H: Drop,
        ensures { MakesEmpty function hasher minimum maximum result }
    {
        match Owned::with_capacity_and_hasher(alloc, minimum, maximum, hasher) {
            Ok(cache) => Ok(Memo { function, cache }),
            Err(e) => Err(e),
        }
    }

    /// Returns the value of `k`, from the cache if it has one, else from the function. The pair of `k` becomes the
    /// most recent of its bucket. A missing pair is inserted as by the cache's `put_sync`. Only if there is no array
    /// and memory for one is refused, nothing is stored. The function is called only if the pair is missing.
    pub fn get(&mut self, k: P::Key) -> P::Value
    where
        P::Key: Drop,
        P::Value: Copy,
        requires wanted { IsAbsent (hash_in ⟦<H as Hashes<P::Key>>⟧.hash_of self.old.cache.contents) P.Key.eq
            self.old.cache.contents k → P.wanted self.old.function k }
        ensures value { result ≡ P.value self.old.function k }
        ensures function { self.new.function ≡ self.old.function }
        ensures step { Remembers (hash_in ⟦<H as Hashes<P::Key>>⟧.hash_of self.old.cache.contents) P.Key.eq
            self.old.cache k (P.value self.old.function k) self.new.cache }
        ensures state { IsCacheState P.Key.eq (hash_in ⟦<H as Hashes<P::Key>>⟧.hash_of self.new.cache.contents)
            self.new.cache }
        ensures values { HasValues (P.value self.new.function) self.new.cache.contents }
    {
        recall(&self.function, &mut self.cache, k)
    }

    /// As `get`, but returns a clone of the value. If memory for the clone is refused, the function is called, if need
    /// be a second time, and its value returned; so this never fails.
    pub fn get_cloned(&mut self, k: P::Key) -> P::Value
    where
        P::Key: Drop,
        P::Value: Clone,
        requires wanted { (j : P.Key) → P.Key.eq k j ≡ true → P.wanted self.old.function j }
        ensures value { (result ≡ P.value self.old.function k) ⊎ P.Value.is_clone (P.value self.old.function k) result }
        ensures function { self.new.function ≡ self.old.function }
        ensures step { Remembers (hash_in ⟦<H as Hashes<P::Key>>⟧.hash_of self.old.cache.contents) P.Key.eq
            self.old.cache k (P.value self.old.function k) self.new.cache }
        ensures state { IsCacheState P.Key.eq (hash_in ⟦<H as Hashes<P::Key>>⟧.hash_of self.new.cache.contents)
            self.new.cache }
        ensures values { HasValues (P.value self.new.function) self.new.cache.contents }
    {
        recall_cloned(&self.function, &mut self.cache, k)
    }

    /// Returns the value of `k` if the cache has it, else `None`. Moves nothing, and doesn't call the function.
    pub fn known(&self, k: &P::Key) -> Option<P::Value>
    where
        P::Value: Copy,
        ensures { MatchOption result (IsAbsent (hash_in ⟦<H as Hashes<P::Key>>⟧.hash_of self.now.cache.contents)
            P.Key.eq self.now.cache.contents k.now) (λ v. (v ≡ P.value self.now.function k.now) ×
            ((p : P.Key × P.Value) × IsPresent (hash_in ⟦<H as Hashes<P::Key>>⟧.hash_of self.now.cache.contents)
            P.Key.eq self.now.cache.contents k.now p)) }
    {
        self.cache.read_sync(k, |_, v| *v)
    }

    /// Removes the pair of `k` from the cache, and returns whether there was one. If few pairs are left, the array may
    /// shrink.
    pub fn forget(&mut self, k: &P::Key) -> bool
    where
        P::Key: Drop,
        P::Value: Drop,
        ensures step { (r : Option (P.Key × P.Value)) × Removes (hash_in ⟦<H as Hashes<P::Key>>⟧.hash_of
            self.old.cache.contents) P.Key.eq self.old.cache k.now r self.new.cache × (IsTrue result ↔ IsSome r) }
        ensures function { self.new.function ≡ self.old.function }
        ensures state { IsCacheState P.Key.eq (hash_in ⟦<H as Hashes<P::Key>>⟧.hash_of self.new.cache.contents)
            self.new.cache }
        ensures values { HasValues (P.value self.new.function) self.new.cache.contents }
        ensures relocates { RelocatesNoneWithin (λ p. hash_in ⟦<H as Hashes<P::Key>>⟧.hash_of self.old.cache.contents
            p.0) self.old.cache.contents self.new.cache.contents }
    {
        self.cache.remove_sync(k).is_some()
    }

    /// Returns the number of values in the cache.
    pub fn len(&self) -> usize
        ensures { result ≡ length (entries self.now.cache.contents) }
    {
        self.cache.len()
    }

    /// Returns the number of slots of the cache's array, or 0 if there is no array.
    pub fn capacity(&self) -> usize
        ensures { result ≡ 32 * bucket_count self.now.cache.contents }
    {
        self.cache.capacity()
    }
}

/// Returns the value of `k`, from `cache` if it has one, else from `function`.
fn recall<P: Pure, H: BuildHasher>(
    function: &P,
    cache: &mut Owned<P::Key, P::Value, H>,
    k: P::Key,
) -> P::Value
where
    P::Key: Drop,
    P::Value: Copy,
    requires values { HasValues (P.value function.now) cache.old.contents }
    requires wanted { IsAbsent (hash_in ⟦<H as Hashes<P::Key>>⟧.hash_of cache.old.contents) P.Key.eq cache.old.contents k
        → P.wanted function.now k }
    ensures value { result ≡ P.value function.now k }
    ensures values { HasValues (P.value function.now) cache.new.contents }
    ensures step { Remembers (hash_in ⟦<H as Hashes<P::Key>>⟧.hash_of cache.old.contents) P.Key.eq cache.old k
        (P.value function.now k) cache.new }
    ensures state { IsCacheState P.Key.eq (hash_in ⟦<H as Hashes<P::Key>>⟧.hash_of cache.new.contents) cache.new }
{
    match cache.entry_sync(k) {
        Entry::Occupied(entry) => *entry.get(),
        Entry::Vacant(entry) => {
            let value = function.of(entry.key());
            let _ = entry.put(value);
            value
        }
    }
}

/// Returns a clone of the value of `k`, which `cache` or else `function` has.
fn recall_cloned<P: Pure, H: BuildHasher>(
    function: &P,
    cache: &mut Owned<P::Key, P::Value, H>,
    k: P::Key,
) -> P::Value
where
    P::Key: Drop,
    P::Value: Clone,
    requires values { HasValues (P.value function.now) cache.old.contents }
    requires wanted { (j : P.Key) → P.Key.eq k j ≡ true → P.wanted function.now j }
    ensures value { (result ≡ P.value function.now k) ⊎ P.Value.is_clone (P.value function.now k) result }
    ensures values { HasValues (P.value function.now) cache.new.contents }
    ensures step { Remembers (hash_in ⟦<H as Hashes<P::Key>>⟧.hash_of cache.old.contents) P.Key.eq cache.old k
        (P.value function.now k) cache.new }
    ensures state { IsCacheState P.Key.eq (hash_in ⟦<H as Hashes<P::Key>>⟧.hash_of cache.new.contents) cache.new }
{
    match cache.entry_sync(k) {
        Entry::Occupied(entry) => clone_or_call(function, entry.key(), entry.get()),
        Entry::Vacant(entry) => {
            let value = function.of(entry.key());
            let copy = clone_or_call(function, entry.key(), &value);
            let _evicted = entry.put(value);
            copy
        }
    }
}

/// Returns a clone of `value`, or, if memory for it is refused, what `function` returns at `k`.
fn clone_or_call<P: Pure>(function: &P, k: &P::Key, value: &P::Value) -> P::Value
where
    P::Value: Clone,
    requires { P.wanted function.now k.now }
    ensures { (result ≡ P.value function.now k.now) ⊎ P.Value.is_clone value.now result }
{
    match value.clone() {
        Ok(copy) => copy,
        Err(_) => function.of(k),
    }
}
