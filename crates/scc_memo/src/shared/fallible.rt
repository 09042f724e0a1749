//! The memo of a function that may fail.
ghost use Rattle.std.specs.Prelude.{◌≡◌, ℕ, max, true, IfErr, IfOk, IfSome, ⊤};
ghost use Rattle.scc_common.specs.Sizes.{IsArraySize};
ghost use Rattle.scc_shared_cache.specs.SharedSizes.{maximum_of};
ghost use Rattle.scc_shared_cache.specs.Stripes.{hasher_of};
ghost use Rattle.scc_stripes.specs.Sizes.{IsSlotsAsked};

use scc_common::{MakeError, Rule};
use scc_shared_cache::RuledCache;
use std::alloc::Global;
use std::hash::{BuildHasher, BuildHasherDefault, FoldHasher, Hash};
use std::marker::PhantomData;
use std::sync::Wait;

/// A function whose value at a key depends on the key alone, if it has one. It may fail at one time and return a value
/// at another.
pub trait TryPure {
    type Key: Eq + Hash;

    type Value;

    type Error;

    // The value is one that the function has at the key.
    ghost has_value: { Self.Key → Self.Value → Type 0 };

    // The function may fail at the key with the error.
    ghost may_fail: { Self.Key → Self.Error → Type 0 } = { λ _ _. ⊤ };

    /// Returns the value of `k`, or fails.
    fn of(&self, k: &Self::Key) -> Result<Self::Value, Self::Error>
        ensures value { IfOk result (has_value k.now) }
        ensures failed { IfErr result (may_fail k.now) };

    // A value of a key is a value of each equal key.
    ghost equal_alike: { (j k : Self.Key) (v : Self.Value) → Self.Key.eq j k ≡ true → has_value j v → has_value k v };
}

/// The rule that under a key stands a value that the function `P` has there.
pub struct TriedValueOf<P: TryPure> {
    function: PhantomData<P>,
}

impl<P: TryPure> Rule<P::Key, P::Value> for TriedValueOf<P> {
    ghost holds = { P.has_value };

    ghost alike = { P.equal_alike };
}

/// A function that may fail, with a cache of its values that threads share by reference. A failure isn't stored.
///
/// A function that asks the memo that it is in may wait for itself forever.
#[derive(Drop)]
pub struct TryMemo<P: TryPure, H: BuildHasher = BuildHasherDefault<FoldHasher>> {
    function: P,
    cache: RuledCache<P::Key, P::Value, TriedValueOf<P>, H>,
}

impl<P: TryPure + Drop> TryMemo<P>
where
    P::Key: Drop,
    P::Value: Drop,
{
    /// Returns a memo of `function` without values, for at most 256 of them. Fails if memory is refused.
    pub fn new(alloc: Global, function: P) -> Result<Self, MakeError>
        ensures maximum { IfOk result (λ m. maximum_of m.cache ≡ 256) }
    {
        TryMemo::with_hasher(alloc, function, BuildHasherDefault::new())
    }

    /// Returns a memo of `function` without values. `capacity` and `maximum` are numbers of slots, as in the cache's
    /// `with_capacity_and_hasher`. Fails if memory is refused.
    pub fn with_capacity(
        alloc: Global,
        function: P,
        capacity: usize,
        maximum: usize,
    ) -> Result<Self, MakeError>
        ensures maximum { IfOk result (λ m. (n : ℕ) × IsSlotsAsked capacity n
            × IsArraySize (max maximum n) (maximum_of m.cache)) }
    {
        TryMemo::with_capacity_and_hasher(
            alloc,
            function,
            capacity,
            maximum,
            BuildHasherDefault::new(),
        )
    }
}

impl<P: TryPure + Drop, H: BuildHasher + Drop> TryMemo<P, H>
where
    P::Key: Drop,
    P::Value: Drop,
{
    /// Returns a memo of `function` without values, for at most 256 of them. Fails if memory is refused.
    pub fn with_hasher(alloc: Global, function: P, hasher: H) -> Result<Self, MakeError>
        ensures maximum { IfOk result (λ m. maximum_of m.cache ≡ 256) }
        ensures hasher { IfOk result (λ m. hasher_of m.cache ≡ hasher) }
    {
        let cache = RuledCache::with_hasher(alloc, hasher)?;
        Ok(TryMemo { function, cache })
    }

    /// Returns a memo of `function` without values. `capacity` and `maximum` are numbers of slots, as in the cache's
    /// `with_capacity_and_hasher`. Fails if memory is refused.
    pub fn with_capacity_and_hasher(
        alloc: Global,
        function: P,
        capacity: usize,
        maximum: usize,
        hasher: H,
    ) -> Result<Self, MakeError>
        ensures maximum { IfOk result (λ m. (n : ℕ) × IsSlotsAsked capacity n
            × IsArraySize (max maximum n) (maximum_of m.cache)) }
        ensures hasher { IfOk result (λ m. hasher_of m.cache ≡ hasher) }
    {
        let cache = RuledCache::with_capacity_and_hasher(alloc, capacity, maximum, hasher)?;
        Ok(TryMemo { function, cache })
    }
}

impl<P: TryPure, H: BuildHasher> TryMemo<P, H> {
    /// Returns the value of `k`, from the cache if it has one, else from the function, which is called while the stripe
    /// of `k` is locked. If the function fails, its error comes back and nothing is stored. Else it does what `get` of
    /// `Memo` does.
    pub fn get(&self, rt: &impl Wait, k: P::Key) -> Result<P::Value, P::Error>
    where
        P::Key: Drop,
        P::Value: Copy,
        ensures value { IfOk result (P.has_value k) }
        ensures failed { IfErr result (P.may_fail k) }
    {
        let function = &self.function;
        self.cache.get_or_try_put_with(rt, k, |k| function.of(k))
    }

    /// As `get`, but returns a clone of the value, which must be a value of the same key. If memory for the clone is
    /// refused, the function is called, and what it returns is returned; so this fails only if the function does.
    pub fn get_cloned(&self, rt: &impl Wait, k: P::Key) -> Result<P::Value, P::Error>
    where
        P::Key: Drop,
        P::Value: Clone,
        requires clones { (v w : P.Value) → P.has_value k v → P.Value.is_clone v w → P.has_value k w }
        ensures value { IfOk result (P.has_value k) }
        ensures failed { IfErr result (P.may_fail k) }
    {
        let function = &self.function;
        self.cache.get_or_try_put_cloned(rt, k, |k| function.of(k))
    }

    /// Returns the value of `k` if the cache has it. Refreshes nothing, and doesn't call the function.
    pub fn known(&self, rt: &impl Wait, k: &P::Key) -> Option<P::Value>
    where
        P::Value: Copy,
        ensures { IfSome result (P.has_value k.now) }
    {
        self.cache.read_sync(rt, k, |_, v| *v)
    }

    /// Removes the value of `k`, and returns whether there was one.
    pub fn forget(&self, rt: &impl Wait, k: &P::Key) -> bool
    where
        P::Key: Drop,
        P::Value: Drop,
    {
        self.cache.remove_sync(rt, k).is_some()
    }

    /// Returns the number of values in the cache. Each stripe is looked at in turn, as it is at that moment.
    pub fn len(&self, rt: &impl Wait) -> usize {
        self.cache.len(rt)
    }

    /// Returns the number of slots of the cache.
    pub fn capacity(&self, rt: &impl Wait) -> usize {
        self.cache.capacity(rt)
    }
}
