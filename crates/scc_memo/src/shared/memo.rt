//! The memo of a function that has a value at each key.
ghost use Rattle.std.specs.Prelude.{◌≡◌, ℕ, max, true, IfOk, IfSome};
ghost use Rattle.scc_common.specs.Sizes.{IsArraySize};
ghost use Rattle.scc_shared_cache.specs.SharedSizes.{maximum_of};
ghost use Rattle.scc_shared_cache.specs.Stripes.{hasher_of};
ghost use Rattle.scc_stripes.specs.Sizes.{IsSlotsAsked};

use scc_common::{MakeError, Rule};
use scc_shared_cache::RuledCache;
use std::alloc::Global;
use std::hash::{BuildHasher, BuildHasherDefault, FoldHasher, Hash};
use std::marker::PhantomData;
use std::sync::Wait;

/// A function whose value at a key depends on the key alone.
pub trait Pure {
    type Key: Eq + Hash;

    type Value;

    // The value is one that the function has at the key.
    ghost has_value: { Self.Key → Self.Value → Type 0 };

    /// Returns the value of `k`.
    fn of(&self, k: &Self::Key) -> Self::Value
        ensures { has_value k.now result };

    // A value of a key is a value of each equal key.
    ghost equal_alike: { (j k : Self.Key) (v : Self.Value) → Self.Key.eq j k ≡ true → has_value j v → has_value k v };
}

/// The rule that under a key stands a value that the function `P` has there.
pub struct ValueOf<P: Pure> {
    function: PhantomData<P>,
}

impl<P: Pure> Rule<P::Key, P::Value> for ValueOf<P> {
    ghost holds = { P.has_value };

    ghost alike = { P.equal_alike };
}

/// A pure function with a cache of its values that threads share by reference.
///
/// A function that asks the memo that it is in may wait for itself forever.
#[derive(Drop)]
pub struct Memo<P: Pure, H: BuildHasher = BuildHasherDefault<FoldHasher>> {
    function: P,
    cache: RuledCache<P::Key, P::Value, ValueOf<P>, H>,
}

impl<P: Pure + Drop> Memo<P>
where
    P::Key: Drop,
    P::Value: Drop,
{
    /// Returns a memo of `function` without values, for at most 256 of them. Fails if memory is refused.
    pub fn new(alloc: Global, function: P) -> Result<Self, MakeError>
        ensures maximum { IfOk result (λ m. maximum_of m.cache ≡ 256) }
    {
        Memo::with_hasher(alloc, function, BuildHasherDefault::new())
    }

    /// Returns a memo of `function` without values. `capacity` and `maximum` are numbers of slots, as in the cache's
    /// `with_capacity_and_hasher`. Fails if memory is refused.
    pub fn with_capacity(
        alloc: Global,
        function: P,
        capacity: usize,
        maximum: usize,
    ) -> Result<Self, MakeError>
        ensures maximum { IfOk result (λ m. (n : ℕ) × IsSlotsAsked capacity n
            × IsArraySize (max maximum n) (maximum_of m.cache)) }
    {
        Memo::with_capacity_and_hasher(
            alloc,
            function,
            capacity,
            maximum,
            BuildHasherDefault::new(),
        )
    }
}

impl<P: Pure + Drop, H: BuildHasher + Drop> Memo<P, H>
where
    P::Key: Drop,
    P::Value: Drop,
{
    /// Returns a memo of `function` without values, for at most 256 of them. Fails if memory is refused.
    pub fn with_hasher(alloc: Global, function: P, hasher: H) -> Result<Self, MakeError>
        ensures maximum { IfOk result (λ m. maximum_of m.cache ≡ 256) }
        ensures hasher { IfOk result (λ m. hasher_of m.cache ≡ hasher) }
    {
        let cache = RuledCache::with_hasher(alloc, hasher)?;
        Ok(Memo { function, cache })
    }

    /// Returns a memo of `function` without values. `capacity` and `maximum` are numbers of slots, as in the cache's
    /// `with_capacity_and_hasher`. Fails if memory is refused.
    pub fn with_capacity_and_hasher(
        alloc: Global,
        function: P,
        capacity: usize,
        maximum: usize,
        hasher: H,
    ) -> Result<Self, MakeError>
        ensures maximum { IfOk result (λ m. (n : ℕ) × IsSlotsAsked capacity n
            × IsArraySize (max maximum n) (maximum_of m.cache)) }
        ensures hasher { IfOk result (λ m. hasher_of m.cache ≡ hasher) }
    {
        let cache = RuledCache::with_capacity_and_hasher(alloc, capacity, maximum, hasher)?;
        Ok(Memo { function, cache })
    }
}

impl<P: Pure, H: BuildHasher> Memo<P, H> {
    /// Returns the value of `k`, from the cache if it has one, else from the function, which is called while the stripe
    /// of `k` is locked. The value becomes the most recent of its bucket. It is stored unless memory for a first array
    /// is refused; the least recent value of a full bucket goes.
    pub fn get(&self, rt: &impl Wait, k: P::Key) -> P::Value
    where
        P::Key: Drop,
        P::Value: Copy,
        ensures { P.has_value k result }
    {
        let function = &self.function;
        self.cache.get_or_put_with(rt, k, |k| function.of(k))
    }

    /// As `get`, but returns a clone of the value, which must be a value of the same key. If memory for the clone is
    /// refused, the function is called, and its value returned; so this never fails.
    pub fn get_cloned(&self, rt: &impl Wait, k: P::Key) -> P::Value
    where
        P::Key: Drop,
        P::Value: Clone,
        requires clones { (v w : P.Value) → P.has_value k v → P.Value.is_clone v w → P.has_value k w }
        ensures { P.has_value k result }
    {
        let function = &self.function;
        self.cache.get_or_put_cloned(rt, k, |k| function.of(k))
    }

    /// Returns the value of `k` if the cache has it. Refreshes nothing, and doesn't call the function.
    pub fn known(&self, rt: &impl Wait, k: &P::Key) -> Option<P::Value>
    where
        P::Value: Copy,
        ensures { IfSome result (P.has_value k.now) }
    {
        self.cache.read_sync(rt, k, |_, v| *v)
    }

    /// Removes the value of `k`, and returns whether there was one.
    pub fn forget(&self, rt: &impl Wait, k: &P::Key) -> bool
    where
        P::Key: Drop,
        P::Value: Drop,
    {
        self.cache.remove_sync(rt, k).is_some()
    }

    /// Returns the number of values in the cache. Each stripe is looked at in turn, as it is at that moment.
    pub fn len(&self, rt: &impl Wait) -> usize {
        self.cache.len(rt)
    }

    /// Returns the number of slots of the cache.
    pub fn capacity(&self, rt: &impl Wait) -> usize {
        self.cache.capacity(rt)
    }
}
