//! Hash caches that threads share, under a rule or under none: a fixed number of stripes, each an owned cache behind a
//! lock.
#![tactic(auto)]

ghost use Rattle.std.specs.Prelude.{◌≡◌, ℕ, max, IfOk};
ghost use Rattle.scc_common.specs.Sizes.{IsArraySize};

mod all_stripes;
mod calls;
mod entries;
mod getting;
pub mod ruled;
mod sizes;
mod walks;

use scc_buckets::sizes::slots_for;
use scc_common::{Anything, MakeError, Rule, Shared, Under};
use scc_owned_cache::{DEFAULT_MAXIMUM_CAPACITY, Owned};
use scc_stripes::Striped;
use scc_stripes::shares::sizes_for;
use std::alloc::Global;
use std::hash::{BuildHasher, BuildHasherDefault, FoldHasher, Hash};

/// A cache from keys to values that threads share by reference. Each of its stripes is an owned cache behind a lock,
/// and a call takes the lock of the stripe of its key. Each stripe has its share of the maximum, and evicts its pairs
/// on its own.
///
/// Each pair keeps the rule `R`: what a call stores keeps it, and so does what a call hands out, an evicted pair too.
///
/// A thread that holds an entry, or a closure that a call runs, and that makes a call on the same stripe, waits for
/// itself forever.
#[derive(Drop)]
pub struct SharedCache<K: Eq + Hash, V, R: Rule<K, V>, H: BuildHasher> {
    stripes: Striped<Owned<K, V, Shared<H>, R>, H>,
    maximum: usize,
}

/// A cache under no rule.
pub type HashCache<K, V, H = BuildHasherDefault<FoldHasher>> = SharedCache<K, V, Anything, H>;

/// A cache each of whose pairs keeps the rule `R`.
pub type RuledCache<K, V, R, H = BuildHasherDefault<FoldHasher>> = SharedCache<K, V, Under<R>, H>;

impl<K: Eq + Hash + Drop, V: Drop, R: Rule<K, V>> SharedCache<
    K,
    V,
    R,
    BuildHasherDefault<FoldHasher>,
> {
    ghost use Rattle.scc_shared_cache.specs.SharedSizes.{maximum_of};
    ghost use Rattle.scc_shared_cache.specs.Stripes.{hasher_of, stripes_of};
    ghost use Rattle.scc_stripes.specs.Sizes.{IsBitsAsked, IsSlotsAsked};
    ghost use Rattle.scc_stripes.specs.Stripes.{stripe_bits};

    /// Returns an empty cache of four stripes without arrays, with a maximum of 256 slots. Fails if memory is refused.
    pub fn new(alloc: Global) -> Result<Self, MakeError>
        ensures maximum { IfOk result (λ c. maximum_of c ≡ 256) }
        ensures stripes { IfOk result (λ c. IsBitsAsked 0 256 (stripe_bits (stripes_of c))) }
    {
        SharedCache::with_hasher(alloc, BuildHasherDefault::new())
    }

    /// Returns an empty cache of `capacity` and `maximum`, as `with_capacity_and_hasher` does.
    pub fn with_capacity(alloc: Global, capacity: usize, maximum: usize) -> Result<Self, MakeError>
        ensures maximum { IfOk result (λ c. (n : ℕ) × IsSlotsAsked capacity n × IsArraySize (max maximum n) (maximum_of c)) }
        ensures stripes { IfOk result (λ c. IsBitsAsked capacity maximum (stripe_bits (stripes_of c))) }
    {
        SharedCache::with_capacity_and_hasher(alloc, capacity, maximum, BuildHasherDefault::new())
    }
}

impl<K: Eq + Hash + Drop, V: Drop, R: Rule<K, V>, H: BuildHasher + Drop> SharedCache<K, V, R, H> {
    ghost use Rattle.scc_shared_cache.specs.SharedSizes.{maximum_of};
    ghost use Rattle.scc_shared_cache.specs.Stripes.{hasher_of, stripes_of};
    ghost use Rattle.scc_stripes.specs.Sizes.{IsBitsAsked, IsSlotsAsked};
    ghost use Rattle.scc_stripes.specs.Stripes.{stripe_bits};

    /// Returns an empty cache of four stripes without arrays, with a maximum of 256 slots. Fails if memory is refused.
    pub fn with_hasher(alloc: Global, hasher: H) -> Result<Self, MakeError>
        ensures maximum { IfOk result (λ c. maximum_of c ≡ 256) }
        ensures stripes { IfOk result (λ c. IsBitsAsked 0 256 (stripe_bits (stripes_of c))) }
        ensures hasher { IfOk result (λ c. hasher_of c ≡ hasher) }
    {
        SharedCache::with_capacity_and_hasher(alloc, 0, DEFAULT_MAXIMUM_CAPACITY, hasher)
    }

    /// Returns an empty cache. The slots of its arrays together are the least power of two that is at least `capacity`
    /// and at least 64; if `capacity` is 0, there are none. Its maximum is the greatest of `maximum`, these slots and
    /// 64, rounded up to a power of two, at most 2^63. Slots and maximum are divided evenly among the stripes: the
    /// greatest number of stripes that gives each stripe 64 slots or more, at most 16, counted by the slots, or by the
    /// maximum if `capacity` is 0. Fails if memory is refused.
    pub fn with_capacity_and_hasher(
        alloc: Global,
        capacity: usize,
        maximum: usize,
        hasher: H,
    ) -> Result<Self, MakeError>
        ensures maximum { IfOk result (λ c. (n : ℕ) × IsSlotsAsked capacity n × IsArraySize (max maximum n) (maximum_of c)) }
        ensures stripes { IfOk result (λ c. IsBitsAsked capacity maximum (stripe_bits (stripes_of c))) }
        ensures hasher { IfOk result (λ c. hasher_of c ≡ hasher) }
    {
        let (bits, slots) = sizes_for(capacity, maximum);
        let maximum = slots_for(maximum.max(slots));
        let stripes = Striped::make(alloc, bits, slots, maximum, hasher)?;
        Ok(SharedCache { stripes, maximum })
    }
}
