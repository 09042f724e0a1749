//! Sizes. A call looks at the stripes one after another.
ghost use Rattle.std.specs.Prelude.{◌≡◌};
ghost use Rattle.scc_common.specs.Routing.{stripe_of};
ghost use Rattle.scc_stripes.specs.Stripes.{stripe_count};
ghost use Rattle.scc_shared_cache.specs.SharedSizes.{maximum_of};
ghost use Rattle.scc_shared_cache.specs.Stripes.{hasher_of, stripes_of};

use crate::SharedCache;
use scc_common::Rule;
use std::hash::{BuildHasher, Hash};
use std::ops::RangeInclusive;
use std::sync::Wait;

impl<K: Eq + Hash, V, R: Rule<K, V>, H: BuildHasher> SharedCache<K, V, R, H> {
    /// Returns the number of pairs, at most `usize::MAX`. Takes time proportional to the number of stripes.
    pub fn len(&self, rt: &impl Wait) -> usize {
        self.stripes.count(rt)
    }

    /// Returns whether no stripe has a pair. Each stripe is looked at in turn, as it is at that moment.
    pub fn is_empty(&self, rt: &impl Wait) -> bool {
        self.stripes.is_empty(rt)
    }

    /// Returns the number of slots of all stripes, at most `usize::MAX`.
    pub fn capacity(&self, rt: &impl Wait) -> usize {
        self.stripes.slots(rt)
    }

    /// Returns the number of the stripe of `k`.
    pub fn stripe_of(&self, k: &K) -> usize
        ensures { result ≡ stripe_of H.BuildHasher H.Hasher.Hasher K.hash_input (hasher_of self.now)
            (stripe_count (stripes_of self.now)) k.now }
    {
        self.stripes.route(k)
    }

    /// Returns the range from the minimum of the cache to the greatest number of slots that it may grow to.
    pub fn capacity_range(&self) -> RangeInclusive<usize>
        ensures high { result.end ≡ maximum_of self.now }
    {
        self.stripes.minimum()..=self.maximum
    }
}
