//! Sizes and reservations of a set. A call looks at the stripes one after another.
ghost use Rattle.std.specs.Prelude.{◌≡◌, ◌<◌, ◌≤◌, ◌^◌, IfSome};
ghost use Rattle.scc_common.specs.Routing.{stripe_of};
ghost use Rattle.scc_stripes.specs.Stripes.{stripe_count};
ghost use Rattle.scc_shared_set.specs.Stripes.{hasher_of, stripes_of};
ghost use Rattle.scc_shared.specs.Reserves.{reserved_slots};

use super::KeySet;
use scc_common::Keyed;
use scc_shared::Reserve;
use std::hash::{BuildHasher, Hash};
use std::ops::RangeInclusive;
use std::sync::Wait;

impl<E: Keyed, H: BuildHasher> KeySet<E, H>
where
    E::Key: Eq + Hash,
{
    /// Returns the number of keys, at most `usize::MAX`. Takes time proportional to the number of stripes.
    pub fn len(&self, rt: &impl Wait) -> usize {
        self.map.len(rt)
    }

    /// Returns whether no stripe has a key. Each stripe is looked at in turn, as it is at that moment.
    pub fn is_empty(&self, rt: &impl Wait) -> bool {
        self.map.is_empty(rt)
    }

    /// Returns the number of slots of all stripes, at most `usize::MAX`. Each stripe first follows the minimum, by
    /// which its array may grow or shrink.
    pub fn capacity(&self, rt: &impl Wait) -> usize {
        self.map.capacity(rt)
    }

    /// Returns the range from the minimum of the set to the greatest number of slots that it may grow to.
    pub fn capacity_range(&self) -> RangeInclusive<usize>
        ensures high { result.end ≡ 2 ^ 63 }
    {
        self.map.capacity_range()
    }

    /// Returns the number of the stripe of `k`.
    pub fn stripe_of(&self, k: &E::Key) -> usize
        ensures { result ≡ stripe_of H.BuildHasher H.Hasher.Hasher E.Key.hash_input (hasher_of self.now)
            (stripe_count (stripes_of self.now)) k.now }
    {
        self.map.stripe_of(k)
    }

    /// Returns the number of the bucket of `k` in its stripe, or 0 if the stripe has no array.
    pub fn bucket_index(&self, rt: &impl Wait, k: &E::Key) -> usize {
        self.map.bucket_index(rt, k)
    }

    /// Raises the minimum by `additional` slots until the returned reservation is dropped. Returns `None` if
    /// `additional` is 0 or if the minimum would pass the greatest capacity. An array with fewer slots than its share
    /// of the minimum grows, unless memory is refused; the reservation is returned either way.
    pub fn reserve(&self, rt: &impl Wait, additional: usize) -> Option<Reserve<'_, E, H>>
        ensures { IfSome result (λ r. (reserved_slots r ≡ additional) × (0 < additional) × (additional ≤ 2 ^ 63)) }
    {
        self.map.reserve(rt, additional)
    }
}
