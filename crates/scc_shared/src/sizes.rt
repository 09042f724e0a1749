//! Sizes and reservations. A call looks at the stripes one after another.
ghost use Rattle.std.specs.Prelude.{◌≡◌, ◌<◌, ◌≤◌, ◌^◌, IfSome};
ghost use Rattle.scc_common.specs.Routing.{stripe_of};
ghost use Rattle.scc_stripes.specs.Stripes.{stripe_count};
ghost use Rattle.scc_shared.specs.Stripes.{hasher_of, stripes_of};
ghost use Rattle.scc_shared.specs.Reserves.{reserved_in, reserved_slots};

use super::HashContainer;
use scc_buckets::sizes::GREATEST_CAPACITY;
use scc_common::Keyed;
use scc_stripes::BookReservation;
use std::hash::{BuildHasher, BuildHasherDefault, FoldHasher, Hash};
use std::ops::RangeInclusive;
use std::sync::Wait;

impl<E: Keyed, H: BuildHasher> HashContainer<E, H>
where
    E::Key: Eq + Hash,
{
    /// Returns the number of pairs, at most `usize::MAX`. Takes time proportional to the number of stripes.
    pub fn len(&self, rt: &impl Wait) -> usize {
        self.stripes.count(rt)
    }

    /// Returns whether no stripe has a pair. Each stripe is looked at in turn, as it is at that moment.
    pub fn is_empty(&self, rt: &impl Wait) -> bool {
        self.stripes.is_empty(rt)
    }

    /// Returns the number of slots of all stripes, at most `usize::MAX`. Each stripe first follows the minimum, by
    /// which its array may grow or shrink.
    pub fn capacity(&self, rt: &impl Wait) -> usize {
        self.stripes.slots(rt)
    }

    /// Returns the range from the minimum of the container to the greatest number of slots that it may grow to.
    pub fn capacity_range(&self) -> RangeInclusive<usize>
        ensures high { result.end ≡ 2 ^ 63 }
    {
        self.stripes.minimum()..=GREATEST_CAPACITY
    }

    /// Returns the number of the stripe of `k`.
    pub fn stripe_of(&self, k: &E::Key) -> usize
        ensures { result ≡ stripe_of H.BuildHasher H.Hasher.Hasher E.Key.hash_input (hasher_of self.now)
            (stripe_count (stripes_of self.now)) k.now }
    {
        self.stripes.route(k)
    }

    /// Returns the number of the bucket of `k` in its stripe, or 0 if the stripe has no array.
    pub fn bucket_index(&self, rt: &impl Wait, k: &E::Key) -> usize {
        self.stripes.read(rt, self.stripes.route(k)).bucket_index(k)
    }

    /// Raises the minimum by `additional` slots until the returned reservation is dropped. Returns `None` if
    /// `additional` is 0 or if the minimum would pass the greatest capacity. An array with fewer slots than its share
    /// of the minimum grows, unless memory is refused; the reservation is returned either way.
    pub fn reserve(&self, rt: &impl Wait, additional: usize) -> Option<Reserve<'_, E, H>>
        ensures { IfSome result (λ r. (reserved_slots r ≡ additional) × (0 < additional) × (additional ≤ 2 ^ 63)
            × (reserved_in r ≡ self.now)) }
    {
        let added = self.stripes.reserve(rt, additional)?;
        Some(Reserve { of: self, added })
    }
}

/// Slots that are reserved in a container until this token is dropped. The drop waits for no lock.
#[derive(Drop)]
pub struct Reserve<'h, E: Keyed, H: BuildHasher = BuildHasherDefault<FoldHasher>>
where
    E::Key: Eq + Hash,
{
    of: &'h HashContainer<E, H>,
    added: BookReservation<'h>,
}

impl<'h, E: Keyed, H: BuildHasher> Reserve<'h, E, H>
where
    E::Key: Eq + Hash,
{
    /// Returns the number of slots that are reserved.
    pub fn additional_capacity(&self) -> usize
        ensures { result ≡ reserved_slots self.now }
    {
        self.added.additional_capacity()
    }

    /// Returns the container in which the slots are reserved.
    pub fn as_ref(&self) -> &HashContainer<E, H>
        ensures { result.now ≡ reserved_in self.now }
    {
        self.of
    }
}
