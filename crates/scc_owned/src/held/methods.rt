//! The calls of an entry that keep its guard, alike for all guards.
ghost use Rattle.scc_common.specs.Contents.{IsUniqueBy};
ghost use Rattle.scc_owned.specs.Held.{occupied_pair, entry_key, vacant_key};
ghost use Rattle.scc_owned.specs.Lookups.{IsAllowed};
ghost use Rattle.scc_table.specs.Places.{IsPlace};
ghost use Rattle.std.specs.Prelude.{◌≡◌};

use crate::Owned;
use crate::held::{HeldEntry, HeldOccupied, HeldVacant};
use crate::stored::Stored;
use scc_buckets::Place;
use scc_common::{Guard, Keyed};
use std::alloc::Global;
use std::hash::{BuildHasher, Hash};

impl<G: Guard<Inner = Owned<E, H>>, N, E: Stored, H: BuildHasher> HeldOccupied<G, N, E, H>
where
    E::Key: Eq + Hash,
{
    /// Makes the entry at a place of the container of `guard`, as `at` does, and reads its pair, so that it's known to be
    /// one that the entry allows.
    #[inline(always)]
    pub(crate) fn read_at(guard: G, place: Place, rest: N) -> Self
        requires within { IsPlace (G.inner guard) place }
        requires unique { IsUniqueBy E.Key.eq E.Keyed.key_of (G.inner guard) }
        ensures guard { result.guard ≡ guard }
        ensures place { result.place ≡ place }
        ensures rest { result.rest ≡ rest }
        ensures allowed { IsAllowed E.value_of E.allows result }
    {
        let entry = HeldOccupied::at(guard, place, rest);
        let _value = entry.get();
        entry
    }

    /// Returns the stored key.
    pub fn key(&self) -> &E::Key
        ensures key { result.now ≡ E.Keyed.key_of (occupied_pair self.now) }
        ensures allowed { E.allows result.now (E.value_of (occupied_pair self.now)) }
    {
        self.guard.look().entry_at(self.place).read().0
    }

    /// Returns the value.
    pub fn get(&self) -> &E::Value
        ensures value { result.now ≡ E.value_of (occupied_pair self.now) }
        ensures allowed { E.allows (E.Keyed.key_of (occupied_pair self.now)) result.now }
    {
        self.guard.look().entry_at(self.place).read().1
    }
}

impl<G: Guard<Inner = Owned<E, H>>, N, E: Keyed<Key = K>, H: BuildHasher, K: Eq + Hash> HeldVacant<
    G,
    N,
    E,
    H,
    K,
> {
    /// Returns the allocator of the container.
    pub(crate) fn allocator(&self) -> Global {
        self.guard.look().allocator()
    }

    /// Returns the key that an insertion would store.
    pub fn key(&self) -> &K
        ensures { result.now ≡ vacant_key self.now }
    {
        &self.key
    }
}

impl<G: Guard<Inner = Owned<E, H>>, N, E: Stored, H: BuildHasher> HeldEntry<G, N, E, H>
where
    E::Key: Eq + Hash,
{
    /// Returns the allocator of the container.
    pub(crate) fn allocator(&self) -> Global {
        match self {
            HeldEntry::Occupied(entry) => entry.guard.look().allocator(),
            HeldEntry::Vacant(entry) => entry.allocator(),
        }
    }

    /// Returns the stored key of an occupied entry, or the key of a vacant entry.
    pub fn key(&self) -> &E::Key
        ensures { result.now ≡ entry_key self.now }
    {
        match self {
            HeldEntry::Occupied(entry) => entry.key(),
            HeldEntry::Vacant(entry) => entry.key(),
        }
    }
}
