//! The calls of an entry of a locked stripe that are alike for maps and indexes.
ghost use Rattle.scc_owned.specs.Held.{vacant_key};
ghost use Rattle.scc_owned.specs.Seats.{occupied_stripe, vacant_stripe};
ghost use Rattle.std.specs.Prelude.{◌≡◌};

use crate::held::HeldVacant;
use crate::locked::{OccupiedEntry, VacantEntry};
use scc_common::Keyed;
use std::hash::{BuildHasher, Hash};

impl<'a, E: Keyed, H: BuildHasher> OccupiedEntry<'a, E, H>
where
    E::Key: Eq + Hash,
{
    /// Returns the number of the locked stripe.
    pub fn stripe(&self) -> usize
        ensures { result ≡ occupied_stripe self.now }
    {
        self.rest.stripe()
    }
}

impl<'a, E: Keyed, H: BuildHasher> VacantEntry<'a, E, H>
where
    E::Key: Eq + Hash,
{
    /// Returns the number of the locked stripe.
    pub fn stripe(&self) -> usize
        ensures { result ≡ vacant_stripe self.now }
    {
        self.rest.stripe()
    }

    /// Returns the key, and releases the lock.
    pub fn into_key(self) -> E::Key
        ensures key { result ≡ vacant_key self.entry }
    {
        let HeldVacant {
            guard: _,
            key,
            hash: _,
            rest: _,
            of: _,
        } = self;
        key
    }
}
