//! Entries in the order of the container's list, alike for maps and indexes.
ghost use Rattle.scc_common.specs.Contents.{entries};
ghost use Rattle.scc_owned.specs.EntrySteps.{StandsIn, IsNext};
ghost use Rattle.scc_owned.specs.Held.{occupied_front, occupied_back, occupied_guard, rests_if_none, vacant_guard, vacant_key};
ghost use Rattle.std.specs.Borrow.{sem};
ghost use Rattle.std.specs.Prelude.{◌≡◌, [], IfSome, IfNone};

use crate::Owned;
use crate::borrowed::{OccupiedEntry, VacantEntry};
use crate::held::HeldOccupied;
use scc_common::Keyed;
use std::hash::{BuildHasher, Hash};

impl<E: Keyed, H: BuildHasher> Owned<E, H>
where
    E::Key: Eq + Hash,
{
    /// Returns the first entry of the container's list, or `None` if the container is empty.
    pub fn begin_sync(&mut self) -> Option<OccupiedEntry<'_, E, H>>
        ensures same_container { IfSome result (λ o. (occupied_guard o).ghost_name ≡ self.entry.ghost_name) }
        ensures first { IfSome result (λ o. StandsIn self.old o × (occupied_front o ≡ [])) }
        ensures empty { IfNone result (entries self.old ≡ []) }
        ensures* kept { sem 𝓛 (rests_if_none E.row H.row E.Key.row H.Hasher.row E.Keyed E.Key.Hash H.BuildHasher H.Hasher.Hasher
            self.entry result) }
    {
        match self.table.first_place() {
            Some(place) => Some(HeldOccupied::at(self, place, ())),
            None => None,
        }
    }
}

impl<'a, E: Keyed, H: BuildHasher> OccupiedEntry<'a, E, H>
where
    E::Key: Eq + Hash,
{
    /// Returns the entry that stands next in the container's list, or `None` if this entry is the last. Resizes nothing.
    pub fn next_sync(self) -> Option<OccupiedEntry<'a, E, H>>
        ensures next { IfSome result (IsNext self.entry) }
        ensures last { IfNone result (occupied_back self.entry ≡ []) }
        ensures* kept { sem 𝓛 (rests_if_none E.row H.row E.Key.row H.Hasher.row E.Keyed E.Key.Hash H.BuildHasher H.Hasher.Hasher
            (occupied_guard self.entry) result) }
    {
        let HeldOccupied {
            guard,
            place,
            rest,
            of: _,
        } = self;
        match guard.next_place(place) {
            Some(place) => Some(HeldOccupied::at(guard, place, rest)),
            None => None,
        }
    }
}

impl<'a, E: Keyed, H: BuildHasher> VacantEntry<'a, E, H>
where
    E::Key: Eq + Hash,
{
    /// Returns the key, and leaves the container as it is.
    pub fn into_key(self) -> E::Key
        ensures key { result ≡ vacant_key self.entry }
        ensures unchanged { self.exit.0.now ≡ (vacant_guard self.entry).now }
    {
        self.key
    }
}
