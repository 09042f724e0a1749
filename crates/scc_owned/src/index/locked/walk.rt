//! From entry to entry, inside a stripe and on to later stripes. The lock of a stripe is released before the next one
//! is taken.
ghost use Rattle.scc_common.specs.Pairs.{IsUnique};
ghost use Rattle.scc_owned.specs.Held.{occupied_contents, occupied_front, occupied_back};
ghost use Rattle.scc_owned.specs.EntrySteps.{StandsIn, IsNext, IsNextPastRemoved};
ghost use Rattle.scc_owned.specs.Seats.{occupied_rest, HasLaterSeat, HasSameRest};
ghost use Rattle.scc_stripes.specs.Seats.{IsLaterSeat};
ghost use Rattle.std.specs.Prelude.{◌≡◌, [], IfSome, IsSomeAnd};

use crate::Index;
use crate::held::HeldOccupied;
use crate::index::locked::OccupiedEntry;
use crate::locked::first_later;
use scc_common::{Guard, Shared};
use scc_stripes::Seat;
use std::hash::{BuildHasher, Hash};
use std::sync::Wait;

impl<'a, K: Eq + Hash, V, H: BuildHasher> OccupiedEntry<'a, K, V, H> {
    /// Removes the version, and returns the entry that stood next in the stripe's list. If the version was the last of
    /// its stripe, returns the first entry of a later stripe, or `None`. Resizes nothing. Holders of the version keep
    /// it.
    pub fn remove_and_sync(self, rt: &impl Wait) -> Option<OccupiedEntry<'a, K, V, H>>
    where
        K: Drop,
        V: Drop,
        ensures next { (occupied_back self.entry ≡ [] → ⊥) → IsSomeAnd result (IsNextPastRemoved self.entry) }
        ensures later { occupied_back self.entry ≡ []
            → IfSome result (λ n. StandsIn (occupied_contents n) n × (occupied_front n ≡ [])) }
        ensures stays { (occupied_back self.entry ≡ [] → ⊥) → IfSome result (HasSameRest self.entry) }
        ensures goes_on { occupied_back self.entry ≡ [] → IfSome result (HasLaterSeat self.entry) }
        ensures unique { IfSome result (λ n. IsUnique K.eq (occupied_contents n)) }
    {
        let HeldOccupied {
            mut guard,
            place,
            rest,
            of: _,
        } = self;
        match guard.take_with_next(place) {
            Some(place) => Some(HeldOccupied::at(guard, place, rest)),
            None => {
                drop(guard);
                first_later(rt, rest)
            }
        }
    }
}
