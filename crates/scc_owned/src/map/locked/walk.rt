//! From entry to entry, inside a stripe and on to later stripes. The lock of a stripe is released before the next one
//! is taken.
ghost use Rattle.scc_common.specs.Pairs.{IsUnique};
ghost use Rattle.scc_owned.specs.Held.{occupied_contents, occupied_pair, occupied_front, occupied_back};
ghost use Rattle.scc_owned.specs.EntrySteps.{StandsIn, IsNext, IsNextPastRemoved};
ghost use Rattle.scc_owned.specs.Seats.{occupied_rest, HasLaterSeat, HasSameRest};
ghost use Rattle.scc_stripes.specs.Seats.{IsLaterSeat};
ghost use Rattle.std.specs.Prelude.{◌≡◌, [], IfSome, IsSomeAnd};

use crate::Map;
use crate::held::HeldOccupied;
use crate::locked::first_later;
use crate::map::locked::OccupiedEntry;
use scc_common::{Guard, Shared};
use scc_stripes::Seat;
use std::hash::{BuildHasher, Hash};
use std::sync::Wait;

impl<'a, K: Eq + Hash, V, H: BuildHasher> OccupiedEntry<'a, K, V, H> {
    /// Removes the pair, and returns it with the entry that stood next in the stripe's list. If the pair was the last
    /// of its stripe, returns it with the first entry of a later stripe, or `None`. Resizes nothing.
    pub fn remove_and_sync(self, rt: &impl Wait) -> ((K, V), Option<OccupiedEntry<'a, K, V, H>>)
        ensures pair { result.0 ≡ occupied_pair self.entry }
        ensures next { (occupied_back self.entry ≡ [] → ⊥) → IsSomeAnd result.1 (IsNextPastRemoved self.entry) }
        ensures later { occupied_back self.entry ≡ []
            → IfSome result.1 (λ n. StandsIn (occupied_contents n) n × (occupied_front n ≡ [])) }
        ensures stays { (occupied_back self.entry ≡ [] → ⊥) → IfSome result.1 (HasSameRest self.entry) }
        ensures goes_on { occupied_back self.entry ≡ [] → IfSome result.1 (HasLaterSeat self.entry) }
        ensures unique { IfSome result.1 (λ n. IsUnique K.eq (occupied_contents n)) }
    {
        let HeldOccupied {
            mut guard,
            place,
            rest,
            of: _,
        } = self;
        let (pair, next) = guard.take_with_next(place);
        match next {
            Some(place) => (pair, Some(HeldOccupied::at(guard, place, rest))),
            None => {
                drop(guard);
                (pair, first_later(rt, rest))
            }
        }
    }
}
