//! From entry to entry, inside a stripe and on to later stripes. The lock of a stripe is released before the next one
//! is taken.
ghost use Rattle.scc_common.specs.Contents.{IsUniqueBy};
ghost use Rattle.scc_owned.specs.EntrySteps.{StandsIn, IsNext};
ghost use Rattle.scc_owned.specs.Held.{occupied_contents, occupied_front, occupied_back};
ghost use Rattle.scc_owned.specs.Lookups.{IsAllowed};
ghost use Rattle.scc_owned.specs.Seats.{occupied_rest, HasLaterSeat, HasSameRest};
ghost use Rattle.scc_stripes.specs.Seats.{IsLaterSeat};
ghost use Rattle.std.specs.Prelude.{◌≡◌, [], IfSome, IsSomeAnd};

use crate::Owned;
use crate::held::HeldOccupied;
use crate::locked::OccupiedEntry;
use crate::stored::Stored;
use scc_common::{Guard, Shared};
use scc_stripes::Seat;
use std::hash::{BuildHasher, Hash};
use std::sync::Wait;

/// Returns the first entry of the stripes after the stripe of `seat`, with the seat of its own stripe, or `None` if
/// these stripes are empty.
pub fn first_later<'a, E: Stored, H: BuildHasher>(
    rt: &impl Wait,
    seat: Seat<'a, Owned<E, Shared<H>>, H>,
) -> Option<OccupiedEntry<'a, E, H>>
where
    E::Key: Eq + Hash,
    ensures first { IfSome result (λ n. StandsIn (occupied_contents n) n × (occupied_front n ≡ [])) }
    ensures seat { IfSome result (λ n. IsLaterSeat seat.entry (occupied_rest n)) }
    ensures allowed { IfSome result (IsAllowed E.value_of E.allows) }
    ensures unique { IfSome result (λ n. IsUniqueBy E.Key.eq E.key_of (occupied_contents n)) }
{
    let mut seat = seat;
    for _ in 0..16u8 {
        let (guard, here) = seat.later(rt)?;
        match HeldOccupied::first(guard, here) {
            Ok(entry) => return Some(entry),
            Err(here) => seat = here,
        }
    }
    None
}

impl<'a, E: Stored, H: BuildHasher> OccupiedEntry<'a, E, H>
where
    E::Key: Eq + Hash,
{
    /// Returns the entry that stands next in the stripe's list. If this entry is the last of its stripe, returns the
    /// first entry of a later stripe, or `None`.
    pub fn next_sync(self, rt: &impl Wait) -> Option<OccupiedEntry<'a, E, H>>
        ensures next { (occupied_back self.entry ≡ [] → ⊥) → IsSomeAnd result (IsNext self.entry) }
        ensures later { occupied_back self.entry ≡ []
            → IfSome result (λ n. StandsIn (occupied_contents n) n × (occupied_front n ≡ [])) }
        ensures allowed { IfSome result (IsAllowed E.value_of E.allows) }
        ensures stays { (occupied_back self.entry ≡ [] → ⊥) → IfSome result (HasSameRest self.entry) }
        ensures goes_on { occupied_back self.entry ≡ [] → IfSome result (HasLaterSeat self.entry) }
        ensures unique { IfSome result (λ n. IsUniqueBy E.Key.eq E.key_of (occupied_contents n)) }
    {
        let HeldOccupied {
            guard,
            place,
            rest,
            of: _,
        } = self;
        match guard.next_place(place) {
            Some(place) => Some(HeldOccupied::read_at(guard, place, rest)),
            None => {
                drop(guard);
                first_later(rt, rest)
            }
        }
    }
}
