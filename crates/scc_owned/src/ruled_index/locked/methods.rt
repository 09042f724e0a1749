//! The calls of an entry of a locked stripe of an index under a rule that take the version out.
ghost use Rattle.scc_common.specs.Pairs.{IsUnique};
ghost use Rattle.scc_owned.specs.EntrySteps.{IsNextPastRemoved, StandsIn};
ghost use Rattle.scc_owned.specs.Held.{occupied_back, occupied_contents, occupied_front, occupied_pair};
ghost use Rattle.scc_owned.specs.Seats.{HasLaterSeat, HasSameRest};
ghost use Rattle.scc_common.specs.Rules.{IsKept};
ghost use Rattle.std.specs.Prelude.{◌≡◌, [], IfSome, IsSomeAnd};

use crate::held::HeldOccupied;
use crate::locked::first_later;
use crate::ruled_index::locked::OccupiedEntry;
use scc_common::Rule;
use std::hash::{BuildHasher, Hash};
use std::sync::Wait;

impl<'a, K: Eq + Hash, V, R: Rule<K, V>, H: BuildHasher> OccupiedEntry<'a, K, V, R, H> {
    /// Removes the version, and releases the lock. Holders of the version keep it. The array may shrink.
    pub fn remove_entry(self)
    where
        K: Drop,
        V: Drop,
    {
        let HeldOccupied {
            mut guard,
            place,
            rest,
            of: _,
        } = self;
        guard.remove_at(place);
        rest.follow(&mut *guard);
    }

    /// Removes the version, and returns the entry that stood next in the stripe's list. If the version was the last of
    /// its stripe, returns the first entry of a later stripe, or `None`. Resizes nothing. Holders of the version keep
    /// it.
    pub fn remove_and_sync(self, rt: &impl Wait) -> Option<OccupiedEntry<'a, K, V, R, H>>
    where
        K: Drop,
        V: Drop,
        ensures next { (occupied_back self.entry ≡ [] → ⊥) → IsSomeAnd result (IsNextPastRemoved self.entry) }
        ensures later { occupied_back self.entry ≡ []
            → IfSome result (λ n. StandsIn (occupied_contents n) n × (occupied_front n ≡ [])) }
        ensures next_kept { IfSome result (λ n. IsKept R.holds (occupied_pair n)) }
        ensures stays { (occupied_back self.entry ≡ [] → ⊥) → IfSome result (HasSameRest self.entry) }
        ensures goes_on { occupied_back self.entry ≡ [] → IfSome result (HasLaterSeat self.entry) }
        ensures unique { IfSome result (λ n. IsUnique K.eq (occupied_contents n)) }
    {
        let HeldOccupied {
            mut guard,
            place,
            rest,
            of: _,
        } = self;
        match guard.take_with_next(place) {
            Some(place) => Some(HeldOccupied::read_at(guard, place, rest)),
            None => {
                drop(guard);
                first_later(rt, rest)
            }
        }
    }
}
