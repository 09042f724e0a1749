//! The calls of an entry of a locked stripe of a map under a rule that insert, and those that take the pair out.
ghost use Rattle.scc_common.specs.Pairs.{IsUnique};
ghost use Rattle.scc_owned.specs.EntrySteps.{IsNextPastRemoved, StandsIn};
ghost use Rattle.scc_owned.specs.Held.{entry_key, occupied_back, occupied_contents, occupied_front, occupied_pair};
ghost use Rattle.scc_owned.specs.Insertions.{InsertsThrough, Refuses};
ghost use Rattle.scc_owned.specs.Lookups.{pair_lookups};
ghost use Rattle.scc_owned.specs.MapEntries.{SetsEntry};
ghost use Rattle.scc_owned.specs.Seats.{HasLaterSeat, HasSameRest};
ghost use Rattle.scc_common.specs.Rules.{IsKept};
ghost use Rattle.std.specs.Prelude.{◌≡◌, [], false, IfSome, IsSomeAnd};

use crate::held::{HeldEntry, HeldOccupied};
use crate::locked::first_later;
use crate::ruled_map::locked::{Entry, OccupiedEntry};
use scc_common::{Hashes, InsertError, Rule};
use std::hash::{BuildHasher, Hash};
use std::sync::Wait;

impl<'a, K: Eq + Hash, V, R: Rule<K, V>, H: BuildHasher> Entry<'a, K, V, R, H> {
    /// Sets the value of an occupied entry, which keeps its key, or inserts `value` at a vacant entry. `value` must keep
    /// the rule. Returns the entry.
    pub fn insert_entry(self, value: V) -> Result<OccupiedEntry<'a, K, V, R, H>, InsertError<K, V>>
    where
        V: Drop,
        requires { R.holds (entry_key self) value }
        ensures { InsertsThrough pair_lookups.made K.eq ⟦<H as Hashes<K>>⟧.hash_of false self.entry
            (SetsEntry self.entry value) (Refuses self.entry value) result }
    {
        match self {
            HeldEntry::Occupied(entry) => {
                let mut entry = entry;
                let _old = entry.insert(value);
                Ok(entry)
            }
            HeldEntry::Vacant(entry) => entry.insert_entry(value),
        }
    }
}

impl<'a, K: Eq + Hash, V, R: Rule<K, V>, H: BuildHasher> OccupiedEntry<'a, K, V, R, H> {
    /// Removes the pair, returns its value, and releases the lock. The array may shrink.
    pub fn remove(self) -> V
    where
        K: Drop,
        ensures value { result ≡ (occupied_pair self.entry).1 }
        ensures kept { R.holds (occupied_pair self.entry).0 result }
    {
        let (_key, value) = self.remove_entry();
        value
    }

    /// Removes the pair, returns it, and releases the lock. The array may shrink.
    pub fn remove_entry(self) -> (K, V)
        ensures pair { result ≡ occupied_pair self.entry }
        ensures kept { R.holds result.0 result.1 }
    {
        let HeldOccupied {
            mut guard,
            place,
            rest,
            of: _,
        } = self;
        let pair = guard.remove_at(place);
        rest.follow(&mut *guard);
        pair
    }

    /// Removes the pair, and returns it with the entry that stood next in the stripe's list. If the pair was the last of
    /// its stripe, returns it with the first entry of a later stripe, or `None`. Resizes nothing.
    pub fn remove_and_sync(self, rt: &impl Wait) -> ((K, V), Option<OccupiedEntry<'a, K, V, R, H>>)
        ensures pair { result.0 ≡ occupied_pair self.entry }
        ensures kept { IsKept R.holds result.0 }
        ensures next { (occupied_back self.entry ≡ [] → ⊥) → IsSomeAnd result.1 (IsNextPastRemoved self.entry) }
        ensures later { occupied_back self.entry ≡ []
            → IfSome result.1 (λ n. StandsIn (occupied_contents n) n × (occupied_front n ≡ [])) }
        ensures next_kept { IfSome result.1 (λ n. IsKept R.holds (occupied_pair n)) }
        ensures stays { (occupied_back self.entry ≡ [] → ⊥) → IfSome result.1 (HasSameRest self.entry) }
        ensures goes_on { occupied_back self.entry ≡ [] → IfSome result.1 (HasLaterSeat self.entry) }
        ensures unique { IfSome result.1 (λ n. IsUnique K.eq (occupied_contents n)) }
    {
        let HeldOccupied {
            mut guard,
            place,
            rest,
            of: _,
        } = self;
        let (pair, next) = guard.take_with_next(place);
        match next {
            Some(place) => (pair, Some(HeldOccupied::read_at(guard, place, rest))),
            None => {
                drop(guard);
                (pair, first_later(rt, rest))
            }
        }
    }
}
