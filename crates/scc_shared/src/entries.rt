//! The calls that return an entry. An entry holds the lock of its stripe.
ghost use Rattle.std.specs.Prelude.{◌≡◌, [], IfSome};
ghost use Rattle.std.specs.Sync.RwLock.{write_guard_value};
ghost use Rattle.scc_common.specs.Contents.{IsUniqueBy};
ghost use Rattle.scc_owned.specs.EntrySteps.{StandsIn};
ghost use Rattle.scc_owned.specs.Held.{entry_guard, occupied_contents, occupied_front};
ghost use Rattle.scc_owned.specs.Lookups.{AllowsEntry, IsAllowed, IsAllowedAt, IsEntryOf, IsOccupiedAt};
ghost use Rattle.scc_owned.specs.Seats.{entry_rest, occupied_rest, HasSeatIn};
ghost use Rattle.scc_shared.specs.Stripes.{stripes_of};
ghost use Rattle.scc_stripes.specs.Seats.{IsSeatOfKey};

use super::HashContainer;
use scc_owned::Stored;
use scc_owned::held::{HeldEntry, HeldOccupied};
use scc_owned::locked::{Entry, OccupiedEntry, first_later};
use std::hash::{BuildHasher, Hash};
use std::sync::Wait;

impl<E: Stored, H: BuildHasher> HashContainer<E, H>
where
    E::Key: Eq + Hash,
{
    /// Returns the entry of `k`: occupied if a key equals `k`, else vacant with `k`. Inserts nothing and makes no
    /// array.
    pub fn entry_sync(&self, rt: &impl Wait, k: E::Key) -> Entry<'_, E, H>
    where
        E::Key: Drop,
        ensures entry { IsEntryOf E.lookups E.Key.eq (write_guard_value (entry_guard result)) k result }
        ensures allowed { AllowsEntry E.value_of E.allows k result }
        ensures unique { IsUniqueBy E.Key.eq E.key_of (write_guard_value (entry_guard result)) }
        ensures seat { IsSeatOfKey H.BuildHasher H.Hasher.Hasher E.Key.hash_input (stripes_of self.now) k
            (entry_rest result) }
    {
        let hash = self.stripes.hash(&k);
        let stripe = self.stripes.route_hash(hash);
        let (guard, seat) = self.stripes.hold_to_insert(rt, stripe);
        HeldEntry::of(guard, hash, k, seat)
    }

    /// Returns the occupied entry of `k`, or `None` if no key equals `k`.
    pub fn get_sync(&self, rt: &impl Wait, k: &E::Key) -> Option<OccupiedEntry<'_, E, H>>
        ensures entry { IfSome result (λ o. IsOccupiedAt E.lookups E.Key.eq (occupied_contents o) k.now o) }
        ensures allowed { IfSome result (IsAllowedAt E.value_of E.allows k.now) }
        ensures unique { IfSome result (λ o. IsUniqueBy E.Key.eq E.key_of (occupied_contents o)) }
        ensures seat { IfSome result (λ o. IsSeatOfKey H.BuildHasher H.Hasher.Hasher E.Key.hash_input
            (stripes_of self.now) k.now (occupied_rest o)) }
    {
        let hash = self.stripes.hash(k);
        let stripe = self.stripes.route_hash(hash);
        let (guard, seat) = self.stripes.hold(rt, stripe);
        HeldOccupied::of(guard, hash, k, seat)
    }

    /// Returns the first entry of the first stripe that has an entry, or `None` if no stripe has one.
    pub fn begin_sync(&self, rt: &impl Wait) -> Option<OccupiedEntry<'_, E, H>>
        ensures first { IfSome result (λ o. StandsIn (occupied_contents o) o × (occupied_front o ≡ [])) }
        ensures allowed { IfSome result (IsAllowed E.value_of E.allows) }
        ensures unique { IfSome result (λ o. IsUniqueBy E.Key.eq E.key_of (occupied_contents o)) }
        ensures seat { IfSome result (HasSeatIn (stripes_of self.now)) }
    {
        let (guard, seat) = self.stripes.hold(rt, 0);
        match HeldOccupied::first(guard, seat) {
            Ok(entry) => Some(entry),
            Err(seat) => first_later(rt, seat),
        }
    }
}
