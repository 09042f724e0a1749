//! How an entry is made from the guard of a container, alike for maps and indexes. The guard may be of any kind, but the
//! owned form, whose contracts say more of a guard that goes, makes its entries itself.
ghost use Rattle.scc_common.specs.Contents.{entries, IsUniqueBy};
ghost use Rattle.scc_owned.specs.EntrySteps.{StandsIn};
ghost use Rattle.scc_owned.specs.Held.{entry_guard, occupied_contents, occupied_front, occupied_guard};
ghost use Rattle.scc_owned.specs.Lookups.{AllowsEntry, IsAllowed, IsAllowedAt, IsEntryOf, IsOccupiedAt};
ghost use Rattle.scc_owned.specs.Seats.{entry_rest, occupied_rest};
ghost use Rattle.std.specs.Prelude.{◌≡◌, [], None, IfOk, IfErr, IfSome, IfNone};

use crate::Owned;
use crate::held::{HeldEntry, HeldOccupied, HeldVacant};
use crate::stored::Stored;
use scc_common::Guard;
use std::hash::{BuildHasher, Hash};

impl<G: Guard<Inner = Owned<E, H>>, N, E: Stored, H: BuildHasher> HeldOccupied<G, N, E, H>
where
    E::Key: Eq + Hash,
{
    /// Returns the first entry of the container of `guard`. If the container is empty, drops the guard and returns `rest`.
    pub fn first(guard: G, rest: N) -> Result<Self, N>
    where
        G: Drop,
        ensures guard { IfOk result (λ o. occupied_guard o ≡ guard) }
        ensures rest { IfOk result (λ o. occupied_rest o ≡ rest) }
        ensures first { IfOk result (λ o. StandsIn (G.inner guard) o × (occupied_front o ≡ [])) }
        ensures allowed { IfOk result (IsAllowed E.value_of E.allows) }
        ensures empty { IfErr result (λ n. (n ≡ rest) × (entries (G.inner guard) ≡ [])) }
        ensures unique { IsUniqueBy E.Key.eq E.key_of (G.inner guard) }
    {
        match guard.look().first_place() {
            Some(place) => Ok(HeldOccupied::read_at(guard, place, rest)),
            None => Err(rest),
        }
    }
}

impl<G: Guard<Inner = Owned<E, H>>, N, E: Stored, H: BuildHasher> HeldEntry<G, N, E, H>
where
    E::Key: Eq + Hash,
{
    /// Returns the entry of `k` in the container of `guard`: occupied at the stored pair, or vacant with `k`. Allocates
    /// nothing and makes no array. The search begins with `hint`, the hash of `k` under some hasher. If the container's
    /// own hasher gives the same hash, the entry is there and no bucket waits, `k` isn't hashed again.
    #[inline(always)]
    pub fn of(guard: G, hint: u64, k: E::Key, rest: N) -> Self
    where
        E::Key: Drop,
        ensures guard { entry_guard result ≡ guard }
        ensures rest { entry_rest result ≡ rest }
        ensures entry { IsEntryOf E.lookups E.Key.eq (G.inner (entry_guard result)) k result }
        ensures allowed { AllowsEntry E.value_of E.allows k result }
        ensures unique { IsUniqueBy E.Key.eq E.key_of (G.inner guard) }
    {
        match guard.look().search_by_hint(hint, &k) {
            Ok(place) => HeldEntry::Occupied(HeldOccupied::read_at(guard, place, rest)),
            Err(hash) => HeldEntry::Vacant(HeldVacant::of_key(guard, k, hash, rest)),
        }
    }
}

impl<G: Guard<Inner = Owned<E, H>>, N, E: Stored, H: BuildHasher> HeldOccupied<G, N, E, H>
where
    E::Key: Eq + Hash,
{
    /// Returns the occupied entry of `k` in the container of `guard`. If no key equals `k`, drops the guard and returns
    /// `None`. The search begins with `hint`, as in `HeldEntry::of`.
    #[inline(always)]
    pub fn of(guard: G, hint: u64, k: &E::Key, rest: N) -> Option<Self>
    where
        G: Drop,
        N: Drop,
        ensures guard { IfSome result (λ o. occupied_guard o ≡ guard) }
        ensures rest { IfSome result (λ o. occupied_rest o ≡ rest) }
        ensures entry { IfSome result (λ o. IsOccupiedAt E.lookups E.Key.eq (occupied_contents o) k.now o) }
        ensures allowed { IfSome result (IsAllowedAt E.value_of E.allows k.now) }
        ensures missing { IfNone result (E.lookups.find (E.Key.eq k.now) (entries (G.inner guard)) ≡ None) }
        ensures unique { IsUniqueBy E.Key.eq E.key_of (G.inner guard) }
    {
        match guard.look().search_by_hint(hint, k) {
            Ok(place) => Some(HeldOccupied::read_at(guard, place, rest)),
            Err(_) => None,
        }
    }
}
