//! The calls of an entry of a map that keep its guard, alike for all guards.
ghost use Rattle.scc_common.specs.Contents.{waiting_of};
ghost use Rattle.scc_common.specs.Pairs.{IsUnique};
ghost use Rattle.scc_owned.specs.Held.{occupied_contents, occupied_pair, entry_guard};
ghost use Rattle.scc_owned.specs.MapEntries.{occupied_lends, IsWritten, with_value, TakesEntry, Modifies};
ghost use Rattle.std.specs.Borrow.{sem};
ghost use Rattle.std.specs.Prelude.{◌≡◌};

use crate::Map;
use crate::held::{HeldEntry, HeldOccupied};
use scc_common::Guard;
use std::hash::{BuildHasher, Hash};

impl<G: Guard<Inner = Map<K, V, H>>, N, K: Eq + Hash, V, H: BuildHasher> HeldOccupied<
    G,
    N,
    (K, V),
    H,
> {
    /// Returns the value, to write.
    pub fn get_mut(&mut self) -> &mut V
        ensures* writes_back { sem 𝓛 (occupied_lends G.row N.row K.row V.row H.row H.Hasher.row self.entry result) }
        ensures value { result.now ≡ (occupied_pair self.old).1 }
        ensures written { (v : V) → IsWritten self.old v (with_value self.old v) }
        ensures waiting { (v : V) → waiting_of (occupied_contents (with_value self.old v)) ≡ waiting_of (occupied_contents self.old) }
        ensures unique { (v : V) → IsUnique K.eq (occupied_contents (with_value self.old v)) }
    {
        let place = self.place;
        self.guard.lend().value_mut_at(place)
    }

    /// Sets the value, and returns the old value. Allocates nothing.
    pub fn insert(&mut self, value: V) -> V
        ensures old { result ≡ (occupied_pair self.old).1 }
        ensures written { IsWritten self.old value self.new }
        ensures waiting { waiting_of (occupied_contents self.new) ≡ waiting_of (occupied_contents self.old) }
        ensures unique { IsUnique K.eq (occupied_contents self.new) }
    {
        let place = self.place;
        self.guard.lend().write_at(place, value)
    }
}

impl<G: Guard<Inner = Map<K, V, H>>, N, K: Eq + Hash, V, H: BuildHasher> HeldEntry<
    G,
    N,
    (K, V),
    H,
> {
    /// Calls `f` on the value if the entry is occupied, and returns the entry. `f` isn't called on a vacant entry.
    pub fn and_modify<F: FnOnce(&mut V)>(self, f: F) -> Self
        requires { TakesEntry F.FnOnce f self }
        ensures modifies { Modifies F.FnOnce f self result }
        ensures waiting { waiting_of (G.inner (entry_guard result)) ≡ waiting_of (G.inner (entry_guard self)) }
        ensures unique { IsUnique K.eq (G.inner (entry_guard result)) }
    {
        match self {
            HeldEntry::Occupied(mut entry) => {
                f(entry.get_mut());
                HeldEntry::Occupied(entry)
            }
            HeldEntry::Vacant(entry) => HeldEntry::Vacant(entry),
        }
    }
}
