//! The calls of an entry of a map under a rule that write to its value, alike for all guards. None lends the value to
//! write, since its caller could then break the rule.
ghost use Rattle.scc_common.specs.Closures.{TakesAt, WritesAt};
ghost use Rattle.scc_common.specs.Contents.{waiting_of};
ghost use Rattle.scc_common.specs.Pairs.{IsUnique};
ghost use Rattle.scc_owned.specs.Held.{entry_guard, occupied_contents, occupied_pair};
ghost use Rattle.scc_owned.specs.MapEntries.{IsWritten, Modifies};
ghost use Rattle.scc_owned.specs.RuledEntries.{KeepsEntry, TakesEntry};
ghost use Rattle.scc_owned.specs.Seats.{occupied_rest};
ghost use Rattle.scc_common.specs.Rules.{IsKept};
ghost use Rattle.std.specs.Fn.{FnOnceReturnsAtMut, FnOnceTakesAtMut};
ghost use Rattle.std.specs.Prelude.{◌≡◌};

use crate::held::{HeldEntry, HeldOccupied};
use crate::ruled_map::RuledMap;
use scc_common::{Guard, Rule, Ruled};
use std::hash::{BuildHasher, Hash};

impl<
    G: Guard<Inner = RuledMap<K, V, R, H>>,
    N,
    K: Eq + Hash,
    V,
    R: Rule<K, V>,
    H: BuildHasher,
> HeldOccupied<G, N, Ruled<K, V, R>, H> {
    /// Sets the value, which must keep the rule, and returns the old value. Allocates nothing.
    pub fn insert(&mut self, value: V) -> V
        requires { R.holds (occupied_pair self.old).0 value }
        ensures old { result ≡ (occupied_pair self.old).1 }
        ensures kept { R.holds (occupied_pair self.old).0 result }
        ensures step { IsWritten self.old value self.new }
        ensures written { occupied_pair self.new ≡ ((occupied_pair self.old).0, value) }
        ensures seat { occupied_rest self.new ≡ occupied_rest self.old }
        ensures waiting { waiting_of (occupied_contents self.new) ≡ waiting_of (occupied_contents self.old) }
        ensures unique { IsUnique K.eq (occupied_contents self.new) }
    {
        let place = self.place;
        self.guard.lend().write_at(place, value)
    }

    /// Calls `f` on the pair, with the value to write, and returns what `f` returns. What `f` leaves must keep the rule.
    pub fn update<A, F: FnOnce(&K, &mut V) -> A>(&mut self, f: F) -> A
        requires callable { IsKept R.holds (occupied_pair self.old) → TakesAt F.FnOnce f (occupied_pair self.old) }
        requires keeps { (r : A) (w : V) → IsKept R.holds (occupied_pair self.old)
            → WritesAt F.FnOnce f (occupied_pair self.old) r w → R.holds (occupied_pair self.old).0 w }
        ensures answer { (w : V) × WritesAt F.FnOnce f (occupied_pair self.old) result w
            × (occupied_pair self.new ≡ ((occupied_pair self.old).0, w)) × IsWritten self.old w self.new }
        ensures kept { IsKept R.holds (occupied_pair self.old) }
        ensures seat { occupied_rest self.new ≡ occupied_rest self.old }
        ensures waiting { waiting_of (occupied_contents self.new) ≡ waiting_of (occupied_contents self.old) }
        ensures unique { IsUnique K.eq (occupied_contents self.new) }
    {
        let place = self.place;
        self.guard.lend().update_at(place, f)
    }

    /// Calls `f` on the value, to write, and returns what `f` returns.
    pub(crate) fn modify<A, F: FnOnce(&mut V) -> A>(&mut self, f: F) -> A
        requires callable { IsKept R.holds (occupied_pair self.old)
            → FnOnceTakesAtMut F.FnOnce f (occupied_pair self.old).1 }
        requires keeps { (r : A) (w : V) → IsKept R.holds (occupied_pair self.old)
            → FnOnceReturnsAtMut F.FnOnce f (occupied_pair self.old).1 r w → R.holds (occupied_pair self.old).0 w }
        ensures answer { (w : V) × FnOnceReturnsAtMut F.FnOnce f (occupied_pair self.old).1 result w
            × IsWritten self.old w self.new }
        ensures waiting { waiting_of (occupied_contents self.new) ≡ waiting_of (occupied_contents self.old) }
        ensures unique { IsUnique K.eq (occupied_contents self.new) }
    {
        let place = self.place;
        self.guard.lend().modify_at(place, f)
    }
}

impl<
    G: Guard<Inner = RuledMap<K, V, R, H>>,
    N,
    K: Eq + Hash,
    V,
    R: Rule<K, V>,
    H: BuildHasher,
> HeldEntry<G, N, Ruled<K, V, R>, H> {
    /// Calls `f` on the value if the entry is occupied, and returns the entry. What `f` leaves must keep the rule. `f`
    /// isn't called on a vacant entry.
    pub fn and_modify<F: FnOnce(&mut V)>(self, f: F) -> Self
        requires callable { TakesEntry R.holds F.FnOnce f self }
        requires keeps { KeepsEntry R.holds F.FnOnce f self }
        ensures modifies { Modifies F.FnOnce f self result }
        ensures waiting { waiting_of (G.inner (entry_guard result)) ≡ waiting_of (G.inner (entry_guard self)) }
        ensures unique { IsUnique K.eq (G.inner (entry_guard result)) }
    {
        match self {
            HeldEntry::Occupied(mut entry) => {
                entry.modify(f);
                HeldEntry::Occupied(entry)
            }
            HeldEntry::Vacant(entry) => HeldEntry::Vacant(entry),
        }
    }
}
