//! The calls of an entry that keep its guard, alike for all guards.
ghost use Rattle.scc_common.specs.Closures.{WritesAt};
ghost use Rattle.scc_common.specs.Rules.{IsKept};
ghost use Rattle.scc_owned_cache.specs.Entries.{occupied_pair, entry_key, IsWritten, KeepsEntry, TakesEntry, Modifies, vacant_key};
ghost use Rattle.std.specs.Borrow.{Bor, MutBor};
ghost use Rattle.std.specs.Fn.{FnOnceReturnsAtMut, FnOnceTakesAtMut};
ghost use Rattle.std.specs.Prelude.{◌≡◌};

use crate::Owned;
use crate::held::{HeldEntry, HeldOccupied, HeldVacant};
use scc_common::{Guard, Rule};
use std::alloc::Global;
use std::hash::{BuildHasher, Hash};

impl<
    G: Guard<Inner = Owned<K, V, H, R>>,
    N,
    K: Eq + Hash,
    V,
    H: BuildHasher,
    R: Rule<K, V>,
> HeldOccupied<G, N, K, V, H, R> {
    /// Returns the stored key.
    pub fn key(&self) -> &K
        ensures key { result.now ≡ (occupied_pair self.now).0 }
        ensures kept { R.holds result.now (occupied_pair self.now).1 }
    {
        self.guard.look().pair_at(self.place).0
    }

    /// Returns the value.
    pub fn get(&self) -> &V
        ensures value { result.now ≡ (occupied_pair self.now).1 }
        ensures kept { R.holds (occupied_pair self.now).0 result.now }
    {
        self.guard.look().pair_at(self.place).1
    }

    /// Sets the value, which must keep the rule, and returns the old value. Evicts nothing, allocates nothing, and
    /// keeps the order of the pairs.
    pub fn put(&mut self, value: V) -> V
        requires { R.holds (occupied_pair self.old).0 value }
        ensures old { result ≡ (occupied_pair self.old).1 }
        ensures kept { R.holds (occupied_pair self.old).0 result }
        ensures written { IsWritten self.old value self.new }
    {
        let place = self.place;
        self.guard.lend().write_at(place, value)
    }

    /// Calls `f` on the pair, with the value to write, and returns what `f` returns. What `f` leaves must keep the
    /// rule. The order of the pairs stays.
    pub fn update<A, F: FnOnce(&K, &mut V) -> A>(&mut self, f: F) -> A
        requires callable { (a : Bor K) (b : MutBor V) → (a.now, b.now) ≡ occupied_pair self.old → R.holds a.now b.now
            → F.pre f a b }
        requires keeps { (r : A) (w : V) → IsKept R.holds (occupied_pair self.old)
            → WritesAt F.FnOnce f (occupied_pair self.old) r w → R.holds (occupied_pair self.old).0 w }
        ensures answer { (w : V) × WritesAt F.FnOnce f (occupied_pair self.old) result w × IsWritten self.old w self.new }
        ensures kept { IsKept R.holds (occupied_pair self.old) }
    {
        let place = self.place;
        self.guard.lend().update_at(place, f)
    }

    /// Calls `f` on the value, to write, and returns what `f` returns.
    pub(crate) fn modify<A, F: FnOnce(&mut V) -> A>(&mut self, f: F) -> A
        requires callable { IsKept R.holds (occupied_pair self.old)
            → FnOnceTakesAtMut F.FnOnce f (occupied_pair self.old).1 }
        requires keeps { (r : A) (w : V) → IsKept R.holds (occupied_pair self.old)
            → FnOnceReturnsAtMut F.FnOnce f (occupied_pair self.old).1 r w → R.holds (occupied_pair self.old).0 w }
        ensures answer { (w : V) × FnOnceReturnsAtMut F.FnOnce f (occupied_pair self.old).1 result w
            × IsWritten self.old w self.new }
    {
        let place = self.place;
        self.guard.lend().modify_at(place, f)
    }
}

impl<
    G: Guard<Inner = Owned<K, V, H, R>>,
    N,
    K: Eq + Hash,
    V,
    H: BuildHasher,
    R: Rule<K, V>,
> HeldVacant<G, N, K, V, H, R> {
    /// Returns the allocator of the container.
    pub(crate) fn allocator(&self) -> Global {
        self.guard.look().allocator()
    }

    /// Returns the key that an insertion would store.
    pub fn key(&self) -> &K
        ensures { result.now ≡ vacant_key self.now }
    {
        &self.key
    }
}

impl<
    G: Guard<Inner = Owned<K, V, H, R>>,
    N,
    K: Eq + Hash,
    V,
    H: BuildHasher,
    R: Rule<K, V>,
> HeldEntry<G, N, K, V, H, R> {
    /// Returns the stored key of an occupied entry, or the key of a vacant entry.
    pub fn key(&self) -> &K
        ensures { result.now ≡ entry_key self.now }
    {
        match self {
            HeldEntry::Occupied(entry) => entry.key(),
            HeldEntry::Vacant(entry) => entry.key(),
        }
    }

    /// Calls `f` on the value if the entry is occupied, and returns the entry. What `f` leaves must keep the rule. `f`
    /// isn't called on a vacant entry.
    pub fn and_modify<F: FnOnce(&mut V)>(self, f: F) -> Self
        requires callable { TakesEntry R.holds F.FnOnce f self }
        requires keeps { KeepsEntry R.holds F.FnOnce f self }
        ensures modifies { Modifies F.FnOnce f self result }
    {
        match self {
            HeldEntry::Occupied(mut entry) => {
                entry.modify(f);
                HeldEntry::Occupied(entry)
            }
            HeldEntry::Vacant(entry) => HeldEntry::Vacant(entry),
        }
    }
}
