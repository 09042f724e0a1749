//! The calls of an entry of a locked stripe that release the lock, and those that insert.
ghost use Rattle.scc_owned.specs.Held.{occupied_pair};
ghost use Rattle.std.specs.Prelude.{◌≡◌};

use crate::held::HeldOccupied;
use crate::map::locked::OccupiedEntry;
use std::hash::{BuildHasher, Hash};

impl<'a, K: Eq + Hash, V, H: BuildHasher> OccupiedEntry<'a, K, V, H> {
    /// Removes the pair, returns its value, and releases the lock. The array may shrink.
    pub fn remove(self) -> V
    where
        K: Drop,
        ensures value { result ≡ (occupied_pair self.entry).1 }
    {
        let (_key, value) = self.remove_entry();
        value
    }

    /// Removes the pair, returns it, and releases the lock. The array may shrink.
    pub fn remove_entry(self) -> (K, V)
        ensures pair { result ≡ occupied_pair self.entry }
    {
        let HeldOccupied {
            mut guard,
            place,
            rest,
            of: _,
        } = self;
        let pair = guard.remove_at(place);
        rest.follow(&mut *guard);
        pair
    }
}
