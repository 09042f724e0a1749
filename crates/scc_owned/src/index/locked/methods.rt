//! The calls of an entry of a locked stripe that release the lock, and those that insert.
ghost use Rattle.std.specs.Prelude.{◌≡◌};

use crate::held::HeldOccupied;
use crate::index::locked::OccupiedEntry;
use std::hash::{BuildHasher, Hash};

impl<'a, K: Eq + Hash, V, H: BuildHasher> OccupiedEntry<'a, K, V, H> {
    /// Removes the version, and releases the lock. Holders of the version keep it. The array may shrink.
    pub fn remove_entry(self)
    where
        K: Drop,
        V: Drop,
    {
        let HeldOccupied {
            mut guard,
            place,
            rest,
            of: _,
        } = self;
        guard.remove_at(place);
        rest.follow(&mut *guard);
    }
}
