//! The calls that make an entry of a borrowed index, and those that end the borrow. An entry holds the place that one
//! search found.
ghost use Rattle.scc_common.specs.Pairs.{IsUnique};
ghost use Rattle.scc_common.specs.Steps.{Holds};
ghost use Rattle.scc_owned.specs.Held.{occupied_contents, occupied_front, occupied_back};
ghost use Rattle.scc_table.specs.Arrays.{ShrinksByRule};
ghost use Rattle.std.specs.Prelude.{◌≡◌, ◌++◌, ⊤};

use crate::Index;
use crate::held::HeldOccupied;
use scc_common::SharedVersion;
use std::hash::{BuildHasher, Hash};

impl<'a, N, K: Eq + Hash, V, H: BuildHasher> HeldOccupied<
    &'a mut Index<K, V, H>,
    N,
    SharedVersion<K, V>,
    H,
> {
    /// Removes the version. Holders of the version keep it. The array may shrink.
    pub fn remove_entry(self)
    where
        N: Drop,
        K: Drop,
        V: Drop,
        ensures removed { Holds (occupied_contents self.entry) (occupied_front self.entry ++ occupied_back self.entry)
            self.exit.0.now }
        ensures unique { IsUnique K.eq self.exit.0.now }
        ensures array { ShrinksByRule ⊤ (occupied_contents self.entry) self.exit.0.now }
    {
        let place = self.place;
        self.guard.remove_at(place);
    }
}
