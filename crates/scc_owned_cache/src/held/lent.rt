//! What an entry of a cache under no rule lends: its value to write.
ghost use Rattle.scc_owned_cache.specs.Entries.{occupied_pair, occupied_lends, IsWritten, with_value};
ghost use Rattle.scc_common.specs.contracts.rule.Anything.{the_row as anything_row};
ghost use Rattle.std.specs.Borrow.{sem};
ghost use Rattle.std.specs.Prelude.{◌≡◌};

use crate::Owned;
use crate::held::HeldOccupied;
use scc_common::{Anything, Guard};
use std::hash::{BuildHasher, Hash};

impl<G: Guard<Inner = Owned<K, V, H>>, N, K: Eq + Hash, V, H: BuildHasher> HeldOccupied<
    G,
    N,
    K,
    V,
    H,
    Anything,
> {
    /// Returns the value, to write. The order of the pairs stays.
    pub fn get_mut(&mut self) -> &mut V
        ensures* writes_back { sem 𝓛 (occupied_lends G.row N.row K.row V.row H.row anything_row H.Hasher.row self.entry result) }
        ensures value { result.now ≡ (occupied_pair self.old).1 }
        ensures written { (v : V) → IsWritten self.old v (with_value self.old v) }
    {
        let place = self.place;
        self.guard.lend().value_mut_at(place)
    }
}
