//! What a cache under no rule lends: a value to write.
ghost use Rattle.scc_owned_cache.specs.Caches.{IsCacheState};
ghost use Rattle.scc_owned_cache.specs.Lends.{lends_value, with_value_at};
ghost use Rattle.scc_common.specs.Contents.{hash_in, list_of};
ghost use Rattle.scc_common.specs.contracts.rule.Anything.{the_row as anything_row};
ghost use Rattle.scc_table.specs.Places.{IsPlace, spot_of};
ghost use Rattle.std.specs.Borrow.{sem};
ghost use Rattle.std.specs.Prelude.{◌≡◌, Some, slice_get};

use crate::Owned;
use scc_buckets::Place;
use scc_common::{Anything, Hashes, Rule};
use std::hash::{BuildHasher, Hash};

impl<K: Eq + Hash, V, H: BuildHasher> Owned<K, V, H> {
    /// Returns the value at `place`, to write. The order of the pairs stays.
    pub fn value_mut_at(&mut self, place: Place) -> &mut V
        requires { IsPlace self.old.contents place }
        ensures* writes_back { sem 𝓛 (lends_value K.row V.row H.row anything_row H.Hasher.row K.Hash H.BuildHasher ⟦<Anything as Rule<K, V>>⟧ H.Hasher.Hasher
            self.entry place result) }
        ensures value { (p : K × V) × (slice_get (list_of self.old.contents (spot_of self.old.contents place).bucket)
            (spot_of self.old.contents place).slot ≡ Some p) × (result.now ≡ p.1) }
        ensures state { (v : V) → IsCacheState K.eq
            (hash_in ⟦<H as Hashes<K>>⟧.hash_of (with_value_at self.old place v).contents)
            (with_value_at self.old place v) }
    {
        self.table.value_mut_at(place)
    }
}
