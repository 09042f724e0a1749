//! Calls of a map that begin with a hint, the hash of the key under some hasher. If the map's own hasher gives the
//! same hash, the key is present and no bucket waits, the key isn't hashed again.
ghost use Rattle.scc_common.specs.Contents.{entries};
ghost use Rattle.scc_common.specs.Pairs.{find};
ghost use Rattle.scc_owned.specs.Hinted.{UpdatesByRule};
ghost use Rattle.std.specs.Borrow.{Bor, MutBor};
ghost use Rattle.std.specs.Prelude.{◌≡◌, Some};

use crate::Map;
use scc_common::OfPair;
use scc_table::Hinted;
use std::hash::{BuildHasher, Hash};

impl<K: Eq + Hash, V, H: BuildHasher> Map<K, V, H> {
    /// Calls `u` on the pair of `k` as `update_sync` does. The search begins with `hint`, as in `read_by_hint`.
    #[inline(always)]
    pub fn update_by_hint<R, U: FnOnce(&K, &mut V) -> R>(
        &mut self,
        hint: u64,
        k: &K,
        u: U,
    ) -> Option<R>
        requires { (a : Bor K) (b : MutBor V) → find K.eq (entries self.old) k.now ≡ Some (a.now, b.now) → U.pre u a b }
        ensures { UpdatesByRule U.FnOnce u K.eq self.old k.now result self.new }
    {
        match self.table.look_by_hint(hint, k) {
            Hinted::Found(place) => Some(self.table.write_at(place, OfPair { f: u })),
            Hinted::Missed => None,
            Hinted::Unknown => self.update_anew(k, u),
        }
    }

    /// As `update_sync`, if a hint led nowhere.
    #[cold]
    fn update_anew<R, U: FnOnce(&K, &mut V) -> R>(&mut self, k: &K, u: U) -> Option<R>
        requires { (a : Bor K) (b : MutBor V) → find K.eq (entries self.old) k.now ≡ Some (a.now, b.now) → U.pre u a b }
        ensures { UpdatesByRule U.FnOnce u K.eq self.old k.now result self.new }
    {
        self.update_sync(k, u)
    }
}
