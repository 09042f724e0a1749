//! Walks over pairs, which call a closure with a key and a value.
ghost use Rattle.scc_common.specs.Contents.{entries};
ghost use Rattle.scc_common.specs.Walks.{CalledOn, CallableWhile, Walks};
ghost use Rattle.std.specs.Prelude.{true};

use crate::Table;
use scc_common::{Hashes, SharedVersion};

impl<K: Eq, V, H: Hashes<K>> Table<(K, V), H> {
    /// Calls `f` on all pairs in the order of the table, until it returns false. Returns false if it stopped.
    pub fn walk<F: FnMut(&K, &V) -> bool>(&self, f: F) -> bool
        requires { CallableWhile F.FnMut true f (entries self.now) }
        ensures { (last : F) × Walks (CalledOn F.FnMut) f (entries self.now) result last }
    {
        if self.draining.pending == 0 {
            return self.current.walk(f);
        }
        self.walk_places(f)
    }

    /// As `walk`, but goes from place to place, in both arrays.
    fn walk_places<F: FnMut(&K, &V) -> bool>(&self, mut f: F) -> bool
        requires { CallableWhile F.FnMut true f (entries self.now) }
        ensures { (last : F) × Walks (CalledOn F.FnMut) f (entries self.now) result last }
    {
        let mut at = self.first_place();
        while let Some(place) = at {
            let (key, value) = self.pair_at(place);
            if !f(key, value) {
                return false;
            }
            at = self.next_place(place);
        }
        true
    }
}

impl<K: Eq, V, H: Hashes<K>> Table<SharedVersion<K, V>, H> {
    /// Calls `f` on all pairs in the order of the table, until it returns false. Returns false if it stopped.
    pub fn walk<F: FnMut(&K, &V) -> bool>(&self, f: F) -> bool
        requires { CallableWhile F.FnMut true f (entries self.now) }
        ensures { (last : F) × Walks (CalledOn F.FnMut) f (entries self.now) result last }
    {
        if self.draining.pending == 0 {
            return self.current.walk(f);
        }
        self.walk_versions(f)
    }

    /// As `walk`, but goes from place to place, in both arrays.
    fn walk_versions<F: FnMut(&K, &V) -> bool>(&self, mut f: F) -> bool
        requires { CallableWhile F.FnMut true f (entries self.now) }
        ensures { (last : F) × Walks (CalledOn F.FnMut) f (entries self.now) result last }
    {
        let mut at = self.first_place();
        while let Some(place) = at {
            let version = self.version_at(place);
            if !f(version.key(), version.value()) {
                return false;
            }
            at = self.next_place(place);
        }
        true
    }
}
