//! The calls on one key. A contract states what the arguments decide; the call does to the stripe what the owned call
//! of its name does.
ghost use Rattle.std.specs.Prelude.{◌≡◌, ◌⊎◌, IfErr, IfOk, IfSome, IsTrue, true};
ghost use Rattle.std.specs.Arc.{arc_value};
ghost use Rattle.scc_owned.specs.Entries.{Exists, Memory};
ghost use Rattle.scc_common.specs.Replies.{HasKey, ReadsEqual};
ghost use Rattle.scc_shared.specs.IndexReplies.{PassesOn};

use crate::index::HashIndex;
use scc_common::{InsertError, MakeError, Version};
use std::hash::{BuildHasher, Hash};
use std::sync::{Arc, Wait};

impl<K: Eq + Hash, V, H: BuildHasher> HashIndex<K, V, H> {
    /// Inserts a version of the pair if no key equals `k`. Fails if a key equals `k`, or if memory for the version or
    /// for the insertion is refused; then `k` and `v` come back.
    pub fn insert_sync(&self, rt: &impl Wait, k: K, v: V) -> Result<(), InsertError<K, V>>
        ensures back { IfErr result (λ e. (e ≡ Exists (k, v)) ⊎ (e ≡ Memory (k, v))) }
    {
        let hash = self.stripes.hash(&k);
        let stripe = self.stripes.route_hash(hash);
        self.stripes
            .write_to_insert(rt, stripe)
            .insert_by_hint(hash, k, v)
    }

    /// Returns the version of `k` with one more owner, or `None` if no key equals `k`. The version never changes and
    /// lives as long as it has an owner, whatever happens to the index. Fails if the version has 2^63 - 1 owners.
    pub fn peek(&self, rt: &impl Wait, k: &K) -> Result<Option<Arc<Version<K, V>>>, MakeError>
        ensures key { IfOk result (λ o. IfSome o (λ a. HasKey K.eq k.now (arc_value a))) }
    {
        let hash = self.stripes.hash(k);
        self.stripes
            .read(rt, self.stripes.route_hash(hash))
            .peek_shared_by_hint(hash, k)
    }

    /// Calls `f` on the pair of `k`, and returns what `f` returns. Returns `None` without calling `f` if no key equals
    /// `k`. No owner is counted.
    pub fn peek_with<R, F: FnOnce(&K, &V) -> R>(&self, rt: &impl Wait, k: &K, f: F) -> Option<R>
        requires { F.IsAlwaysCallable f }
        ensures answer { IfSome result (ReadsEqual K.eq F.FnOnce f k.now) }
    {
        let hash = self.stripes.hash(k);
        self.stripes
            .read(rt, self.stripes.route_hash(hash))
            .peek_with_by_hint(hash, k, f)
    }

    /// As `peek_with`.
    pub fn read_sync<R, F: FnOnce(&K, &V) -> R>(&self, rt: &impl Wait, k: &K, f: F) -> Option<R>
        requires { F.IsAlwaysCallable f }
        ensures answer { IfSome result (ReadsEqual K.eq F.FnOnce f k.now) }
    {
        self.peek_with(rt, k, f)
    }

    /// Returns whether a key equals `k`. No owner is counted.
    pub fn contains(&self, rt: &impl Wait, k: &K) -> bool {
        let hash = self.stripes.hash(k);
        self.stripes
            .read(rt, self.stripes.route_hash(hash))
            .contains_by_hint(hash, k)
    }

    /// Removes the version whose key equals `k`, and returns whether there was such a version. Whoever keeps the
    /// version still has it.
    pub fn remove_sync(&self, rt: &impl Wait, k: &K) -> bool
    where
        K: Drop,
        V: Drop,
    {
        let mut guard = self.stripes.write(rt, self.stripes.route(k));
        let removed = guard.remove_sync(k);
        if removed {
            self.stripes.follow(&mut *guard);
        }
        removed
    }

    /// Removes the version of `k` if `f` returns true on its value, and returns whether it did. If no key equals `k`,
    /// returns false without calling `f`.
    pub fn remove_if_sync<F: FnOnce(&V) -> bool>(&self, rt: &impl Wait, k: &K, f: F) -> bool
    where
        K: Drop,
        V: Drop,
        requires { F.IsAlwaysCallable f }
        ensures answer { IsTrue result → PassesOn F.FnOnce f }
    {
        let mut guard = self.stripes.write(rt, self.stripes.route(k));
        let removed = guard.remove_if_sync(k, f);
        if removed {
            self.stripes.follow(&mut *guard);
        }
        removed
    }
}
