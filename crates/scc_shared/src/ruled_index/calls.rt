//! The calls on one key. A contract states what the arguments and the rule decide; the call does to the stripe what the
//! owned call of its name does.
ghost use Rattle.scc_owned.specs.Entries.{Exists, Memory};
ghost use Rattle.scc_owned.specs.RuledReplies.{IsTestedOn, PassesKept};
ghost use Rattle.scc_common.specs.Rules.{IsCalledOn, IsKeptAt, ReadsKept};
ghost use Rattle.std.specs.Arc.{arc_value};
ghost use Rattle.std.specs.Prelude.{◌≡◌, ◌⊎◌, IfErr, IfOk, IfSome, IsTrue};

use crate::ruled_index::RuledIndex;
use scc_common::{InsertError, MakeError, Rule, Version};
use std::hash::{BuildHasher, Hash};
use std::sync::{Arc, Wait};

impl<K: Eq + Hash, V, R: Rule<K, V>, H: BuildHasher> RuledIndex<K, V, R, H> {
    /// Inserts a version of the pair, which must keep the rule, if no key equals `k`. Fails if a key equals `k`, or if
    /// memory for the version or for the insertion is refused; then `k` and `v` come back.
    pub fn insert_sync(&self, rt: &impl Wait, k: K, v: V) -> Result<(), InsertError<K, V>>
        requires { R.holds k v }
        ensures back { IfErr result (λ e. (e ≡ Exists (k, v)) ⊎ (e ≡ Memory (k, v))) }
    {
        let stripe = self.stripes.route(&k);
        self.stripes.write_to_insert(rt, stripe).insert_sync(k, v)
    }

    /// Returns the version of `k` with one more owner, or `None` if no key equals `k`. The version never changes, keeps
    /// the rule, and lives as long as it has an owner, whatever happens to the index. Its value may stand under `k`.
    /// Fails if the version has 2^63 - 1 owners.
    pub fn peek(&self, rt: &impl Wait, k: &K) -> Result<Option<Arc<Version<K, V>>>, MakeError>
        ensures { IfOk result (λ o. IfSome o (λ a. IsKeptAt K.eq R.holds k.now (arc_value a))) }
    {
        let hash = self.stripes.hash(k);
        self.stripes
            .read(rt, self.stripes.route_hash(hash))
            .peek_shared_by_hint(hash, k)
    }

    /// Calls `f` on the pair of `k`, and returns what `f` returns. Returns `None` without calling `f` if no key equals
    /// `k`. No owner is counted.
    pub fn peek_with<A, F: FnOnce(&K, &V) -> A>(&self, rt: &impl Wait, k: &K, f: F) -> Option<A>
        requires { IsCalledOn K.eq R.holds F.FnOnce f k.now }
        ensures answer { IfSome result (ReadsKept K.eq R.holds F.FnOnce f k.now) }
    {
        let hash = self.stripes.hash(k);
        self.stripes
            .read(rt, self.stripes.route_hash(hash))
            .read_by_hint(hash, k, f)
    }

    /// As `peek_with`.
    pub fn read_sync<A, F: FnOnce(&K, &V) -> A>(&self, rt: &impl Wait, k: &K, f: F) -> Option<A>
        requires { IsCalledOn K.eq R.holds F.FnOnce f k.now }
        ensures answer { IfSome result (ReadsKept K.eq R.holds F.FnOnce f k.now) }
    {
        self.peek_with(rt, k, f)
    }

    /// Returns whether a key equals `k`. If so, some value may stand under `k`. No owner is counted.
    pub fn contains(&self, rt: &impl Wait, k: &K) -> bool
        ensures { IsTrue result → (v : V) × R.holds k.now v }
    {
        match self.peek_with(rt, k, |_key: &K, _value: &V| {}) {
            Some(()) => true,
            None => false,
        }
    }

    /// Removes the version whose key equals `k`, and returns whether there was such a version. Whoever keeps the
    /// version still has it.
    pub fn remove_sync(&self, rt: &impl Wait, k: &K) -> bool
    where
        K: Drop,
        V: Drop,
    {
        let mut guard = self.stripes.write(rt, self.stripes.route(k));
        let removed = guard.remove_sync(k);
        if removed {
            self.stripes.follow(&mut *guard);
        }
        removed
    }

    /// Removes the version of `k` if `f` returns true on its value, and returns whether it did. If no key equals `k`,
    /// returns false without calling `f`. `f` is called on a value that may stand under `k`.
    pub fn remove_if_sync<F: FnOnce(&V) -> bool>(&self, rt: &impl Wait, k: &K, f: F) -> bool
    where
        K: Drop,
        V: Drop,
        requires { IsTestedOn R.holds F.FnOnce f k.now }
        ensures answer { IsTrue result → PassesKept R.holds F.FnOnce f k.now }
    {
        let mut guard = self.stripes.write(rt, self.stripes.route(k));
        let removed = guard.remove_if_sync(k, f);
        if removed {
            self.stripes.follow(&mut *guard);
        }
        removed
    }

    /// Returns whether the stripe of `k` has an array in which the bucket of `k` holds fewer than 32 versions.
    pub fn has_room(&self, rt: &impl Wait, k: &K) -> bool {
        self.stripes.read(rt, self.stripes.route(k)).has_room(k)
    }
}
