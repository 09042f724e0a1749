//! The calls on one key. A contract states what the arguments decide; the call does to the stripe what the owned call
//! of its name does.
ghost use Rattle.std.specs.Prelude.{◌≡◌, ◌⊎◌, IfErr, IfSome};
ghost use Rattle.std.specs.Sync.RwLock.{write_guard_value};
ghost use Rattle.scc_common.specs.Contents.{Contents};
ghost use Rattle.scc_common.specs.Pairs.{IsUnique};
ghost use Rattle.scc_common.specs.Replies.{HasKey, ReadsEqual, WritesEqual, PassesWith};
ghost use Rattle.scc_owned.specs.Entries.{Exists, Memory};
ghost use Rattle.scc_owned.specs.MapEntries.{replaced_guard, Replaces};
ghost use Rattle.scc_owned.specs.Seats.{replaced_rest};
ghost use Rattle.scc_shared.specs.Stripes.{stripes_of};
ghost use Rattle.scc_stripes.specs.Seats.{IsSeatOfKey};

use crate::map::HashMap;
use scc_common::InsertError;
use scc_owned::map::locked::ReplaceResult;
use std::hash::{BuildHasher, Hash};
use std::sync::Wait;

impl<K: Eq + Hash, V, H: BuildHasher> HashMap<K, V, H> {
    /// Inserts the pair if no key equals `k`. Fails if a key equals `k`, or if memory that the insertion needs is
    /// refused; then `k` and `v` come back.
    pub fn insert_sync(&self, rt: &impl Wait, k: K, v: V) -> Result<(), InsertError<K, V>>
        ensures back { IfErr result (λ e. (e ≡ Exists (k, v)) ⊎ (e ≡ Memory (k, v))) }
    {
        let stripe = self.stripes.route(&k);
        self.stripes.write_to_insert(rt, stripe).insert_sync(k, v)
    }

    /// Stores `v` under `k`, and returns the old value. If a key equals `k`, the stored key stays. If memory is
    /// refused, `k` and `v` come back.
    pub fn upsert_sync(&self, rt: &impl Wait, k: K, v: V) -> Result<Option<V>, InsertError<K, V>>
    where
        K: Drop,
        ensures back { IfErr result (λ e. e ≡ Memory (k, v)) }
    {
        let stripe = self.stripes.route(&k);
        self.stripes.write_to_insert(rt, stripe).upsert_sync(k, v)
    }

    /// Calls `u` on the pair of `k`, with the value to write, and returns what `u` returns. Returns `None` without
    /// calling `u` if no key equals `k`.
    pub fn update_sync<R, U: FnOnce(&K, &mut V) -> R>(
        &self,
        rt: &impl Wait,
        k: &K,
        u: U,
    ) -> Option<R>
        requires { U.IsAlwaysCallable u }
        ensures answer { IfSome result (WritesEqual K.eq U.FnOnce u k.now) }
    {
        let hash = self.stripes.hash(k);
        self.stripes
            .write(rt, self.stripes.route_hash(hash))
            .update_by_hint(hash, k, u)
    }

    /// Calls `f` on the pair of `k`, and returns what `f` returns. Returns `None` without calling `f` if no key equals
    /// `k`.
    pub fn read_sync<R, F: FnOnce(&K, &V) -> R>(&self, rt: &impl Wait, k: &K, f: F) -> Option<R>
        requires { F.IsAlwaysCallable f }
        ensures answer { IfSome result (ReadsEqual K.eq F.FnOnce f k.now) }
    {
        let hash = self.stripes.hash(k);
        self.stripes
            .read(rt, self.stripes.route_hash(hash))
            .read_by_hint(hash, k, f)
    }

    /// Returns whether a key equals `k`.
    pub fn contains_sync(&self, rt: &impl Wait, k: &K) -> bool {
        let hash = self.stripes.hash(k);
        self.stripes
            .read(rt, self.stripes.route_hash(hash))
            .contains_by_hint(hash, k)
    }

    /// Removes the pair of `k` if `f` returns true on its value, and returns the pair with what `f` wrote. If `f`
    /// returns false, what `f` wrote stays, and `None` is returned. If no key equals `k`, returns `None` without
    /// calling `f`.
    pub fn remove_if_sync<F: FnOnce(&mut V) -> bool>(
        &self,
        rt: &impl Wait,
        k: &K,
        f: F,
    ) -> Option<(K, V)>
        requires { F.IsAlwaysCallable f }
        ensures key { IfSome result (HasKey K.eq k.now) }
        ensures answer { IfSome result (PassesWith F.FnOnce f) }
    {
        let mut guard = self.stripes.write(rt, self.stripes.route(k));
        let pair = guard.remove_if_sync(k, f);
        if pair.is_some() {
            self.stripes.follow(&mut *guard);
        }
        pair
    }

    /// Removes the pair whose key equals `k`, and returns the pair.
    pub fn remove_sync(&self, rt: &impl Wait, k: &K) -> Option<(K, V)>
        ensures key { IfSome result (HasKey K.eq k.now) }
    {
        let mut guard = self.stripes.write(rt, self.stripes.route(k));
        let pair = guard.remove_sync(k);
        if pair.is_some() {
            self.stripes.follow(&mut *guard);
        }
        pair
    }

    /// Puts `k` in the place of the key that equals `k`, keeps the value, and returns the occupied entry with the old
    /// key. If no key equals `k`, inserts nothing and returns the vacant entry.
    pub fn replace_sync(&self, rt: &impl Wait, k: K) -> ReplaceResult<'_, K, V, H>
        ensures step { (before : Contents (K × V) H) × Replaces K.eq before k result }
        ensures unique { IsUnique K.eq (write_guard_value (replaced_guard result)) }
        ensures seat { IsSeatOfKey H.BuildHasher H.Hasher.Hasher K.hash_input (stripes_of self.now) k
            (replaced_rest result) }
    {
        let hash = self.stripes.hash(&k);
        let stripe = self.stripes.route_hash(hash);
        let (guard, seat) = self.stripes.hold_to_insert(rt, stripe);
        ReplaceResult::of(guard, hash, k, seat)
    }

    /// Returns whether the stripe of `k` has an array in which the bucket of `k` holds fewer than 32 pairs.
    pub fn has_room(&self, rt: &impl Wait, k: &K) -> bool {
        self.stripes.read(rt, self.stripes.route(k)).has_room(k)
    }
}
