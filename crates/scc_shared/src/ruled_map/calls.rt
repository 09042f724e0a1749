//! The calls on one key. A contract states what the arguments and the rule decide; the call does to the stripe what the
//! owned call of its name does.
ghost use Rattle.scc_common.specs.Contents.{Contents};
ghost use Rattle.scc_common.specs.Pairs.{IsUnique};
ghost use Rattle.scc_owned.specs.MapEntries.{replaced_guard, Replaces};
ghost use Rattle.scc_owned.specs.Seats.{replaced_rest};
ghost use Rattle.scc_shared.specs.Stripes.{stripes_of};
ghost use Rattle.scc_stripes.specs.Seats.{IsSeatOfKey};
ghost use Rattle.std.specs.Prelude.{◌≡◌, ◌⊎◌, IfErr, IfOk, IfSome, IsTrue};
ghost use Rattle.std.specs.Sync.RwLock.{write_guard_value};
ghost use Rattle.scc_owned.specs.Entries.{Exists, Memory};
ghost use Rattle.scc_common.specs.Replies.{HasKey};
ghost use Rattle.scc_common.specs.Rules.{IsCalledOn, IsCalledToWrite, Keeps, KeepsTested, IsTested, ReadsKept, WritesKept, RemovesKept};

use crate::ruled_map::RuledMap;
use scc_common::{InsertError, Rule};
use scc_owned::ruled_map::locked::ReplaceResult;
use std::hash::{BuildHasher, Hash};
use std::sync::Wait;

impl<K: Eq + Hash, V, R: Rule<K, V>, H: BuildHasher> RuledMap<K, V, R, H> {
    /// Inserts the pair, which must keep the rule, if no key equals `k`. Fails if a key equals `k`, or if memory that the
    /// insertion needs is refused; then `k` and `v` come back.
    pub fn insert_sync(&self, rt: &impl Wait, k: K, v: V) -> Result<(), InsertError<K, V>>
        requires { R.holds k v }
        ensures back { IfErr result (λ e. (e ≡ Exists (k, v)) ⊎ (e ≡ Memory (k, v))) }
    {
        let stripe = self.stripes.route(&k);
        self.stripes.write_to_insert(rt, stripe).insert_sync(k, v)
    }

    /// Stores `v`, which must keep the rule, under `k`, and returns the old value. If a key equals `k`, the stored key
    /// stays. If memory is refused, `k` and `v` come back.
    pub fn upsert_sync(&self, rt: &impl Wait, k: K, v: V) -> Result<Option<V>, InsertError<K, V>>
    where
        K: Drop,
        requires { R.holds k v }
        ensures back { IfErr result (λ e. e ≡ Memory (k, v)) }
        ensures old { IfOk result (λ o. IfSome o (R.holds k)) }
    {
        let stripe = self.stripes.route(&k);
        self.stripes.write_to_insert(rt, stripe).upsert_sync(k, v)
    }

    /// Calls `u` on the pair of `k`, with the value to write, and returns what `u` returns. What `u` leaves must keep
    /// the rule. Returns `None` without calling `u` if no key equals `k`.
    pub fn update_sync<A, U: FnOnce(&K, &mut V) -> A>(
        &self,
        rt: &impl Wait,
        k: &K,
        u: U,
    ) -> Option<A>
        requires callable { IsCalledToWrite K.eq R.holds U.FnOnce u k.now }
        requires keeps { Keeps K.eq R.holds U.FnOnce u k.now }
        ensures answer { IfSome result (WritesKept K.eq R.holds U.FnOnce u k.now) }
    {
        self.stripes
            .write(rt, self.stripes.route(k))
            .update_sync(k, u)
    }

    /// Calls `f` on the pair of `k`, and returns what `f` returns. Returns `None` without calling `f` if no key equals
    /// `k`.
    pub fn read_sync<A, F: FnOnce(&K, &V) -> A>(&self, rt: &impl Wait, k: &K, f: F) -> Option<A>
        requires { IsCalledOn K.eq R.holds F.FnOnce f k.now }
        ensures answer { IfSome result (ReadsKept K.eq R.holds F.FnOnce f k.now) }
    {
        let hash = self.stripes.hash(k);
        self.stripes
            .read(rt, self.stripes.route_hash(hash))
            .read_by_hint(hash, k, f)
    }

    /// Returns whether a key equals `k`. If so, some value may stand under `k`.
    pub fn contains_sync(&self, rt: &impl Wait, k: &K) -> bool
        ensures { IsTrue result → (v : V) × R.holds k.now v }
    {
        match self.read_sync(rt, k, |_key: &K, _value: &V| {}) {
            Some(()) => true,
            None => false,
        }
    }

    /// Removes the pair of `k` if `f` returns true on its value, and returns the pair with what `f` wrote. If `f`
    /// returns false, what `f` wrote stays, and `None` is returned. What `f` writes must keep the rule in both cases. If
    /// no key equals `k`, returns `None` without calling `f`.
    pub fn remove_if_sync<F: FnOnce(&mut V) -> bool>(
        &self,
        rt: &impl Wait,
        k: &K,
        f: F,
    ) -> Option<(K, V)>
        requires callable { IsTested R.holds F.FnOnce f k.now }
        requires keeps { KeepsTested R.holds F.FnOnce f k.now }
        ensures key { IfSome result (HasKey K.eq k.now) }
        ensures answer { IfSome result (RemovesKept R.holds F.FnOnce f k.now) }
        ensures kept { IfSome result (λ p. R.holds p.0 p.1 × R.holds k.now p.1) }
    {
        let mut guard = self.stripes.write(rt, self.stripes.route(k));
        let pair = guard.remove_if_sync(k, f);
        if pair.is_some() {
            self.stripes.follow(&mut *guard);
        }
        pair
    }

    /// Removes the pair whose key equals `k`, and returns the pair. It keeps the rule, and its value may stand under
    /// `k`.
    pub fn remove_sync(&self, rt: &impl Wait, k: &K) -> Option<(K, V)>
        ensures key { IfSome result (HasKey K.eq k.now) }
        ensures kept { IfSome result (λ p. R.holds p.0 p.1 × R.holds k.now p.1) }
    {
        let mut guard = self.stripes.write(rt, self.stripes.route(k));
        let pair = guard.remove_sync(k);
        if pair.is_some() {
            self.stripes.follow(&mut *guard);
        }
        pair
    }

    /// Puts `k` in the place of the key that equals `k`, keeps the value, and returns the occupied entry with the old
    /// key. If no key equals `k`, inserts nothing and returns the vacant entry.
    pub fn replace_sync(&self, rt: &impl Wait, k: K) -> ReplaceResult<'_, K, V, R, H>
        ensures step { (before : Contents (K × V) H) × Replaces K.eq before k result }
        ensures unique { IsUnique K.eq (write_guard_value (replaced_guard result)) }
        ensures seat { IsSeatOfKey H.BuildHasher H.Hasher.Hasher K.hash_input (stripes_of self.now) k
            (replaced_rest result) }
    {
        let stripe = self.stripes.route(&k);
        let (guard, seat) = self.stripes.hold_to_insert(rt, stripe);
        ReplaceResult::of(guard, k, seat)
    }

    /// Returns whether the stripe of `k` has an array in which the bucket of `k` holds fewer than 32 pairs.
    pub fn has_room(&self, rt: &impl Wait, k: &K) -> bool {
        self.stripes.read(rt, self.stripes.route(k)).has_room(k)
    }
}
