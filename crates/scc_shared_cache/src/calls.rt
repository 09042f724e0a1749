//! The calls on one key. A contract states what the arguments and the rule decide; the call does to the stripe what the
//! owned call of its name does.
ghost use Rattle.std.specs.Prelude.{◌≡◌, ◌⊎◌, IfErr, IfOk, IfSome, IsTrue};
ghost use Rattle.scc_owned_cache.specs.Entries.{Exists, Memory};
ghost use Rattle.scc_owned_cache.specs.Evictions.{IsEvictedFor};
ghost use Rattle.scc_common.specs.Rules.{IsCalledOn, IsKeptAt, IsTested, KeepsTested, ReadsKept, RemovesKept};

use crate::SharedCache;
use scc_common::{InsertError, Rule};
use scc_owned_cache::EvictedEntry;
use std::hash::{BuildHasher, Hash};
use std::sync::Wait;

impl<K: Eq + Hash, V, R: Rule<K, V>, H: BuildHasher> SharedCache<K, V, R, H> {
    /// Puts in the pair, which must keep the rule, if no key equals `k`, as the most recent of its bucket. Returns the
    /// pair that was evicted from that bucket, if any; it has another key, and keeps the rule. Fails if a key equals
    /// `k`, or if the stripe has no array and memory for one is refused; then `k` and `v` come back.
    pub fn put_sync(
        &self,
        rt: &impl Wait,
        k: K,
        v: V,
    ) -> Result<EvictedEntry<K, V>, InsertError<K, V>>
        requires { R.holds k v }
        ensures back { IfErr result (λ e. (e ≡ Exists (k, v)) ⊎ (e ≡ Memory (k, v))) }
        ensures evicted { IfOk result (IsEvictedFor K.eq R.holds k) }
    {
        let stripe = self.stripes.route(&k);
        self.stripes.write(rt, stripe).put_sync(k, v)
    }

    /// Calls `f` on the pair of `k`, and returns what `f` returns. Returns `None` without calling `f` if no key equals
    /// `k`. Refreshes nothing.
    pub fn read_sync<A, F: FnOnce(&K, &V) -> A>(&self, rt: &impl Wait, k: &K, f: F) -> Option<A>
        requires { IsCalledOn K.eq R.holds F.FnOnce f k.now }
        ensures answer { IfSome result (ReadsKept K.eq R.holds F.FnOnce f k.now) }
    {
        let hash = self.stripes.hash(k);
        self.stripes
            .read(rt, self.stripes.route_hash(hash))
            .read_by_hint(hash, k, f)
    }

    /// As `read_sync`, but makes the pair of `k` the most recent of its bucket before it calls `f`. The stripe of `k`
    /// is locked for writing.
    pub fn refresh_sync<A, F: FnOnce(&K, &V) -> A>(&self, rt: &impl Wait, k: &K, f: F) -> Option<A>
        requires { IsCalledOn K.eq R.holds F.FnOnce f k.now }
        ensures answer { IfSome result (ReadsKept K.eq R.holds F.FnOnce f k.now) }
    {
        self.stripes
            .write(rt, self.stripes.route(k))
            .refresh_sync(k, f)
    }

    /// Returns whether a key equals `k`. If so, some value may stand under `k`. Refreshes nothing.
    pub fn contains_sync(&self, rt: &impl Wait, k: &K) -> bool
        ensures kept { IsTrue result → (v : V) × R.holds k.now v }
    {
        let hash = self.stripes.hash(k);
        let stripe = self.stripes.route_hash(hash);
        self.stripes.read(rt, stripe).contains_by_hint(hash, k)
    }

    /// Removes the pair of `k` if `f` returns true on its value, and returns the pair with what `f` wrote. If `f`
    /// returns false, what `f` wrote stays, `None` is returned, and the order of the pairs stays. What `f` leaves must
    /// keep the rule in both cases. If no key equals `k`, returns `None` without calling `f`.
    pub fn remove_if_sync<F: FnOnce(&mut V) -> bool>(
        &self,
        rt: &impl Wait,
        k: &K,
        f: F,
    ) -> Option<(K, V)>
        requires callable { IsTested R.holds F.FnOnce f k.now }
        requires keeps { KeepsTested R.holds F.FnOnce f k.now }
        ensures kept { IfSome result (IsKeptAt K.eq R.holds k.now) }
        ensures answer { IfSome result (RemovesKept R.holds F.FnOnce f k.now) }
    {
        self.stripes
            .write(rt, self.stripes.route(k))
            .remove_if_sync(k, f)
    }

    /// Removes the pair whose key equals `k`, and returns the pair. It keeps the rule, and its value may stand under
    /// `k`.
    pub fn remove_sync(&self, rt: &impl Wait, k: &K) -> Option<(K, V)>
        ensures kept { IfSome result (IsKeptAt K.eq R.holds k.now) }
    {
        self.stripes.write(rt, self.stripes.route(k)).remove_sync(k)
    }
}
