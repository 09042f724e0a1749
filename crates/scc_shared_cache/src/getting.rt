//! The calls that put in what a closure makes of the key, under the lock of the key's stripe. So no two threads make a
//! value for the same key as long as the first stays.
ghost use Rattle.std.specs.Fn.{FnOnceReturnsAt, FnOnceTakesAt};
ghost use Rattle.std.specs.Prelude.{Ok, Err, IfErr, IfOk};

use crate::SharedCache;
use scc_common::Rule;
use std::hash::{BuildHasher, Hash};
use std::sync::Wait;

impl<K: Eq + Hash, V, R: Rule<K, V>, H: BuildHasher> SharedCache<K, V, R, H> {
    /// Returns the value of `k`, and makes its pair the most recent of its bucket. If no key equals `k`, calls `make`
    /// with `k`, puts the pair in, which must keep the rule, by the rules of `put_sync`, and returns the value. An
    /// evicted pair is dropped. Only if the stripe has no array and memory for one is refused, nothing is stored; the
    /// value is returned all the same.
    pub fn get_or_put_with<F: FnOnce(&K) -> V>(&self, rt: &impl Wait, k: K, make: F) -> V
    where
        K: Drop,
        V: Copy,
        requires callable { FnOnceTakesAt F.FnOnce make k }
        requires keeps { (v : V) → FnOnceReturnsAt F.FnOnce make k v → R.holds k v }
        ensures { R.holds k result }
    {
        let stripe = self.stripes.route(&k);
        self.stripes.write(rt, stripe).get_or_put_with(k, make)
    }

    /// As `get_or_put_with`, but if `make` fails, its error comes back and nothing is stored.
    pub fn get_or_try_put_with<E, F: FnOnce(&K) -> Result<V, E>>(
        &self,
        rt: &impl Wait,
        k: K,
        make: F,
    ) -> Result<V, E>
    where
        K: Drop,
        V: Copy,
        requires callable { FnOnceTakesAt F.FnOnce make k }
        requires keeps { (v : V) → FnOnceReturnsAt F.FnOnce make k (Ok v) → R.holds k v }
        ensures value { IfOk result (R.holds k) }
        ensures failed { IfErr result (λ e. FnOnceReturnsAt F.FnOnce make k (Err e)) }
    {
        let stripe = self.stripes.route(&k);
        self.stripes.write(rt, stripe).get_or_try_put_with(k, make)
    }

    /// As `get_or_put_with`, but returns a clone of the value, which must keep the rule if the value does. If memory
    /// for the clone is refused, calls `make` and returns what it made; so this never fails.
    pub fn get_or_put_cloned<F: FnOnce(&K) -> V>(&self, rt: &impl Wait, k: K, make: F) -> V
    where
        K: Drop,
        V: Clone,
        requires callable { FnOnceTakesAt F.FnOnce make k }
        requires keeps { (v : V) → FnOnceReturnsAt F.FnOnce make k v → R.holds k v }
        requires clones { (v w : V) → R.holds k v → V.is_clone v w → R.holds k w }
        ensures { R.holds k result }
    {
        let stripe = self.stripes.route(&k);
        self.stripes.write(rt, stripe).get_or_put_cloned(k, make)
    }

    /// As `get_or_put_cloned`, but if `make` fails, its error comes back and nothing is stored.
    pub fn get_or_try_put_cloned<E, F: FnOnce(&K) -> Result<V, E>>(
        &self,
        rt: &impl Wait,
        k: K,
        make: F,
    ) -> Result<V, E>
    where
        K: Drop,
        V: Clone,
        requires callable { FnOnceTakesAt F.FnOnce make k }
        requires keeps { (v : V) → FnOnceReturnsAt F.FnOnce make k (Ok v) → R.holds k v }
        requires clones { (v w : V) → R.holds k v → V.is_clone v w → R.holds k w }
        ensures value { IfOk result (R.holds k) }
        ensures failed { IfErr result (λ e. FnOnceReturnsAt F.FnOnce make k (Err e)) }
    {
        let stripe = self.stripes.route(&k);
        self.stripes
            .write(rt, stripe)
            .get_or_try_put_cloned(k, make)
    }
}
