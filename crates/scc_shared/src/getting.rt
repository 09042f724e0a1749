//! The calls that return the value of a key, and make one that is missing, alike for maps and indexes, under a rule or
//! under none. The stripe of the key is locked while the value is made. A contract says that the stripe, as the call found
//! it, became what the owned call of its name makes of it.
ghost use Rattle.scc_common.specs.Contents.{Contents, entries};
ghost use Rattle.scc_owned.specs.Getting.{GetsCloned, GetsOrInserts, TriesToGet};
ghost use Rattle.std.specs.Fn.{FnOnceReturnsAt, FnOnceTakesAt};
ghost use Rattle.std.specs.Prelude.{◌≡◌, Err, IfErr, IfOk, Ok};

use super::HashContainer;
use scc_common::{Hashes, Shared};
use scc_owned::Stored;
use std::alloc::AllocError;
use std::hash::{BuildHasher, Hash};
use std::sync::Wait;

impl<E: Stored, H: BuildHasher> HashContainer<E, H>
where
    E::Key: Eq + Hash,
{
    /// Returns the value of `k`. If no key equals `k`, calls `make` with `k`, inserts the pair, which must keep the rule if
    /// there is one, and returns the value. The stripe of `k` is locked while `make` runs, so no two threads make a value
    /// for the same key as long as the first stays. If memory is refused, the value is returned all the same.
    pub fn get_or_insert_with<F: FnOnce(&E::Key) -> E::Value>(
        &self,
        rt: &impl Wait,
        k: E::Key,
        make: F,
    ) -> E::Value
    where
        E::Key: Drop,
        E::Value: Copy,
        requires callable { FnOnceTakesAt F.FnOnce make k }
        requires keeps { (v : E.Value) → FnOnceReturnsAt F.FnOnce make k v → E.allows k v }
        ensures step { (before : Contents E H) × (after : Contents E H) × GetsOrInserts E.lookups E.key_of E.value_of
            E.Key.eq ⟦<Shared<H> as Hashes<E::Key>>⟧.hash_of E.taking before k (FnOnceReturnsAt F.FnOnce make k)
            (E.lookups.find (E.Key.eq k) (entries before)) result after }
        ensures allowed { E.allows k result }
    {
        let stripe = self.stripes.route(&k);
        self.stripes
            .write_to_insert(rt, stripe)
            .get_or_insert_with(k, make)
    }

    /// As `get_or_insert_with`, but `make` may fail. Then its error is returned, and nothing is stored.
    pub fn get_or_try_insert_with<X, F: FnOnce(&E::Key) -> Result<E::Value, X>>(
        &self,
        rt: &impl Wait,
        k: E::Key,
        make: F,
    ) -> Result<E::Value, X>
    where
        E::Key: Drop,
        E::Value: Copy,
        requires callable { FnOnceTakesAt F.FnOnce make k }
        requires keeps { (v : E.Value) → FnOnceReturnsAt F.FnOnce make k (Ok v) → E.allows k v }
        ensures step { (before : Contents E H) × (after : Contents E H) × TriesToGet E.lookups E.key_of E.value_of
            E.Key.eq ⟦<Shared<H> as Hashes<E::Key>>⟧.hash_of E.taking before k
            (λ v. FnOnceReturnsAt F.FnOnce make k (Ok v)) (λ x. FnOnceReturnsAt F.FnOnce make k (Err x))
            (E.lookups.find (E.Key.eq k) (entries before)) result after }
        ensures ok { IfOk result (E.allows k) }
        ensures err { IfErr result (λ x. FnOnceReturnsAt F.FnOnce make k (Err x)) }
    {
        let stripe = self.stripes.route(&k);
        self.stripes
            .write_to_insert(rt, stripe)
            .get_or_try_insert_with(k, make)
    }

    /// As `get_or_insert_with`, but returns a clone of the value. Fails if the clone fails; then the value stays in the
    /// container. If memory for the insertion is refused, the value itself is returned.
    pub fn get_or_insert_cloned<F: FnOnce(&E::Key) -> E::Value>(
        &self,
        rt: &impl Wait,
        k: E::Key,
        make: F,
    ) -> Result<E::Value, AllocError>
    where
        E::Key: Drop,
        E::Value: Clone,
        requires callable { FnOnceTakesAt F.FnOnce make k }
        requires keeps { (v : E.Value) → FnOnceReturnsAt F.FnOnce make k v → E.allows k v }
        ensures step { (before : Contents E H) × (after : Contents E H) × GetsCloned E.lookups E.key_of E.value_of
            E.Key.eq ⟦<Shared<H> as Hashes<E::Key>>⟧.hash_of E.taking before k E.Value.is_clone E.Value.is_infallible
            (FnOnceReturnsAt F.FnOnce make k) (E.lookups.find (E.Key.eq k) (entries before)) result after }
        ensures allowed { ((v w : E.Value) → E.allows k v → E.Value.is_clone v w → E.allows k w)
            → IfOk result (E.allows k) }
    {
        let stripe = self.stripes.route(&k);
        self.stripes
            .write_to_insert(rt, stripe)
            .get_or_insert_cloned(k, make)
    }
}
