//! Walks over all stripes of a set under a rule, one after another.
ghost use Rattle.scc_shared_set.specs.KeyRules.{AllKeep, TakesEach};
ghost use Rattle.scc_shared_set.specs.Stripes.{stripes_of};
ghost use Rattle.scc_owned_set.specs.SetWalks.{Retains, Takes, Walks};
ghost use Rattle.scc_stripes.specs.Stripes.{stripe_count};
ghost use Rattle.scc_stripes.specs.Walks.{AreOfStripes};
ghost use Rattle.std.specs.Fn.{CalledAt, TakesAt};
ghost use Rattle.std.specs.Prelude.{◌≡◌, ◌≤◌, ◌++◌, List, OnErr};
ghost use Rattle.std.specs.Vec.{vec_len, vec_capacity};

use crate::RuledSet;
use scc_common::{Rule, Verdict, WalkError};
use std::hash::{BuildHasher, Hash};
use std::sync::Wait;

impl<K: Eq + Hash, R: Rule<K, ()>, H: BuildHasher> RuledSet<K, R, H> {
    /// Calls `f` on the keys, stripe after stripe, until `f` returns false. Returns false if `f` did, else true. One
    /// stripe is locked at a time, for reading.
    pub fn iter_sync<F: FnMut(&K) -> bool>(&self, rt: &impl Wait, mut f: F) -> bool
        requires { TakesEach R.holds F.FnMut }
        ensures calls { (ks : List K) × (last : F) × AllKeep R.holds ks × Walks (CalledAt F.FnMut) f ks result last
            × AreOfStripes K.eq (λ k. k) (stripe_count (stripes_of self.now)) ks }
    {
        self.map.iter_sync(
            rt,
            move |key: &K, _value: &()| -> bool
                requires { TakesAt F.FnMut f key.now }
                ensures { CalledAt F.FnMut f.entry key.entry.now result f.exit }
            { f(key) },
        )
    }

    /// Calls `f` on the keys, stripe after stripe, and removes each key on which `f` returns false. Then the array of
    /// the stripe may shrink.
    pub fn retain_sync<F: FnMut(&K) -> bool>(&self, rt: &impl Wait, mut f: F)
    where
        K: Drop,
        requires { TakesEach R.holds F.FnMut }
        ensures calls { (ks : List K) × (stay : List K) × (last : F) × AllKeep R.holds ks × AllKeep R.holds stay
            × Retains (CalledAt F.FnMut) f ks stay last
            × AreOfStripes K.eq (λ k. k) (stripe_count (stripes_of self.now)) ks }
    {
        self.map.retain_sync(
            rt,
            move |key: &K, _value: &mut ()| -> bool
                requires { TakesAt F.FnMut f key.now }
                ensures { CalledAt F.FnMut f.entry key.entry.now result f.exit }
            { f(key) },
        );
    }

    /// Calls `f` on the keys, stripe after stripe, until `f` returns `KeepStop` or `TakeStop`. Returns false if `f`
    /// stopped the walk, else true. A key on which `f` returns `Take` or `TakeStop` moves to the end of `taken`.
    /// Before each call of `f`, room for one key is made in `taken`. Fails if memory for that room is refused; what
    /// the walk did before then stays.
    pub fn iter_mut_sync<F: FnMut(&K) -> Verdict>(
        &self,
        rt: &impl Wait,
        mut f: F,
        taken: &mut Vec<K>,
    ) -> Result<bool, WalkError>
        requires { TakesEach R.holds F.FnMut }
        ensures calls { (ks : List K) × (stay : List K) × (more : List K) × (last : F) × AllKeep R.holds ks
            × AllKeep R.holds stay × AllKeep R.holds more × Takes (CalledAt F.FnMut) f ks stay more result last
            × (taken.new.items ≡ taken.old.items ++ more)
            × AreOfStripes K.eq (λ k. k) (stripe_count (stripes_of self.now)) ks }
        ensures full { OnErr result (vec_capacity taken.new ≤ vec_len taken.new) }
        ensures room { vec_capacity taken.old ≤ vec_capacity taken.new }
    {
        self.map.iter_mut_into(
            rt,
            move |key: &K, _value: &mut ()| -> Verdict
                requires { TakesAt F.FnMut f key.now }
                ensures { CalledAt F.FnMut f.entry key.entry.now result f.exit }
            { f(key) },
            taken,
        )
    }

    /// Removes the keys of each stripe in turn.
    pub fn clear_sync(&self, rt: &impl Wait)
    where
        K: Drop,
    {
        self.map.clear_sync(rt);
    }
}
