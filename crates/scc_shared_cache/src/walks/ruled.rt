//! The walks of a cache under a rule.
ghost use Rattle.scc_shared_cache.specs.Stripes.{stripes_of};
ghost use Rattle.scc_stripes.specs.Stripes.{stripe_count};
ghost use Rattle.scc_stripes.specs.Walks.{AreOfStripes};
ghost use Rattle.std.specs.Prelude.{◌≡◌, ◌≤◌, ◌++◌, List, OnErr};
ghost use Rattle.std.specs.Vec.{vec_len, vec_capacity};
ghost use Rattle.scc_common.specs.Walks.{CalledOn, Walks};
ghost use Rattle.scc_common.specs.PairWalks.{CalledToWrite, Retains, Takes};
ghost use Rattle.scc_common.specs.Rules.{AllKeep};
ghost use Rattle.scc_common.specs.RuleWalks.{CalledToWriteKept, KeepsEachAlways, TakesEach, TakesEachToWrite};

use crate::RuledCache;
use scc_common::{Rule, Verdict, WalkError};
use std::hash::{BuildHasher, Hash};
use std::sync::Wait;

impl<K: Eq + Hash, V, R: Rule<K, V>, H: BuildHasher> RuledCache<K, V, R, H> {
    /// Calls `f` on the pairs, stripe after stripe, until `f` returns false. Returns false if `f` did, else true. One
    /// stripe is locked at a time, for reading.
    pub fn iter_sync<F: FnMut(&K, &V) -> bool>(&self, rt: &impl Wait, f: F) -> bool
        requires { TakesEach R.holds F.FnMut }
        ensures calls { (es : List (K × V)) × (last : F) × AllKeep R.holds es
            × Walks (CalledOn F.FnMut) f es result last
            × AreOfStripes K.eq (λ p. p.0) (stripe_count (stripes_of self.now)) es }
    {
        self.iter_stripes(rt, f)
    }

    /// Calls `f` on the pairs, stripe after stripe, with the value to write, and removes each pair on which `f` returns
    /// false. What `f` leaves must keep the rule, also in a pair that is removed. Then the array of the stripe may
    /// shrink.
    pub fn retain_sync<F: FnMut(&K, &mut V) -> bool>(&self, rt: &impl Wait, f: F)
    where
        K: Drop,
        V: Drop,
        requires callable { TakesEachToWrite R.holds F.FnMut }
        requires keeps { KeepsEachAlways R.holds F.FnMut }
        ensures calls { (es : List (K × V)) × (stay : List (K × V)) × (last : F) × AllKeep R.holds es
            × AllKeep R.holds stay × Retains (CalledToWrite F.FnMut) f es stay last
            × AreOfStripes K.eq (λ p. p.0) (stripe_count (stripes_of self.now)) es }
    {
        self.retain_stripes(rt, f);
    }

    /// Calls `f` on the pairs, stripe after stripe, with the value to write, until `f` returns `KeepStop` or
    /// `TakeStop`. Returns false if `f` stopped the walk, else true. A pair on which `f` returns `Take` or `TakeStop`
    /// moves to the end of `taken`. What `f` leaves must keep the rule, also of a taken pair. Before each call of `f`,
    /// room for one pair is made in `taken`. Fails if memory for that room is refused; what the walk did before then
    /// stays.
    pub fn iter_mut_sync<F: FnMut(&K, &mut V) -> Verdict>(
        &self,
        rt: &impl Wait,
        f: F,
        taken: &mut Vec<(K, V)>,
    ) -> Result<bool, WalkError>
        requires callable { TakesEachToWrite R.holds F.FnMut }
        requires keeps { KeepsEachAlways R.holds F.FnMut }
        ensures calls { (es : List (K × V)) × (stay : List (K × V)) × (more : List (K × V)) × (last : F)
            × AllKeep R.holds more × Takes (CalledToWriteKept R.holds F.FnMut) f es stay more result last
            × (taken.new.items ≡ taken.old.items ++ more)
            × AreOfStripes K.eq (λ p. p.0) (stripe_count (stripes_of self.now)) es }
        ensures full { OnErr result (vec_capacity taken.new ≤ vec_len taken.new) }
        ensures room { vec_capacity taken.old ≤ vec_capacity taken.new }
    {
        self.take_from_stripes(rt, f, taken)
    }
}
