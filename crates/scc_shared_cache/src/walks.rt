//! Walks over all stripes, one after another. A walk lends its closure to each stripe in turn. No walk refreshes a
//! pair.
ghost use Rattle.scc_shared_cache.specs.Stripes.{stripes_of};
ghost use Rattle.scc_stripes.specs.Stripes.{stripe_count};
ghost use Rattle.scc_stripes.specs.Walks.{AreOfStripes};
ghost use Rattle.std.specs.Prelude.{◌≡◌, ◌≤◌, ◌++◌, List, true, OnErr, ⊤};
ghost use Rattle.std.specs.Vec.{vec_len, vec_capacity};
ghost use Rattle.scc_common.specs.Walks.{CalledOn, Walks};
ghost use Rattle.scc_common.specs.PairWalks.{GoesOn, Retains, Takes};
ghost use Rattle.scc_common.specs.Rules.{AllKeep};
ghost use Rattle.scc_common.specs.RuleWalks.{CallableOnKept, CallableToWriteKept, CalledToWriteKept, KeepsEachAlways};

mod free;
mod ruled;

use crate::SharedCache;
use scc_common::{Rule, Verdict, WalkError};
use std::hash::{BuildHasher, Hash};
use std::sync::Wait;

impl<K: Eq + Hash, V, R: Rule<K, V>, H: BuildHasher> SharedCache<K, V, R, H> {
    /// Calls `f` on the pairs, stripe after stripe, until `f` returns false. Returns false if `f` did, else true.
    fn iter_stripes<F: FnMut(&K, &V) -> bool>(&self, rt: &impl Wait, mut f: F) -> bool
        requires { (es : List (K × V)) → CallableOnKept R.holds F.FnMut true f es }
        ensures calls { (es : List (K × V)) × (last : F) × AllKeep R.holds es
            × Walks (CalledOn F.FnMut) f es result last
            × AreOfStripes K.eq (λ p. p.0) (stripe_count (stripes_of self.now)) es }
    {
        for stripe in 0..self.stripes.stripes() {
            let guard = self.stripes.read(rt, stripe);
            if !guard.iter_lent(&mut f) {
                return false;
            }
        }
        true
    }

    /// Calls `f` on the pairs, stripe after stripe, with the value to write, and removes each pair on which `f` returns
    /// false. What `f` leaves must keep the rule.
    fn retain_stripes<F: FnMut(&K, &mut V) -> bool>(&self, rt: &impl Wait, mut f: F)
    where
        K: Drop,
        V: Drop,
        requires callable { (es : List (K × V)) → CallableToWriteKept R.holds F.FnMut (λ answer. ⊤) f es }
        requires keeps { KeepsEachAlways R.holds F.FnMut }
        ensures calls { (es : List (K × V)) × (stay : List (K × V)) × (last : F)
            × Retains (CalledToWriteKept R.holds F.FnMut) f es stay last
            × AreOfStripes K.eq (λ p. p.0) (stripe_count (stripes_of self.now)) es }
    {
        for stripe in 0..self.stripes.stripes() {
            self.stripes.write(rt, stripe).retain_lent(&mut f);
        }
    }

    /// Calls `f` on the pairs, stripe after stripe, with the value to write, until `f` stops the walk, and moves the
    /// pairs that `f` takes to the end of `taken`. What `f` leaves must keep the rule.
    fn take_from_stripes<F: FnMut(&K, &mut V) -> Verdict>(
        &self,
        rt: &impl Wait,
        mut f: F,
        taken: &mut Vec<(K, V)>,
    ) -> Result<bool, WalkError>
        requires callable { (es : List (K × V)) → CallableToWriteKept R.holds F.FnMut GoesOn f es }
        requires keeps { KeepsEachAlways R.holds F.FnMut }
        ensures calls { (es : List (K × V)) × (stay : List (K × V)) × (more : List (K × V)) × (last : F)
            × Takes (CalledToWriteKept R.holds F.FnMut) f es stay more result last
            × (taken.new.items ≡ taken.old.items ++ more)
            × AreOfStripes K.eq (λ p. p.0) (stripe_count (stripes_of self.now)) es }
        ensures full { OnErr result (vec_capacity taken.new ≤ vec_len taken.new) }
        ensures room { vec_capacity taken.old ≤ vec_capacity taken.new }
    {
        for stripe in 0..self.stripes.stripes() {
            match self.stripes.write(rt, stripe).iter_mut_lent(&mut f, taken) {
                Ok(true) => {}
                Ok(false) => return Ok(false),
                Err(e) => return Err(e),
            }
        }
        Ok(true)
    }

    /// Removes the pairs of each stripe in turn.
    pub fn clear_sync(&self, rt: &impl Wait)
    where
        K: Drop,
        V: Drop,
    {
        for stripe in 0..self.stripes.stripes() {
            self.stripes.write(rt, stripe).clear_sync();
        }
    }
}
