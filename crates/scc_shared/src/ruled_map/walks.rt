//! Walks over all stripes, one after another. A walk lends its closure to each stripe in turn.
ghost use Rattle.scc_shared.specs.Stripes.{stripes_of};
ghost use Rattle.scc_stripes.specs.Stripes.{stripe_count};
ghost use Rattle.scc_stripes.specs.Walks.{AreOfStripes};
ghost use Rattle.std.specs.Prelude.{◌≡◌, ◌≤◌, ◌++◌, List, length, IfSome, OnErr};
ghost use Rattle.std.specs.Vec.{vec_len, vec_capacity};
ghost use Rattle.scc_common.specs.Walks.{CalledOn, Walks};
ghost use Rattle.scc_common.specs.PairWalks.{CalledToWrite, Declines, PassesAt, Retains, Takes};
ghost use Rattle.scc_common.specs.Pairs.{IsUnique};
ghost use Rattle.scc_owned.specs.EntrySteps.{StandsIn};
ghost use Rattle.scc_owned.specs.Held.{occupied_contents, occupied_front, occupied_pair};
ghost use Rattle.scc_owned.specs.Seats.{occupied_stripe, HasSeatIn};
ghost use Rattle.scc_common.specs.Rules.{AllKeep, IsKept};
ghost use Rattle.scc_common.specs.RuleWalks.{KeepsEachAlways, TakesEach, TakesEachToWrite};

use crate::ruled_map::RuledMap;
use scc_common::{Rule, Verdict, WalkError};
use scc_owned::map::Sink;
use scc_owned::ruled_map::locked::OccupiedEntry;
use std::hash::{BuildHasher, Hash};
use std::sync::Wait;

impl<K: Eq + Hash, V, R: Rule<K, V>, H: BuildHasher> RuledMap<K, V, R, H> {
    /// Calls `f` on the pairs, stripe after stripe, until `f` returns false. Returns false if `f` did, else true. One
    /// stripe is locked at a time, for reading.
    pub fn iter_sync<F: FnMut(&K, &V) -> bool>(&self, rt: &impl Wait, mut f: F) -> bool
        requires { TakesEach R.holds F.FnMut }
        ensures calls { (es : List (K × V)) × (last : F) × AllKeep R.holds es
            × Walks (CalledOn F.FnMut) f es result last
            × AreOfStripes K.eq (λ p. p.0) (stripe_count (stripes_of self.now)) es }
    {
        for stripe in 0..self.stripes.stripes() {
            let guard = self.stripes.read(rt, stripe);
            if !guard.iter_lent(&mut f) {
                return false;
            }
        }
        true
    }

    /// Returns the first entry on whose pair `p` returns true, stripe after stripe, in the order of each stripe's
    /// list. Returns `None` if there is no such pair.
    pub fn any_sync<P: FnMut(&K, &V) -> bool>(
        &self,
        rt: &impl Wait,
        mut p: P,
    ) -> Option<OccupiedEntry<'_, K, V, R, H>>
        requires { TakesEach R.holds P.FnMut }
        ensures here { IfSome result (λ o. StandsIn (occupied_contents o) o) }
        ensures kept { IfSome result (λ o. IsKept R.holds (occupied_pair o)) }
        ensures unique { IfSome result (λ o. IsUnique K.eq (occupied_contents o)) }
        ensures first { IfSome result (λ o. (es : List (K × V)) × (q : P) × AllKeep R.holds es
            × AllKeep R.holds (occupied_front o) × Declines (CalledOn P.FnMut) p es q
            × PassesAt (CalledOn P.FnMut) q (occupied_front o) (occupied_pair o)
            × AreOfStripes K.eq (λ p. p.0) (occupied_stripe o) es) }
        ensures seat { IfSome result (HasSeatIn (stripes_of self.now)) }
    {
        for stripe in 0..self.stripes.stripes() {
            let (guard, seat) = self.stripes.hold(rt, stripe);
            match OccupiedEntry::passing(guard, &mut p, seat) {
                Ok(entry) => return Some(entry),
                Err(_) => {}
            }
        }
        None
    }

    /// Calls `f` on the pairs, stripe after stripe, with the value to write, and removes each pair on which `f`
    /// returns false. What `f` leaves must keep the rule, also in a pair that is removed. Then the array of the stripe
    /// may shrink.
    pub fn retain_sync<F: FnMut(&K, &mut V) -> bool>(&self, rt: &impl Wait, mut f: F)
    where
        K: Drop,
        V: Drop,
        requires callable { TakesEachToWrite R.holds F.FnMut }
        requires keeps { KeepsEachAlways R.holds F.FnMut }
        ensures calls { (es : List (K × V)) × (stay : List (K × V)) × (last : F) × AllKeep R.holds es
            × AllKeep R.holds stay × Retains (CalledToWrite F.FnMut) f es stay last
            × AreOfStripes K.eq (λ p. p.0) (stripe_count (stripes_of self.now)) es }
    {
        for stripe in 0..self.stripes.stripes() {
            let mut guard = self.stripes.write(rt, stripe);
            guard.retain_lent(&mut f);
            self.stripes.follow(&mut *guard);
        }
    }

    /// Calls `f` on the pairs, stripe after stripe, with the value to write, until `f` returns `KeepStop` or
    /// `TakeStop`. Returns false if `f` stopped the walk, else true. A pair on which `f` returns `Take` or `TakeStop`
    /// moves to the end of `taken`. What `f` leaves must keep the rule, also of a taken pair. Before each call of `f`,
    /// room for one pair is made in `taken`. Fails if memory for that room is refused; what the walk did before then
    /// stays.
    pub fn iter_mut_sync<F: FnMut(&K, &mut V) -> Verdict>(
        &self,
        rt: &impl Wait,
        f: F,
        taken: &mut Vec<(K, V)>,
    ) -> Result<bool, WalkError>
        requires callable { TakesEachToWrite R.holds F.FnMut }
        requires keeps { KeepsEachAlways R.holds F.FnMut }
        ensures calls { (es : List (K × V)) × (stay : List (K × V)) × (more : List (K × V)) × (last : F)
            × AllKeep R.holds es × AllKeep R.holds stay × AllKeep R.holds more
            × Takes (CalledToWrite F.FnMut) f es stay more result last × (taken.new.items ≡ taken.old.items ++ more)
            × AreOfStripes K.eq (λ p. p.0) (stripe_count (stripes_of self.now)) es }
        ensures full { OnErr result (vec_capacity taken.new ≤ vec_len taken.new) }
        ensures room { vec_capacity taken.old ≤ vec_capacity taken.new }
    {
        self.iter_mut_into(rt, f, taken)
    }

    /// As `iter_mut_sync`, but the taken pairs move to the end of any list `taken` that takes pairs.
    pub fn iter_mut_into<F: FnMut(&K, &mut V) -> Verdict, L: Sink<K, V>>(
        &self,
        rt: &impl Wait,
        mut f: F,
        taken: &mut L,
    ) -> Result<bool, WalkError>
        requires callable { TakesEachToWrite R.holds F.FnMut }
        requires keeps { KeepsEachAlways R.holds F.FnMut }
        ensures calls { (es : List (K × V)) × (stay : List (K × V)) × (more : List (K × V)) × (last : F)
            × AllKeep R.holds es × AllKeep R.holds stay × AllKeep R.holds more
            × Takes (CalledToWrite F.FnMut) f es stay more result last
            × (L.pairs taken.new ≡ L.pairs taken.old ++ more)
            × AreOfStripes K.eq (λ p. p.0) (stripe_count (stripes_of self.now)) es }
        ensures full { OnErr result (L.capacity taken.new ≤ length (L.pairs taken.new)) }
        ensures room { L.capacity taken.old ≤ L.capacity taken.new }
    {
        for stripe in 0..self.stripes.stripes() {
            let mut guard = self.stripes.write(rt, stripe);
            let before = guard.len();
            let went_on = guard.iter_mut_lent(&mut f, taken);
            if guard.len() < before {
                self.stripes.follow(&mut *guard);
            }
            match went_on {
                Ok(true) => {}
                Ok(false) => return Ok(false),
                Err(e) => return Err(e),
            }
        }
        Ok(true)
    }
}
