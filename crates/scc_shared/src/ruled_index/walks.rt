//! Walks over all stripes, one after another. A walk lends its closure to each stripe in turn.
ghost use Rattle.scc_common.specs.PairWalks.{Declines, PassesAt};
ghost use Rattle.scc_common.specs.Pairs.{IsUnique};
ghost use Rattle.scc_common.specs.Walks.{CalledOn, Walks};
ghost use Rattle.scc_owned.specs.EntrySteps.{StandsIn};
ghost use Rattle.scc_owned.specs.Held.{occupied_contents, occupied_front, occupied_pair};
ghost use Rattle.scc_owned.specs.IndexWalks.{Retains};
ghost use Rattle.scc_owned.specs.Seats.{occupied_stripe, HasSeatIn};
ghost use Rattle.scc_shared.specs.Stripes.{stripes_of};
ghost use Rattle.scc_common.specs.Rules.{AllKeep, IsKept};
ghost use Rattle.scc_common.specs.RuleWalks.{TakesEach};
ghost use Rattle.scc_stripes.specs.Stripes.{stripe_count};
ghost use Rattle.scc_stripes.specs.Walks.{AreOfStripes};
ghost use Rattle.std.specs.Prelude.{IfOk, IfSome, List};

use crate::ruled_index::{RuledIndex, RuledIter};
use scc_common::{MakeError, Rule};
use scc_owned::ruled_index::locked::OccupiedEntry;
use std::hash::{BuildHasher, Hash};
use std::sync::Wait;

impl<K: Eq + Hash, V, R: Rule<K, V>, H: BuildHasher> RuledIndex<K, V, R, H> {
    /// Calls `f` on the pairs, stripe after stripe, until `f` returns false. Returns false if `f` did, else true. One
    /// stripe is locked at a time, for reading.
    pub fn iter_sync<F: FnMut(&K, &V) -> bool>(&self, rt: &impl Wait, mut f: F) -> bool
        requires { TakesEach R.holds F.FnMut }
        ensures calls { (es : List (K × V)) × (last : F) × AllKeep R.holds es
            × Walks (CalledOn F.FnMut) f es result last
            × AreOfStripes K.eq (λ p. p.0) (stripe_count (stripes_of self.now)) es }
    {
        for stripe in 0..self.stripes.stripes() {
            let guard = self.stripes.read(rt, stripe);
            if !guard.iter_lent(&mut f) {
                return false;
            }
        }
        true
    }

    /// Returns the first entry on whose pair `p` returns true, stripe after stripe, in the order of each stripe's
    /// list. Returns `None` if there is no such pair.
    pub fn any_sync<P: FnMut(&K, &V) -> bool>(
        &self,
        rt: &impl Wait,
        mut p: P,
    ) -> Option<OccupiedEntry<'_, K, V, R, H>>
        requires { TakesEach R.holds P.FnMut }
        ensures here { IfSome result (λ o. StandsIn (occupied_contents o) o) }
        ensures kept { IfSome result (λ o. IsKept R.holds (occupied_pair o)) }
        ensures unique { IfSome result (λ o. IsUnique K.eq (occupied_contents o)) }
        ensures first { IfSome result (λ o. (es : List (K × V)) × (q : P) × AllKeep R.holds es
            × AllKeep R.holds (occupied_front o) × Declines (CalledOn P.FnMut) p es q
            × PassesAt (CalledOn P.FnMut) q (occupied_front o) (occupied_pair o)
            × AreOfStripes K.eq (λ p. p.0) (occupied_stripe o) es) }
        ensures seat { IfSome result (HasSeatIn (stripes_of self.now)) }
    {
        for stripe in 0..self.stripes.stripes() {
            let (guard, seat) = self.stripes.hold(rt, stripe);
            match OccupiedEntry::passing(guard, &mut p, seat) {
                Ok(entry) => return Some(entry),
                Err(_) => {}
            }
        }
        None
    }

    /// Calls `f` on the pairs, stripe after stripe, and removes the version of each pair on which `f` returns false.
    /// Then the array of the stripe may shrink. Whoever keeps a removed version still has it.
    pub fn retain_sync<F: FnMut(&K, &V) -> bool>(&self, rt: &impl Wait, mut f: F)
    where
        K: Drop,
        V: Drop,
        requires { TakesEach R.holds F.FnMut }
        ensures calls { (es : List (K × V)) × (stay : List (K × V)) × (last : F) × AllKeep R.holds es
            × AllKeep R.holds stay × Retains (CalledOn F.FnMut) f es stay last
            × AreOfStripes K.eq (λ p. p.0) (stripe_count (stripes_of self.now)) es }
    {
        for stripe in 0..self.stripes.stripes() {
            let mut guard = self.stripes.write(rt, stripe);
            guard.retain_lent(&mut f);
            self.stripes.follow(&mut *guard);
        }
    }

    /// Returns a snapshot of the versions of each stripe as it is looked at. One stripe is locked at a time, for
    /// reading. Fails if memory is refused, or if a version has 2^63 - 1 owners.
    pub fn iter(&self, rt: &impl Wait) -> Result<RuledIter<K, V, R>, MakeError>
    where
        K: Drop,
        V: Drop,
        ensures kept { IfOk result (AllKeep R.holds) }
        ensures stripes { IfOk result (AreOfStripes K.eq (λ p. p.0) (stripe_count (stripes_of self.now))) }
    {
        let mut versions = Vec::new(self.alloc);
        for stripe in 0..self.stripes.stripes() {
            match self.stripes.read(rt, stripe).iter_into(&mut versions) {
                Ok(()) => {}
                Err(e) => return Err(e),
            }
        }
        Ok(RuledIter::of(versions))
    }
}
