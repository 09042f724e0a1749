//! How an entry is made from the guard of a index under a rule.
ghost use Rattle.scc_common.specs.Contents.{entries};
ghost use Rattle.scc_common.specs.PairWalks.{Declines, PassesAt};
ghost use Rattle.scc_common.specs.Pairs.{IsUnique};
ghost use Rattle.scc_common.specs.Walks.{CalledOn};
ghost use Rattle.scc_owned.specs.EntrySteps.{StandsIn};
ghost use Rattle.scc_owned.specs.Held.{occupied_front, occupied_guard, occupied_pair};
ghost use Rattle.scc_owned.specs.Seats.{occupied_rest};
ghost use Rattle.scc_common.specs.Rules.{AllKeep, IsKept};
ghost use Rattle.scc_common.specs.RuleWalks.{TakesEach};
ghost use Rattle.std.specs.Prelude.{◌≡◌, IfErr, IfOk};

use crate::held::HeldOccupied;
use crate::ruled_index::RuledIndex;
use scc_common::{Guard, Rule, RuledVersion};
use std::hash::{BuildHasher, Hash};

impl<
    G: Guard<Inner = RuledIndex<K, V, R, H>>,
    N,
    K: Eq + Hash,
    V,
    R: Rule<K, V>,
    H: BuildHasher,
> HeldOccupied<G, N, RuledVersion<K, V, R>, H> {
    /// Returns the first entry of the index of `guard` on whose pair `p` returns true. If there is none, drops the guard and
    /// returns `rest`.
    pub fn passing<P: FnMut(&K, &V) -> bool>(guard: G, p: &mut P, rest: N) -> Result<Self, N>
    where
        G: Drop,
        requires { TakesEach R.holds P.FnMut }
        ensures guard { IfOk result (λ o. occupied_guard o ≡ guard) }
        ensures rest { IfOk result (λ o. occupied_rest o ≡ rest) }
        ensures here { IfOk result (StandsIn (G.inner guard)) }
        ensures first { IfOk result (λ o. PassesAt (CalledOn P.FnMut) p.old (occupied_front o) (occupied_pair o)
            × AllKeep R.holds (occupied_front o) × IsKept R.holds (occupied_pair o)) }
        ensures none { IfErr result (λ n. (n ≡ rest) × AllKeep R.holds (entries (G.inner guard))
            × Declines (CalledOn P.FnMut) p.old (entries (G.inner guard)) p.new) }
        ensures unique { IsUnique K.eq (G.inner guard) }
    {
        match guard.look().first_passing(p) {
            Some(place) => Ok(HeldOccupied::at(guard, place, rest)),
            None => Err(rest),
        }
    }
}
