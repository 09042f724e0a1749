//! How an entry is made from the guard of an index. The guard may be of any kind, but the owned form, whose contracts say
//! more of a guard that goes, makes its entries itself.
ghost use Rattle.scc_common.specs.Contents.{entries};
ghost use Rattle.scc_common.specs.PairWalks.{Declines, PassesAt};
ghost use Rattle.scc_common.specs.Pairs.{find, IsUnique};
ghost use Rattle.scc_common.specs.Walks.{CalledOn, CallableWhile};
ghost use Rattle.scc_owned.specs.Held.{entry_guard, occupied_pair, occupied_front, occupied_guard};
ghost use Rattle.scc_owned.specs.Entries.{IsOccupiedAt, IsEntryOf};
ghost use Rattle.scc_owned.specs.EntrySteps.{StandsIn};
ghost use Rattle.scc_owned.specs.Seats.{entry_rest, occupied_rest};
ghost use Rattle.std.specs.Prelude.{◌≡◌, [], None, false, IfOk, IfErr, IfSome, IfNone};

use crate::Index;
use crate::held::{HeldEntry, HeldOccupied, HeldVacant};
use scc_common::{Guard, SharedVersion};
use std::hash::{BuildHasher, Hash};

impl<G: Guard<Inner = Index<K, V, H>>, N, K: Eq + Hash, V, H: BuildHasher> HeldOccupied<
    G,
    N,
    SharedVersion<K, V>,
    H,
> {
    /// Returns the first entry of the index of `guard` on whose pair `p` returns true. If there is none, drops the
    /// guard and returns `rest`.
    pub fn passing<P: FnMut(&K, &V) -> bool>(guard: G, p: &mut P, rest: N) -> Result<Self, N>
    where
        G: Drop,
        requires { CallableWhile P.FnMut false p.old (entries (G.inner guard)) }
        ensures guard { IfOk result (λ o. occupied_guard o ≡ guard) }
        ensures rest { IfOk result (λ o. occupied_rest o ≡ rest) }
        ensures here { IfOk result (StandsIn (G.inner guard)) }
        ensures first { IfOk result (λ o. PassesAt (CalledOn P.FnMut) p.old (occupied_front o) (occupied_pair o)) }
        ensures none { IfErr result (λ n. (n ≡ rest)
            × Declines (CalledOn P.FnMut) p.old (entries (G.inner guard)) p.new) }
        ensures unique { IsUnique K.eq (G.inner guard) }
    {
        match guard.look().first_passing(p) {
            Some(place) => Ok(HeldOccupied::at(guard, place, rest)),
            None => Err(rest),
        }
    }
}
