//! How an entry is made from the guard of a map. The guard may be of any kind, but the owned form, whose contracts say
//! more of a guard that goes, makes its entries itself.
ghost use Rattle.scc_common.specs.Contents.{entries, notes_of, waiting_of};
ghost use Rattle.scc_common.specs.PairWalks.{Declines, PassesAt};
ghost use Rattle.scc_common.specs.Pairs.{find, IsUnique};
ghost use Rattle.scc_common.specs.Walks.{CalledOn, CallableWhile};
ghost use Rattle.scc_owned.specs.Held.{entry_guard, occupied_pair, occupied_front, occupied_guard};
ghost use Rattle.scc_owned.specs.Entries.{IsOccupiedAt, IsEntryOf};
ghost use Rattle.scc_owned.specs.MapEntries.{replaced_guard, Replaces};
ghost use Rattle.scc_owned.specs.EntrySteps.{StandsIn};
ghost use Rattle.scc_owned.specs.Seats.{entry_rest, occupied_rest, replaced_rest};
ghost use Rattle.std.specs.Prelude.{◌≡◌, [], None, false, IfOk, IfErr, IfSome, IfNone};

use crate::Map;
use crate::held::{HeldEntry, HeldOccupied, HeldReplace, HeldVacant};
use scc_common::Guard;
use std::hash::{BuildHasher, Hash};

impl<G: Guard<Inner = Map<K, V, H>>, N, K: Eq + Hash, V, H: BuildHasher> HeldOccupied<
    G,
    N,
    (K, V),
    H,
> {
    /// Returns the first entry of the map of `guard` on whose pair `p` returns true. If there is none, drops the guard
    /// and returns `rest`.
    pub fn passing<P: FnMut(&K, &V) -> bool>(guard: G, p: &mut P, rest: N) -> Result<Self, N>
    where
        G: Drop,
        requires { CallableWhile P.FnMut false p.old (entries (G.inner guard)) }
        ensures guard { IfOk result (λ o. occupied_guard o ≡ guard) }
        ensures rest { IfOk result (λ o. occupied_rest o ≡ rest) }
        ensures here { IfOk result (StandsIn (G.inner guard)) }
        ensures first { IfOk result (λ o. PassesAt (CalledOn P.FnMut) p.old (occupied_front o) (occupied_pair o)) }
        ensures none { IfErr result (λ n. (n ≡ rest)
            × Declines (CalledOn P.FnMut) p.old (entries (G.inner guard)) p.new) }
        ensures unique { IsUnique K.eq (G.inner guard) }
    {
        match guard.look().first_passing(p) {
            Some(place) => Ok(HeldOccupied::at(guard, place, rest)),
            None => Err(rest),
        }
    }
}

impl<G: Guard<Inner = Map<K, V, H>>, N, K: Eq + Hash, V, H: BuildHasher> HeldReplace<
    G,
    N,
    (K, V),
    H,
> {
    /// Puts `k` in the place of the key that equals it, and returns the entry with the old key. If no key equals `k`,
    /// returns the vacant entry of `k`. The search begins with `hint`, as in `HeldEntry::of`.
    #[inline(always)]
    pub fn of(guard: G, hint: u64, k: K, rest: N) -> Self
        ensures rest { replaced_rest result ≡ rest }
        ensures step { Replaces K.eq (G.inner guard) k result }
        ensures noted { notes_of (G.inner (replaced_guard result)) ≡ notes_of (G.inner guard) }
        ensures waiting { waiting_of (G.inner (replaced_guard result)) ≡ waiting_of (G.inner guard) }
        ensures unique { IsUnique K.eq (G.inner (replaced_guard result)) }
    {
        let mut guard = guard;
        match guard.look().search_by_hint(hint, &k) {
            Ok(place) => {
                let old = guard.lend().replace_key_at(place, k);
                HeldReplace::Replaced(HeldOccupied::at(guard, place, rest), old)
            }
            Err(hash) => HeldReplace::NotReplaced(HeldVacant::of_key(guard, k, hash, rest)),
        }
    }
}
