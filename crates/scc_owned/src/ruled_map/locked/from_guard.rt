//! How an entry is made from the guard of a map under a rule.
ghost use Rattle.scc_common.specs.Contents.{entries, notes_of, waiting_of};
ghost use Rattle.scc_common.specs.PairWalks.{Declines, PassesAt};
ghost use Rattle.scc_common.specs.Pairs.{IsUnique};
ghost use Rattle.scc_common.specs.Walks.{CalledOn};
ghost use Rattle.scc_owned.specs.EntrySteps.{StandsIn};
ghost use Rattle.scc_owned.specs.Held.{occupied_front, occupied_guard, occupied_pair};
ghost use Rattle.scc_owned.specs.MapEntries.{replaced_guard, Replaces};
ghost use Rattle.scc_owned.specs.Seats.{occupied_rest, replaced_rest};
ghost use Rattle.scc_common.specs.Rules.{AllKeep, IsKept};
ghost use Rattle.scc_common.specs.RuleWalks.{TakesEach};
ghost use Rattle.std.specs.Prelude.{◌≡◌, IfErr, IfOk};

use crate::held::{HeldOccupied, HeldReplace, HeldVacant};
use crate::ruled_map::RuledMap;
use scc_common::{Guard, Rule, Ruled};
use std::hash::{BuildHasher, Hash};

impl<
    G: Guard<Inner = RuledMap<K, V, R, H>>,
    N,
    K: Eq + Hash,
    V,
    R: Rule<K, V>,
    H: BuildHasher,
> HeldOccupied<G, N, Ruled<K, V, R>, H> {
    /// Returns the first entry of the map of `guard` on whose pair `p` returns true. If there is none, drops the guard and
    /// returns `rest`.
    pub fn passing<P: FnMut(&K, &V) -> bool>(guard: G, p: &mut P, rest: N) -> Result<Self, N>
    where
        G: Drop,
        requires { TakesEach R.holds P.FnMut }
        ensures guard { IfOk result (λ o. occupied_guard o ≡ guard) }
        ensures rest { IfOk result (λ o. occupied_rest o ≡ rest) }
        ensures here { IfOk result (StandsIn (G.inner guard)) }
        ensures first { IfOk result (λ o. PassesAt (CalledOn P.FnMut) p.old (occupied_front o) (occupied_pair o)
            × AllKeep R.holds (occupied_front o) × IsKept R.holds (occupied_pair o)) }
        ensures none { IfErr result (λ n. (n ≡ rest) × AllKeep R.holds (entries (G.inner guard))
            × Declines (CalledOn P.FnMut) p.old (entries (G.inner guard)) p.new) }
        ensures unique { IsUnique K.eq (G.inner guard) }
    {
        match guard.look().first_passing(p) {
            Some(place) => Ok(HeldOccupied::at(guard, place, rest)),
            None => Err(rest),
        }
    }
}

impl<
    G: Guard<Inner = RuledMap<K, V, R, H>>,
    N,
    K: Eq + Hash,
    V,
    R: Rule<K, V>,
    H: BuildHasher,
> HeldReplace<G, N, Ruled<K, V, R>, H> {
    /// Puts `k` in the place of the key that equals it, and returns the entry with the old key. If no key equals `k`,
    /// returns the vacant entry of `k`.
    pub fn of(guard: G, k: K, rest: N) -> Self
        ensures rest { replaced_rest result ≡ rest }
        ensures step { Replaces K.eq (G.inner guard) k result }
        ensures noted { notes_of (G.inner (replaced_guard result)) ≡ notes_of (G.inner guard) }
        ensures waiting { waiting_of (G.inner (replaced_guard result)) ≡ waiting_of (G.inner guard) }
        ensures unique { IsUnique K.eq (G.inner (replaced_guard result)) }
    {
        let mut guard = guard;
        let hash = guard.look().hash_of(&k);
        match guard.look().search(hash, &k) {
            Some(place) => {
                let old = guard.lend().replace_key_at(place, k);
                HeldReplace::Replaced(HeldOccupied::at(guard, place, rest), old)
            }
            None => HeldReplace::NotReplaced(HeldVacant::of_key(guard, k, hash, rest)),
        }
    }
}
