//! The calls of an entry of an index under a rule that put a new version in, alike for all guards.
ghost use Rattle.scc_common.specs.Contents.{waiting_of};
ghost use Rattle.scc_common.specs.Pairs.{IsUnique};
ghost use Rattle.scc_owned.specs.Held.{occupied_contents, occupied_pair, entry_guard};
ghost use Rattle.scc_owned.specs.IndexEntries.{IsUpdated, Modifies, RefusesModify};
ghost use Rattle.scc_owned.specs.RuledReplies.{KeepsEntry, TakesEntry};
ghost use Rattle.std.specs.Prelude.{◌≡◌, IfOk, IfErr, OnOk};

use crate::held::{HeldEntry, HeldOccupied};
use crate::ruled_index::RuledIndex;
use scc_common::{Guard, Rule, RuledVersion};
use std::hash::{BuildHasher, Hash};

impl<
    G: Guard<Inner = RuledIndex<K, V, R, H>>,
    N,
    K: Eq + Hash,
    V,
    R: Rule<K, V>,
    H: BuildHasher,
> HeldOccupied<G, N, RuledVersion<K, V, R>, H> {
    /// Puts a new version of `value`, which must keep the rule, and a clone of the key in the place of the stored
    /// version, which its holders keep. If memory is refused, the clone fails or the clone differs from the key, `value`
    /// comes back and nothing changes.
    pub fn update(&mut self, value: V) -> Result<(), V>
    where
        K: Clone + Drop,
        V: Drop,
        requires { R.holds (occupied_pair self.old).0 value }
        ensures updated { OnOk result (IsUpdated K.is_clone K.eq self.old value self.new) }
        ensures refused { IfErr result (λ v. (v ≡ value) × (self.new ≡ self.old)) }
        ensures waiting { waiting_of (occupied_contents self.new) ≡ waiting_of (occupied_contents self.old) }
        ensures unique { IsUnique K.eq (occupied_contents self.new) }
    {
        let place = self.place;
        match self.guard.look().next_version(place, value) {
            Ok(version) => {
                self.guard.lend().replace_at(place, version);
                Ok(())
            }
            Err(value) => Err(value),
        }
    }
}

impl<
    G: Guard<Inner = RuledIndex<K, V, R, H>>,
    N,
    K: Eq + Hash,
    V,
    R: Rule<K, V>,
    H: BuildHasher,
> HeldEntry<G, N, RuledVersion<K, V, R>, H> {
    /// Publishes a new version with the result of `f` on the value if the entry is occupied, and returns the entry. The
    /// result must keep the rule. `f` isn't called on a vacant entry. If `update` fails, returns the unchanged entry and
    /// the result of `f`.
    pub fn and_modify<F: FnOnce(&V) -> V>(self, f: F) -> Result<Self, (Self, V)>
    where
        K: Clone + Drop,
        V: Drop,
        requires callable { TakesEntry R.holds F.FnOnce f self }
        requires keeps { KeepsEntry R.holds F.FnOnce f self }
        ensures modifies { IfOk result (Modifies F.FnOnce f K.is_clone K.eq self) }
        ensures refused { IfErr result (RefusesModify F.FnOnce f self) }
        ensures waiting { IfOk result (λ e. waiting_of (G.inner (entry_guard e))
            ≡ waiting_of (G.inner (entry_guard self))) }
        ensures unique { IfOk result (λ e. IsUnique K.eq (G.inner (entry_guard e))) }
    {
        match self {
            HeldEntry::Occupied(mut entry) => {
                let value = f(entry.get());
                match entry.update(value) {
                    Ok(()) => Ok(HeldEntry::Occupied(entry)),
                    Err(value) => Err((HeldEntry::Occupied(entry), value)),
                }
            }
            HeldEntry::Vacant(entry) => Ok(HeldEntry::Vacant(entry)),
        }
    }
}
