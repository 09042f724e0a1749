//! Snapshots of an index under a rule.
ghost use Rattle.scc_common.specs.Contents.{entries};
ghost use Rattle.scc_common.specs.Pairs.{IsUnique};
ghost use Rattle.scc_common.specs.Rules.{AllKeep};
ghost use Rattle.std.specs.Arc.{arc_value};
ghost use Rattle.std.specs.Prelude.{◌≡◌, ◌++◌, ℕ, OnOk, OnErr, map, take};

use crate::ruled_index::RuledIndex;
use scc_common::{MakeError, Rule, Version};
use std::hash::{BuildHasher, Hash};
use std::sync::Arc;

impl<K: Eq + Hash, V, R: Rule<K, V>, H: BuildHasher> RuledIndex<K, V, R, H> {
    /// Adds the versions to `versions`, in the index's own order. Fails if memory is refused or a version has 2^63 - 1
    /// owners; then the versions before the failure were added.
    pub fn iter_into(&self, versions: &mut Vec<Arc<Version<K, V>>>) -> Result<(), MakeError>
    where
        K: Drop,
        V: Drop,
        ensures all { OnOk result (map arc_value versions.new.items
            ≡ map arc_value versions.old.items ++ entries self.now) }
        ensures kept { OnOk result (AllKeep R.holds (entries self.now)) }
        ensures refused { OnErr result ((n : ℕ) × (map arc_value versions.new.items
            ≡ map arc_value versions.old.items ++ take n (entries self.now))) }
        ensures unique { IsUnique K.eq self.now }
    {
        let mut at = self.first_place();
        while let Some(place) = at {
            let Ok(version) = self.table.entry_at(place).clone_owner() else {
                return Err(MakeError);
            };
            match versions.push(version) {
                Ok(()) => {}
                Err(_back) => return Err(MakeError),
            }
            at = self.next_place(place);
        }
        Ok(())
    }
}
