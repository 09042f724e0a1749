//! The calls at a place of an index under a rule.
ghost use Rattle.scc_array.specs.ShelfWrites.{put_whole};
ghost use Rattle.scc_common.specs.Contents.{entries, hash_in, notes_of, waiting_of};
ghost use Rattle.scc_common.specs.Pairs.{find, IsUnique};
ghost use Rattle.scc_common.specs.Steps.{Holds, HoldsExactly};
ghost use Rattle.scc_owned.specs.Insertions.{InsertsInto};
ghost use Rattle.scc_table.specs.Arrays.{ShrinksByRule};
ghost use Rattle.scc_table.specs.Places.{IsPlace, IsFoundAt, index_of, with_write_at, StandsAt};
ghost use Rattle.std.specs.Prelude.{◌≡◌, suc, length, ◌<◌, ◌*◌, Some, None, IfOk, true, IfErr, MatchOption, slice_get, remove, ⊤};

use crate::ruled_index::RuledIndex;
use crate::stored::pair_back;
use scc_buckets::Place;
use scc_common::{Hashes, Made, Rule, Ruled, RuledVersion, SharedVersion};
use std::hash::{BuildHasher, Hash};

impl<K: Eq + Hash, V, R: Rule<K, V>, H: BuildHasher> RuledIndex<K, V, R, H> {
    /// Returns the key and the value at `place`.
    #[inline(always)]
    pub fn pair_at(&self, place: Place) -> (&K, &V)
        requires { IsPlace self.now place }
        ensures pair { slice_get (entries self.now) (index_of self.now place) ≡ Some (result.0.now, result.1.now) }
        ensures kept { R.holds result.0.now result.1.now }
    {
        let version = self.table.entry_at(place).version();
        (version.key(), version.value())
    }

    /// Removes the version at `place`. Then the array may shrink.
    pub fn remove_at(&mut self, place: Place)
    where
        K: Drop,
        V: Drop,
        requires { IsPlace self.old place }
        ensures others { Holds self.old (remove (entries self.old) (index_of self.old place)) self.new }
        ensures unique { IsUnique K.eq self.new }
        ensures array { ShrinksByRule ⊤ self.old self.new }
    {
        let _version = self.table.remove_at(place);
    }

    /// Inserts a version of a pair whose key is new, and returns its place. `hash` must be the hash of `k`. If memory
    /// is refused, the pair comes back.
    pub fn insert_new(&mut self, hash: u64, k: K, v: V) -> Result<Place, (K, V)>
        requires hashed { hash ≡ hash_in ⟦<H as Hashes<K>>⟧.hash_of self.old k }
        requires absent { find K.eq (entries self.old) k ≡ None }
        requires kept { R.holds k v }
        ensures { InsertsInto (λ p. p.0) K.eq ⟦<H as Hashes<K>>⟧.hash_of true self.old k v (k, v) result self.new }
    {
        pair_back(self.table.insert_made(hash, Ruled::new(k, v)))
    }

    /// Returns a version of `value` and a clone of the key at `place`. If memory is refused, the clone fails or the
    /// clone differs from the key, `value` comes back.
    pub fn next_version(&self, place: Place, value: V) -> Result<SharedVersion<K, V>, V>
    where
        K: Clone + Drop,
        requires { IsPlace self.now place }
        ensures made { IfOk result (λ e. (p : K × V)
            × (slice_get (entries self.now) (index_of self.now place) ≡ Some p) × K.is_clone p.0 e.0
            × (K.eq e.0 p.0 ≡ true) × (e.1 ≡ value)) }
        ensures refused { IfErr result (λ v. v ≡ value) }
        ensures unique { IsUnique K.eq self.now }
    {
        let stored = self.entry_at(place).version().key();
        let Ok(key) = stored.clone() else {
            return Err(value);
        };
        if key != *stored {
            return Err(value);
        }
        match SharedVersion::make(self.table.allocator(), (key, value)) {
            Ok(version) => Ok(version),
            Err((_key, value)) => Err(value),
        }
    }

    /// Puts `version`, which must keep the rule, in the place of the version at `place`, whose key must equal its key.
    pub fn replace_at(&mut self, place: Place, version: SharedVersion<K, V>)
    where
        K: Drop,
        V: Drop,
        requires within { IsPlace self.old place }
        requires same { (p : K × V) → slice_get (entries self.old) (index_of self.old place) ≡ Some p
            → K.eq version.0 p.0 ≡ true }
        requires kept { R.holds version.0 version.1 }
        ensures new { self.new ≡ with_write_at put_whole self.old place version }
        ensures unique { IsUnique K.eq self.new }
    {
        let _old = self.table.replace_at(place, RuledVersion::of(version));
    }

    /// Removes the version at `place` without a resize, and returns the place of the version that followed.
    pub fn take_with_next(&mut self, place: Place) -> Option<Place>
    where
        K: Drop,
        V: Drop,
        requires { IsPlace self.old place }
        ensures others { HoldsExactly self.old (remove (entries self.old) (index_of self.old place)) self.new }
        ensures noted { notes_of self.new ≡ notes_of self.old }
        ensures waiting { waiting_of self.new ≡ waiting_of self.old }
        ensures next { MatchOption result (suc (index_of self.old place) ≡ length (entries self.old))
            (StandsAt self.new (index_of self.old place)) }
        ensures unique { IsUnique K.eq self.new }
    {
        let (_version, next) = self.take_entry(place);
        next
    }
}
