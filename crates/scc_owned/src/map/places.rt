//! The calls at a place of a map.
ghost use Rattle.scc_common.specs.Contents.{entries, hash_in};
ghost use Rattle.scc_common.specs.Pairs.{find, IsUnique, with_pair_key, with_pair_value};
ghost use Rattle.scc_owned.specs.Insertions.{InsertsInto};
ghost use Rattle.scc_owned.specs.Lends.{lends_value};
ghost use Rattle.scc_owned.specs.Shrinking.{RemovesAtByRule, TakesWithNextByRule};
ghost use Rattle.scc_table.specs.Places.{IsPlace, IsFoundAt, index_of, with_write_at};
ghost use Rattle.std.specs.Borrow.{sem};
ghost use Rattle.std.specs.Prelude.{◌≡◌, ◌<◌, ◌*◌, Some, None, false, true, MatchOption, slice_get};

use crate::Map;
use scc_buckets::Place;
use scc_common::Hashes;
use std::hash::{BuildHasher, Hash};

impl<K: Eq + Hash, V, H: BuildHasher> Map<K, V, H> {
    /// Returns the pair at `place`.
    pub fn pair_at(&self, place: Place) -> (&K, &V)
        requires { IsPlace self.now place }
        ensures { slice_get (entries self.now) (index_of self.now place) ≡ Some (result.0.now, result.1.now) }
    {
        self.table.pair_at(place)
    }

    /// Returns the value at `place`, to write.
    pub(crate) fn value_mut_at(&mut self, place: Place) -> &mut V
        requires { IsPlace self.old place }
        ensures* writes_back { sem 𝓛 (lends_value K.row V.row H.row H.Hasher.row K.Hash H.BuildHasher H.Hasher.Hasher
            self.entry place result) }
        ensures value { (p : K × V) × (slice_get (entries self.old) (index_of self.old place) ≡ Some p)
            × (result.now ≡ p.1) }
        ensures unique { (v : V) → IsUnique K.eq (with_write_at with_pair_value self.old place v) }
    {
        self.table.value_mut_at(place)
    }

    /// Writes `value` at `place`, and returns the old value.
    pub fn write_at(&mut self, place: Place, value: V) -> V
        requires { IsPlace self.old place }
        ensures old { (p : K × V) × (slice_get (entries self.old) (index_of self.old place) ≡ Some p) × (result ≡ p.1) }
        ensures new { self.new ≡ with_write_at with_pair_value self.old place value }
        ensures unique { IsUnique K.eq self.new }
    {
        std::mem::replace(self.value_mut_at(place), value)
    }

    /// Returns the key at `place`, and the value to write.
    pub fn parts_mut_at(&mut self, place: Place) -> (&K, &mut V)
        requires { IsPlace self.old place }
        ensures* writes_back { sem 𝓛 (lends_value K.row V.row H.row H.Hasher.row K.Hash H.BuildHasher H.Hasher.Hasher
            self.entry place result.1) }
        ensures parts { slice_get (entries self.old) (index_of self.old place) ≡ Some (result.0.now, result.1.now) }
    {
        self.table.parts_mut_at(place)
    }

    /// Puts `key` in the place of the key at `place`, which must equal it, and returns the old key.
    pub fn replace_key_at(&mut self, place: Place, key: K) -> K
        requires within { IsPlace self.old place }
        requires same { (p : K × V) → slice_get (entries self.old) (index_of self.old place) ≡ Some p
            → K.eq key p.0 ≡ true }
        ensures old { (p : K × V) × (slice_get (entries self.old) (index_of self.old place) ≡ Some p) × (result ≡ p.0) }
        ensures new { self.new ≡ with_write_at with_pair_key self.old place key }
    {
        self.table.replace_key_at(place, key)
    }

    /// Removes the pair at `place` and returns it. Then the array may shrink.
    pub fn remove_at(&mut self, place: Place) -> (K, V)
        requires { IsPlace self.old place }
        ensures { RemovesAtByRule (IsUnique K.eq) self.old place result self.new }
    {
        self.table.remove_at(place)
    }

    /// Inserts a pair whose key is new, and returns its place. `hash` must be the hash of `k`. If memory is refused,
    /// the pair comes back.
    pub fn insert_new(&mut self, hash: u64, k: K, v: V) -> Result<Place, (K, V)>
        requires hashed { hash ≡ hash_in ⟦<H as Hashes<K>>⟧.hash_of self.old k }
        requires absent { find K.eq (entries self.old) k ≡ None }
        ensures { InsertsInto (λ p. p.0) K.eq ⟦<H as Hashes<K>>⟧.hash_of false self.old k v (k, v) result self.new }
    {
        self.table.insert_new(hash, (k, v))
    }

    /// Removes the pair at `place` without a resize, and returns it with the place of the pair that followed.
    pub fn take_with_next(&mut self, place: Place) -> ((K, V), Option<Place>)
        requires { IsPlace self.old place }
        ensures { TakesWithNextByRule (IsUnique K.eq) self.old place result self.new }
    {
        self.take_entry(place)
    }
}
