//! The calls at a place of a map under a rule.
ghost use Rattle.scc_common.specs.Closures.{TakesAt, WritesAt};
ghost use Rattle.scc_common.specs.Contents.{entries, hash_in};
ghost use Rattle.scc_common.specs.Pairs.{find, with_pair_key, with_pair_value, IsUnique};
ghost use Rattle.scc_common.specs.PairWalks.{CalledToWrite};
ghost use Rattle.scc_owned.specs.Insertions.{InsertsInto};
ghost use Rattle.scc_owned.specs.Shrinking.{RemovesAtByRule, TakesWithNextByRule};
ghost use Rattle.scc_common.specs.RuleWalks.{KeepsEachAlways, TakesEachToWrite};
ghost use Rattle.scc_table.specs.Places.{IsPlace, index_of, with_write_at};
ghost use Rattle.std.specs.Fn.{FnOnceReturnsAtMut, FnOnceTakesAtMut};
ghost use Rattle.std.specs.Prelude.{◌≡◌, Some, None, false, true, slice_get};

use crate::ruled_map::RuledMap;
use crate::stored::pair_back;
use scc_buckets::Place;
use scc_common::{Hashes, OfPair, OfValue, Put, Rule, Ruled, Valued};
use std::hash::{BuildHasher, Hash};

impl<K: Eq + Hash, V, R: Rule<K, V>, H: BuildHasher> RuledMap<K, V, R, H> {
    /// Returns the pair at `place`.
    #[inline(always)]
    pub fn pair_at(&self, place: Place) -> (&K, &V)
        requires { IsPlace self.now place }
        ensures pair { slice_get (entries self.now) (index_of self.now place) ≡ Some (result.0.now, result.1.now) }
        ensures kept { R.holds result.0.now result.1.now }
    {
        self.table.entry_at(place).parts()
    }

    /// Writes `value` at `place`, and returns the old value.
    #[inline(always)]
    pub fn write_at(&mut self, place: Place, value: V) -> V
        requires within { IsPlace self.old place }
        requires kept { (p : K × V) → slice_get (entries self.old) (index_of self.old place) ≡ Some p
            → R.holds p.0 value }
        ensures old { (p : K × V) × (slice_get (entries self.old) (index_of self.old place) ≡ Some p)
            × (result ≡ p.1) × R.holds p.0 p.1 }
        ensures new { self.new ≡ with_write_at with_pair_value self.old place value }
        ensures unique { IsUnique K.eq self.new }
    {
        self.table.write_at(place, Put { value })
    }

    /// Calls `f` on the pair at `place`, with the value to write, and returns what `f` returns.
    #[inline(always)]
    pub fn update_at<A, F: FnOnce(&K, &mut V) -> A>(&mut self, place: Place, f: F) -> A
        requires within { IsPlace self.old place }
        requires callable { (p : K × V) → slice_get (entries self.old) (index_of self.old place) ≡ Some p
            → R.holds p.0 p.1 → TakesAt F.FnOnce f p }
        requires keeps { (p : K × V) (r : A) (w : V)
            → slice_get (entries self.old) (index_of self.old place) ≡ Some p → R.holds p.0 p.1
            → WritesAt F.FnOnce f p r w → R.holds p.0 w }
        ensures step { (p : K × V) × (w : V) × (slice_get (entries self.old) (index_of self.old place) ≡ Some p)
            × R.holds p.0 p.1 × WritesAt F.FnOnce f p result w
            × (self.new ≡ with_write_at with_pair_value self.old place w) }
        ensures unique { IsUnique K.eq self.new }
    {
        self.table.write_at(place, OfPair { f })
    }

    /// Calls `f` on the value at `place`, to write, and returns what `f` returns.
    #[inline(always)]
    pub fn modify_at<A, F: FnOnce(&mut V) -> A>(&mut self, place: Place, f: F) -> A
        requires within { IsPlace self.old place }
        requires callable { (p : K × V) → slice_get (entries self.old) (index_of self.old place) ≡ Some p
            → R.holds p.0 p.1 → FnOnceTakesAtMut F.FnOnce f p.1 }
        requires keeps { (p : K × V) (r : A) (w : V)
            → slice_get (entries self.old) (index_of self.old place) ≡ Some p → R.holds p.0 p.1
            → FnOnceReturnsAtMut F.FnOnce f p.1 r w → R.holds p.0 w }
        ensures step { (p : K × V) × (w : V) × (slice_get (entries self.old) (index_of self.old place) ≡ Some p)
            × R.holds p.0 p.1 × FnOnceReturnsAtMut F.FnOnce f p.1 result w
            × (self.new ≡ with_write_at with_pair_value self.old place w) }
        ensures unique { IsUnique K.eq self.new }
    {
        self.table.write_at(place, OfValue { f })
    }

    /// Calls `f` on the pair at `place`, with the value to write. The closure is lent.
    #[inline(always)]
    pub(crate) fn visit<A, F: FnMut(&K, &mut V) -> A>(&mut self, place: Place, f: &mut F) -> A
        requires within { IsPlace self.old place }
        requires callable { TakesEachToWrite R.holds F.FnMut }
        requires keeps { KeepsEachAlways R.holds F.FnMut }
        ensures { (p : K × V) × (w : V) × (slice_get (entries self.old) (index_of self.old place) ≡ Some p)
            × CalledToWrite F.FnMut f.old p result w f.new
            × (self.new ≡ with_write_at with_pair_value self.old place w) × R.holds p.0 p.1 × R.holds p.0 w }
    {
        self.table.visit_at(place, f)
    }

    /// Puts `key` in the place of the key at `place`, which must equal it, and returns the old key.
    #[inline(always)]
    pub fn replace_key_at(&mut self, place: Place, key: K) -> K
        requires within { IsPlace self.old place }
        requires same { (p : K × V) → slice_get (entries self.old) (index_of self.old place) ≡ Some p
            → K.eq key p.0 ≡ true }
        ensures old { (p : K × V) × (slice_get (entries self.old) (index_of self.old place) ≡ Some p) × (result ≡ p.0) }
        ensures new { self.new ≡ with_write_at with_pair_key self.old place key }
    {
        self.table.replace_key_at(place, key)
    }

    /// Removes the pair at `place` and returns it. Then the array may shrink.
    #[inline(always)]
    pub fn remove_at(&mut self, place: Place) -> (K, V)
        requires { IsPlace self.old place }
        ensures step { RemovesAtByRule (IsUnique K.eq) self.old place result self.new }
        ensures kept { R.holds result.0 result.1 }
    {
        self.table.remove_at(place).into_pair()
    }

    /// Removes the pair at `place` without a resize, and returns it with the place of the pair that followed.
    #[inline(always)]
    pub fn take_with_next(&mut self, place: Place) -> ((K, V), Option<Place>)
        requires { IsPlace self.old place }
        ensures step { TakesWithNextByRule (IsUnique K.eq) self.old place result self.new }
        ensures kept { R.holds result.0.0 result.0.1 }
    {
        let (entry, next) = self.take_entry(place);
        (entry.into_pair(), next)
    }

    /// Inserts a pair whose key is new, and returns its place. `hash` must be the hash of `k`. If memory is refused, the
    /// pair comes back.
    #[inline(always)]
    pub fn insert_new(&mut self, hash: u64, k: K, v: V) -> Result<Place, (K, V)>
        requires hashed { hash ≡ hash_in ⟦<H as Hashes<K>>⟧.hash_of self.old k }
        requires absent { find K.eq (entries self.old) k ≡ None }
        requires kept { R.holds k v }
        ensures { InsertsInto (λ p. p.0) K.eq ⟦<H as Hashes<K>>⟧.hash_of false self.old k v (k, v) result self.new }
    {
        pair_back(self.table.insert_new(hash, Ruled::new(k, v)))
    }
}
