//! The calls at a place of a cache.
ghost use Rattle.scc_owned_cache.specs.CacheSteps.{IsFound, IsLacking, IsLastAt, IsPreparedForPut, PutsNew, TakesAt};
ghost use Rattle.scc_owned_cache.specs.Caches.{IsCacheState};
ghost use Rattle.scc_owned_cache.specs.Lends.{with_key_at, with_value_at};
ghost use Rattle.scc_owned_cache.specs.Evictions.{IsEvictedFor};
ghost use Rattle.scc_owned_cache.specs.LookUps.{FindsAfterPut};
ghost use Rattle.scc_owned_cache.specs.Relocations.{RelocatesNoneWithin, RelocatesOne, RelocatesTwoWithin};
ghost use Rattle.scc_common.specs.Closures.{TakesAt as CallableAt, WritesAt};
ghost use Rattle.scc_common.specs.Contents.{entries, bucket_count, list_of, hash_in, settings_of, waiting_of, IsUnmarked};
ghost use Rattle.scc_common.specs.PairWalks.{CalledToWrite, TakesToWrite};
ghost use Rattle.scc_common.specs.Pairs.{FindsInstead};
ghost use Rattle.scc_common.specs.Routing.{bucket_number};
ghost use Rattle.scc_common.specs.RuleWalks.{KeepsEachAlways};
ghost use Rattle.scc_table.specs.Places.{IsPlace, index_of, spot_of};
ghost use Rattle.scc_table.specs.TwoArrays.{IsWaiting};
ghost use Rattle.std.specs.Fn.{FnOnceReturnsAtMut, FnOnceTakesAtMut};
ghost use Rattle.std.specs.Prelude.{◌≡◌, ◌<◌, true, Some, None, OnSome, MatchOption, IfOk, IfErr, IfSome, OnOk, slice_get};

use crate::{EvictedEntry, Owned};
use scc_buckets::Place;
use scc_common::{Hashes, OfPair, OfValue, Put, Rule, Ruled, Valued};
use std::hash::{BuildHasher, Hash};

impl<K: Eq + Hash, V, H: BuildHasher, R: Rule<K, V>> Owned<K, V, H, R> {
    /// Returns the hash of `k`.
    pub fn hash_of(&self, k: &K) -> u64
        ensures { result ≡ hash_in ⟦<H as Hashes<K>>⟧.hash_of self.now.contents k.now }
    {
        self.table.hash(k)
    }

    /// Returns the place of the pair of `k`, or `None`. `hash` must be the hash of `k`.
    #[inline(always)]
    pub fn place_of(&self, hash: u64, k: &K) -> Option<Place>
        requires { hash ≡ hash_in ⟦<H as Hashes<K>>⟧.hash_of self.now.contents k.now }
        ensures { MatchOption result (IsLacking (hash_in ⟦<H as Hashes<K>>⟧.hash_of self.now.contents) K.eq
            self.now.contents k.now) (IsFound (hash_in ⟦<H as Hashes<K>>⟧.hash_of self.now.contents) K.eq
            self.now.contents k.now) }
    {
        self.table.search_place(hash, k)
    }

    /// Returns the key and the value at `place`.
    #[inline(always)]
    pub fn pair_at(&self, place: Place) -> (&K, &V)
        requires { IsPlace self.now.contents place }
        ensures pair { slice_get (list_of self.now.contents (spot_of self.now.contents place).bucket)
            (spot_of self.now.contents place).slot ≡ Some (result.0.now, result.1.now) }
        ensures kept { R.holds result.0.now result.1.now }
    {
        self.table.entry_at(place).parts()
    }

    /// Puts in a pair whose key is new, and returns the evicted pair, if any, and the new pair's place. `hash` must be
    /// the hash of `k`. If there is no array and memory for one is refused, the pair comes back and nothing changes. If
    /// it succeeds, the mark of a refused doubling goes.
    #[inline(always)]
    pub fn put_new(&mut self, hash: u64, k: K, v: V) -> Result<(EvictedEntry<K, V>, Place), (K, V)>
        requires hashed { hash ≡ hash_in ⟦<H as Hashes<K>>⟧.hash_of self.old.contents k }
        requires lacking { IsLacking (hash_in ⟦<H as Hashes<K>>⟧.hash_of self.old.contents) K.eq self.old.contents k }
        requires kept { R.holds k v }
        ensures step { IfOk result (λ r. PutsNew (hash_in ⟦<H as Hashes<K>>⟧.hash_of self.old.contents) K.eq self.old (k, v)
            r.0 self.new) }
        ensures here { IfOk result (λ r. IsPlace self.new.contents r.1 × (slice_get
            (list_of self.new.contents (spot_of self.new.contents r.1).bucket) (spot_of self.new.contents r.1).slot
            ≡ Some (k, v))) }
        ensures refused { IfErr result (λ p. (p ≡ (k, v)) × (bucket_count self.old.contents ≡ 0)
            × (self.new ≡ self.old)) }
        ensures state { IsCacheState K.eq (hash_in ⟦<H as Hashes<K>>⟧.hash_of self.new.contents) self.new }
        ensures relocates { OnOk result (RelocatesTwoWithin (hash_in ⟦<H as Hashes<K>>⟧.hash_of self.old.contents k)
            self.old.contents self.new.contents) }
        ensures once { IsPreparedForPut (hash_in ⟦<H as Hashes<K>>⟧.hash_of self.old.contents) self.old k
            → bucket_count self.new.contents ≡ bucket_count self.old.contents }
        ensures unmarked { OnOk result (IsUnmarked self.new.contents) }
        ensures finds { IfOk result (λ r. FindsAfterPut K.eq (entries self.old.contents) (k, v) r.0
            (entries self.new.contents)) }
        ensures evicted { IfOk result (λ r. IsEvictedFor K.eq R.holds k r.0) }
    {
        match self.table.bucket_for_new(hash, self.maximum) {
            Ok(bucket) => {
                self.table.drop_mark();
                let (evicted, slot) = self.table.put_within(bucket, hash, Ruled::new(k, v));
                Ok((pair_out(evicted), Place { bucket, slot }))
            }
            Err(_) => Err((k, v)),
        }
    }

    /// Makes the pair of `k` the most recent of its bucket, and returns its new place, or `None` if no key equals `k`.
    /// `hash` must be the hash of `k`. If the bucket waits, it is relocated first.
    #[inline(always)]
    pub fn refresh(&mut self, hash: u64, k: &K) -> Option<Place>
        requires { hash ≡ hash_in ⟦<H as Hashes<K>>⟧.hash_of self.old.contents k.now }
        ensures step { MatchOption result (IsLacking (hash_in ⟦<H as Hashes<K>>⟧.hash_of self.old.contents) K.eq
            self.old.contents k.now × (self.new ≡ self.old))
            (IsLastAt (hash_in ⟦<H as Hashes<K>>⟧.hash_of self.old.contents) K.eq self.old k.now self.new) }
        ensures state { IsCacheState K.eq (hash_in ⟦<H as Hashes<K>>⟧.hash_of self.new.contents) self.new }
        ensures relocates { OnSome result (RelocatesOne (hash_in ⟦<H as Hashes<K>>⟧.hash_of self.old.contents k.now)
            self.old.contents self.new.contents) }
    {
        if self.table.bucket_count() == 0 {
            return None;
        }
        let bucket = self.table.bucket_at(hash);
        if self.table.is_waiting(bucket) {
            return self.refresh_after_relocation(bucket, hash, k);
        }
        self.refresh_in_bucket(bucket, hash, k)
    }

    /// Does what `refresh` does if `bucket`, the bucket of `hash`, waits.
    #[cold]
    fn refresh_after_relocation(&mut self, bucket: usize, hash: u64, k: &K) -> Option<Place>
        requires within { bucket < bucket_count self.old.contents }
        requires routed { bucket ≡ bucket_number (settings_of self.old.contents).skipped
            (bucket_count self.old.contents) hash }
        requires hashed { hash ≡ hash_in ⟦<H as Hashes<K>>⟧.hash_of self.old.contents k.now }
        requires waits { IsWaiting self.old.contents bucket }
        ensures step { MatchOption result (IsLacking (hash_in ⟦<H as Hashes<K>>⟧.hash_of self.old.contents) K.eq
            self.old.contents k.now × (self.new ≡ self.old))
            (IsLastAt (hash_in ⟦<H as Hashes<K>>⟧.hash_of self.old.contents) K.eq self.old k.now self.new) }
        ensures state { IsCacheState K.eq (hash_in ⟦<H as Hashes<K>>⟧.hash_of self.new.contents) self.new }
        ensures relocates { OnSome result (RelocatesOne (hash_in ⟦<H as Hashes<K>>⟧.hash_of self.old.contents k.now)
            self.old.contents self.new.contents) }
    {
        self.table.search_place(hash, k)?;
        match self.table.relocate(bucket) {
            Ok(()) => self.refresh_in_bucket(bucket, hash, k),
            Err(_) => unreachable!(),
        }
    }

    /// Does what `refresh` does if `bucket`, the bucket of `hash`, doesn't wait.
    #[inline(always)]
    fn refresh_in_bucket(&mut self, bucket: usize, hash: u64, k: &K) -> Option<Place>
        requires within { bucket < bucket_count self.old.contents }
        requires routed { bucket ≡ bucket_number (settings_of self.old.contents).skipped
            (bucket_count self.old.contents) hash }
        requires hashed { hash ≡ hash_in ⟦<H as Hashes<K>>⟧.hash_of self.old.contents k.now }
        requires not_waiting { IsWaiting self.old.contents bucket → ⊥ }
        ensures step { MatchOption result (IsLacking (hash_in ⟦<H as Hashes<K>>⟧.hash_of self.old.contents) K.eq
            self.old.contents k.now × (self.new ≡ self.old))
            (IsLastAt (hash_in ⟦<H as Hashes<K>>⟧.hash_of self.old.contents) K.eq self.old k.now self.new) }
        ensures state { IsCacheState K.eq (hash_in ⟦<H as Hashes<K>>⟧.hash_of self.new.contents) self.new }
        ensures waiting { waiting_of self.new.contents ≡ waiting_of self.old.contents }
    {
        let slot = self.table.search_in(bucket, hash, k)?;
        self.table.touch(bucket, slot, hash);
        let slot = self.table.list_len(bucket) - 1;
        Some(Place { bucket, slot })
    }

    /// Removes the pair at `place` and returns it. The other pairs of its list stay in their order. Then the array may
    /// shrink.
    #[inline(always)]
    pub fn remove_at(&mut self, place: Place) -> (K, V)
        requires { IsPlace self.old.contents place }
        ensures pair { slice_get (list_of self.old.contents (spot_of self.old.contents place).bucket)
            (spot_of self.old.contents place).slot ≡ Some result }
        ensures finds { FindsInstead K.eq (entries self.old.contents) result.0 None (entries self.new.contents) }
        ensures left { TakesAt (hash_in ⟦<H as Hashes<K>>⟧.hash_of self.old.contents) self.old place self.new }
        ensures state { IsCacheState K.eq (hash_in ⟦<H as Hashes<K>>⟧.hash_of self.new.contents) self.new }
        ensures relocates { RelocatesNoneWithin (λ p. hash_in ⟦<H as Hashes<K>>⟧.hash_of self.old.contents p.0)
            self.old.contents self.new.contents }
        ensures kept { R.holds result.0 result.1 }
    {
        let entry = self.table.take_in(place);
        self.table.shrink_within();
        entry.into_pair()
    }

    /// Writes `value`, which must keep the rule, at `place`, and returns the old value.
    pub fn write_at(&mut self, place: Place, value: V) -> V
        requires within { IsPlace self.old.contents place }
        requires kept { (p : K × V) → slice_get (list_of self.old.contents (spot_of self.old.contents place).bucket)
            (spot_of self.old.contents place).slot ≡ Some p → R.holds p.0 value }
        ensures old { (p : K × V) × (slice_get (list_of self.old.contents (spot_of self.old.contents place).bucket)
            (spot_of self.old.contents place).slot ≡ Some p) × (result ≡ p.1) × R.holds p.0 p.1 }
        ensures new { self.new ≡ with_value_at self.old place value }
        ensures state { IsCacheState K.eq (hash_in ⟦<H as Hashes<K>>⟧.hash_of self.new.contents) self.new }
    {
        self.table.write_at(place, Put { value })
    }

    /// Calls `f` on the pair at `place`, with the value to write, and returns what `f` returns. What `f` leaves must
    /// keep the rule. The order of the pairs stays.
    pub fn update_at<A, F: FnOnce(&K, &mut V) -> A>(&mut self, place: Place, f: F) -> A
        requires within { IsPlace self.old.contents place }
        requires callable { (p : K × V)
            → slice_get (list_of self.old.contents (spot_of self.old.contents place).bucket)
            (spot_of self.old.contents place).slot ≡ Some p → R.holds p.0 p.1 → CallableAt F.FnOnce f p }
        requires keeps { (p : K × V) (r : A) (w : V)
            → slice_get (list_of self.old.contents (spot_of self.old.contents place).bucket)
            (spot_of self.old.contents place).slot ≡ Some p → R.holds p.0 p.1
            → WritesAt F.FnOnce f p r w → R.holds p.0 w }
        ensures step { (p : K × V) × (w : V)
            × (slice_get (list_of self.old.contents (spot_of self.old.contents place).bucket)
            (spot_of self.old.contents place).slot ≡ Some p) × WritesAt F.FnOnce f p result w
            × (self.new ≡ with_value_at self.old place w) × R.holds p.0 p.1 }
        ensures state { IsCacheState K.eq (hash_in ⟦<H as Hashes<K>>⟧.hash_of self.new.contents) self.new }
    {
        self.table.write_at(place, OfPair { f })
    }

    /// Calls `f` on the value at `place`, to write, and returns what `f` returns. What `f` leaves must keep the rule.
    /// The order of the pairs stays.
    pub fn modify_at<A, F: FnOnce(&mut V) -> A>(&mut self, place: Place, f: F) -> A
        requires within { IsPlace self.old.contents place }
        requires callable { (p : K × V)
            → slice_get (list_of self.old.contents (spot_of self.old.contents place).bucket)
            (spot_of self.old.contents place).slot ≡ Some p → R.holds p.0 p.1 → FnOnceTakesAtMut F.FnOnce f p.1 }
        requires keeps { (p : K × V) (r : A) (w : V)
            → slice_get (list_of self.old.contents (spot_of self.old.contents place).bucket)
            (spot_of self.old.contents place).slot ≡ Some p → R.holds p.0 p.1
            → FnOnceReturnsAtMut F.FnOnce f p.1 r w → R.holds p.0 w }
        ensures step { (p : K × V) × (w : V)
            × (slice_get (list_of self.old.contents (spot_of self.old.contents place).bucket)
            (spot_of self.old.contents place).slot ≡ Some p) × FnOnceReturnsAtMut F.FnOnce f p.1 result w
            × (self.new ≡ with_value_at self.old place w) × R.holds p.0 p.1 × R.holds p.0 w }
        ensures state { IsCacheState K.eq (hash_in ⟦<H as Hashes<K>>⟧.hash_of self.new.contents) self.new }
    {
        self.table.write_at(place, OfValue { f })
    }

    /// Calls `f` on the pair at `place`, with the value to write. The closure is lent. What it leaves must keep the
    /// rule.
    #[inline(always)]
    pub(crate) fn visit<A, F: FnMut(&K, &mut V) -> A>(&mut self, place: Place, f: &mut F) -> A
        requires within { IsPlace self.old.contents place }
        requires callable { (p : K × V) → slice_get (entries self.old.contents) (index_of self.old.contents place)
            ≡ Some p → R.holds p.0 p.1 → TakesToWrite F.FnMut f.old p }
        requires keeps { KeepsEachAlways R.holds F.FnMut }
        ensures { (p : K × V) × (w : V) × (slice_get (entries self.old.contents) (index_of self.old.contents place)
            ≡ Some p) × CalledToWrite F.FnMut f.old p result w f.new × (self.new ≡ with_value_at self.old place w)
            × R.holds p.0 p.1 × R.holds p.0 w }
    {
        self.table.visit_at(place, f)
    }

    /// Puts `key` in the place of the key at `place`, which must equal it, and returns the old key.
    pub fn replace_key_at(&mut self, place: Place, key: K) -> K
        requires within { IsPlace self.old.contents place }
        requires same { (p : K × V) → slice_get (list_of self.old.contents (spot_of self.old.contents place).bucket)
            (spot_of self.old.contents place).slot ≡ Some p → K.eq key p.0 ≡ true }
        ensures old { (p : K × V) × (slice_get (list_of self.old.contents (spot_of self.old.contents place).bucket)
            (spot_of self.old.contents place).slot ≡ Some p) × (result ≡ p.0) }
        ensures new { self.new ≡ with_key_at self.old place key }
        ensures within { IsPlace self.new.contents place }
        ensures alike { (p : K × V) → slice_get (list_of self.new.contents (spot_of self.new.contents place).bucket)
            (spot_of self.new.contents place).slot ≡ Some p → K.eq result p.0 ≡ true }
        ensures state { IsCacheState K.eq (hash_in ⟦<H as Hashes<K>>⟧.hash_of self.new.contents) self.new }
    {
        self.table.replace_key_at(place, key)
    }
}

/// Returns the pair of the entry, if there is one. It keeps the rule.
fn pair_out<K: Eq, V, R: Rule<K, V>>(entry: Option<Ruled<K, V, R>>) -> Option<(K, V)>
    ensures same { result ≡ entry }
    ensures kept { IfSome result (λ p. R.holds p.0 p.1) }
{
    match entry {
        Some(entry) => Some(entry.into_pair()),
        None => None,
    }
}
