//! Writes to the entries of buckets. No write changes a place, and none allocates.
ghost use Rattle.scc_array.specs.ShelfWrites.{put_whole};
ghost use Rattle.scc_buckets.specs.LendsBuckets.{lends_value};
ghost use Rattle.scc_buckets.specs.Places.{IsSpot, index_of_spot};
ghost use Rattle.scc_buckets.specs.Updates.{WritesFirstSpot};
ghost use Rattle.scc_buckets.specs.Writes.{with_write_at_spot};
ghost use Rattle.scc_common.specs.Contents.{entries, hash_in};
ghost use Rattle.scc_common.specs.PairWalks.{CalledToWrite, TakesToWrite};
ghost use Rattle.std.specs.Borrow.{sem};
ghost use Rattle.std.specs.List.{find};
ghost use Rattle.std.specs.Prelude.{◌≡◌, ◌<◌, Some, None, IfSome, true, slice_get};

use crate::Buckets;
use crate::place::{Place, tag};
use scc_common::{Hashes, Keyed, Lending, Valued, Writer};

impl<E: Keyed, H: Hashes<E::Key>> Buckets<E, H>
where
    E::Key: Eq,
{
    /// Replaces the entry at `place` by `entry`, and returns the old entry. The two keys must be equal.
    pub fn replace_at(&mut self, place: Place, entry: E) -> E
        requires within { IsSpot self.old place }
        requires same { (e : E) → slice_get (entries self.old) (index_of_spot self.old place) ≡ Some e
            → E.Key.eq (E.key_of entry) (E.key_of e) ≡ true }
        ensures old { slice_get (entries self.old) (index_of_spot self.old place) ≡ Some result }
        ensures new { self.new ≡ with_write_at_spot put_whole self.old place entry }
    {
        self.buckets.replace_at(place.bucket, place.slot, entry)
    }
}

impl<E: Valued, H: Hashes<E::Key>> Buckets<E, H>
where
    E::Key: Eq,
{
    /// Lets `w` write to the value of the entry whose key equals `key`, and returns what `w` returns. Returns `None` if
    /// there is no such entry. `hash` must be the hash of `key`.
    #[inline(always)]
    pub fn write<W: Writer<E::Key, E::Value> + Drop>(
        &mut self,
        hash: u64,
        key: &E::Key,
        w: W,
    ) -> Option<W::Out>
        requires hashed { hash ≡ hash_in H.hash_of self.old key.now }
        requires takes { (e : E) → find (λ e. E.Key.eq key.now (E.Keyed.key_of e)) (entries self.old) ≡ Some e
            → E.allows (E.Keyed.key_of e) (E.value_of e) → W.takes w (E.Keyed.key_of e) (E.value_of e) }
        requires keeps { (e : E) (r : W.Out) (v : E.Value)
            → find (λ e. E.Key.eq key.now (E.Keyed.key_of e)) (entries self.old) ≡ Some e
            → E.allows (E.Keyed.key_of e) (E.value_of e)
            → W.gives w (E.Keyed.key_of e) (E.value_of e) r v → E.allows (E.Keyed.key_of e) v }
        ensures step { WritesFirstSpot (λ e. W.gives w (E.Keyed.key_of e) (E.value_of e)) E.with_value
            (λ e. E.Key.eq key.now (E.Keyed.key_of e)) self.old self.new result }
        ensures allowed { IfSome result (λ _. (e : E)
            × (find (λ e. E.Key.eq key.now (E.Keyed.key_of e)) (entries self.old) ≡ Some e)
            × E.allows (E.Keyed.key_of e) (E.value_of e)) }
    {
        let count = self.buckets.len();
        if count == 0 {
            return None;
        }
        let bucket = self.router.bucket(hash, count);
        self.buckets.write(bucket, key, tag(hash), w)
    }

    /// Lets `w` write to the value of the entry at `place`, and returns what `w` returns.
    #[inline(always)]
    pub fn write_at<W: Writer<E::Key, E::Value>>(&mut self, place: Place, w: W) -> W::Out
        requires within { IsSpot self.old place }
        requires takes { (e : E) → slice_get (entries self.old) (index_of_spot self.old place) ≡ Some e
            → E.allows (E.Keyed.key_of e) (E.value_of e) → W.takes w (E.Keyed.key_of e) (E.value_of e) }
        requires keeps { (e : E) (r : W.Out) (v : E.Value)
            → slice_get (entries self.old) (index_of_spot self.old place) ≡ Some e
            → E.allows (E.Keyed.key_of e) (E.value_of e)
            → W.gives w (E.Keyed.key_of e) (E.value_of e) r v → E.allows (E.Keyed.key_of e) v }
        ensures { (e : E) × (v : E.Value)
            × (slice_get (entries self.old) (index_of_spot self.old place) ≡ Some e)
            × W.gives w (E.Keyed.key_of e) (E.value_of e) result v
            × (self.new ≡ with_write_at_spot E.with_value self.old place v)
            × E.allows (E.Keyed.key_of e) (E.value_of e) }
    {
        self.buckets.write_at(place.bucket, place.slot, w)
    }

    /// Calls `f` with the key and the value of the entry at `place`, and returns the result of `f`. `f` may write to the
    /// value.
    #[inline(always)]
    pub fn visit_at<R, F: FnMut(&E::Key, &mut E::Value) -> R>(
        &mut self,
        place: Place,
        f: &mut F,
    ) -> R
        requires within { IsSpot self.old place }
        requires takes { (e : E) → slice_get (entries self.old) (index_of_spot self.old place) ≡ Some e
            → E.allows (E.Keyed.key_of e) (E.value_of e)
            → TakesToWrite F.FnMut f.old (E.Keyed.key_of e, E.value_of e) }
        requires keeps { (e : E) (r : R) (v : E.Value) (f' : F)
            → slice_get (entries self.old) (index_of_spot self.old place) ≡ Some e
            → E.allows (E.Keyed.key_of e) (E.value_of e)
            → CalledToWrite F.FnMut f.old (E.Keyed.key_of e, E.value_of e) r v f' → E.allows (E.Keyed.key_of e) v }
        ensures { (e : E) × (v : E.Value)
            × (slice_get (entries self.old) (index_of_spot self.old place) ≡ Some e)
            × CalledToWrite F.FnMut f.old (E.Keyed.key_of e, E.value_of e) result v f.new
            × (self.new ≡ with_write_at_spot E.with_value self.old place v)
            × E.allows (E.Keyed.key_of e) (E.value_of e) }
    {
        self.buckets.visit_at(place.bucket, place.slot, f)
    }

    /// Replaces the key of the entry at `place` by `key`, and returns the old key. The two keys must be equal.
    pub fn replace_key_at(&mut self, place: Place, key: E::Key) -> E::Key
        requires within { IsSpot self.old place }
        requires same { (e : E) → slice_get (entries self.old) (index_of_spot self.old place) ≡ Some e
            → E.Key.eq key (E.Keyed.key_of e) ≡ true }
        ensures old { (e : E) × (slice_get (entries self.old) (index_of_spot self.old place) ≡ Some e)
            × (result ≡ E.Keyed.key_of e) }
        ensures new { self.new ≡ with_write_at_spot E.with_key self.old place key }
    {
        self.buckets.replace_key_at(place.bucket, place.slot, key)
    }
}

impl<E: Lending, H: Hashes<E::Key>> Buckets<E, H>
where
    E::Key: Eq,
{
    /// Returns the key of the entry at `place`, and its value to write to.
    #[inline(always)]
    pub fn parts_mut_at(&mut self, place: Place) -> (&E::Key, &mut E::Value)
        requires { IsSpot self.old place }
        ensures* writes_back { sem 𝓛 (lends_value E.row H.row E.Key.row E.Value.row E.Keyed E.Key.PartialEq H.Hashes
            E.with_value self.entry place result.1) }
        ensures parts { (e : E) × (slice_get (entries self.old) (index_of_spot self.old place) ≡ Some e)
            × (result.0.now ≡ E.Keyed.key_of e) × (result.1.now ≡ E.value_of e) }
    {
        self.buckets.parts_mut_at(place.bucket, place.slot)
    }
}
