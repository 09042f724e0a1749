//! Searches that return the entry or its slot, and reads.
ghost use Rattle.scc_buckets.specs.Bounded.{IsBounded, IsListed, IsListedAtSpot, IsUnlisted};
ghost use Rattle.scc_buckets.specs.Places.{IsFoundAtSpot, IsSpot};
ghost use Rattle.scc_common.specs.Contents.{entries, hash_in, bucket_count, list_of, settings_of, IsUniqueBy, IsRouted};
ghost use Rattle.scc_common.specs.Routing.{bucket_number};
ghost use Rattle.std.specs.List.{find, position};
ghost use Rattle.std.specs.Option.{option_copied};
ghost use Rattle.std.specs.Prelude.{◌≡◌, MatchOption, Some, None, ◌<◌, length, slice_get};

use crate::Buckets;
use crate::place::{Place, tag};
use scc_common::{Hashes, Keyed};

impl<E: Keyed, H: Hashes<E::Key>> Buckets<E, H>
where
    E::Key: Eq,
{
    /// Returns the entry whose key equals `key`, or `None`. `hash` must be the hash of `key`.
    #[inline(always)]
    pub fn find(&self, hash: u64, key: &E::Key) -> Option<&E>
        requires { hash ≡ hash_in H.hash_of self.now key.now }
        ensures { option_copied result ≡ find (λ e. E.Key.eq key.now (E.key_of e)) (entries self.now) }
    {
        let count = self.buckets.len();
        if count == 0 {
            return None;
        }
        let bucket = self.router.bucket(hash, count);
        self.buckets.find(bucket, key, tag(hash))
    }

    /// Returns the entry whose key equals `key`, or `None`. `hint` may be any hash: if it is the hash of `key` and the
    /// entry is present, `key` isn't hashed.
    #[inline(always)]
    pub fn find_by_hint(&self, hint: u64, key: &E::Key) -> Option<&E>
        ensures { option_copied result ≡ find (λ e. E.Key.eq key.now (E.key_of e)) (entries self.now) }
    {
        match self.find_hinted(hint, key) {
            Some(entry) => Some(entry),
            None => {
                let hash = self.hash(key);
                if hash == hint {
                    return None;
                }
                self.find_anew(hash, key)
            }
        }
    }

    /// As `find`, for a key whose hash wasn't the hint.
    #[cold]
    fn find_anew(&self, hash: u64, key: &E::Key) -> Option<&E>
        requires { hash ≡ hash_in H.hash_of self.now key.now }
        ensures { option_copied result ≡ find (λ e. E.Key.eq key.now (E.key_of e)) (entries self.now) }
    {
        self.find(hash, key)
    }

    /// Searches the bucket of `hint` for the entry whose key equals `key`. If the result is `None` and `hint` is the
    /// hash of `key`, there is no such entry.
    #[inline(always)]
    fn find_hinted(&self, hint: u64, key: &E::Key) -> Option<&E>
        ensures { MatchOption result (hint ≡ hash_in H.hash_of self.now key.now
            → find (λ e. E.Key.eq key.now (E.key_of e)) (entries self.now) ≡ None)
            (λ b. find (λ e. E.Key.eq key.now (E.key_of e)) (entries self.now) ≡ Some b.now) }
    {
        let count = self.buckets.len();
        if count == 0 {
            return None;
        }
        let bucket = self.router.bucket(hint, count);
        match self.buckets.find_hinted(bucket, key, tag(hint)) {
            Some(entry) => Some(entry),
            None => None,
        }
    }

    /// Searches the bucket of `hint` for the place of the entry whose key equals `key`. If the result is `None` and
    /// `hint` is the hash of `key`, there is no such entry.
    #[inline(always)]
    pub fn search_hinted(&self, hint: u64, key: &E::Key) -> Option<Place>
        ensures place { MatchOption result (hint ≡ hash_in H.hash_of self.now key.now
            → position (λ e. E.Key.eq key.now (E.key_of e)) (entries self.now) ≡ None)
            (IsFoundAtSpot (λ e. E.Key.eq key.now (E.key_of e)) self.now) }
        ensures unique { IsUniqueBy E.Key.eq E.key_of self.now }
    {
        let count = self.buckets.len();
        if count == 0 {
            return None;
        }
        let bucket = self.router.bucket(hint, count);
        match self.buckets.search_hinted(bucket, key, tag(hint)) {
            Some(slot) => Some(Place { bucket, slot }),
            None => None,
        }
    }

    /// Returns the slot of the entry of `bucket` whose key equals `key`, or `None`. `bucket` must be the bucket of
    /// `hash`, and `hash` the hash of `key`.
    #[inline(always)]
    pub fn search_in(&self, bucket: usize, hash: u64, key: &E::Key) -> Option<usize>
        requires within { bucket < bucket_count self.now }
        requires routed { bucket ≡ bucket_number (settings_of self.now).skipped (bucket_count self.now) hash }
        requires hashed { hash ≡ hash_in H.hash_of self.now key.now }
        ensures place { result ≡ position (λ e. E.Key.eq key.now (E.key_of e)) (list_of self.now bucket) }
        ensures missed { result ≡ None → position (λ e. E.Key.eq key.now (E.key_of e)) (entries self.now) ≡ None }
        ensures routed { IsRouted (λ e. hash_in H.hash_of self.now (E.key_of e))
            self.now }
    {
        self.buckets.search(bucket, key, tag(hash))
    }

    /// As `search`, but the contract speaks of the list of the bucket. `hash` must be the hash of `key`.
    #[inline(always)]
    pub fn search_place(&self, hash: u64, key: &E::Key) -> Option<Place>
        requires { hash ≡ hash_in H.hash_of self.now key.now }
        ensures { MatchOption result (IsUnlisted (λ e. E.Key.eq key.now (E.key_of e)) self.now
            (bucket_number (settings_of self.now).skipped (bucket_count self.now) hash))
            (IsListedAtSpot (λ e. E.Key.eq key.now (E.key_of e)) self.now
            (bucket_number (settings_of self.now).skipped (bucket_count self.now) hash)) }
    {
        if self.bucket_count() == 0 {
            return None;
        }
        let bucket = self.bucket_at(hash);
        match self.search_in(bucket, hash, key) {
            Some(slot) => Some(Place { bucket, slot }),
            None => None,
        }
    }

    /// Returns the entry at `place`. The contract speaks of the list of the bucket.
    #[inline(always)]
    pub fn entry_in(&self, place: Place) -> &E
        requires { IsSpot self.now place }
        ensures { slice_get (list_of self.now place.bucket) place.slot ≡ Some result.now }
    {
        self.buckets.entry_at(place.bucket, place.slot)
    }

    /// Returns the number of entries of `bucket`.
    #[inline(always)]
    pub fn list_len(&self, bucket: usize) -> usize
        requires { bucket < bucket_count self.now }
        ensures len { result ≡ length (list_of self.now bucket) }
        ensures listed { IsBounded self.now → IsListed
            (λ e. hash_in H.hash_of self.now (E.key_of e)) self.now }
        ensures routed { IsRouted (λ e. hash_in H.hash_of self.now (E.key_of e))
            self.now }
        ensures unique { IsUniqueBy E.Key.eq E.key_of self.now }
    {
        self.buckets.bucket_len(bucket)
    }

    /// Returns the number of the bucket of `hash`, 0 if there is no array.
    #[inline(always)]
    pub fn bucket_at(&self, hash: u64) -> usize
        ensures value { result ≡ bucket_number (settings_of self.now).skipped (bucket_count self.now) hash }
        ensures within { 0 < bucket_count self.now → result < bucket_count self.now }
        ensures routed { IsRouted (λ e. hash_in H.hash_of self.now (E.key_of e))
            self.now }
        ensures unique { IsUniqueBy E.Key.eq E.key_of self.now }
    {
        self.router.bucket(hash, self.buckets.len())
    }
}
