//! Searches in the list of one bucket, and its first entry.
ghost use Rattle.scc_buckets.specs.Bounded.{IsUnlisted};
ghost use Rattle.scc_common.specs.Contents.{entries, bucket_count, list_of, settings_of, hash_in};
ghost use Rattle.scc_common.specs.Routing.{bucket_number};
ghost use Rattle.scc_table.specs.Bounded.{IsListedAt};
ghost use Rattle.scc_table.specs.TwoArrays.{IsWaiting};
ghost use Rattle.std.specs.List.{position};
ghost use Rattle.std.specs.Prelude.{◌≡◌, ◌<◌, length, None, Some, slice_get, MatchOption};

use crate::Table;
use scc_buckets::Place;
use scc_common::{Hashes, Keyed};

impl<E: Keyed, H: Hashes<E::Key>> Table<E, H>
where
    E::Key: Eq,
{
    /// Returns the slot of the entry of `bucket` whose key equals `key`, or `None`. `bucket` must be the bucket of
    /// `hash` and not wait, and `hash` must be the hash of `key`.
    #[inline(always)]
    pub fn search_in(&self, bucket: usize, hash: u64, key: &E::Key) -> Option<usize>
        requires within { bucket < bucket_count self.now }
        requires not_waiting { IsWaiting self.now bucket → ⊥ }
        requires routed { bucket ≡ bucket_number (settings_of self.now).skipped (bucket_count self.now) hash }
        requires hashed { hash ≡ hash_in H.hash_of self.now key.now }
        ensures place { result ≡ position (λ e. E.Key.eq key.now (E.key_of e)) (list_of self.now bucket) }
        ensures missed { result ≡ None → position (λ e. E.Key.eq key.now (E.key_of e)) (entries self.now) ≡ None }
    {
        self.current.search_in(bucket, hash, key)
    }

    /// As `search`, but the contract speaks of the list of the bucket. `hash` must be the hash of `key`.
    #[inline(always)]
    pub fn search_place(&self, hash: u64, key: &E::Key) -> Option<Place>
        requires { hash ≡ hash_in H.hash_of self.now key.now }
        ensures { MatchOption result (IsUnlisted (λ e. E.Key.eq key.now (E.key_of e)) self.now
            (bucket_number (settings_of self.now).skipped (bucket_count self.now) hash))
            (IsListedAt (λ e. E.Key.eq key.now (E.key_of e)) self.now
            (bucket_number (settings_of self.now).skipped (bucket_count self.now) hash)) }
    {
        // The bucket is computed before the search branches, so that a put after it doesn't compute it again.
        let _bucket = self.bucket_at(hash);
        self.search(hash, key)
    }

    /// Returns the first entry of `bucket`, which must hold an entry.
    pub fn first_entry(&self, bucket: usize) -> &E
        requires within { bucket < bucket_count self.now }
        requires some { 0 < length (list_of self.now bucket) }
        ensures { slice_get (list_of self.now bucket) 0 ≡ Some result.now }
    {
        match self.first_in(bucket) {
            Some(place) => self.entry_at(place),
            None => unreachable!(),
        }
    }
}
