//! Reads: the entry at a place, sizes, settings, and the bucket of a key.
ghost use Rattle.scc_common.specs.Contents.{entries, bucket_count, bucket_of, hash_in, list_of, minimum_of, settings_of, HasRoomBy, IsRouted, IsUniqueBy};
ghost use Rattle.scc_common.specs.Routing.{bucket_number};
ghost use Rattle.scc_table.specs.Places.{IsPlace, index_of};
ghost use Rattle.scc_table.specs.TwoArrays.{IsWaiting};
ghost use Rattle.std.specs.Prelude.{◌≡◌, ◌≤◌, ◌<◌, ◌^◌, ◌↔◌, length, Some, IsTrue, slice_get};

use crate::Table;
use scc_buckets::Place;
use scc_common::{Hashes, Keyed, SharedVersion, Version};

impl<E: Keyed, H: Hashes<E::Key>> Table<E, H>
where
    E::Key: Eq,
{
    /// Returns the number of entries.
    #[inline(always)]
    pub fn len(&self) -> usize
        ensures len { result ≡ length (entries self.now) }
        ensures unique { IsUniqueBy E.Key.eq E.key_of self.now }
    {
        self.current.len() + self.draining.left
    }

    /// Returns the entry at `place`.
    #[inline(always)]
    pub fn entry_at(&self, place: Place) -> &E
        requires { IsPlace self.now place }
        ensures entry { slice_get (entries self.now) (index_of self.now place) ≡ Some result.now }
        ensures unique { IsUniqueBy E.Key.eq E.key_of self.now }
    {
        let count = self.current.bucket_count();
        if place.bucket < count {
            return self.current.entry_in(place);
        }
        self.draining
            .array
            .entry_at(place.bucket - count, place.slot)
    }

    /// Returns the hash of `key` under the hasher of the table.
    #[inline(always)]
    pub fn hash(&self, key: &E::Key) -> u64
        ensures { result ≡ hash_in H.hash_of self.now key.now }
    {
        self.current.hash(key)
    }

    /// Returns the number of the bucket of `key`, 0 if there is no array.
    pub fn bucket_index(&self, key: &E::Key) -> usize
        ensures { result ≡ bucket_of (hash_in H.hash_of self.now) self.now
            key.now }
    {
        self.current.bucket_index(key)
    }

    /// Returns the number of the bucket of `hash`, 0 if there is no array.
    #[inline(always)]
    pub fn bucket_at(&self, hash: u64) -> usize
        ensures value { result ≡ bucket_number (settings_of self.now).skipped (bucket_count self.now) hash }
        ensures within { 0 < bucket_count self.now → result < bucket_count self.now }
        ensures routed { IsRouted (λ e. hash_in H.hash_of self.now (E.key_of e))
            self.now }
        ensures unique { IsUniqueBy E.Key.eq E.key_of self.now }
    {
        self.current.bucket_at(hash)
    }

    /// Returns the number of entries of `bucket`, in either array. For a waiting bucket, takes time proportional to the
    /// number of entries in the old buckets that hold its entries.
    #[inline(always)]
    pub fn list_len(&self, bucket: usize) -> usize
        requires { bucket < bucket_count self.now }
        ensures len { result ≡ length (list_of self.now bucket) }
        ensures routed { IsRouted (λ e. hash_in H.hash_of self.now (E.key_of e))
            self.now }
    {
        if self.is_waiting(bucket) {
            return self.waiting_len(bucket);
        }
        self.current.list_len(bucket)
    }

    /// As `list_len`, if `bucket` waits.
    #[cold]
    fn waiting_len(&self, bucket: usize) -> usize
        requires { IsWaiting self.now bucket }
        ensures len { result ≡ length (list_of self.now bucket) }
        ensures routed { IsRouted (λ e. hash_in H.hash_of self.now (E.key_of e))
            self.now }
    {
        let count = self.current.bucket_count();
        self.draining
            .destined_len(self.current.router(), bucket, count)
    }

    /// Returns whether there is an array and the bucket of `key` holds fewer than 32 entries. Then its bucket needs no
    /// memory for an insertion of `key`.
    pub fn has_room(&self, key: &E::Key) -> bool
        ensures { IsTrue result ↔ HasRoomBy (hash_in H.hash_of self.now)
            E.key_of self.now key.now }
    {
        if self.bucket_count() == 0 {
            return false;
        }
        self.list_len(self.bucket_at(self.hash(key))) < 32
    }

    /// Returns the minimum: the slots asked for at making, and the slots reserved.
    #[inline(always)]
    pub fn minimum(&self) -> usize
        ensures value { result ≡ minimum_of self.now }
        ensures most { result ≤ 2 ^ 63 }
        ensures unique { IsUniqueBy E.Key.eq E.key_of self.now }
    {
        self.current.minimum()
    }
}

impl<K: Eq, V, H: Hashes<K>> Table<(K, V), H> {
    /// Returns the key and the value at `place`.
    #[inline(always)]
    pub fn pair_at(&self, place: Place) -> (&K, &V)
        requires { IsPlace self.now place }
        ensures { slice_get (entries self.now) (index_of self.now place) ≡ Some (result.0.now, result.1.now) }
    {
        let pair = self.entry_at(place);
        (&pair.0, &pair.1)
    }
}

impl<K: Eq, V, H: Hashes<K>> Table<SharedVersion<K, V>, H> {
    /// Returns the version at `place`.
    #[inline(always)]
    pub fn version_at(&self, place: Place) -> &Version<K, V>
        requires { IsPlace self.now place }
        ensures { slice_get (entries self.now) (index_of self.now place) ≡ Some result.now }
    {
        self.entry_at(place).version()
    }
}
