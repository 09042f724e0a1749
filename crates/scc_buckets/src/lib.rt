//! `Buckets`: the buckets of one array, with 32 slots with a tag and an overflow list each, found by the bits of a
//! hash. A table has one `Buckets`, for its current array; its old array is an `Array`, in its `Draining`.
#![tactic(auto)]

ghost use Rattle.scc_array.specs.Shelf.{shelf_entries};
ghost use Rattle.scc_array.specs.Shelves.{shelf_of};
ghost use Rattle.scc_buckets.specs.Places.{IsFoundAtSpot};
ghost use Rattle.scc_buckets.specs.Routes.{route_of};
ghost use Rattle.scc_common.specs.Contents.{entries, bucket_count, overflow_of, hash_in, bucket_of, IsRouted, IsUniqueBy, note_of};
ghost use Rattle.scc_common.specs.Sizes.{IsLawful};
ghost use Rattle.std.specs.List.{flat_map, position};
ghost use Rattle.std.specs.Prelude.{◌≡◌, ◌≤◌, ◌<◌, ◌+◌, ◌*◌, ◌^◌, ℕ, [], length, Some, None, MatchOption};

mod bounded;
mod cloning;
mod filling;
mod insert;
mod lookup;
mod make;
pub mod place;
mod remove;
mod router;
pub mod sizes;
mod walk;
mod write;

use crate::place::tag;
pub use insert::overflow_room;
pub use place::Place;
pub use router::Router;
use scc_array::Array;
use scc_common::{Hashes, Keyed};
use std::marker::Model;

/// Entries with distinct keys, in buckets. A contract sees the list of each bucket, the number of buckets and the
/// settings, by the words of `scc_common`.
#[derive(Drop)]
pub struct Buckets<E: Keyed, H: Hashes<E::Key>>
where
    E::Key: Eq,
{
    router: Router<H>,
    refused: bool,
    marked: bool,
    buckets: Array<E>,
    length: usize,
    overflowing: usize,
    asked: usize,
    reserved: usize,
}

impl<E: Keyed, H: Hashes<E::Key>> Model for Buckets<E, H>
where
    E::Key: Eq,
{
    ghost use Rattle.std.specs.Prelude.{map, ◌+◌, []};
    ghost use Rattle.scc_common.specs.Contents.{Contents, contents_code};

    ghost Value = { Contents E H };

    ghost coded = { contents_code E.code H.code };

    ghost use Rattle.scc_array.specs.Shelf.{shelf_entries};
    ghost use Rattle.scc_buckets.specs.Tables.{AreBuckets, overflow_in};

    ghost view = { λ t. record {
      lists = map shelf_entries t.buckets;
      settings = record
          { hasher = t.router.hasher; skipped = t.router.skipped; asked = t.asked; reserved = t.reserved };
      refused = (t.refused, t.marked);
      spilled = overflow_in t.buckets;
      waiting = [];
      owed = [];
    } };

    ghost invariant = { λ t. AreBuckets E.Key.eq E.key_of (H.hash_of t.router.hasher) t.router.skipped (t.asked + t.reserved) t.buckets t.length t.overflowing };
}

impl<E: Keyed, H: Hashes<E::Key>> Buckets<E, H>
where
    E::Key: Eq,
{
    /// Returns the number of entries.
    #[inline(always)]
    pub fn len(&self) -> usize
        ensures len { result ≡ length (entries self.now) }
        ensures most { result ≤ 32 * bucket_count self.now + overflow_of self.now }
        ensures wide { bucket_count self.now ≤ 2 ^ 58 }
        ensures unique { IsUniqueBy E.Key.eq E.key_of self.now }
    {
        self.length
    }

    /// Returns the number of entries in overflow lists.
    #[inline(always)]
    pub fn overflow_len(&self) -> usize
        ensures value { result ≡ overflow_of self.now }
        ensures most { result < 2 ^ 62 }
    {
        self.overflowing
    }

    /// Returns the number of buckets, 0 if there is no array.
    #[inline(always)]
    pub fn bucket_count(&self) -> usize
        ensures count { result ≡ bucket_count self.now }
        ensures most { result ≤ 2 ^ 58 }
        ensures lawful { IsLawful result }
        ensures few { length (entries self.now) ≤ 32 * bucket_count self.now + overflow_of self.now }
        ensures routed { IsRouted (λ e. hash_in H.hash_of self.now (E.key_of e))
            self.now }
        ensures unique { IsUniqueBy E.Key.eq E.key_of self.now }
    {
        self.buckets.len()
    }

    /// Returns whether memory was refused for the last resize that was due.
    #[inline(always)]
    pub fn is_resize_refused(&self) -> bool
        ensures { result ≡ note_of self.now }
    {
        self.refused
    }

    /// Returns the hash of `key` under the hasher of the buckets.
    #[inline(always)]
    pub fn hash(&self, key: &E::Key) -> u64
        ensures { result ≡ hash_in H.hash_of self.now key.now }
    {
        self.router.hash(key)
    }

    /// Returns the number of the bucket of `key`, 0 if there is no array.
    pub fn bucket_index(&self, key: &E::Key) -> usize
        ensures { result ≡ bucket_of (hash_in H.hash_of self.now) self.now
            key.now }
    {
        self.router
            .bucket(self.router.hash(key), self.buckets.len())
    }

    /// Returns the place of the entry whose key equals `key`, or `None`. `hash` must be the hash of `key`.
    #[inline(always)]
    pub fn search(&self, hash: u64, key: &E::Key) -> Option<Place>
        requires { hash ≡ hash_in H.hash_of self.now key.now }
        ensures place { MatchOption result (position (λ e. E.Key.eq key.now (E.key_of e)) (entries self.now) ≡ None)
            (IsFoundAtSpot (λ e. E.Key.eq key.now (E.key_of e)) self.now) }
        ensures routed { IsRouted (λ e. hash_in H.hash_of self.now (E.key_of e))
            self.now }
        ensures unique { IsUniqueBy E.Key.eq E.key_of self.now }
    {
        let count = self.buckets.len();
        if count == 0 {
            return None;
        }
        let bucket = self.router.bucket(hash, count);
        match self.buckets.search(bucket, key, tag(hash)) {
            Some(slot) => Some(Place { bucket, slot }),
            None => None,
        }
    }

    /// Returns what says where a key belongs.
    #[inline(always)]
    pub fn router(&self) -> &Router<H>
        ensures { result.now ≡ route_of self.now }
    {
        &self.router
    }

    /// Returns the array, to read.
    #[inline(always)]
    pub(crate) fn array(&self) -> &Array<E>
        ensures all { entries self.now ≡ flat_map shelf_entries result.now }
        ensures few { (i : ℕ) → i < length result.now → length (shelf_entries (shelf_of result.now i)) < 2 ^ 63 }
    {
        &self.buckets
    }
}
