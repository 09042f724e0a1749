//! Insertions into buckets: of an entry, and of an entry that the insertion makes of its parts.
ghost use Rattle.scc_buckets.specs.Bounded.{IsBounded, IsListed};
ghost use Rattle.scc_buckets.specs.Insertions.{InsertsInBucket, InsertsMadeInBucket, InsertsMadeInFirstArray, InsertsWithRoom, IsNewIn};
ghost use Rattle.scc_common.specs.Contents.{entries, bucket_count, list_of, hash_in};
ghost use Rattle.std.specs.List.{position};
ghost use Rattle.std.specs.Prelude.{◌≡◌, ◌<◌, ◌+◌, ◌^◌, length, None, IsTrue};

use crate::Buckets;
use crate::place::{Place, tag};
use scc_common::{Hashes, Keyed, Made};

/// Returns 1 if `holds`, or else 0.
#[inline(always)]
pub(crate) fn one_if(holds: bool) -> usize
    ensures yes { IsTrue holds → result ≡ 1 }
    ensures no { (IsTrue holds → ⊥) → result ≡ 0 }
{
    if holds { 1 } else { 0 }
}

/// Returns how many more entries the overflow lists of all buckets may hold, if they hold `overflowing`. They hold
/// fewer than 2^62.
#[inline(always)]
pub fn overflow_room(overflowing: usize) -> usize
    requires { overflowing < 2 ^ 62 }
    ensures { overflowing + result + 1 ≡ 2 ^ 62 }
{
    (1 << 62) - 1 - overflowing
}

impl<E: Keyed, H: Hashes<E::Key>> Buckets<E, H>
where
    E::Key: Eq,
{
    /// Inserts `entry`, whose key is new, into a free slot of `bucket`, and returns its place. `bucket` must be the
    /// bucket of `hash`, and hold fewer than 32 entries. Allocates nothing.
    #[inline(always)]
    pub fn insert_with_room(&mut self, bucket: usize, hash: u64, entry: E) -> Place
        requires new { IsNewIn E.Key.eq E.key_of (hash_in H.hash_of self.old) self.old
            bucket hash (E.key_of entry) }
        requires short { length (list_of self.old bucket) < 32 }
        ensures inserts { InsertsWithRoom E.Key.eq E.key_of self.old bucket entry result self.new }
        ensures listed { IsBounded self.new → IsListed
            (λ e. hash_in H.hash_of self.new (E.key_of e)) self.new }
    {
        let slot = self.buckets.insert_reserved(bucket, entry, tag(hash));
        self.length += 1;
        Place { bucket, slot }
    }

    /// Inserts `entry`, whose key is new, into `bucket`, and returns its place. `bucket` must be the bucket of `hash`.
    /// Fails if the bucket is full and the overflow list can't grow; then `entry` is handed back.
    #[inline(always)]
    pub fn insert_in(&mut self, bucket: usize, hash: u64, entry: E) -> Result<Place, E>
        requires { IsNewIn E.Key.eq E.key_of (hash_in H.hash_of self.old) self.old
            bucket hash (E.key_of entry) }
        ensures { InsertsInBucket E.Key.eq E.key_of (hash_in H.hash_of self.old)
            self.old bucket entry result self.new }
    {
        if self.buckets.is_full(bucket) && overflow_room(self.overflowing) == 0 {
            return Err(entry);
        }
        match self.buckets.insert(bucket, entry, tag(hash)) {
            Ok(slot) => {
                self.length += 1;
                self.overflowing += one_if(slot >= 32);
                Ok(Place { bucket, slot })
            }
            Err(back) => Err(back),
        }
    }
}

impl<E: Keyed + Made, H: Hashes<E::Key>> Buckets<E, H>
where
    E::Key: Eq,
{
    /// Makes the first array, with the size of the minimum, and inserts an entry made of `parts`, whose key is new.
    /// Returns its place. Fails if memory for the array is refused or the entry can't be made; then `parts` are handed
    /// back, and nothing changes.
    #[cold]
    pub fn insert_made_first(&mut self, hash: u64, parts: E::Parts) -> Result<Place, E::Parts>
        requires none { bucket_count self.old ≡ 0 }
        requires hashed { hash ≡ hash_in H.hash_of self.old
            (E.key_of (E.made_of parts)) }
        requires absent { position (λ e. E.Key.eq (E.key_of (E.made_of parts)) (E.key_of e)) (entries self.old) ≡ None }
        ensures { InsertsMadeInFirstArray E.Key.eq E.key_of self.old (E.made_of parts) parts result self.new }
    {
        match self.install_first() {
            Ok(()) => {}
            Err(_) => return Err(parts),
        }
        let bucket = self.bucket_at(hash);
        match self.insert_made_in(bucket, hash, parts) {
            Ok(place) => Ok(place),
            Err(back) => {
                self.drop_array();
                Err(back)
            }
        }
    }

    /// Inserts an entry made of `parts`, whose key is new, into `bucket`, and returns its place. `bucket` must be the
    /// bucket of `hash`. Fails if the bucket is full and the overflow list can't grow, or if the entry can't be made;
    /// then `parts` are handed back.
    #[inline(always)]
    pub fn insert_made_in(
        &mut self,
        bucket: usize,
        hash: u64,
        parts: E::Parts,
    ) -> Result<Place, E::Parts>
        requires { IsNewIn E.Key.eq E.key_of (hash_in H.hash_of self.old) self.old
            bucket hash (E.key_of (E.made_of parts)) }
        ensures { InsertsMadeInBucket E.Key.eq E.key_of self.old bucket (E.made_of parts) parts result self.new }
    {
        if self.buckets.is_full(bucket) && overflow_room(self.overflowing) == 0 {
            return Err(parts);
        }
        match self.buckets.insert_made(bucket, parts, tag(hash)) {
            Ok(slot) => {
                self.length += 1;
                self.overflowing += one_if(slot >= 32);
                Ok(Place { bucket, slot })
            }
            Err(back) => Err(back),
        }
    }
}
