//! The insertion of an entry whose key is new, from the check for a growth down to the bucket.
ghost use Rattle.scc_buckets.specs.Insertions.{IsNewIn};
ghost use Rattle.scc_common.specs.Contents.{entries, hash_in, list_of, pending_of, waiting_of, HasRoomBy};
ghost use Rattle.scc_table.specs.Insertions.{InsertsAndRelocates, InsertsThenRelocates, InsertsNew};
ghost use Rattle.scc_table.specs.Puts.{InsertsIn};
ghost use Rattle.scc_table.specs.TwoArrays.{IsWaiting, pending_targets, waits_at};
ghost use Rattle.std.specs.List.{position};
ghost use Rattle.std.specs.Prelude.{◌≡◌, ◌<◌, ◌≤◌, ◌+◌, false, length, None, Ok};

use crate::Table;
use scc_buckets::Place;
use scc_buckets::sizes::GREATEST_CAPACITY;
use scc_common::{Hashes, Keyed};
use scc_draining::has_no_room;

impl<E: Keyed, H: Hashes<E::Key>> Table<E, H>
where
    E::Key: Eq,
{
    /// Inserts `entry`, whose key is new, and returns its place. Makes the first array if there is none. Doubles the
    /// array if no bucket waits, the bucket of `hash` holds 32 entries or more, and the table has at least half as many
    /// entries as slots; then every bucket of the new array waits. The array stays if memory for the doubling is
    /// refused. Relocates two waiting buckets in all: the bucket of `hash` before the insertion, if it waits, and the
    /// first waiting buckets after it. Fails if memory for the first array or to relocate the bucket of `hash` is
    /// refused, or if the bucket is full and the overflow list can't grow; then `entry` is handed back.
    #[inline(always)]
    pub fn insert_new(&mut self, hash: u64, entry: E) -> Result<Place, E>
        requires hashed { hash ≡ hash_in H.hash_of self.old (E.key_of entry) }
        requires absent { position (λ e. E.Key.eq (E.key_of entry) (E.key_of e)) (entries self.old) ≡ None }
        ensures { InsertsNew E.Key.eq E.key_of (hash_in H.hash_of self.old)
            self.old hash entry result self.new }
    {
        if self.draining.pending == 0 && self.bucket_count() > 0 {
            let bucket = self.bucket_at(hash);
            if self.list_len(bucket) < 32 {
                return Ok(self.insert_with_room(bucket, hash, entry));
            }
        }
        self.insert_after_growth(hash, entry)
    }

    /// As `insert_and_relocate`, if no bucket waits and `bucket` holds fewer than 32 entries. Allocates nothing.
    #[inline(always)]
    pub(crate) fn insert_with_room(&mut self, bucket: usize, hash: u64, entry: E) -> Place
        requires new { IsNewIn E.Key.eq E.key_of (hash_in H.hash_of self.old) self.old
            bucket hash (E.key_of entry) }
        requires none { pending_of self.old ≡ 0 }
        requires short { length (list_of self.old bucket) < 32 }
        ensures { InsertsAndRelocates E.Key.eq E.key_of self.old bucket entry entry ⊥ (Ok result) self.new }
    {
        self.current.insert_with_room(bucket, hash, entry)
    }

    /// As `insert_new`, after a check whether the array has to be made or to grow.
    pub(crate) fn insert_after_growth(&mut self, hash: u64, entry: E) -> Result<Place, E>
        requires hashed { hash ≡ hash_in H.hash_of self.old (E.key_of entry) }
        requires absent { position (λ e. E.Key.eq (E.key_of entry) (E.key_of e)) (entries self.old) ≡ None }
        ensures { InsertsNew E.Key.eq E.key_of (hash_in H.hash_of self.old)
            self.old hash entry result self.new }
    {
        match self.bucket_for_new(hash, GREATEST_CAPACITY) {
            Ok(bucket) => self.insert_and_relocate(bucket, hash, entry),
            Err(_) => Err(entry),
        }
    }

    /// Inserts `entry`, whose key is new, into `bucket`, and returns its place. `bucket` must be the bucket of `hash`.
    /// Relocates two waiting buckets in all: `bucket` before the insertion, if it waits, and the first waiting buckets
    /// after it. Fails if memory for `bucket` is refused; then `entry` is handed back.
    #[inline(always)]
    pub(crate) fn insert_and_relocate(
        &mut self,
        bucket: usize,
        hash: u64,
        entry: E,
    ) -> Result<Place, E>
        requires { IsNewIn E.Key.eq E.key_of (hash_in H.hash_of self.old) self.old
            bucket hash (E.key_of entry) }
        ensures { InsertsAndRelocates E.Key.eq E.key_of self.old bucket entry entry
            (HasRoomBy (hash_in H.hash_of self.old) E.key_of self.old
            (E.key_of entry) → ⊥) result self.new }
    {
        if self.is_waiting(bucket) {
            return self.insert_after_relocation(bucket, hash, entry);
        }
        self.insert_then_relocate(bucket, hash, entry, 2)
    }

    /// As `insert_and_relocate`, if `bucket` waits.
    #[cold]
    pub(crate) fn insert_after_relocation(
        &mut self,
        bucket: usize,
        hash: u64,
        entry: E,
    ) -> Result<Place, E>
        requires new { IsNewIn E.Key.eq E.key_of (hash_in H.hash_of self.old) self.old
            bucket hash (E.key_of entry) }
        requires waits { IsWaiting self.old bucket }
        ensures { InsertsAndRelocates E.Key.eq E.key_of self.old bucket entry entry
            (HasRoomBy (hash_in H.hash_of self.old) E.key_of self.old
            (E.key_of entry) → ⊥) result self.new }
    {
        match self.relocate(bucket) {
            Ok(()) => self.insert_then_relocate(bucket, hash, entry, 1),
            Err(_) => Err(entry),
        }
    }

    /// As `insert_and_relocate`, if `bucket` doesn't wait, and relocates the first `most` waiting buckets, at most two,
    /// after the insertion.
    #[inline(always)]
    pub(crate) fn insert_then_relocate(
        &mut self,
        bucket: usize,
        hash: u64,
        entry: E,
        most: usize,
    ) -> Result<Place, E>
        requires new { IsNewIn E.Key.eq E.key_of (hash_in H.hash_of self.old) self.old
            bucket hash (E.key_of entry) }
        requires not_waiting { waits_at (waiting_of self.old) bucket ≡ false }
        requires most { most ≤ 2 }
        ensures { InsertsThenRelocates E.Key.eq E.key_of self.old bucket entry entry (pending_targets self.old) most most
            (HasRoomBy (hash_in H.hash_of self.old) E.key_of self.old
            (E.key_of entry) → ⊥) result self.new }
    {
        match self.insert_in(bucket, hash, entry) {
            Ok(place) => {
                self.relocate_some(most);
                Ok(place)
            }
            Err(back) => Err(back),
        }
    }

    /// Inserts `entry`, whose key is new, into `bucket`, and returns its place. `bucket` must be the bucket of `hash`,
    /// and not wait. Fails if the bucket is full and the overflow list can't grow; then `entry` is handed back.
    #[inline(always)]
    pub(crate) fn insert_in(&mut self, bucket: usize, hash: u64, entry: E) -> Result<Place, E>
        requires new { IsNewIn E.Key.eq E.key_of (hash_in H.hash_of self.old) self.old
            bucket hash (E.key_of entry) }
        requires not_waiting { waits_at (waiting_of self.old) bucket ≡ false }
        ensures { InsertsIn E.Key.eq E.key_of self.old bucket entry entry
            (HasRoomBy (hash_in H.hash_of self.old) E.key_of self.old
            (E.key_of entry) → ⊥) result self.new }
    {
        if self.draining.left_overflow > 0 {
            let listed = self.current.list_len(bucket);
            let spilled = self.current.overflow_len();
            if has_no_room(listed, spilled, self.draining.left_overflow) {
                return Err(entry);
            }
        }
        self.current.insert_in(bucket, hash, entry)
    }
}
