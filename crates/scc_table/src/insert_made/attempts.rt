//! The insertion of an entry that is made of its parts, from the check for a growth down to the bucket.
ghost use Rattle.scc_buckets.specs.Insertions.{IsNewIn};
ghost use Rattle.scc_common.specs.Contents.{entries, bucket_count, hash_in, pending_of, waiting_of};
ghost use Rattle.scc_table.specs.Insertions.{InsertsAndRelocates, InsertsThenRelocates};
ghost use Rattle.scc_table.specs.MadeInsertions.{InsertsMade, InsertsMadeFirst, InsertsMadeFull, InsertsMadeNoted};
ghost use Rattle.scc_table.specs.Puts.{InsertsIn};
ghost use Rattle.scc_table.specs.TwoArrays.{IsWaiting, pending_targets, waits_at};
ghost use Rattle.std.specs.List.{position};
ghost use Rattle.std.specs.Prelude.{◌≡◌, ◌<◌, ◌≤◌, false, None};

use crate::Table;
use scc_buckets::Place;
use scc_buckets::sizes::MOST_BUCKETS;
use scc_common::{Hashes, Keyed, Made};
use scc_draining::{fresh_waiting, has_no_room};

impl<E: Keyed + Made, H: Hashes<E::Key>> Table<E, H>
where
    E::Key: Eq,
{
    /// Inserts an entry made of `parts`, whose key is new, and returns its place. The array grows as for `insert_new`.
    /// After the entry is made, the call can't fail. Fails if memory for the first array or to relocate the bucket of
    /// `hash` is refused, if the bucket is full and the overflow list can't grow, or if the entry can't be made; then
    /// `parts` are handed back, and each list stays.
    pub fn insert_made(&mut self, hash: u64, parts: E::Parts) -> Result<Place, E::Parts>
        requires hashed { hash ≡ hash_in H.hash_of self.old
            (E.key_of (E.made_of parts)) }
        requires absent { position (λ e. E.Key.eq (E.key_of (E.made_of parts)) (E.key_of e)) (entries self.old) ≡ None }
        ensures { InsertsMade E.Key.eq E.key_of (hash_in H.hash_of self.old)
            self.old hash (E.made_of parts) parts result self.new }
    {
        if self.bucket_count() == 0 {
            return self.insert_made_first(hash, parts);
        }
        let bucket = self.bucket_at(hash);
        if self.pending() > 0 {
            return self.insert_made_and_relocate(bucket, hash, parts);
        }
        if self.list_len(bucket) < 32 {
            return self.insert_made_and_relocate(bucket, hash, parts);
        }
        self.insert_made_full(bucket, hash, parts)
    }

    /// As `insert_made`, if there is no array: makes it, with the size of the minimum. None of its buckets waits.
    #[cold]
    fn insert_made_first(&mut self, hash: u64, parts: E::Parts) -> Result<Place, E::Parts>
        requires none { bucket_count self.old ≡ 0 }
        requires hashed { hash ≡ hash_in H.hash_of self.old
            (E.key_of (E.made_of parts)) }
        requires absent { position (λ e. E.Key.eq (E.key_of (E.made_of parts)) (E.key_of e)) (entries self.old) ≡ None }
        ensures { InsertsMadeFirst E.Key.eq E.key_of self.old (E.made_of parts) parts result self.new }
    {
        self.current.insert_made_first(hash, parts)
    }

    /// As `insert_made`, if no bucket waits and `bucket`, that of `hash`, holds 32 entries or more. If the table has at
    /// least half as many entries as slots, doubles the array, unless it is the greatest, memory is refused, or the
    /// growth is marked. Allocates the new array before it makes the entry. A growth that is due and isn't made is
    /// noted, also if the call fails.
    #[cold]
    fn insert_made_full(
        &mut self,
        bucket: usize,
        hash: u64,
        parts: E::Parts,
    ) -> Result<Place, E::Parts>
        requires new { IsNewIn E.Key.eq E.key_of (hash_in H.hash_of self.old) self.old
            bucket hash (E.key_of (E.made_of parts)) }
        requires pending { pending_of self.old ≡ 0 }
        ensures { InsertsMadeFull E.Key.eq E.key_of (hash_in H.hash_of self.old)
            self.old hash (E.made_of parts) parts result self.new }
    {
        let count = self.bucket_count();
        let length = self.len();
        if length < 16 * count || count >= MOST_BUCKETS {
            return self.insert_made_and_relocate(bucket, hash, parts);
        }
        if self.is_marked() {
            return self.insert_made_noted(bucket, hash, parts);
        }
        match fresh_waiting(self.current.allocator(), 2 * count) {
            Ok((fresh, flags)) => {
                if self.is_full_once_doubled(bucket, hash) {
                    return self.insert_made_and_double(bucket, fresh, flags, hash, parts);
                }
                self.insert_made_grown(2 * count, fresh, flags, hash, parts)
            }
            Err(_) => self.insert_made_noted(bucket, hash, parts),
        }
    }

    /// As `insert_made_and_relocate`, but first notes that memory for a growth was refused.
    fn insert_made_noted(
        &mut self,
        bucket: usize,
        hash: u64,
        parts: E::Parts,
    ) -> Result<Place, E::Parts>
        requires { IsNewIn E.Key.eq E.key_of (hash_in H.hash_of self.old) self.old
            bucket hash (E.key_of (E.made_of parts)) }
        ensures { InsertsMadeNoted E.Key.eq E.key_of self.old bucket (E.made_of parts) parts result
            self.new }
    {
        self.note(true);
        self.insert_made_and_relocate(bucket, hash, parts)
    }

    /// Inserts an entry made of `parts`, whose key is new, into `bucket`, and returns its place. `bucket` must be the
    /// bucket of `hash`. Relocates two waiting buckets in all: `bucket` before the insertion, if it waits, and the
    /// first waiting buckets after it. Fails if memory for `bucket` or for the entry is refused; then `parts` are
    /// handed back.
    fn insert_made_and_relocate(
        &mut self,
        bucket: usize,
        hash: u64,
        parts: E::Parts,
    ) -> Result<Place, E::Parts>
        requires { IsNewIn E.Key.eq E.key_of (hash_in H.hash_of self.old) self.old
            bucket hash (E.key_of (E.made_of parts)) }
        ensures { InsertsAndRelocates E.Key.eq E.key_of self.old bucket (E.made_of parts) parts (Unit {0}) result
            self.new }
    {
        if self.is_waiting(bucket) {
            return self.insert_made_after_relocation(bucket, hash, parts);
        }
        self.insert_made_then_relocate(bucket, hash, parts, 2)
    }

    /// As `insert_made_and_relocate`, if `bucket` waits.
    #[cold]
    fn insert_made_after_relocation(
        &mut self,
        bucket: usize,
        hash: u64,
        parts: E::Parts,
    ) -> Result<Place, E::Parts>
        requires new { IsNewIn E.Key.eq E.key_of (hash_in H.hash_of self.old) self.old
            bucket hash (E.key_of (E.made_of parts)) }
        requires waits { IsWaiting self.old bucket }
        ensures { InsertsAndRelocates E.Key.eq E.key_of self.old bucket (E.made_of parts) parts (Unit {0}) result
            self.new }
    {
        match self.relocate(bucket) {
            Ok(()) => self.insert_made_then_relocate(bucket, hash, parts, 1),
            Err(_) => Err(parts),
        }
    }

    /// As `insert_made_and_relocate`, if `bucket` doesn't wait, and relocates the first `most` waiting buckets, at most
    /// two, after the insertion.
    #[inline(always)]
    fn insert_made_then_relocate(
        &mut self,
        bucket: usize,
        hash: u64,
        parts: E::Parts,
        most: usize,
    ) -> Result<Place, E::Parts>
        requires new { IsNewIn E.Key.eq E.key_of (hash_in H.hash_of self.old) self.old
            bucket hash (E.key_of (E.made_of parts)) }
        requires not_waiting { waits_at (waiting_of self.old) bucket ≡ false }
        requires most { most ≤ 2 }
        ensures { InsertsThenRelocates E.Key.eq E.key_of self.old bucket (E.made_of parts) parts
            (pending_targets self.old) most most (Unit {0}) result self.new }
    {
        match self.insert_made_in(bucket, hash, parts) {
            Ok(place) => {
                self.relocate_some(most);
                Ok(place)
            }
            Err(back) => Err(back),
        }
    }

    /// Inserts an entry made of `parts`, whose key is new, into `bucket`, and returns its place. `bucket` must be the
    /// bucket of `hash`, and not wait. Fails if the bucket is full and the overflow list can't grow, or if the entry
    /// can't be made; then `parts` are handed back.
    #[inline(always)]
    pub(crate) fn insert_made_in(
        &mut self,
        bucket: usize,
        hash: u64,
        parts: E::Parts,
    ) -> Result<Place, E::Parts>
        requires new { IsNewIn E.Key.eq E.key_of (hash_in H.hash_of self.old) self.old
            bucket hash (E.key_of (E.made_of parts)) }
        requires not_waiting { waits_at (waiting_of self.old) bucket ≡ false }
        ensures { InsertsIn E.Key.eq E.key_of self.old bucket (E.made_of parts) parts (Unit {0}) result
            self.new }
    {
        if self.draining.left_overflow > 0 {
            let listed = self.current.list_len(bucket);
            let spilled = self.current.overflow_len();
            if has_no_room(listed, spilled, self.draining.left_overflow) {
                return Err(parts);
            }
        }
        self.current.insert_made_in(bucket, hash, parts)
    }
}
