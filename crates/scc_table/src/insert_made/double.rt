//! The insertion of an entry that is made, into an array that doubles.
ghost use Rattle.scc_array.specs.Shelf.{empty_shelf};
ghost use Rattle.scc_buckets.specs.Pour.{destined_for};
ghost use Rattle.scc_buckets.specs.Insertions.{IsNewIn};
ghost use Rattle.scc_common.specs.Contents.{entries, bucket_count, hash_in, list_of, pending_of, settings_of, waiting_of};
ghost use Rattle.scc_common.specs.Routing.{bucket_number};
ghost use Rattle.scc_common.specs.Sizes.{IsBucketCount};
ghost use Rattle.scc_table.specs.Growths.{DoublesAround, InsertsGrown};
ghost use Rattle.scc_table.specs.MadeInsertions.{InsertsMadeCrowded, InsertsMadeGrown};
ghost use Rattle.scc_table.specs.TwoArrays.{waits_at};
ghost use Rattle.std.specs.List.{position};
ghost use Rattle.std.specs.Prelude.{◌≡◌, ◌<◌, ◌*◌, ◌^◌, false, true, None, Some, length, replicate, slice_get};

use crate::Table;
use scc_array::Array;
use scc_buckets::Place;
use scc_common::{Hashes, Keyed, Made};
use scc_draining::count_destined;

impl<E: Keyed, H: Hashes<E::Key>> Table<E, H>
where
    E::Key: Eq,
{
    /// Returns whether the bucket of `hash` would hold 32 entries or more after a doubling. `bucket` must be the bucket
    /// of `hash` in the current array, and not wait.
    pub(crate) fn is_full_once_doubled(&self, bucket: usize, hash: u64) -> bool
        requires within { bucket < bucket_count self.now }
        requires routed { bucket ≡ bucket_number (settings_of self.now).skipped (bucket_count self.now) hash }
        requires not_waiting { waits_at (waiting_of self.now) bucket ≡ false }
        requires below { 32 * bucket_count self.now < 2 ^ 63 }
        ensures { result ≡ false → length (destined_for
            (λ e. hash_in H.hash_of self.now (E.key_of e))
            (settings_of self.now).skipped (2 * bucket_count self.now)
            (bucket_number (settings_of self.now).skipped (2 * bucket_count self.now) hash) (entries self.now)) < 32 }
    {
        let count = 2 * self.bucket_count();
        let target = self.current.router().bucket(hash, count);
        let entry_count = self.list_len(bucket);
        count_destined(&self.current, bucket, entry_count, target, count) >= 32
    }

    /// Installs `fresh`, an array of twice as many buckets, and returns the new place of the entry at `place`, whose
    /// key must have the hash `hash`. Relocates the bucket of `hash` at once, and then the first waiting bucket; all
    /// others wait. If memory for the bucket of `hash` is refused, that is noted, the array stays, and the result is
    /// `place`.
    fn double_and_relocate(
        &mut self,
        place: Place,
        fresh: Array<E>,
        flags: Vec<bool>,
        hash: u64,
    ) -> Place
        requires within { place.bucket < bucket_count self.old }
        requires slot { place.slot < length (list_of self.old place.bucket) }
        requires hashed { (e : E) → slice_get (list_of self.old place.bucket) place.slot ≡ Some e
            → hash ≡ hash_in H.hash_of self.old (E.key_of e) }
        requires pending { pending_of self.old ≡ 0 }
        requires below { 32 * bucket_count self.old < 2 ^ 63 }
        requires empty { fresh ≡ replicate (2 * bucket_count self.old) empty_shelf }
        requires flags { flags.items ≡ replicate (2 * bucket_count self.old) true }
        ensures { DoublesAround E.Key.eq E.key_of (hash_in H.hash_of self.old)
            self.old place hash result self.new }
    {
        let count = 2 * self.bucket_count();
        let bucket = self.current.router().bucket(hash, count);
        let slot = count_destined(&self.current, place.bucket, place.slot, bucket, count);
        match self.install_relocating(count, fresh, flags, bucket) {
            Ok(()) => {
                self.note(false);
                self.relocate_some(1);
                Place { bucket, slot }
            }
            Err(_) => {
                self.note(true);
                place
            }
        }
    }

    /// Installs `fresh`, an array of `count` buckets, inserts `entry`, whose key is new, and returns its place.
    /// Relocates the bucket of `hash`, which gets fewer than 32 entries, before the insertion, and the first waiting
    /// bucket after it.
    fn insert_grown(
        &mut self,
        count: usize,
        fresh: Array<E>,
        flags: Vec<bool>,
        hash: u64,
        entry: E,
    ) -> Place
        requires pending { pending_of self.old ≡ 0 }
        requires array { IsBucketCount count }
        requires some { 0 < bucket_count self.old }
        requires more { bucket_count self.old < count }
        requires empty { fresh ≡ replicate count empty_shelf }
        requires flags { flags.items ≡ replicate count true }
        requires room { length (destined_for (λ e. hash_in H.hash_of self.old
            (E.key_of e)) (settings_of self.old).skipped count
            (bucket_number (settings_of self.old).skipped count hash) (entries self.old)) < 32 }
        requires hashed { hash ≡ hash_in H.hash_of self.old (E.key_of entry) }
        requires absent { position (λ e. E.Key.eq (E.key_of entry) (E.key_of e)) (entries self.old) ≡ None }
        ensures { InsertsGrown E.Key.eq E.key_of (hash_in H.hash_of self.old)
            self.old count hash entry result self.new }
    {
        self.install(count, fresh, flags);
        self.note(false);
        let bucket = self.bucket_at(hash);
        match self.insert_and_relocate(bucket, hash, entry) {
            Ok(place) => place,
            Err(_) => unreachable!(),
        }
    }
}

impl<E: Keyed + Made, H: Hashes<E::Key>> Table<E, H>
where
    E::Key: Eq,
{
    /// As `insert_grown`, with an entry made of `parts` before the installation. If the entry can't be made, `parts`
    /// are handed back, the growth is noted as refused, and nothing else changes.
    pub(crate) fn insert_made_grown(
        &mut self,
        count: usize,
        fresh: Array<E>,
        flags: Vec<bool>,
        hash: u64,
        parts: E::Parts,
    ) -> Result<Place, E::Parts>
        requires pending { pending_of self.old ≡ 0 }
        requires array { IsBucketCount count }
        requires some { 0 < bucket_count self.old }
        requires more { bucket_count self.old < count }
        requires empty { fresh ≡ replicate count empty_shelf }
        requires flags { flags.items ≡ replicate count true }
        requires room { length (destined_for (λ e. hash_in H.hash_of self.old
            (E.key_of e)) (settings_of self.old).skipped count
            (bucket_number (settings_of self.old).skipped count hash) (entries self.old)) < 32 }
        requires hashed { hash ≡ hash_in H.hash_of self.old
            (E.key_of (E.made_of parts)) }
        requires absent { position (λ e. E.Key.eq (E.key_of (E.made_of parts)) (E.key_of e)) (entries self.old) ≡ None }
        ensures { InsertsMadeGrown E.Key.eq E.key_of
            (hash_in H.hash_of self.old) self.old count hash
            (E.made_of parts) parts result self.new }
    {
        match E::make(self.current.allocator(), parts) {
            Ok(entry) => Ok(self.insert_grown(count, fresh, flags, hash, entry)),
            Err(back) => {
                fresh.destroy_empty();
                self.note(true);
                Err(back)
            }
        }
    }

    /// Inserts an entry made of `parts`, whose key is new, into `bucket`, and then doubles the array by
    /// `double_and_relocate`. Returns the place of the entry. `bucket` must be the bucket of `hash`. If the entry can't be
    /// inserted, `parts` are handed back, the growth is noted as refused, and nothing else changes.
    #[cold]
    pub(crate) fn insert_made_and_double(
        &mut self,
        bucket: usize,
        fresh: Array<E>,
        flags: Vec<bool>,
        hash: u64,
        parts: E::Parts,
    ) -> Result<Place, E::Parts>
        requires new { IsNewIn E.Key.eq E.key_of (hash_in H.hash_of self.old) self.old
            bucket hash (E.key_of (E.made_of parts)) }
        requires pending { pending_of self.old ≡ 0 }
        requires below { 32 * bucket_count self.old < 2 ^ 63 }
        requires empty { fresh ≡ replicate (2 * bucket_count self.old) empty_shelf }
        requires flags { flags.items ≡ replicate (2 * bucket_count self.old) true }
        ensures { InsertsMadeCrowded E.Key.eq E.key_of
            (hash_in H.hash_of self.old) self.old hash (E.made_of parts)
            parts result self.new }
    {
        match self.insert_made_in(bucket, hash, parts) {
            Ok(place) => Ok(self.double_and_relocate(place, fresh, flags, hash)),
            Err(back) => {
                fresh.destroy_empty();
                self.note(true);
                Err(back)
            }
        }
    }
}
