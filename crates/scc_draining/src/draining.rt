//! `Draining`: the old array of a table, and the buckets that wait for its entries.
ghost use Rattle.scc_array.specs.Shelf.{shelf_entries, swapped_out, without_slot};
ghost use Rattle.scc_array.specs.Shelves.{shelf_of};
ghost use Rattle.scc_buckets.specs.Pour.{destined_for};
ghost use Rattle.scc_buckets.specs.Tables.{overflow_in};
ghost use Rattle.scc_common.specs.Routing.{bucket_number};
ghost use Rattle.scc_common.specs.Sizes.{IsBucketCount};
ghost use Rattle.scc_draining.specs.Drainings.{TakesFromOld};
ghost use Rattle.scc_draining.specs.Moves.{AreMultiples, AreOwn};
ghost use Rattle.scc_draining.specs.Waiting.{waits_at};
ghost use Rattle.std.specs.List.{find, flat_map, position};
ghost use Rattle.std.specs.Option.{option_copied};
ghost use Rattle.std.specs.Prelude.{◌≡◌, ◌<◌, ◌≤◌, ◌-◌, ◌^◌, length, slice_get, slice_set, MatchOption, None, Some};

use crate::relocate::{Relocation, sources};
use scc_array::Array;
use scc_buckets::place::tag;
use scc_buckets::{Place, Router};
use scc_common::{Hashes, Keyed};

/// The old array, and the flags of the buckets of the current array that wait for its entries. `pending` buckets wait,
/// none of them before `next`. The old array holds `left` entries, at most `left_overflow` of them in overflow lists.
#[derive(Drop)]
pub struct Draining<E> {
    pub array: Array<E>,
    pub waiting: Vec<bool>,
    pub next: usize,
    pub left: usize,
    pub left_overflow: usize,
    pub pending: usize,
}

impl<E> Draining<E> {
    /// Returns whether `bucket` waits.
    #[inline(always)]
    pub fn is_waiting(&self, bucket: usize) -> bool
        requires { bucket < length self.now.waiting.items }
        ensures { result ≡ waits_at self.now.waiting.items bucket }
    {
        self.waiting[bucket]
    }

    /// Removes the entry at `slot` of the old bucket `bucket`, and returns it. The later entries move up.
    #[inline(always)]
    pub fn remove_at(&mut self, bucket: usize, slot: usize) -> E
        requires bucket { bucket < length self.old.array }
        requires slot { slot < length (shelf_entries (shelf_of self.old.array bucket)) }
        requires left { length (shelf_entries (shelf_of self.old.array bucket)) ≤ self.old.left }
        ensures entry { slice_get (shelf_entries (shelf_of self.old.array bucket)) slot ≡ Some result }
        ensures others { self.new ≡ record self.old {
          left = self.old.left - 1;
          array = slice_set self.old.array bucket (without_slot (shelf_of self.old.array bucket) slot);
        } }
    {
        self.left -= 1;
        self.array.remove_at(bucket, slot)
    }

    /// As `remove_at`, but the last entry of the slots of the old bucket, or of its overflow list, takes the slot.
    #[inline(always)]
    pub fn swap_remove_at(&mut self, bucket: usize, slot: usize) -> E
        requires bucket { bucket < length self.old.array }
        requires slot { slot < length (shelf_entries (shelf_of self.old.array bucket)) }
        requires left { length (shelf_entries (shelf_of self.old.array bucket)) ≤ self.old.left }
        ensures entry { slice_get (shelf_entries (shelf_of self.old.array bucket)) slot ≡ Some result }
        ensures others { self.new ≡ record self.old {
          left = self.old.left - 1;
          array = slice_set self.old.array bucket (swapped_out (shelf_of self.old.array bucket) slot result);
        } }
    {
        self.left -= 1;
        self.array.swap_remove_at(bucket, slot)
    }
}

impl<E: Keyed> Draining<E>
where
    E::Key: Eq,
{
    /// Returns how many entries of the old array belong to the bucket `target` of `count`. Takes time proportional to
    /// the number of entries in the old buckets that hold them.
    pub fn destined_len<H: Hashes<E::Key>>(
        &self,
        router: &Router<H>,
        target: usize,
        count: usize,
    ) -> usize
        requires sized { IsBucketCount (length self.now.array) }
        requires target { target < count }
        requires multiples { AreMultiples (length self.now.array) count }
        requires own { AreOwn (λ e. H.hash_of router.now.hasher (E.key_of e))
            router.now.skipped self.now.array }
        requires few { overflow_in self.now.array < 2 ^ 62 }
        ensures { result ≡ length (destined_for (λ e. H.hash_of router.now.hasher (E.key_of e))
            router.now.skipped count target (flat_map shelf_entries self.now.array)) }
    {
        let (first, last) = sources(self.array.len(), count, target);
        let task = Relocation {
            target,
            count,
            first,
            last,
            whole: false,
        };
        task.count_all(router, &self.array)
    }

    /// Returns the place in the old array of the first entry whose key equals `key`, or `None`. Only the old bucket of
    /// `hash`, which must be the hash of `key`, is searched.
    #[inline(always)]
    pub fn search<H: Hashes<E::Key>>(
        &self,
        router: &Router<H>,
        hash: u64,
        key: &E::Key,
    ) -> Option<Place>
        requires some { 0 < length self.now.array }
        requires own { AreOwn (λ e. H.hash_of router.now.hasher (E.key_of e))
            router.now.skipped self.now.array }
        requires hashed { hash ≡ H.hash_of router.now.hasher key.now }
        ensures { MatchOption result (position (λ e. E.Key.eq key.now (E.key_of e)) (shelf_entries
            (shelf_of self.now.array (bucket_number router.now.skipped (length self.now.array) hash))) ≡ None)
            (λ p. (p.bucket ≡ bucket_number router.now.skipped (length self.now.array) hash)
            × (position (λ e. E.Key.eq key.now (E.key_of e)) (shelf_entries
            (shelf_of self.now.array (bucket_number router.now.skipped (length self.now.array) hash)))
            ≡ Some p.slot)) }
    {
        let bucket = router.bucket(hash, self.array.len());
        match self.array.search(bucket, key, tag(hash)) {
            Some(slot) => Some(Place { bucket, slot }),
            None => None,
        }
    }

    /// Returns the first entry of the old bucket of `hash` whose key equals `key`, or `None`. `hash` must be the hash
    /// of `key`.
    #[inline(always)]
    pub fn find<H: Hashes<E::Key>>(&self, router: &Router<H>, hash: u64, key: &E::Key) -> Option<&E>
        requires some { 0 < length self.now.array }
        requires own { AreOwn (λ e. H.hash_of router.now.hasher (E.key_of e))
            router.now.skipped self.now.array }
        requires hashed { hash ≡ H.hash_of router.now.hasher key.now }
        ensures { option_copied result ≡ find (λ e. E.Key.eq key.now (E.key_of e)) (shelf_entries
            (shelf_of self.now.array (bucket_number router.now.skipped (length self.now.array) hash))) }
    {
        let bucket = router.bucket(hash, self.array.len());
        self.array.find(bucket, key, tag(hash))
    }

    /// Takes the first entry whose key equals `key` out of the old bucket of `hash`, and returns it, or `None`. `hash`
    /// must be the hash of `key`. The last entry of the slots with a tag, or of the overflow list, takes its slot.
    #[inline(always)]
    pub fn take<H: Hashes<E::Key>>(
        &mut self,
        router: &Router<H>,
        hash: u64,
        key: &E::Key,
    ) -> Option<E>
        requires some { 0 < length self.old.array }
        requires own { AreOwn (λ e. H.hash_of router.now.hasher (E.key_of e))
            router.now.skipped self.old.array }
        requires hashed { hash ≡ H.hash_of router.now.hasher key.now }
        requires left { length (shelf_entries (shelf_of self.old.array
            (bucket_number router.now.skipped (length self.old.array) hash))) ≤ self.old.left }
        ensures { TakesFromOld (λ e. E.Key.eq key.now (E.key_of e))
            (bucket_number router.now.skipped (length self.old.array) hash) self.old result self.new }
    {
        let bucket = router.bucket(hash, self.array.len());
        match self.array.take_in_slots(bucket, key, tag(hash)) {
            Some(entry) => {
                self.left -= 1;
                Some(entry)
            }
            None => {
                if !self.array.may_overflow(bucket) {
                    return None;
                }
                match self.array.take_in_overflow(bucket, key) {
                    Some(entry) => {
                        self.left -= 1;
                        Some(entry)
                    }
                    None => None,
                }
            }
        }
    }
}
