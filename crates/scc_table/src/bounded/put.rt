//! Puts of entries at the end of a list of at most 32, and moves to its end. None of these calls allocates.
ghost use Rattle.scc_buckets.specs.Bounded.{IsListed, IsBounded};
ghost use Rattle.scc_buckets.specs.Insertions.{IsNewIn};
ghost use Rattle.scc_common.specs.Contents.{entries, bucket_count, hash_in, settings_of, waiting_of, IsUniqueBy, list_of};
ghost use Rattle.scc_common.specs.Routing.{bucket_number};
ghost use Rattle.scc_table.specs.Puts.{PutsWithin, MovesToEnd, PutsAtEnd};
ghost use Rattle.scc_table.specs.Relocates.{left_after};
ghost use Rattle.scc_table.specs.TwoArrays.{IsRelocated, IsWaiting, pending_targets, waits_at};
ghost use Rattle.std.specs.List.{filter};
ghost use Rattle.std.specs.Prelude.{◌≡◌, ◌==◌, ◌<◌, ◌≤◌, false, drop, not, length, Some, slice_get};

use crate::Table;
use scc_common::{Hashes, Keyed};

impl<E: Keyed, H: Hashes<E::Key>> Table<E, H>
where
    E::Key: Eq,
{
    /// Puts `entry`, whose key is new, at the end of the list of `bucket`, and returns its slot. If the list holds 32
    /// entries, first takes its first entry out, and returns that entry too. Relocates two waiting buckets in all:
    /// `bucket` before the put, if it waits, and the first waiting buckets after it. `bucket` must be the bucket of
    /// `hash`. Allocates nothing.
    #[inline(always)]
    pub fn put_within(&mut self, bucket: usize, hash: u64, entry: E) -> (Option<E>, usize)
        requires new { IsNewIn E.Key.eq E.key_of (hash_in H.hash_of self.old) self.old
            bucket hash (E.key_of entry) }
        requires listed { IsListed (λ e. hash_in H.hash_of self.old
            (E.key_of e)) self.old }
        ensures { PutsWithin E.Key.eq E.key_of (hash_in H.hash_of) self.old
            bucket entry (left_after bucket (pending_targets self.old)) 2 result self.new }
    {
        if self.is_waiting(bucket) {
            return self.put_after_relocation(bucket, hash, entry);
        }
        self.put_then_relocate(bucket, hash, entry, 2)
    }

    /// As `put_within`, if `bucket` waits.
    #[cold]
    fn put_after_relocation(&mut self, bucket: usize, hash: u64, entry: E) -> (Option<E>, usize)
        requires new { IsNewIn E.Key.eq E.key_of (hash_in H.hash_of self.old) self.old
            bucket hash (E.key_of entry) }
        requires waits { IsWaiting self.old bucket }
        requires listed { IsListed (λ e. hash_in H.hash_of self.old
            (E.key_of e)) self.old }
        ensures { PutsWithin E.Key.eq E.key_of (hash_in H.hash_of) self.old
            bucket entry (left_after bucket (pending_targets self.old)) 2 result self.new }
    {
        match self.relocate(bucket) {
            Ok(()) => self.put_then_relocate(bucket, hash, entry, 1),
            Err(_) => unreachable!(),
        }
    }

    /// As `put_within`, if `bucket` doesn't wait, and relocates the first `most` waiting buckets after the put.
    #[inline(always)]
    fn put_then_relocate(
        &mut self,
        bucket: usize,
        hash: u64,
        entry: E,
        most: usize,
    ) -> (Option<E>, usize)
        requires new { IsNewIn E.Key.eq E.key_of (hash_in H.hash_of self.old) self.old
            bucket hash (E.key_of entry) }
        requires not_waiting { waits_at (waiting_of self.old) bucket ≡ false }
        requires listed { IsListed (λ e. hash_in H.hash_of self.old
            (E.key_of e)) self.old }
        requires most { most ≤ 2 }
        ensures { PutsWithin E.Key.eq E.key_of (hash_in H.hash_of) self.old
            bucket entry (drop most (pending_targets self.old)) most result self.new }
    {
        let put = self.put_last(bucket, hash, entry);
        self.relocate_some(most);
        put
    }

    /// Puts `entry`, whose key is new, at the end of the list of `bucket`, which must not wait, and returns its slot. If
    /// the list holds 32 entries, first takes its first entry out, and returns that entry too. `bucket` must be the
    /// bucket of `hash`. Allocates nothing.
    #[inline(always)]
    pub(crate) fn put_last(&mut self, bucket: usize, hash: u64, entry: E) -> (Option<E>, usize)
        requires new { IsNewIn E.Key.eq E.key_of (hash_in H.hash_of self.old) self.old
            bucket hash (E.key_of entry) }
        requires not_waiting { IsWaiting self.old bucket → ⊥ }
        requires bounded { IsBounded self.old }
        ensures { PutsAtEnd E.Key.eq E.key_of (hash_in H.hash_of) self.old
            bucket entry result self.new }
    {
        self.current.put_last(bucket, hash, entry)
    }

    /// Moves the entry at `slot` to the end of the list of `bucket`, unless it is the last there. `hash` must be the
    /// hash of its key.
    #[inline(always)]
    pub fn touch(&mut self, bucket: usize, slot: usize, hash: u64)
        requires within { bucket < bucket_count self.old }
        requires not_waiting { IsWaiting self.old bucket → ⊥ }
        requires slot { slot < length (list_of self.old bucket) }
        requires routed { bucket ≡ bucket_number (settings_of self.old).skipped (bucket_count self.old) hash }
        requires bounded { IsBounded self.old }
        requires hashed { (e : E) → slice_get (list_of self.old bucket) slot ≡ Some e
            → hash ≡ hash_in H.hash_of self.old (E.key_of e) }
        ensures { MovesToEnd E.Key.eq E.key_of (hash_in H.hash_of) self.old
            bucket slot self.new }
    {
        self.current.touch(bucket, slot, hash);
    }
}
