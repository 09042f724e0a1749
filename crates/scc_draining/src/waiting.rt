//! The buckets that wait for entries of the old array, from the beginning of a draining to its end.
ghost use Rattle.scc_array.specs.Shelf.{shelf_entries};
ghost use Rattle.scc_buckets.specs.Pour.{destined_for};
ghost use Rattle.scc_buckets.specs.Tables.{overflow_in};
ghost use Rattle.scc_common.specs.Contents.{bucket_count, hash_in, list_of, lists_of, overflow_of, settings_of};
ghost use Rattle.scc_common.specs.Sizes.{IsBucketCount};
ghost use Rattle.scc_draining.specs.Drainings.{draining_of, stopped, RelocatesFromOld};
ghost use Rattle.scc_draining.specs.Moves.{AreMultiples, AreOwn};
ghost use Rattle.scc_draining.specs.Waiting.{waits_at, IsFirst, IsLone, IsSecond};
ghost use Rattle.std.specs.List.{flat_map, IsDistinct};
ghost use Rattle.std.specs.Prelude.{◌≡◌, ◌+◌, ◌<◌, ◌≤◌, ◌^◌, ℕ, [], false, true, count_by, length, map, slice_set, IfNone, IfSome};

use crate::{Draining, move_target};
use scc_array::Array;
use scc_buckets::Buckets;
use scc_common::{Hashes, Keyed};
use std::alloc::{AllocError, Global};

impl<E> Draining<E> {
    /// Returns the number of the first waiting bucket.
    pub fn first_waiting(&self) -> usize
        requires some { 0 < count_by (λ w. w) self.now.waiting.items }
        requires below { (j : ℕ) → j < self.now.next → waits_at self.now.waiting.items j ≡ false }
        ensures { IsFirst self.now.waiting.items result }
    {
        for bucket in self.next..self.waiting.len() {
            if self.waiting[bucket] {
                return bucket;
            }
        }
        unreachable!()
    }

    /// Returns the number of the second waiting bucket, if there is one.
    pub fn second_waiting(&self) -> Option<usize>
        requires some { 0 < count_by (λ w. w) self.now.waiting.items }
        requires below { (j : ℕ) → j < self.now.next → waits_at self.now.waiting.items j ≡ false }
        ensures lone { IfNone result ((i : ℕ) × IsLone self.now.waiting.items i) }
        ensures second { IfSome result (λ j. (i : ℕ) × IsSecond self.now.waiting.items i j) }
    {
        let first = self.first_waiting();
        let end = self.waiting.len();
        for bucket in first + 1..end {
            if self.waiting[bucket] {
                return Some(bucket);
            }
        }
        None
    }

    /// Returns the number of the first waiting bucket. Later calls don't visit the buckets before it.
    pub fn advance(&mut self) -> usize
        requires some { 0 < count_by (λ w. w) self.old.waiting.items }
        requires below { (j : ℕ) → j < self.old.next → waits_at self.old.waiting.items j ≡ false }
        ensures first { IsFirst self.old.waiting.items result }
        ensures others { self.new ≡ record self.old { next = result } }
    {
        let first = self.first_waiting();
        self.next = first;
        first
    }

    /// Begins to drain `old`, which holds `left` entries, `left_overflow` of them in overflow lists. `pending` buckets
    /// wait, as `waiting` must say. The old array before must hold no entry.
    pub fn begin(
        &mut self,
        old: Array<E>,
        waiting: Vec<bool>,
        pending: usize,
        left: usize,
        left_overflow: usize,
    )
        requires { flat_map shelf_entries self.old.array ≡ [] }
        ensures { self.new ≡ record { array = old; waiting = waiting; pending = pending; next = 0; left = left; left_overflow = left_overflow } }
    {
        let bare = std::mem::replace(&mut self.array, old);
        bare.destroy_empty();
        self.waiting = waiting;
        self.pending = pending;
        self.next = 0;
        self.left = left;
        self.left_overflow = left_overflow;
    }

    /// Notes that `bucket` waits no longer, whose `moved` entries have left the old array. Releases the old array with
    /// the last waiting bucket.
    fn stop_waiting(&mut self, bucket: usize, moved: usize, alloc: Global)
        requires waits { waits_at self.old.waiting.items bucket ≡ true }
        requires counted { self.old.pending ≡ count_by (λ w. w) self.old.waiting.items }
        requires moved { moved ≤ self.old.left }
        requires bare { count_by (λ w. w) (slice_set self.old.waiting.items bucket false) ≡ 0
            → flat_map shelf_entries self.old.array ≡ [] }
        ensures { draining_of self.new ≡ stopped bucket moved (draining_of self.old) }
    {
        self.left -= moved;
        self.pending -= 1;
        self.waiting[bucket] = false;
        if self.pending == 0 {
            self.waiting.clear();
            let bare = std::mem::replace(&mut self.array, Array::none(alloc));
            bare.destroy_empty();
            self.left_overflow = 0;
        }
    }
}

impl<E: Keyed> Draining<E>
where
    E::Key: Eq,
{
    /// Moves the entries of the waiting bucket `bucket` of `current` into it, in their order. Fails if memory is refused,
    /// or if the overflow lists would hold too many entries; then nothing changes. Releases the old array with the last
    /// waiting bucket. The old array must hold no entry of a bucket that doesn't wait.
    pub fn relocate<H: Hashes<E::Key>>(
        &mut self,
        current: &mut Buckets<E, H>,
        bucket: usize,
    ) -> Result<(), AllocError>
        requires waits { waits_at self.old.waiting.items bucket ≡ true }
        requires flags { length self.old.waiting.items ≡ bucket_count current.old }
        requires counted { self.old.pending ≡ count_by (λ w. w) self.old.waiting.items }
        requires bare { list_of current.old bucket ≡ [] }
        requires sized { IsBucketCount (length self.old.array) }
        requires multiples { AreMultiples (length self.old.array) (bucket_count current.old) }
        requires own { AreOwn (λ e. hash_in H.hash_of current.old (E.key_of e))
            (settings_of current.old).skipped self.old.array }
        requires left { length (flat_map shelf_entries self.old.array) ≤ self.old.left }
        requires spilled { overflow_in self.old.array ≤ self.old.left_overflow }
        requires few { overflow_of current.old + self.old.left_overflow < 2 ^ 62 }
        requires not_waiting { (i : ℕ) → waits_at self.old.waiting.items i ≡ false
            → destined_for (λ e. hash_in H.hash_of current.old (E.key_of e))
            (settings_of current.old).skipped (bucket_count current.old) i (flat_map shelf_entries self.old.array) ≡ [] }
        requires unique { IsDistinct E.Key.eq (map E.key_of (flat_map (λ l. l) (slice_set (lists_of current.old) bucket
            (destined_for (λ e. hash_in H.hash_of current.old (E.key_of e))
            (settings_of current.old).skipped (bucket_count current.old) bucket
            (flat_map shelf_entries self.old.array))))) }
        ensures { RelocatesFromOld (λ e. hash_in H.hash_of current.old (E.key_of e)) bucket
            current.old self.old result current.new self.new }
    {
        match move_target(
            current,
            &mut self.array,
            bucket,
            self.left_overflow,
            self.waiting.as_slice(),
        ) {
            Ok(moved) => {
                self.stop_waiting(bucket, moved, current.allocator());
                Ok(())
            }
            Err(e) => Err(e),
        }
    }
}
