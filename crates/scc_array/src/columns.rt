//! `Columns`: a row of 32 tags for each bucket, and 32 cells for its entries. The entries of a bucket fill its first
//! slots. The tag of a free slot is 0.
ghost use Rattle.scc_array.specs.Sifts.{all_raised, unflagged_of, picked_of, raised, window_with};
ghost use Rattle.scc_array.specs.Takes.{TakesFirstOf};
ghost use Rattle.scc_array.specs.Windows.{window_of, IsTagged, empty_window, pushed, popped_over, shifted_out, IsColumns};
ghost use Rattle.scc_slots.specs.CellWords.{IsDrained};
ghost use Rattle.std.specs.Borrow.{sem};
ghost use Rattle.std.specs.Int.{bit_at};
ghost use Rattle.std.specs.List.{position};
ghost use Rattle.std.specs.Prelude.{◌<◌, length, ◌≡◌, ◌^◌, ◌≤◌, ◌+◌, ℕ, Some, replicate, slice_set, IfOk, slice_get, slice_index, []};

mod lookup;

use crate::sifting::{close_gap, pour, sift};
use crate::tags::{lowest_bit, tag_mask, without_lowest_bit};
use scc_common::Keyed;
use scc_slots::Cells;
use std::alloc::{AllocError, Global};
use std::marker::Model;

impl<E: Keyed> Columns<E>
where
    E::Key: Eq,
{
    /// Takes out the first entry of the bucket whose key equals `key`, and returns it. The last entry of the bucket
    /// moves into the free slot. Only entries whose tag is `tag` are compared, in the order of their slots.
    #[inline(always)]
    pub(crate) fn take_first(&mut self, bucket: usize, key: &E::Key, tag: u8) -> Option<E>
        requires bucket { bucket < length self.old }
        requires tag { 0 < tag }
        requires tagged { IsTagged (λ e. E.Key.eq key.now (E.key_of e)) tag (window_of self.old bucket) }
        ensures { TakesFirstOf (λ e. E.Key.eq key.now (E.key_of e)) self.old bucket self.new result }
    {
        match self.search(bucket, key, tag) {
            Some(slot) => Some(self.swap_remove(bucket, slot)),
            None => None,
        }
    }

    /// Returns the slot of the first entry of the bucket whose key equals `key`. Only entries whose tag is `tag` are
    /// compared, in the order of their slots.
    #[inline(always)]
    pub fn search(&self, bucket: usize, key: &E::Key, tag: u8) -> Option<usize>
        requires bucket { bucket < length self.now }
        requires tag { 0 < tag }
        requires tagged { IsTagged (λ e. E.Key.eq key.now (E.key_of e)) tag (window_of self.now bucket) }
        ensures { result ≡ position (λ e. E.Key.eq key.now (E.key_of e)) (window_of self.now bucket).slots }
    {
        let mut bits = self.hits(bucket, tag);
        'hits: while bits != 0 {
            let slot = lowest_bit(bits);
            if *key == *self.entry_at(bucket, slot).key() {
                return Some(slot);
            }
            bits = without_lowest_bit(bits);
        }
        None
    }
}

/// Buckets of 32 slots. A contract sees the entries of each bucket and their tags.
pub struct Columns<E> {
    tags: Vec<[u8; 32]>,
    slots: Cells<E>,
}

impl<E> Model for Columns<E> {
    ghost use Rattle.std.specs.Prelude.{List};
    ghost use Rattle.std.specs.Coded.{coded_list};
    ghost use Rattle.scc_array.specs.Windows.{Window, window_code, windows, IsColumns};

    ghost Value = { List (Window E) };

    ghost coded = { coded_list (window_code E.code) };

    ghost view = { λ c. windows c.tags.items c.slots };

    ghost invariant = { λ c. IsColumns c.tags.items c.slots };
}

impl<E> Columns<E> {
    /// Returns columns without buckets. Allocates nothing.
    pub fn none(alloc: Global) -> Columns<E>
        ensures { result ≡ [] }
    {
        Columns {
            tags: Vec::new(alloc),
            slots: Cells::none(alloc),
        }
    }

    /// Allocates columns of `count` empty buckets.
    pub fn with_buckets(alloc: Global, count: usize) -> Result<Columns<E>, AllocError>
        requires { count ≤ 2 ^ 58 }
        ensures { IfOk result (λ c. c ≡ replicate count empty_window) }
    {
        let slots = Cells::with_cells(alloc, 32 * count)?;
        match vec![in alloc; [0u8; 32]; count] {
            Ok(tags) => Ok(Columns { tags, slots }),
            Err(e) => {
                slots.destroy_empty();
                Err(e)
            }
        }
    }

    /// Returns the number of buckets.
    #[inline(always)]
    pub fn len(&self) -> usize
        ensures count { result ≡ length self.now }
        ensures most { result ≤ 2 ^ 58 }
    {
        self.tags.len()
    }

    /// Returns the number of entries of the bucket.
    #[inline(always)]
    pub fn count(&self, bucket: usize) -> usize
        requires { bucket < length self.now }
        ensures count { result ≡ length (window_of self.now bucket).slots }
        ensures most { result ≤ 32 }
    {
        let free = tag_mask(&self.tags[bucket], 0);
        if free == 0 { 32 } else { lowest_bit(free) }
    }

    /// Returns the number of entries of the bucket, if no entry stands at `slot`; otherwise, a number greater than
    /// `slot`. Reads the tag of `slot` first.
    #[inline(always)]
    pub(crate) fn slots_before_overflow(&self, bucket: usize, slot: usize) -> usize
        requires { bucket < length self.now }
        ensures within { slot < result → slot < length (window_of self.now bucket).slots }
        ensures past { result ≤ slot → result ≡ length (window_of self.now bucket).slots }
    {
        if slot < 32 && self.tags[bucket][slot] != 0 {
            return 32;
        }
        self.count(bucket)
    }

    /// Returns the entry at `slot`.
    #[inline(always)]
    pub fn entry_at(&self, bucket: usize, slot: usize) -> &E
        requires bucket { bucket < length self.now }
        requires slot { slot < length (window_of self.now bucket).slots }
        ensures { slice_get (window_of self.now bucket).slots slot ≡ Some result.now }
    {
        self.slots.get(32 * bucket + slot)
    }

    /// Returns a mask of the slots whose tag is `tag`, one bit a slot.
    #[inline(always)]
    fn hits(&self, bucket: usize, tag: u8) -> u32
        requires bucket { bucket < length self.now }
        requires tag { 0 < tag }
        ensures all { (j : ℕ) → j < length (window_of self.now bucket).slots
            → slice_index (window_of self.now bucket).tags j ≡ tag → bit_at result j ≡ 1 }
        ensures only { (j : ℕ) → bit_at result j ≡ 1 → j < length (window_of self.now bucket).slots }
    {
        tag_mask(&self.tags[bucket], tag)
    }

    /// Puts `entry` into the next slot of the bucket, which must be free, and returns the slot.
    #[inline(always)]
    pub fn push(&mut self, bucket: usize, entry: E, tag: u8) -> usize
        requires bucket { bucket < length self.old }
        requires room { length (window_of self.old bucket).slots < 32 }
        requires tag { 0 < tag }
        ensures value { self.new ≡ slice_set self.old bucket (pushed (window_of self.old bucket) entry tag) }
        ensures slot { result ≡ length (window_of self.old bucket).slots }
    {
        let slot = self.count(bucket);
        self.push_at(bucket, slot, entry, tag);
        slot
    }

    /// Puts `entry` into `slot`, which must be the next slot of the bucket and free.
    #[inline(always)]
    pub(crate) fn push_at(&mut self, bucket: usize, slot: usize, entry: E, tag: u8)
        requires bucket { bucket < length self.old }
        requires slot { slot ≡ length (window_of self.old bucket).slots }
        requires room { slot < 32 }
        requires tag { 0 < tag }
        ensures { self.new ≡ slice_set self.old bucket (pushed (window_of self.old bucket) entry tag) }
    {
        let row = &mut self.tags[bucket];
        row[slot] = tag;
        self.slots.put(32 * bucket + slot, entry);
    }

    /// Moves the entries of `bucket` whose flag is 1 to the end of the bucket `target` of `into`. Both those entries
    /// and the others keep their order.
    #[inline(always)]
    pub fn split(&mut self, bucket: usize, flags: &[u8; 32], into: &mut Columns<E>, target: usize)
        requires bucket { bucket < length self.old }
        requires target { target < length into.old }
        requires room { length (window_of into.old target).slots + length (window_of self.old bucket).slots ≤ 32 }
        ensures stays { self.new ≡ slice_set self.old bucket (unflagged_of (raised flags.now) (window_of self.old bucket)) }
        ensures moved { into.new ≡ slice_set into.old target
            (window_with (window_of into.old target) (picked_of (raised flags.now) (window_of self.old bucket))) }
    {
        let first = into.count(target);
        let row = &mut self.tags[bucket];
        let base = 32 * bucket;
        sift(&mut self.slots, row, base, flags, into, target, first);
    }

    /// Moves all entries of `bucket` to the end of the bucket `target` of `into`, in order.
    #[inline(always)]
    pub fn pour(&mut self, bucket: usize, into: &mut Columns<E>, target: usize)
        requires bucket { bucket < length self.old }
        requires target { target < length into.old }
        requires room { length (window_of into.old target).slots + length (window_of self.old bucket).slots ≤ 32 }
        ensures stays { self.new ≡ slice_set self.old bucket (unflagged_of all_raised (window_of self.old bucket)) }
        ensures moved { into.new ≡ slice_set into.old target
            (window_with (window_of into.old target) (picked_of all_raised (window_of self.old bucket))) }
    {
        let entry_count = self.count(bucket);
        let first = into.count(target);
        let base = 32 * bucket;
        pour(
            &mut self.slots,
            &mut self.tags[bucket],
            base,
            entry_count,
            into,
            target,
            first,
        );
    }

    ghost use Rattle.scc_array.specs.LendsColumns.{lends_cell};

    /// Takes the entry at `slot` out, and returns it. The last entry of the bucket moves into the free slot.
    #[inline(always)]
    pub fn swap_remove(&mut self, bucket: usize, slot: usize) -> E
        requires bucket { bucket < length self.old }
        requires slot { slot < length (window_of self.old bucket).slots }
        ensures entry { slice_get (window_of self.old bucket).slots slot ≡ Some result }
        ensures others { self.new ≡ slice_set self.old bucket (popped_over (window_of self.old bucket) slot result) }
    {
        let last = self.count(bucket) - 1;
        let row = &mut self.tags[bucket];
        let tag = row[last];
        row[slot] = tag;
        row[last] = 0;
        let base = 32 * bucket;
        self.slots.take_over(base + slot, base + last)
    }

    /// Takes the entry at `slot` out, and returns it. The entries after it move up by one slot.
    pub fn remove(&mut self, bucket: usize, slot: usize) -> E
        requires bucket { bucket < length self.old }
        requires slot { slot < length (window_of self.old bucket).slots }
        ensures entry { slice_get (window_of self.old bucket).slots slot ≡ Some result }
        ensures others { self.new ≡ slice_set self.old bucket (shifted_out (window_of self.old bucket) slot) }
    {
        let last = self.count(bucket) - 1;
        let base = 32 * bucket;
        let entry = self.slots.take(base + slot);
        close_gap(&mut self.slots, &mut self.tags[bucket], base, slot, last);
        entry
    }

    /// Returns the entry at `slot`, to write to.
    #[inline(always)]
    pub(crate) fn entry_mut(&mut self, bucket: usize, slot: usize) -> &mut E
        requires bucket { bucket < length self.old }
        requires slot { slot < length (window_of self.old bucket).slots }
        ensures* writes_back { sem 𝓛 (lends_cell E.row self.entry bucket slot result) }
        ensures entry { slice_get (window_of self.old bucket).slots slot ≡ Some result.now }
    {
        self.slots.get_mut(32 * bucket + slot)
    }

    /// Releases the columns. No bucket may hold an entry.
    pub fn destroy_empty(self)
        requires { (i : ℕ) → i < length self → (window_of self i).slots ≡ [] }
    {
        let Columns { tags: _, slots } = self;
        slots.destroy_empty();
    }
}

/// Drops the entry of each cell whose tag isn't 0.
fn drop_cells<E: Drop>(tags: &[[u8; 32]], slots: &mut Cells<E>)
    requires { IsColumns tags.now slots.old }
    ensures { IsDrained slots.new }
{
    for p in 0..slots.cells() {
        if tags[p / 32][p % 32] != 0 {
            drop(slots.take(p));
        }
    }
}

impl<E: Drop> Drop for Columns<E> {
    fn drop(self) {
        let Columns { tags, mut slots } = self;
        drop_cells(tags.as_slice(), &mut slots);
        slots.destroy_empty();
    }
}
