//! `Array`: the buckets of a hash container, in two columns of 32 tags and 32 cells a bucket, with an overflow list for
//! each bucket.
#![tactic(auto)]

ghost use Rattle.scc_array.specs.Shelf.{shelf_entries, empty_shelf, with_slot, with_overflow, with_entry, next_slot, HasTag};
ghost use Rattle.scc_array.specs.Shelves.{shelf_of};
ghost use Rattle.std.specs.List.{position};
ghost use Rattle.std.specs.Prelude.{◌≡◌, [], ◌+◌, ◌^◌, ◌≤◌, ◌<◌, ◌↔◌, length, replicate, slice_set, IfOk, IfErr, OnErr, IsFalse, IsTrue, slice_get, Some, None};

pub mod columns;
mod lists;
mod lookup;
mod remove;
mod room;
mod sifting;
pub mod tags;
mod write;

use crate::lists::{flag_of, make_lists, push_to, raise};
pub use columns::Columns;
use scc_common::Keyed;
use std::alloc::{AllocError, Global};
use std::marker::Model;

/// Buckets, each with 32 slots with a tag each, and an overflow list. The entries of a bucket are those of its slots,
/// and then those of its overflow list.
pub struct Array<E> {
    columns: Columns<E>,
    overflow: Vec<Vec<E>>,
    /// One flag for each 16 buckets in a row, which says whether they may have entries in overflow lists. While the
    /// flag of a bucket is down, its overflow list isn't read.
    crowded: Vec<bool>,
    alloc: Global,
}

impl<E> Model for Array<E> {
    ghost use Rattle.std.specs.Prelude.{List};
    ghost use Rattle.std.specs.Coded.{coded_list};
    ghost use Rattle.scc_array.specs.Shelves.{shelves, HasListEach, IsFlagged};
    ghost use Rattle.scc_array.specs.Shelf.{Shelf, shelf_code};

    ghost Value = { List (Shelf E) };

    ghost coded = { coded_list (shelf_code E.code) };

    ghost view = { λ a. shelves a.columns a.overflow.items };

    ghost invariant = { λ a. HasListEach a.columns a.overflow.items × IsFlagged a.columns a.overflow.items
        a.crowded.items };
}

impl<E> Array<E> {
    /// Returns an array without buckets. Allocates nothing.
    pub fn none(alloc: Global) -> Array<E>
        ensures { result ≡ [] }
    {
        Array {
            columns: Columns::none(alloc),
            overflow: Vec::new(alloc),
            crowded: Vec::new(alloc),
            alloc,
        }
    }

    /// Allocates an array of `count` empty buckets.
    pub fn with_buckets(alloc: Global, count: usize) -> Result<Array<E>, AllocError>
        requires { count ≤ 2 ^ 58 }
        ensures { IfOk result (λ a. a ≡ replicate count empty_shelf) }
    {
        let columns = Columns::with_buckets(alloc, count)?;
        Ok(Array {
            columns,
            overflow: Vec::new(alloc),
            crowded: Vec::new(alloc),
            alloc,
        })
    }

    /// Returns the number of buckets.
    #[inline(always)]
    pub fn len(&self) -> usize
        ensures count { result ≡ length self.now }
        ensures most { result ≤ 2 ^ 58 }
    {
        self.columns.len()
    }

    /// Returns whether all 32 slots of the bucket are in use.
    #[inline(always)]
    pub fn is_full(&self, bucket: usize) -> bool
        requires { bucket < length self.now }
        ensures { IsTrue result ↔ (32 ≤ length (shelf_of self.now bucket).slots) }
    {
        self.columns.count(bucket) >= 32
    }

    /// Returns whether the entry at `slot` stands in the overflow list.
    #[inline(always)]
    pub fn is_overflow(&self, bucket: usize, slot: usize) -> bool
        requires bucket { bucket < length self.now }
        requires slot { slot < length (shelf_entries (shelf_of self.now bucket)) }
        ensures { IsTrue result ↔ (length (shelf_of self.now bucket).slots ≤ slot) }
    {
        slot >= self.slots_before_overflow(bucket, slot)
    }

    /// Returns the number of slots of the bucket in use, if the entry at `slot` stands in the overflow list; otherwise,
    /// a number greater than `slot`. Reads no tag while the array has no overflow lists.
    #[inline(always)]
    pub(crate) fn slots_before_overflow(&self, bucket: usize, slot: usize) -> usize
        requires bucket { bucket < length self.now }
        requires slot { slot < length (shelf_entries (shelf_of self.now bucket)) }
        ensures within { slot < result → slot < length (shelf_of self.now bucket).slots }
        ensures past { result ≤ slot → result ≡ length (shelf_of self.now bucket).slots }
    {
        // `slot < 32` is compared first: a search that compared tags has shown it already.
        if slot < 32 && self.overflow.len() == 0 {
            return 32;
        }
        self.columns.slots_before_overflow(bucket, slot)
    }

    /// Returns whether the bucket may have entries in its overflow list.
    #[inline(always)]
    pub fn may_overflow(&self, bucket: usize) -> bool
        requires { bucket < length self.now }
        ensures { IsFalse result → (shelf_of self.now bucket).overflow ≡ [] }
    {
        let flag = flag_of(bucket);
        flag < self.crowded.len() && self.crowded[flag]
    }

    /// Returns the number of entries in the overflow list of the bucket.
    #[inline(always)]
    pub fn overflow_len(&self, bucket: usize) -> usize
        requires { bucket < length self.now }
        ensures { result ≡ length (shelf_of self.now bucket).overflow }
    {
        if !self.may_overflow(bucket) {
            return 0;
        }
        if self.overflow.len() == 0 {
            return 0;
        }
        self.overflow[bucket].len()
    }

    /// Returns the number of entries of the bucket.
    #[inline(always)]
    pub fn bucket_len(&self, bucket: usize) -> usize
        requires bucket { bucket < length self.now }
        requires few { length (shelf_entries (shelf_of self.now bucket)) < 2 ^ 63 }
        ensures { result ≡ length (shelf_entries (shelf_of self.now bucket)) }
    {
        self.columns.count(bucket) + self.overflow_len(bucket)
    }

    /// Puts `entry` into the next slot of the bucket, which must be free, and returns the slot.
    #[inline(always)]
    pub fn insert_reserved(&mut self, bucket: usize, entry: E, tag: u8) -> usize
        requires bucket { bucket < length self.old }
        requires room { length (shelf_of self.old bucket).slots < 32 }
        requires tag { 0 < tag }
        ensures value { self.new ≡ slice_set self.old bucket (with_slot (shelf_of self.old bucket) entry tag) }
        ensures slot { result ≡ length (shelf_of self.old bucket).slots }
    {
        self.columns.push(bucket, entry, tag)
    }

    /// Puts `entry` into the next slot of the bucket, or at the end of the overflow list if all slots are in use. Fails
    /// only if all slots are in use and the overflow list can't grow; then `entry` is handed back, and the entries
    /// stay.
    #[inline(always)]
    pub fn insert(&mut self, bucket: usize, entry: E, tag: u8) -> Result<usize, E>
        requires bucket { bucket < length self.old }
        requires few { length (shelf_entries (shelf_of self.old bucket)) < 2 ^ 63 }
        requires tag { 0 < tag }
        ensures ok { IfOk result (λ p. (p ≡ next_slot (shelf_of self.old bucket))
            × (self.new ≡ slice_set self.old bucket
            (record (with_entry (shelf_of self.old bucket) entry tag) { room = (shelf_of self.new bucket).room }))) }
        ensures err { IfErr result (λ e. (e ≡ entry)
            × (self.new ≡ slice_set self.old bucket
            (record (shelf_of self.old bucket) { room = (shelf_of self.new bucket).room }))
            × (32 ≤ length (shelf_of self.old bucket).slots)) }
        ensures refused { OnErr result ((shelf_of self.old bucket).room ≤ length (shelf_of self.old bucket).overflow) }
    {
        let count = self.columns.count(bucket);
        if count < 32 {
            self.columns.push_at(bucket, count, entry, tag);
            return Ok(count);
        }
        self.push_list(bucket, entry)
    }

    /// Puts `entry` at the end of the overflow list of the bucket.
    #[cold]
    pub(crate) fn push_list(&mut self, bucket: usize, entry: E) -> Result<usize, E>
        requires bucket { bucket < length self.old }
        ensures ok { IfOk result (λ p. (p ≡ 32 + length (shelf_of self.old bucket).overflow)
            × (self.new ≡ slice_set self.old bucket
            (record (with_overflow (shelf_of self.old bucket) entry) { room = (shelf_of self.new bucket).room }))) }
        ensures err { IfErr result (λ e. (e ≡ entry)
            × (self.new ≡ slice_set self.old bucket
            (record (shelf_of self.old bucket) { room = (shelf_of self.new bucket).room }))) }
        ensures refused { OnErr result ((shelf_of self.old bucket).room ≤ length (shelf_of self.old bucket).overflow) }
    {
        let count = self.columns.len();
        match raise(&mut self.crowded, self.alloc, count, bucket) {
            Ok(()) => {}
            Err(_) => return Err(entry),
        }
        match make_lists(&mut self.overflow, self.alloc, count) {
            Ok(()) => {}
            Err(_) => return Err(entry),
        }
        push_to(&mut self.overflow, bucket, entry)
    }

    /// Returns the entry at `slot`.
    #[inline(always)]
    pub fn entry_at(&self, bucket: usize, slot: usize) -> &E
        requires bucket { bucket < length self.now }
        requires slot { slot < length (shelf_entries (shelf_of self.now bucket)) }
        ensures { slice_get (shelf_entries (shelf_of self.now bucket)) slot ≡ Some result.now }
    {
        let count = self.slots_before_overflow(bucket, slot);
        if slot < count {
            return self.columns.entry_at(bucket, slot);
        }
        &self.overflow[bucket][slot - count]
    }
}

impl<E: Keyed> Array<E>
where
    E::Key: Eq,
{
    /// Returns the slot of the first entry of the bucket whose key equals `key`. In the slots with a tag, only entries
    /// whose tag is `tag` are compared; after them, all entries of the overflow list.
    #[inline(always)]
    pub fn search(&self, bucket: usize, key: &E::Key, tag: u8) -> Option<usize>
        requires bucket { bucket < length self.now }
        requires tag { 0 < tag }
        requires tagged { HasTag (λ e. E.Key.eq key.now (E.key_of e)) tag (shelf_of self.now bucket) }
        ensures { result ≡ position (λ e. E.Key.eq key.now (E.key_of e)) (shelf_entries (shelf_of self.now bucket)) }
    {
        match self.columns.search(bucket, key, tag) {
            Some(slot) => Some(slot),
            None => {
                if !self.may_overflow(bucket) {
                    return None;
                }
                self.search_list(bucket, key)
            }
        }
    }

    /// Searches the overflow list for `key`, as `search` does. No entry with a tag may have this key.
    pub(crate) fn search_list(&self, bucket: usize, key: &E::Key) -> Option<usize>
        requires bucket { bucket < length self.now }
        requires missed { position (λ e. E.Key.eq key.now (E.key_of e)) (shelf_of self.now bucket).slots ≡ None }
        ensures { result ≡ position (λ e. E.Key.eq key.now (E.key_of e)) (shelf_entries (shelf_of self.now bucket)) }
    {
        if self.overflow.len() == 0 {
            return None;
        }
        let count = self.columns.count(bucket);
        match find_in(self.overflow[bucket].as_slice(), key) {
            Some(i) => Some(count + i),
            None => None,
        }
    }
}

/// Returns the position of the first entry of `entries` whose key equals `key`.
fn find_in<E: Keyed>(entries: &[E], key: &E::Key) -> Option<usize>
where
    E::Key: Eq,
    ensures { result ≡ position (λ e. E.Key.eq key.now (E.key_of e)) entries.now }
{
    for (i, entry) in entries.iter().enumerate() {
        if *key == *entry.key() {
            return Some(i);
        }
    }
    None
}

impl<E: Drop> Drop for Array<E> {
    fn drop(self) {
        let Array {
            columns,
            overflow,
            crowded: _,
            alloc: _,
        } = self;
        drop(columns);
        drop(overflow);
    }
}
