//! Room that is made before an entry exists.
ghost use Rattle.scc_array.specs.Shelf.{shelf_entries, with_entry, with_overflow, next_slot, ShelfHasRoom};
ghost use Rattle.scc_array.specs.Shelves.{shelf_of};
ghost use Rattle.std.specs.Prelude.{◌≡◌, ◌≤◌, ◌<◌, ◌+◌, ◌^◌, length, slice_set, IfOk, IfErr, OnOk, OnErr};

use crate::Array;
use crate::lists::{make_lists, push_to, raise, reserve_in};
use scc_common::Made;
use std::alloc::{AllocError, Global};

impl<E> Array<E> {
    /// Returns the allocator of the array.
    #[inline(always)]
    pub fn allocator(&self) -> Global {
        self.alloc
    }

    /// Puts `entry` into the next slot of the bucket, or at the end of the overflow list. The bucket must have room for
    /// it.
    #[inline(always)]
    pub fn insert_in_room(&mut self, bucket: usize, entry: E, tag: u8)
        requires bucket { bucket < length self.old }
        requires room { ShelfHasRoom (shelf_of self.old bucket) }
        requires tag { 0 < tag }
        ensures value { self.new ≡ slice_set self.old bucket
            (record (with_entry (shelf_of self.old bucket) entry tag) { room = (shelf_of self.new bucket).room }) }
        ensures room { (shelf_of self.old bucket).room ≤ (shelf_of self.new bucket).room }
    {
        let count = self.columns.count(bucket);
        if count < 32 {
            self.columns.push_at(bucket, count, entry, tag);
        } else {
            self.push_in_room(bucket, entry);
        }
    }

    /// Puts `entry` at the end of the overflow list of the bucket, which must have room for it.
    #[cold]
    fn push_in_room(&mut self, bucket: usize, entry: E)
        requires bucket { bucket < length self.old }
        requires room { length (shelf_of self.old bucket).overflow < (shelf_of self.old bucket).room }
        ensures value { self.new ≡ slice_set self.old bucket
            (record (with_overflow (shelf_of self.old bucket) entry) { room = (shelf_of self.new bucket).room }) }
        ensures room { (shelf_of self.old bucket).room ≤ (shelf_of self.new bucket).room }
    {
        match push_to(&mut self.overflow, bucket, entry) {
            Ok(_place) => {}
            Err(_back) => unreachable!(),
        }
    }

    /// Reserves room for `additional` more entries in the overflow list of the bucket.
    pub fn reserve_overflow(&mut self, bucket: usize, additional: usize) -> Result<(), AllocError>
        requires { bucket < length self.old }
        ensures value { self.new ≡ slice_set self.old bucket
            (record (shelf_of self.old bucket) { room = (shelf_of self.new bucket).room }) }
        ensures more { (shelf_of self.old bucket).room ≤ (shelf_of self.new bucket).room }
        ensures room { OnOk result (length (shelf_of self.new bucket).overflow + additional
            ≤ (shelf_of self.new bucket).room) }
    {
        let count = self.columns.len();
        match raise(&mut self.crowded, self.alloc, count, bucket) {
            Ok(()) => {}
            Err(refused) => return Err(refused),
        }
        match make_lists(&mut self.overflow, self.alloc, count) {
            Ok(()) => {}
            Err(refused) => return Err(refused),
        }
        reserve_in(&mut self.overflow, bucket, additional)
    }

    /// Makes room for one more entry in the bucket: the overflow list grows, if all slots are in use and the list is
    /// full.
    #[inline(always)]
    pub fn make_room(&mut self, bucket: usize) -> Result<(), AllocError>
        requires { bucket < length self.old }
        ensures value { self.new ≡ slice_set self.old bucket
            (record (shelf_of self.old bucket) { room = (shelf_of self.new bucket).room }) }
        ensures room { OnOk result (ShelfHasRoom (shelf_of self.new bucket)) }
        ensures refused { OnErr result (32 ≤ length (shelf_of self.old bucket).slots) }
    {
        if self.columns.count(bucket) < 32 {
            return Ok(());
        }
        self.reserve_overflow(bucket, 1)
    }

    /// Returns the slot where the next entry of the bucket will stand.
    #[inline(always)]
    fn next_slot(&self, bucket: usize) -> usize
        requires bucket { bucket < length self.now }
        requires few { length (shelf_entries (shelf_of self.now bucket)) < 2 ^ 63 }
        ensures { result ≡ next_slot (shelf_of self.now bucket) }
    {
        let count = self.columns.count(bucket);
        if count < 32 {
            return count;
        }
        count + self.overflow_len(bucket)
    }
}

impl<E: Made> Array<E> {
    /// Makes an entry of `parts`, and puts it into the next slot of the bucket or at the end of the overflow list.
    /// Makes room in the list first. If memory is refused, `parts` are handed back, and the entries stay.
    #[inline(always)]
    pub fn insert_made(
        &mut self,
        bucket: usize,
        parts: E::Parts,
        tag: u8,
    ) -> Result<usize, E::Parts>
        requires bucket { bucket < length self.old }
        requires few { length (shelf_entries (shelf_of self.old bucket)) < 2 ^ 63 }
        requires tag { 0 < tag }
        ensures ok { IfOk result (λ p. (p ≡ next_slot (shelf_of self.old bucket))
            × (self.new ≡ slice_set self.old bucket
            (record (with_entry (shelf_of self.old bucket) (E.made_of parts) tag)
            { room = (shelf_of self.new bucket).room }))) }
        ensures err { IfErr result (λ x. (x ≡ parts)
            × (self.new ≡ slice_set self.old bucket
            (record (shelf_of self.old bucket) { room = (shelf_of self.new bucket).room }))) }
    {
        let count = self.columns.count(bucket);
        if count >= 32 {
            return self.insert_made_in_list(bucket, parts, tag);
        }
        match E::make(self.alloc, parts) {
            Ok(entry) => {
                self.columns.push_at(bucket, count, entry, tag);
                Ok(count)
            }
            Err(parts) => Err(parts),
        }
    }

    /// Does what `insert_made` does for any bucket, with a look at its room before the entry is made.
    #[cold]
    fn insert_made_in_list(
        &mut self,
        bucket: usize,
        parts: E::Parts,
        tag: u8,
    ) -> Result<usize, E::Parts>
        requires bucket { bucket < length self.old }
        requires few { length (shelf_entries (shelf_of self.old bucket)) < 2 ^ 63 }
        requires tag { 0 < tag }
        ensures ok { IfOk result (λ p. (p ≡ next_slot (shelf_of self.old bucket))
            × (self.new ≡ slice_set self.old bucket
            (record (with_entry (shelf_of self.old bucket) (E.made_of parts) tag)
            { room = (shelf_of self.new bucket).room }))) }
        ensures err { IfErr result (λ x. (x ≡ parts)
            × (self.new ≡ slice_set self.old bucket
            (record (shelf_of self.old bucket) { room = (shelf_of self.new bucket).room }))) }
    {
        match self.make_room(bucket) {
            Ok(()) => {}
            Err(_) => return Err(parts),
        }
        let slot = self.next_slot(bucket);
        match E::make(self.alloc, parts) {
            Ok(entry) => {
                self.insert_in_room(bucket, entry, tag);
                Ok(slot)
            }
            Err(parts) => Err(parts),
        }
    }
}
