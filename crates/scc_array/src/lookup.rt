//! Searches that return the entry itself, searches by a hint, and reads for walks.
ghost use Rattle.scc_array.specs.Hints.{IsPassing, IsPassingAt};
ghost use Rattle.scc_array.specs.Shelf.{shelf_entries, HasTag};
ghost use Rattle.scc_array.specs.Shelves.{shelf_of};
ghost use Rattle.std.specs.List.{find, position};
ghost use Rattle.std.specs.Option.{option_copied};
ghost use Rattle.std.specs.Prelude.{◌≡◌, ◌<◌, length, MatchOption, None, ◌≤◌, Some, slice_get};

use crate::{Array, find_in};
use scc_common::Keyed;

impl<E: Keyed> Array<E>
where
    E::Key: Eq,
{
    /// Returns the first entry of the bucket whose key equals `key`. In the slots with a tag, only entries whose tag is
    /// `tag` are compared; after them, all entries of the overflow list.
    #[inline(always)]
    pub fn find(&self, bucket: usize, key: &E::Key, tag: u8) -> Option<&E>
        requires bucket { bucket < length self.now }
        requires tag { 0 < tag }
        requires tagged { HasTag (λ e. E.Key.eq key.now (E.key_of e)) tag (shelf_of self.now bucket) }
        ensures { option_copied result ≡ find (λ e. E.Key.eq key.now (E.key_of e))
            (shelf_entries (shelf_of self.now bucket)) }
    {
        match self.columns.find_entry(bucket, key, tag) {
            Some(entry) => Some(entry),
            None => {
                if !self.may_overflow(bucket) {
                    return None;
                }
                self.find_in_overflow(bucket, key)
            }
        }
    }

    /// Returns the first entry of the overflow list of the bucket whose key equals `key`.
    #[cold]
    pub(crate) fn find_in_overflow(&self, bucket: usize, key: &E::Key) -> Option<&E>
        requires { bucket < length self.now }
        ensures { option_copied result ≡ find (λ e. E.Key.eq key.now (E.key_of e)) (shelf_of self.now bucket).overflow }
    {
        if self.overflow.len() == 0 {
            return None;
        }
        let list = self.overflow[bucket].as_slice();
        match find_in(list, key) {
            Some(i) => Some(&list[i]),
            None => None,
        }
    }

    /// Returns an entry of the bucket whose key equals `key`. If the result is `None` and `tag` is the tag of `key`,
    /// the bucket has no such entry.
    #[inline(always)]
    pub fn find_hinted(&self, bucket: usize, key: &E::Key, tag: u8) -> Option<&E>
        requires bucket { bucket < length self.now }
        requires tag { 0 < tag }
        ensures { MatchOption result (HasTag (λ e. E.Key.eq key.now (E.key_of e)) tag (shelf_of self.now bucket)
            → find (λ e. E.Key.eq key.now (E.key_of e)) (shelf_entries (shelf_of self.now bucket)) ≡ None)
            (λ b. IsPassing (λ e. E.Key.eq key.now (E.key_of e)) (shelf_entries (shelf_of self.now bucket)) b.now) }
    {
        match self.columns.find_hinted(bucket, key, tag) {
            Some(entry) => Some(entry),
            None => {
                if !self.may_overflow(bucket) {
                    return None;
                }
                match self.find_in_overflow(bucket, key) {
                    Some(entry) => Some(entry),
                    None => None,
                }
            }
        }
    }

    /// Returns the slot of an entry of the bucket whose key equals `key`. If the result is `None` and `tag` is the tag of
    /// `key`, the bucket has no such entry.
    #[inline(always)]
    pub fn search_hinted(&self, bucket: usize, key: &E::Key, tag: u8) -> Option<usize>
        requires bucket { bucket < length self.now }
        requires tag { 0 < tag }
        ensures { MatchOption result (HasTag (λ e. E.Key.eq key.now (E.key_of e)) tag (shelf_of self.now bucket)
            → position (λ e. E.Key.eq key.now (E.key_of e)) (shelf_entries (shelf_of self.now bucket)) ≡ None)
            (IsPassingAt (λ e. E.Key.eq key.now (E.key_of e)) (shelf_entries (shelf_of self.now bucket))) }
    {
        match self.columns.search_hinted(bucket, key, tag) {
            Some(slot) => Some(slot),
            None => {
                if !self.may_overflow(bucket) {
                    return None;
                }
                match self.search_in_overflow(bucket, key) {
                    Some(slot) => Some(slot),
                    None => None,
                }
            }
        }
    }

    /// Returns the slot of the first entry of the overflow list whose key equals `key`, counted from the first slot of
    /// the bucket. Entries with a tag may have this key.
    #[cold]
    fn search_in_overflow(&self, bucket: usize, key: &E::Key) -> Option<usize>
        requires { bucket < length self.now }
        ensures { MatchOption result (position (λ e. E.Key.eq key.now (E.key_of e)) (shelf_of self.now bucket).overflow
            ≡ None) (IsPassingAt (λ e. E.Key.eq key.now (E.key_of e)) (shelf_entries (shelf_of self.now bucket))) }
    {
        if self.overflow.len() == 0 {
            return None;
        }
        let count = self.columns.count(bucket);
        match find_in(self.overflow[bucket].as_slice(), key) {
            Some(i) => Some(count + i),
            None => None,
        }
    }
}

impl<E> Array<E> {
    /// Returns how many of the 32 slots with a tag are in use.
    #[inline(always)]
    pub fn slot_count(&self, bucket: usize) -> usize
        requires { bucket < length self.now }
        ensures count { result ≡ length (shelf_of self.now bucket).slots }
        ensures most { result ≤ 32 }
    {
        self.columns.count(bucket)
    }

    /// Returns the entry at `slot`. `slots` must be the `slot_count` of the bucket, which a walk asks for once a
    /// bucket.
    #[inline(always)]
    pub fn entry_of(&self, bucket: usize, slot: usize, slots: usize) -> &E
        requires bucket { bucket < length self.now }
        requires slot { slot < length (shelf_entries (shelf_of self.now bucket)) }
        requires slots { slots ≡ length (shelf_of self.now bucket).slots }
        ensures { slice_get (shelf_entries (shelf_of self.now bucket)) slot ≡ Some result.now }
    {
        if slot < slots {
            return self.columns.entry_at(bucket, slot);
        }
        &self.overflow[bucket][slot - slots]
    }
}
