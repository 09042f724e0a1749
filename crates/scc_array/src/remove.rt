//! Removals of entries, and the end of an array without entries.
ghost use Rattle.scc_array.specs.Shelf.{shelf_entries, without_slot, swapped_out, HasTag};
ghost use Rattle.scc_array.specs.Shelves.{shelf_of};
ghost use Rattle.scc_array.specs.Takes.{TakesInSlots, TakesInOverflow};
ghost use Rattle.std.specs.List.{position};
ghost use Rattle.std.specs.Prelude.{◌≡◌, [], ◌<◌, length, slice_set, slice_get, Some, None, ℕ};

use crate::Array;
use crate::columns::Columns;
use crate::lists::destroy_lists;
use scc_common::Keyed;

impl<E> Array<E> {
    /// Takes the entry at `slot` out, and returns it. The entries after it in the slots with a tag, or in the overflow
    /// list, move up by one.
    #[inline(always)]
    pub fn remove_at(&mut self, bucket: usize, slot: usize) -> E
        requires bucket { bucket < length self.old }
        requires slot { slot < length (shelf_entries (shelf_of self.old bucket)) }
        ensures entry { slice_get (shelf_entries (shelf_of self.old bucket)) slot ≡ Some result }
        ensures others { self.new ≡ slice_set self.old bucket (without_slot (shelf_of self.old bucket) slot) }
    {
        let count = self.slots_before_overflow(bucket, slot);
        if slot < count {
            return self.columns.remove(bucket, slot);
        }
        let list = &mut self.overflow[bucket];
        list.remove(slot - count)
    }

    /// Takes the entry at `slot` out, and returns it. The last entry of the slots with a tag, or of the overflow list,
    /// moves into its slot.
    #[inline(always)]
    pub fn swap_remove_at(&mut self, bucket: usize, slot: usize) -> E
        requires bucket { bucket < length self.old }
        requires slot { slot < length (shelf_entries (shelf_of self.old bucket)) }
        ensures entry { slice_get (shelf_entries (shelf_of self.old bucket)) slot ≡ Some result }
        ensures others { self.new ≡ slice_set self.old bucket (swapped_out (shelf_of self.old bucket) slot result) }
    {
        let count = self.slots_before_overflow(bucket, slot);
        if slot < count {
            return self.columns.swap_remove(bucket, slot);
        }
        let list = &mut self.overflow[bucket];
        list.swap_remove(slot - count)
    }

    /// Releases the array, which must hold no entry.
    pub fn destroy_empty(self)
        requires { (i : ℕ) → i < length self → shelf_entries (shelf_of self i) ≡ [] }
    {
        let Array {
            columns,
            overflow,
            crowded: _,
            alloc: _,
        } = self;
        columns.destroy_empty();
        destroy_lists(overflow);
    }
}

impl<E: Keyed> Array<E>
where
    E::Key: Eq,
{
    /// Takes out the first entry whose key equals `key` among the slots with a tag, and returns it. The last entry of
    /// these slots moves into the free slot. Only entries whose tag is `tag` are compared, in the order of their slots.
    #[inline(always)]
    pub fn take_in_slots(&mut self, bucket: usize, key: &E::Key, tag: u8) -> Option<E>
        requires bucket { bucket < length self.old }
        requires tag { 0 < tag }
        requires tagged { HasTag (λ e. E.Key.eq key.now (E.key_of e)) tag (shelf_of self.old bucket) }
        ensures { TakesInSlots (λ e. E.Key.eq key.now (E.key_of e)) self.old bucket self.new result }
    {
        self.columns.take_first(bucket, key, tag)
    }

    /// Takes out the first entry of the overflow list whose key equals `key`, and returns it. The last entry of the
    /// list moves into its slot. No entry with a tag may have this key.
    #[cold]
    pub fn take_in_overflow(&mut self, bucket: usize, key: &E::Key) -> Option<E>
        requires bucket { bucket < length self.old }
        requires missed { position (λ e. E.Key.eq key.now (E.key_of e)) (shelf_of self.old bucket).slots ≡ None }
        ensures { TakesInOverflow (λ e. E.Key.eq key.now (E.key_of e)) self.old bucket self.new result }
    {
        match self.search_list(bucket, key) {
            Some(slot) => Some(self.swap_remove_at(bucket, slot)),
            None => None,
        }
    }
}
