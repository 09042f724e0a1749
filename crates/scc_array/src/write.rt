//! Writes to the entries of an array.
ghost use Rattle.scc_array.specs.LendsArray.{lends_array_value};
ghost use Rattle.scc_array.specs.Shelf.{shelf_entries, HasTag};
ghost use Rattle.scc_array.specs.ShelfWrites.{shelf_write_at, put_whole};
ghost use Rattle.scc_array.specs.Shelves.{shelf_of};
ghost use Rattle.scc_array.specs.Updates.{WritesShelf};
ghost use Rattle.scc_common.specs.PairWalks.{CalledToWrite, TakesToWrite};
ghost use Rattle.std.specs.Borrow.{sem};
ghost use Rattle.std.specs.List.{find, position};
ghost use Rattle.std.specs.Prelude.{◌≡◌, ◌<◌, length, slice_get, true, IfSome, None, Some, slice_set};

use crate::Array;
use scc_common::{Lending, Valued, Writer};
use std::mem;

impl<E: Valued> Array<E>
where
    E::Key: Eq,
{
    /// Lets `w` write to the value of the first entry of the bucket whose key equals `key`, and returns what `w`
    /// returns. Returns `None` if there is no such entry. In the slots with a tag, only entries whose tag is `tag` are
    /// compared; after them, all entries of the overflow list. The entry is looked for once.
    #[inline(always)]
    pub fn write<W: Writer<E::Key, E::Value> + Drop>(
        &mut self,
        bucket: usize,
        key: &E::Key,
        tag: u8,
        w: W,
    ) -> Option<W::Out>
        requires bucket { bucket < length self.old }
        requires tag { 0 < tag }
        requires tagged { HasTag (λ e. E.Key.eq key.now (E.Keyed.key_of e)) tag (shelf_of self.old bucket) }
        requires takes { (e : E)
            → find (λ e. E.Key.eq key.now (E.Keyed.key_of e)) (shelf_entries (shelf_of self.old bucket)) ≡ Some e
            → E.allows (E.Keyed.key_of e) (E.value_of e) → W.takes w (E.Keyed.key_of e) (E.value_of e) }
        requires keeps { (e : E) (r : W.Out) (v : E.Value)
            → find (λ e. E.Key.eq key.now (E.Keyed.key_of e)) (shelf_entries (shelf_of self.old bucket)) ≡ Some e
            → E.allows (E.Keyed.key_of e) (E.value_of e)
            → W.gives w (E.Keyed.key_of e) (E.value_of e) r v → E.allows (E.Keyed.key_of e) v }
        ensures step { WritesShelf (λ e. W.gives w (E.Keyed.key_of e) (E.value_of e)) E.with_value
            (λ e. E.Key.eq key.now (E.Keyed.key_of e)) self.old bucket self.new result }
        ensures allowed { IfSome result (λ _. (e : E)
            × (find (λ e. E.Key.eq key.now (E.Keyed.key_of e)) (shelf_entries (shelf_of self.old bucket)) ≡ Some e)
            × E.allows (E.Keyed.key_of e) (E.value_of e)) }
    {
        match self.columns.search(bucket, key, tag) {
            Some(slot) => Some(self.write_in(bucket, slot, w)),
            None => {
                if !self.may_overflow(bucket) {
                    return None;
                }
                self.write_list(bucket, key, w)
            }
        }
    }

    /// As `write`, but searches the overflow list alone. No entry with a tag may have this key.
    #[cold]
    fn write_list<W: Writer<E::Key, E::Value> + Drop>(
        &mut self,
        bucket: usize,
        key: &E::Key,
        w: W,
    ) -> Option<W::Out>
        requires bucket { bucket < length self.old }
        requires missed { position (λ e. E.Key.eq key.now (E.Keyed.key_of e)) (shelf_of self.old bucket).slots ≡ None }
        requires takes { (e : E)
            → find (λ e. E.Key.eq key.now (E.Keyed.key_of e)) (shelf_entries (shelf_of self.old bucket)) ≡ Some e
            → E.allows (E.Keyed.key_of e) (E.value_of e) → W.takes w (E.Keyed.key_of e) (E.value_of e) }
        requires keeps { (e : E) (r : W.Out) (v : E.Value)
            → find (λ e. E.Key.eq key.now (E.Keyed.key_of e)) (shelf_entries (shelf_of self.old bucket)) ≡ Some e
            → E.allows (E.Keyed.key_of e) (E.value_of e)
            → W.gives w (E.Keyed.key_of e) (E.value_of e) r v → E.allows (E.Keyed.key_of e) v }
        ensures step { WritesShelf (λ e. W.gives w (E.Keyed.key_of e) (E.value_of e)) E.with_value
            (λ e. E.Key.eq key.now (E.Keyed.key_of e)) self.old bucket self.new result }
        ensures allowed { IfSome result (λ _. (e : E)
            × (find (λ e. E.Key.eq key.now (E.Keyed.key_of e)) (shelf_entries (shelf_of self.old bucket)) ≡ Some e)
            × E.allows (E.Keyed.key_of e) (E.value_of e)) }
    {
        match self.search_list(bucket, key) {
            Some(slot) => Some(self.write_at(bucket, slot, w)),
            None => None,
        }
    }
}

impl<E: Valued> Array<E> {
    /// Lets `w` write to the value of the entry at `slot`, which must have a tag.
    #[inline(always)]
    fn write_in<W: Writer<E::Key, E::Value>>(&mut self, bucket: usize, slot: usize, w: W) -> W::Out
        requires bucket { bucket < length self.old }
        requires slot { slot < length (shelf_of self.old bucket).slots }
        requires takes { (e : E) → slice_get (shelf_entries (shelf_of self.old bucket)) slot ≡ Some e
            → E.allows (E.Keyed.key_of e) (E.value_of e) → W.takes w (E.Keyed.key_of e) (E.value_of e) }
        requires keeps { (e : E) (r : W.Out) (v : E.Value)
            → slice_get (shelf_entries (shelf_of self.old bucket)) slot ≡ Some e
            → E.allows (E.Keyed.key_of e) (E.value_of e)
            → W.gives w (E.Keyed.key_of e) (E.value_of e) r v → E.allows (E.Keyed.key_of e) v }
        ensures { (e : E) × (v : E.Value) × (slice_get (shelf_entries (shelf_of self.old bucket)) slot ≡ Some e)
            × W.gives w (E.Keyed.key_of e) (E.value_of e) result v
            × (self.new ≡ slice_set self.old bucket (shelf_write_at E.with_value (shelf_of self.old bucket) slot v))
            × E.allows (E.Keyed.key_of e) (E.value_of e) }
    {
        let entry = self.columns.entry_mut(bucket, slot);
        entry.write(w)
    }

    /// Lets `w` write to the value of the entry at `slot`, and returns what `w` returns.
    #[inline(always)]
    pub fn write_at<W: Writer<E::Key, E::Value>>(
        &mut self,
        bucket: usize,
        slot: usize,
        w: W,
    ) -> W::Out
        requires bucket { bucket < length self.old }
        requires slot { slot < length (shelf_entries (shelf_of self.old bucket)) }
        requires takes { (e : E) → slice_get (shelf_entries (shelf_of self.old bucket)) slot ≡ Some e
            → E.allows (E.Keyed.key_of e) (E.value_of e) → W.takes w (E.Keyed.key_of e) (E.value_of e) }
        requires keeps { (e : E) (r : W.Out) (v : E.Value)
            → slice_get (shelf_entries (shelf_of self.old bucket)) slot ≡ Some e
            → E.allows (E.Keyed.key_of e) (E.value_of e)
            → W.gives w (E.Keyed.key_of e) (E.value_of e) r v → E.allows (E.Keyed.key_of e) v }
        ensures { (e : E) × (v : E.Value) × (slice_get (shelf_entries (shelf_of self.old bucket)) slot ≡ Some e)
            × W.gives w (E.Keyed.key_of e) (E.value_of e) result v
            × (self.new ≡ slice_set self.old bucket (shelf_write_at E.with_value (shelf_of self.old bucket) slot v))
            × E.allows (E.Keyed.key_of e) (E.value_of e) }
    {
        let entry = self.entry_mut_at(bucket, slot);
        entry.write(w)
    }

    /// Calls `f` with the key and the value of the entry at `slot`, and returns the result of `f`. `f` may write to the
    /// value.
    #[inline(always)]
    pub fn visit_at<R, F: FnMut(&E::Key, &mut E::Value) -> R>(
        &mut self,
        bucket: usize,
        slot: usize,
        f: &mut F,
    ) -> R
        requires bucket { bucket < length self.old }
        requires slot { slot < length (shelf_entries (shelf_of self.old bucket)) }
        requires takes { (e : E) → slice_get (shelf_entries (shelf_of self.old bucket)) slot ≡ Some e
            → E.allows (E.Keyed.key_of e) (E.value_of e)
            → TakesToWrite F.FnMut f.old (E.Keyed.key_of e, E.value_of e) }
        requires keeps { (e : E) (r : R) (v : E.Value) (f' : F)
            → slice_get (shelf_entries (shelf_of self.old bucket)) slot ≡ Some e
            → E.allows (E.Keyed.key_of e) (E.value_of e)
            → CalledToWrite F.FnMut f.old (E.Keyed.key_of e, E.value_of e) r v f' → E.allows (E.Keyed.key_of e) v }
        ensures { (e : E) × (v : E.Value) × (slice_get (shelf_entries (shelf_of self.old bucket)) slot ≡ Some e)
            × CalledToWrite F.FnMut f.old (E.Keyed.key_of e, E.value_of e) result v f.new
            × (self.new ≡ slice_set self.old bucket (shelf_write_at E.with_value (shelf_of self.old bucket) slot v))
            × E.allows (E.Keyed.key_of e) (E.value_of e) }
    {
        let entry = self.entry_mut_at(bucket, slot);
        entry.visit(f)
    }
}

impl<E: Lending> Array<E> {
    /// Returns the key of the entry at `slot`, and its value to write to.
    #[inline(always)]
    pub fn parts_mut_at(&mut self, bucket: usize, slot: usize) -> (&E::Key, &mut E::Value)
        requires bucket { bucket < length self.old }
        requires slot { slot < length (shelf_entries (shelf_of self.old bucket)) }
        ensures* writes_back { sem 𝓛 (lends_array_value E.row E.Value.row E.Valued.with_value self.entry bucket slot
            result.1) }
        ensures parts { (e : E) × (slice_get (shelf_entries (shelf_of self.old bucket)) slot ≡ Some e)
            × (result.0.now ≡ E.Keyed.key_of e) × (result.1.now ≡ E.Valued.value_of e) }
    {
        let entry = self.entry_mut_at(bucket, slot);
        entry.parts_mut()
    }
}

impl<E: Valued> Array<E> {
    /// Replaces the key of the entry at `slot` by `key`, and returns the old key.
    pub fn replace_key_at(&mut self, bucket: usize, slot: usize, key: E::Key) -> E::Key
        requires bucket { bucket < length self.old }
        requires slot { slot < length (shelf_entries (shelf_of self.old bucket)) }
        requires same { (e : E) → slice_get (shelf_entries (shelf_of self.old bucket)) slot ≡ Some e
            → E.Key.eq key (E.Keyed.key_of e) ≡ true }
        ensures old { (e : E) × (slice_get (shelf_entries (shelf_of self.old bucket)) slot ≡ Some e)
            × (result ≡ E.Keyed.key_of e) }
        ensures new { self.new ≡ slice_set self.old bucket
            (shelf_write_at E.with_key (shelf_of self.old bucket) slot key) }
    {
        let entry = self.entry_mut_at(bucket, slot);
        entry.replace_key(key)
    }
}

impl<E> Array<E> {
    /// Returns the entry at `slot`, to write to.
    #[inline(always)]
    fn entry_mut_at(&mut self, bucket: usize, slot: usize) -> &mut E
        requires bucket { bucket < length self.old }
        requires slot { slot < length (shelf_entries (shelf_of self.old bucket)) }
        ensures* writes_back { sem 𝓛 (lends_array_value E.row E.row put_whole self.entry bucket slot result) }
        ensures entry { slice_get (shelf_entries (shelf_of self.old bucket)) slot ≡ Some result.now }
    {
        let count = self.slots_before_overflow(bucket, slot);
        if slot < count {
            self.columns.entry_mut(bucket, slot)
        } else {
            let list = &mut self.overflow[bucket];
            &mut list[slot - count]
        }
    }

    /// Replaces the entry at `slot` by `entry`, and returns the old entry. The tag stays.
    pub fn replace_at(&mut self, bucket: usize, slot: usize, entry: E) -> E
        requires bucket { bucket < length self.old }
        requires slot { slot < length (shelf_entries (shelf_of self.old bucket)) }
        ensures old { slice_get (shelf_entries (shelf_of self.old bucket)) slot ≡ Some result }
        ensures new { self.new ≡ slice_set self.old bucket
            (shelf_write_at put_whole (shelf_of self.old bucket) slot entry) }
    {
        let there = self.entry_mut_at(bucket, slot);
        mem::replace(there, entry)
    }
}
