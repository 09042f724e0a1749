//! Writes to the entries of two arrays. No write changes a place, and none allocates.
ghost use Rattle.scc_array.specs.ShelfWrites.{put_whole};
ghost use Rattle.scc_common.specs.Closures.{TakesAt};
ghost use Rattle.scc_common.specs.Contents.{entries, hash_in, IsUniqueBy};
ghost use Rattle.scc_common.specs.PairWalks.{CalledToWrite, TakesToWrite};
ghost use Rattle.scc_common.specs.Updates.{WritesInto};
ghost use Rattle.scc_table.specs.LendsTable.{lends_value};
ghost use Rattle.scc_table.specs.Places.{IsPlace, index_of, with_write_at};
ghost use Rattle.scc_table.specs.Updates.{UpdatesFirst, WritesFirst};
ghost use Rattle.std.specs.Borrow.{sem};
ghost use Rattle.std.specs.List.{find};
ghost use Rattle.std.specs.Prelude.{◌≡◌, Some, IfSome, true, slice_get};

use crate::Table;
use crate::lookup::search::NOWHERE;
use scc_buckets::Place;
use scc_common::{Hashes, Keyed, Lending, OfPair, Valued, Writer};

impl<E: Keyed, H: Hashes<E::Key>> Table<E, H>
where
    E::Key: Eq,
{
    /// Replaces the entry at `place` by `entry`, and returns the old entry. The two keys must be equal.
    pub fn replace_at(&mut self, place: Place, entry: E) -> E
        requires within { IsPlace self.old place }
        requires same { (e : E) → slice_get (entries self.old) (index_of self.old place) ≡ Some e
            → E.Key.eq (E.key_of entry) (E.key_of e) ≡ true }
        ensures old { slice_get (entries self.old) (index_of self.old place) ≡ Some result }
        ensures new { self.new ≡ with_write_at put_whole self.old place entry }
        ensures unique { IsUniqueBy E.Key.eq E.key_of self.old }
    {
        let count = self.current.bucket_count();
        if place.bucket < count {
            return self.current.replace_at(place, entry);
        }
        self.draining
            .array
            .replace_at(place.bucket - count, place.slot, entry)
    }
}

impl<E: Valued, H: Hashes<E::Key>> Table<E, H>
where
    E::Key: Eq,
{
    /// Lets `w` write to the value of the entry at `place`, and returns what `w` returns.
    #[inline(always)]
    pub fn write_at<W: Writer<E::Key, E::Value>>(&mut self, place: Place, w: W) -> W::Out
        requires within { IsPlace self.old place }
        requires takes { (e : E) → slice_get (entries self.old) (index_of self.old place) ≡ Some e
            → E.allows (E.Keyed.key_of e) (E.value_of e) → W.takes w (E.Keyed.key_of e) (E.value_of e) }
        requires keeps { (e : E) (r : W.Out) (v : E.Value)
            → slice_get (entries self.old) (index_of self.old place) ≡ Some e
            → E.allows (E.Keyed.key_of e) (E.value_of e)
            → W.gives w (E.Keyed.key_of e) (E.value_of e) r v → E.allows (E.Keyed.key_of e) v }
        ensures step { (e : E) × (v : E.Value)
            × (slice_get (entries self.old) (index_of self.old place) ≡ Some e)
            × W.gives w (E.Keyed.key_of e) (E.value_of e) result v
            × (self.new ≡ with_write_at E.with_value self.old place v)
            × E.allows (E.Keyed.key_of e) (E.value_of e) }
        ensures unique { IsUniqueBy E.Key.eq E.Keyed.key_of self.old }
    {
        let count = self.current.bucket_count();
        if self.draining.pending == 0 || place.bucket < count {
            return self.current.write_at(place, w);
        }
        self.draining
            .array
            .write_at(place.bucket - count, place.slot, w)
    }

    /// Calls `f` with the key and the value of the entry at `place`, and returns the result of `f`. `f` may write to the
    /// value.
    #[inline(always)]
    pub fn visit_at<R, F: FnMut(&E::Key, &mut E::Value) -> R>(
        &mut self,
        place: Place,
        f: &mut F,
    ) -> R
        requires within { IsPlace self.old place }
        requires takes { (e : E) → slice_get (entries self.old) (index_of self.old place) ≡ Some e
            → E.allows (E.Keyed.key_of e) (E.value_of e)
            → TakesToWrite F.FnMut f.old (E.Keyed.key_of e, E.value_of e) }
        requires keeps { (e : E) (r : R) (v : E.Value) (f' : F)
            → slice_get (entries self.old) (index_of self.old place) ≡ Some e
            → E.allows (E.Keyed.key_of e) (E.value_of e)
            → CalledToWrite F.FnMut f.old (E.Keyed.key_of e, E.value_of e) r v f' → E.allows (E.Keyed.key_of e) v }
        ensures step { (e : E) × (v : E.Value)
            × (slice_get (entries self.old) (index_of self.old place) ≡ Some e)
            × CalledToWrite F.FnMut f.old (E.Keyed.key_of e, E.value_of e) result v f.new
            × (self.new ≡ with_write_at E.with_value self.old place v)
            × E.allows (E.Keyed.key_of e) (E.value_of e) }
        ensures unique { IsUniqueBy E.Key.eq E.Keyed.key_of self.old }
    {
        let count = self.current.bucket_count();
        if self.draining.pending == 0 || place.bucket < count {
            return self.current.visit_at(place, f);
        }
        self.draining
            .array
            .visit_at(place.bucket - count, place.slot, f)
    }

    /// Replaces the key of the entry at `place` by `key`, and returns the old key. The two keys must be equal.
    pub fn replace_key_at(&mut self, place: Place, key: E::Key) -> E::Key
        requires within { IsPlace self.old place }
        requires same { (e : E) → slice_get (entries self.old) (index_of self.old place) ≡ Some e
            → E.Key.eq key (E.Keyed.key_of e) ≡ true }
        ensures old { (e : E) × (slice_get (entries self.old) (index_of self.old place) ≡ Some e)
            × (result ≡ E.Keyed.key_of e) }
        ensures new { self.new ≡ with_write_at E.with_key self.old place key }
        ensures unique { IsUniqueBy E.Key.eq E.Keyed.key_of self.new }
    {
        let count = self.current.bucket_count();
        if place.bucket < count {
            return self.current.replace_key_at(place, key);
        }
        self.draining
            .array
            .replace_key_at(place.bucket - count, place.slot, key)
    }

    /// Lets `w` write to the value of the entry whose key equals `key`, and returns what `w` returns. Returns `None` if
    /// there is no such entry. `hash` must be the hash of `key`. If no bucket waits, the entry is looked for once.
    #[inline(always)]
    pub fn write<W: Writer<E::Key, E::Value> + Drop>(
        &mut self,
        hash: u64,
        key: &E::Key,
        w: W,
    ) -> Option<W::Out>
        requires hashed { hash ≡ hash_in H.hash_of self.old key.now }
        requires takes { (e : E) → find (λ e. E.Key.eq key.now (E.Keyed.key_of e)) (entries self.old) ≡ Some e
            → E.allows (E.Keyed.key_of e) (E.value_of e) → W.takes w (E.Keyed.key_of e) (E.value_of e) }
        requires keeps { (e : E) (r : W.Out) (v : E.Value)
            → find (λ e. E.Key.eq key.now (E.Keyed.key_of e)) (entries self.old) ≡ Some e
            → E.allows (E.Keyed.key_of e) (E.value_of e)
            → W.gives w (E.Keyed.key_of e) (E.value_of e) r v → E.allows (E.Keyed.key_of e) v }
        ensures step { WritesFirst (λ e. W.gives w (E.Keyed.key_of e) (E.value_of e)) E.with_value
            (λ e. E.Key.eq key.now (E.Keyed.key_of e)) self.old self.new result }
        ensures allowed { IfSome result (λ _. (e : E)
            × (find (λ e. E.Key.eq key.now (E.Keyed.key_of e)) (entries self.old) ≡ Some e)
            × E.allows (E.Keyed.key_of e) (E.value_of e)) }
        ensures unique { IsUniqueBy E.Key.eq E.Keyed.key_of self.old }
    {
        if self.draining.pending == 0 {
            return self.current.write(hash, key, w);
        }
        let place = self.search_both(hash, key);
        if place.bucket >= NOWHERE {
            return None;
        }
        Some(self.write_at(place, w))
    }

    /// Calls `u` with the key and the value of the entry whose key equals `key`, and returns the result of `u`. `u` may
    /// write to the value. Returns `None` if there is no such entry. `hash` must be the hash of `key`. If no bucket
    /// waits, the entry is looked for once.
    #[inline(always)]
    pub fn update<R, U: FnOnce(&E::Key, &mut E::Value) -> R>(
        &mut self,
        hash: u64,
        key: &E::Key,
        u: U,
    ) -> Option<R>
        requires hashed { hash ≡ hash_in H.hash_of self.old key.now }
        requires takes { (e : E) → find (λ e. E.Key.eq key.now (E.Keyed.key_of e)) (entries self.old) ≡ Some e
            → E.allows (E.Keyed.key_of e) (E.value_of e) → TakesAt U.FnOnce u (E.Keyed.key_of e, E.value_of e) }
        requires keeps { (e : E) (r : R) (w : E.Value)
            → find (λ e. E.Key.eq key.now (E.Keyed.key_of e)) (entries self.old) ≡ Some e
            → E.allows (E.Keyed.key_of e) (E.value_of e)
            → WritesInto U.FnOnce u E.Keyed.key_of E.value_of e r w → E.allows (E.Keyed.key_of e) w }
        ensures step { UpdatesFirst U.FnOnce u E.Keyed.key_of E.value_of E.with_value
            (λ e. E.Key.eq key.now (E.Keyed.key_of e)) self.old self.new result }
        ensures allowed { IfSome result (λ _. (e : E)
            × (find (λ e. E.Key.eq key.now (E.Keyed.key_of e)) (entries self.old) ≡ Some e)
            × E.allows (E.Keyed.key_of e) (E.value_of e)) }
        ensures unique { IsUniqueBy E.Key.eq E.Keyed.key_of self.old }
    {
        self.write(hash, key, OfPair { f: u })
    }
}

impl<E: Lending, H: Hashes<E::Key>> Table<E, H>
where
    E::Key: Eq,
{
    /// Returns the value of the entry at `place`, to write to.
    #[inline(always)]
    pub fn value_mut_at(&mut self, place: Place) -> &mut E::Value
        requires { IsPlace self.old place }
        ensures* writes_back { sem 𝓛 (lends_value E.row H.row E.Key.row E.Value.row E.Keyed E.Key.PartialEq H.Hashes
            E.with_value self.entry place result) }
        ensures value { (e : E) × (slice_get (entries self.old) (index_of self.old place) ≡ Some e)
            × (result.now ≡ E.value_of e) }
        ensures unique { IsUniqueBy E.Key.eq E.Keyed.key_of self.old }
    {
        self.parts_mut_at(place).1
    }

    /// Returns the key of the entry at `place`, and its value to write to.
    #[inline(always)]
    pub fn parts_mut_at(&mut self, place: Place) -> (&E::Key, &mut E::Value)
        requires { IsPlace self.old place }
        ensures* writes_back { sem 𝓛 (lends_value E.row H.row E.Key.row E.Value.row E.Keyed E.Key.PartialEq H.Hashes
            E.with_value self.entry place result.1) }
        ensures parts { (e : E) × (slice_get (entries self.old) (index_of self.old place) ≡ Some e)
            × (result.0.now ≡ E.Keyed.key_of e) × (result.1.now ≡ E.value_of e) }
        ensures unique { IsUniqueBy E.Key.eq E.Keyed.key_of self.old }
    {
        let count = self.current.bucket_count();
        if self.draining.pending == 0 || place.bucket < count {
            return self.current.parts_mut_at(place);
        }
        self.draining
            .array
            .parts_mut_at(place.bucket - count, place.slot)
    }
}
