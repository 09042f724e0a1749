//! Removals after which the array may shrink. The order of the other entries may change.
ghost use Rattle.scc_common.specs.Contents.{bucket_count, hash_in, owed_of, pending_of, settings_of, waiting_of, IsRouted, IsUniqueBy};
ghost use Rattle.scc_common.specs.Routing.{bucket_number};
ghost use Rattle.scc_table.specs.Places.{IsPlace};
ghost use Rattle.scc_table.specs.Removals.{RemovesAt, RemovesFirst, SwapTakesFirst};
ghost use Rattle.scc_table.specs.TwoArrays.{IsWaiting};
ghost use Rattle.std.specs.Prelude.{◌≡◌, ◌<◌, length, []};

use crate::Table;
use crate::lookup::search::NOWHERE;
use scc_buckets::Place;
use scc_common::{Hashes, Keyed};

impl<E: Keyed, H: Hashes<E::Key>> Table<E, H>
where
    E::Key: Eq,
{
    /// Takes the entry at `place` out, and returns it. The places of the other entries may change. The array may shrink
    /// if few entries are left; then every bucket of the new array waits. If no shrink is due, the waiting buckets
    /// stay.
    pub fn remove_at(&mut self, place: Place) -> E
        requires { IsPlace self.old place }
        ensures { RemovesAt E.Key.eq E.key_of self.old place result self.new }
    {
        let entry = self.swap_take_at(place);
        self.shrink();
        entry
    }

    /// Takes out the entry whose key equals `key`, as `remove_at` does, and returns it, or `None` if there is no such
    /// entry. `hash` must be the hash of `key`. If no bucket waits, the entry is looked for once.
    #[inline(always)]
    pub fn remove(&mut self, hash: u64, key: &E::Key) -> Option<E>
        requires { hash ≡ hash_in H.hash_of self.old key.now }
        ensures step { RemovesFirst E.Key.eq E.key_of (λ e. E.Key.eq key.now (E.key_of e)) self.old self.new result }
        ensures unique { IsUniqueBy E.Key.eq E.key_of self.old }
    {
        if self.draining.pending != 0 {
            return self.remove_from_both(hash, key);
        }
        match self.take_from_current(hash, key) {
            Some(entry) => {
                self.shrink();
                Some(entry)
            }
            None => None,
        }
    }

    /// Takes out the entry whose key equals `key`, without a resize, if no bucket waits.
    #[inline(always)]
    fn take_from_current(&mut self, hash: u64, key: &E::Key) -> Option<E>
        requires not_waiting { waiting_of self.old ≡ [] }
        requires hashed { hash ≡ hash_in H.hash_of self.old key.now }
        ensures { SwapTakesFirst E.Key.eq E.key_of (λ e. E.Key.eq key.now (E.key_of e)) self.old self.new result }
    {
        self.current.take_first(hash, key)
    }

    /// As `remove`, if some bucket waits.
    #[cold]
    fn remove_from_both(&mut self, hash: u64, key: &E::Key) -> Option<E>
        requires pending { 0 < pending_of self.old }
        requires hashed { hash ≡ hash_in H.hash_of self.old key.now }
        ensures { RemovesFirst E.Key.eq E.key_of (λ e. E.Key.eq key.now (E.key_of e)) self.old self.new result }
    {
        match self.take_from_both(hash, key) {
            Some(entry) => {
                self.shrink();
                Some(entry)
            }
            None => None,
        }
    }

    /// Takes out the entry whose key equals `key`, without a resize, if some bucket waits. Only the array that holds the
    /// entries of the key's bucket is searched.
    #[inline(always)]
    fn take_from_both(&mut self, hash: u64, key: &E::Key) -> Option<E>
        requires pending { 0 < pending_of self.old }
        requires hashed { hash ≡ hash_in H.hash_of self.old key.now }
        ensures { SwapTakesFirst E.Key.eq E.key_of (λ e. E.Key.eq key.now (E.key_of e)) self.old self.new result }
    {
        let bucket = self.bucket_at(hash);
        if !self.draining.is_waiting(bucket) {
            return self.current.take_first(hash, key);
        }
        if self.draining.array.len() <= self.current.bucket_count() {
            return self.take_at_place(hash, key);
        }
        self.take_from_old(hash, key)
    }

    /// As `take_from_both`: searches the place, and takes the entry there.
    #[inline(always)]
    fn take_at_place(&mut self, hash: u64, key: &E::Key) -> Option<E>
        requires pending { 0 < pending_of self.old }
        requires hashed { hash ≡ hash_in H.hash_of self.old key.now }
        ensures { SwapTakesFirst E.Key.eq E.key_of (λ e. E.Key.eq key.now (E.key_of e)) self.old self.new result }
    {
        let place = self.search_both(hash, key);
        if place.bucket >= NOWHERE {
            return None;
        }
        Some(self.swap_take_at(place))
    }

    /// As `take_from_both`, if the bucket of `hash` waits and the old array has more buckets than the current one: looks
    /// into the old bucket of `hash` once, and takes the entry there.
    #[inline(always)]
    fn take_from_old(&mut self, hash: u64, key: &E::Key) -> Option<E>
        requires waiting { IsWaiting self.old (bucket_number (settings_of self.old).skipped (bucket_count self.old)
            hash) }
        requires shrunk { bucket_count self.old < length (owed_of self.old) }
        requires routed { IsRouted (λ e. hash_in H.hash_of self.old (E.key_of
            e)) self.old }
        requires hashed { hash ≡ hash_in H.hash_of self.old key.now }
        ensures { SwapTakesFirst E.Key.eq E.key_of (λ e. E.Key.eq key.now (E.key_of e)) self.old self.new result }
    {
        self.draining.take(self.current.router(), hash, key)
    }
}
