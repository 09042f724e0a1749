//! The search for a key: its place, or the entry itself, also by a hint.
ghost use Rattle.scc_common.specs.Contents.{entries, hash_in, pending_of, IsRouted, IsUniqueBy};
ghost use Rattle.scc_table.specs.Places.{IsFoundAt};
ghost use Rattle.std.specs.List.{position, find};
ghost use Rattle.std.specs.Option.{option_copied};
ghost use Rattle.std.specs.Prelude.{◌≡◌, ◌<◌, ◌≤◌, ◌^◌, None, MatchOption};

use crate::Table;
use scc_buckets::Place;
use scc_common::{Hashes, Keyed};

/// A number that no bucket of an array has.
pub(crate) const NOWHERE: usize = 1 << 60;

impl<E: Keyed, H: Hashes<E::Key>> Table<E, H>
where
    E::Key: Eq,
{
    /// Returns the place of the entry whose key equals `key`, or `None`. `hash` must be the hash of `key`.
    #[inline(always)]
    pub fn search(&self, hash: u64, key: &E::Key) -> Option<Place>
        requires { hash ≡ hash_in H.hash_of self.now key.now }
        ensures place { MatchOption result (position (λ e. E.Key.eq key.now (E.key_of e)) (entries self.now) ≡ None)
            (IsFoundAt (λ e. E.Key.eq key.now (E.key_of e)) self.now) }
        ensures routed { IsRouted (λ e. hash_in H.hash_of self.now (E.key_of e))
            self.now }
        ensures unique { IsUniqueBy E.Key.eq E.key_of self.now }
    {
        if self.draining.pending == 0 {
            return self.current.search(hash, key);
        }
        let place = self.search_both(hash, key);
        if place.bucket < NOWHERE {
            Some(place)
        } else {
            None
        }
    }

    /// As `search`, if some bucket waits. If there is no such entry, the bucket of the result is `NOWHERE`. A `Place`
    /// is returned in two registers. An `Option<Place>` would go through the memory of the caller, also when no bucket
    /// waits.
    #[cold]
    pub(crate) fn search_both(&self, hash: u64, key: &E::Key) -> Place
        requires pending { 0 < pending_of self.now }
        requires hashed { hash ≡ hash_in H.hash_of self.now key.now }
        ensures found { result.bucket < 2 ^ 60 → IsFoundAt (λ e. E.Key.eq key.now (E.key_of e)) self.now result }
        ensures missed { 2 ^ 60 ≤ result.bucket → position (λ e. E.Key.eq key.now (E.key_of e)) (entries self.now)
            ≡ None }
        ensures routed { IsRouted (λ e. hash_in H.hash_of self.now (E.key_of e))
            self.now }
    {
        let nowhere = Place {
            bucket: NOWHERE,
            slot: 0,
        };
        let count = self.current.bucket_count();
        let bucket = self.current.bucket_at(hash);
        if self.draining.is_waiting(bucket) {
            return match self.draining.search(self.current.router(), hash, key) {
                Some(old) => Place {
                    bucket: count + old.bucket,
                    slot: old.slot,
                },
                None => nowhere,
            };
        }
        match self.current.search_place(hash, key) {
            Some(place) => place,
            None => nowhere,
        }
    }

    /// Returns the entry whose key equals `key`, or `None`. `hash` must be the hash of `key`.
    #[inline(always)]
    pub fn find(&self, hash: u64, key: &E::Key) -> Option<&E>
        requires { hash ≡ hash_in H.hash_of self.now key.now }
        ensures { option_copied result ≡ find (λ e. E.Key.eq key.now (E.key_of e)) (entries self.now) }
    {
        if self.draining.pending == 0 {
            return self.current.find(hash, key);
        }
        self.find_both(hash, key)
    }

    /// As `find`, if some bucket waits.
    #[cold]
    pub(crate) fn find_both(&self, hash: u64, key: &E::Key) -> Option<&E>
        requires pending { 0 < pending_of self.now }
        requires hashed { hash ≡ hash_in H.hash_of self.now key.now }
        ensures { option_copied result ≡ find (λ e. E.Key.eq key.now (E.key_of e)) (entries self.now) }
    {
        let bucket = self.current.bucket_at(hash);
        if self.draining.is_waiting(bucket) {
            return self.draining.find(self.current.router(), hash, key);
        }
        self.current.find(hash, key)
    }

    /// Returns the entry whose key equals `key`, or `None`. `hint` may be any hash: if it is the hash of `key`, no
    /// bucket waits and the entry is present, `key` isn't hashed.
    #[inline(always)]
    pub fn find_by_hint(&self, hint: u64, key: &E::Key) -> Option<&E>
        ensures { option_copied result ≡ find (λ e. E.Key.eq key.now (E.key_of e)) (entries self.now) }
    {
        if self.draining.pending == 0 {
            return self.current.find_by_hint(hint, key);
        }
        self.find_both(self.hash(key), key)
    }
}
