//! What a put would have to make first, made before it, and what the put would evict.
ghost use Rattle.scc_owned_cache.specs.CacheSteps.{DrivesNoneOut, DrivesOut, IsAbsent, IsFound, MakesRoomForPut};
ghost use Rattle.scc_owned_cache.specs.Caches.{IsCacheState};
ghost use Rattle.scc_common.specs.Contents.{bucket_count, hash_in, list_of, settings_of, without_mark};
ghost use Rattle.scc_common.specs.Routing.{bucket_number};
ghost use Rattle.std.specs.Prelude.{◌≡◌, ◌<◌, ◌≤◌, length, Some, IfOk, IfSome, IfNone, MatchOption, slice_get};

use crate::Owned;
use scc_buckets::Place;
use scc_common::{Hashes, MakeError, Rule, Valued};
use std::hash::{BuildHasher, Hash};

impl<K: Eq + Hash, V, H: BuildHasher, R: Rule<K, V>> Owned<K, V, H, R> {
    /// Makes what a put of `k` would have to make first, at most one resize: the first array, or an array of twice as
    /// many buckets if a doubling is due; then all buckets wait. No pair moves. If a key equals `k`, nothing is made.
    /// A doubling whose memory is refused is noted and marked: the put of `k` that follows doesn't try the doubling
    /// again, so it makes no resize in any case. A doubling that is made takes note and mark away; if no doubling is
    /// due, both stay. Fails only if memory for the first array is refused, and then nothing changes.
    pub fn make_room(&mut self, k: &K) -> Result<(), MakeError>
        ensures room { MakesRoomForPut (hash_in ⟦<H as Hashes<K>>⟧.hash_of self.old.contents) K.eq self.old k.now result
            self.new }
        ensures state { IsCacheState K.eq (hash_in ⟦<H as Hashes<K>>⟧.hash_of self.new.contents) self.new }
    {
        match self.find_or_make_room(k) {
            Ok(_) => Ok(()),
            Err(e) => Err(e),
        }
    }

    /// Does what `make_room` does, and returns the place of the pair of `k`, or `None`.
    pub fn find_or_make_room(&mut self, k: &K) -> Result<Option<Place>, MakeError>
        ensures room { MakesRoomForPut (hash_in ⟦<H as Hashes<K>>⟧.hash_of self.old.contents) K.eq self.old k.now result
            self.new }
        ensures found { IfOk result (λ found. MatchOption found
            (IsAbsent (hash_in ⟦<H as Hashes<K>>⟧.hash_of self.new.contents) K.eq self.new.contents k.now)
            (IsFound (hash_in ⟦<H as Hashes<K>>⟧.hash_of self.new.contents) K.eq self.new.contents k.now)) }
        ensures state { IsCacheState K.eq (hash_in ⟦<H as Hashes<K>>⟧.hash_of self.new.contents) self.new }
    {
        let hash = self.table.hash(k);
        match self.place_of(hash, k) {
            Some(place) => Ok(Some(place)),
            None => match self.table.prepare(hash, self.maximum) {
                Ok(()) => Ok(None),
                Err(_) => Err(MakeError),
            },
        }
    }

    /// Takes the mark of a refused doubling away, and changes nothing else. A put then tries a doubling that is due,
    /// even if `make_room` was refused memory for it.
    pub fn drop_room(&mut self)
        ensures cleared { self.new ≡ record self.old { contents = without_mark self.old.contents } }
        ensures state { IsCacheState K.eq (hash_in ⟦<H as Hashes<K>>⟧.hash_of self.new.contents) self.new }
    {
        self.table.drop_mark();
    }

    /// Returns the pair that a put of `k` without a resize would evict: the least recent of its bucket. Returns `None`
    /// if a key equals `k`, if the bucket of `k` holds fewer than 32 pairs, or if there is no array. The order of the
    /// pairs stays.
    pub fn next_evicted(&self, k: &K) -> Option<(&K, &V)>
        ensures none { IfNone result (DrivesNoneOut (hash_in ⟦<H as Hashes<K>>⟧.hash_of self.now.contents) K.eq
            self.now.contents k.now) }
        ensures some { IfSome result (λ r. DrivesOut (hash_in ⟦<H as Hashes<K>>⟧.hash_of self.now.contents) K.eq
            self.now.contents k.now (r.0.now, r.1.now)) }
    {
        let hash = self.table.hash(k);
        match self.place_of(hash, k) {
            Some(_) => None,
            None => self.first_of_full(hash),
        }
    }

    /// Returns the first pair of the bucket of `hash`, or `None` if the bucket holds fewer than 32 pairs.
    fn first_of_full(&self, hash: u64) -> Option<(&K, &V)>
        ensures none { IfNone result (length (list_of self.now.contents
            (bucket_number (settings_of self.now.contents).skipped (bucket_count self.now.contents) hash)) < 32) }
        ensures some { IfSome result (λ r. (32 ≤ length
            (list_of self.now.contents
            (bucket_number (settings_of self.now.contents).skipped (bucket_count self.now.contents) hash)))
            × (slice_get (list_of self.now.contents
            (bucket_number (settings_of self.now.contents).skipped (bucket_count self.now.contents) hash)) 0
            ≡ Some (r.0.now, r.1.now))) }
    {
        if self.table.bucket_count() == 0 {
            return None;
        }
        let bucket = self.table.bucket_at(hash);
        if self.table.list_len(bucket) < 32 {
            return None;
        }
        Some(self.table.first_entry(bucket).parts())
    }
}
