//! Steps from place to place, in the order of the entries.
ghost use Rattle.scc_buckets.specs.Places as spots;
ghost use Rattle.scc_common.specs.Contents.{entries, bucket_count, owed_of, list_of, IsUniqueBy};
ghost use Rattle.scc_table.specs.Places.{IsPlace, index_of, spot_of, StandsAt};
ghost use Rattle.scc_table.specs.NextPlaces.{index_on, rank_on, IsStart};
ghost use Rattle.scc_table.specs.TwoArrays.{IsWaiting};
ghost use Rattle.std.specs.Prelude.{◌≡◌, ◌≤◌, ◌<◌, ◌^◌, ◌+◌, [], length, suc, MatchOption};

use crate::Table;
use scc_buckets::Place;
use scc_common::{Hashes, Keyed};

impl<E: Keyed, H: Hashes<E::Key>> Table<E, H>
where
    E::Key: Eq,
{
    /// Returns the place of the first entry, or `None` if the table is empty.
    pub fn first_place(&self) -> Option<Place>
        ensures place { MatchOption result (entries self.now ≡ []) (StandsAt self.now 0) }
        ensures unique { IsUniqueBy E.Key.eq E.key_of self.now }
    {
        self.place_past(0)
    }

    /// Returns the place of the entry after the entry at `place`, or `None` if that is the last.
    pub fn next_place(&self, place: Place) -> Option<Place>
        requires { IsPlace self.now place }
        ensures place { MatchOption result (suc (index_of self.now place) ≡ length (entries self.now))
            (StandsAt self.now (suc (index_of self.now place))) }
        ensures unique { IsUniqueBy E.Key.eq E.key_of self.now }
    {
        let target = self.target_of(place);
        self.place_on(target, place.bucket, place.slot + 1)
    }

    /// Returns the bucket whose list has the entry at `place`.
    pub(crate) fn target_of(&self, place: Place) -> usize
        requires { IsPlace self.now place }
        ensures value { result ≡ (spot_of self.now place).bucket }
        ensures next { IsStart self.now result place.bucket (place.slot + 1) }
        ensures index { index_on self.now result place.bucket (place.slot + 1) ≡ suc (index_of self.now place) }
        ensures within { result < bucket_count self.now }
        ensures small { place.slot + 1 < 2 ^ 64 }
        ensures unique { IsUniqueBy E.Key.eq E.key_of self.now }
    {
        let count = self.current.bucket_count();
        if place.bucket < count {
            return place.bucket;
        }
        let entry = self
            .draining
            .array
            .entry_at(place.bucket - count, place.slot);
        let router = self.current.router();
        router.bucket(router.hash(entry.key()), count)
    }

    /// Returns the place of the first entry of `target` from `slot` of `bucket` on, or else of the first entry of a
    /// later bucket, or `None`. `bucket` must be `target` itself or, if `target` waits, a bucket of the old array.
    pub(crate) fn place_on(&self, target: usize, bucket: usize, slot: usize) -> Option<Place>
        requires target { target < bucket_count self.now }
        requires start { IsStart self.now target bucket slot }
        ensures { MatchOption result (index_on self.now target bucket slot ≡ length (entries self.now))
            (StandsAt self.now (index_on self.now target bucket slot)) }
    {
        let count = self.current.bucket_count();
        if bucket < count {
            if slot < self.current.list_len(bucket) {
                return Some(Place { bucket, slot });
            }
            return self.place_past(bucket + 1);
        }
        if let Some(place) = self.old_place(target, bucket - count, slot) {
            return Some(place);
        }
        self.place_past(target + 1)
    }

    /// Returns the place of the first entry of `bucket` or of a later bucket, or `None`.
    fn place_past(&self, bucket: usize) -> Option<Place>
        requires { bucket ≤ bucket_count self.now }
        ensures place { MatchOption result (spots.index_of_spot self.now (record { bucket = bucket; slot = 0 })
            ≡ length (entries self.now))
            (StandsAt self.now (spots.index_of_spot self.now (record { bucket = bucket; slot = 0 }))) }
        ensures unique { IsUniqueBy E.Key.eq E.key_of self.now }
    {
        for next in bucket..self.current.bucket_count() {
            if let Some(place) = self.first_in(next) {
                return Some(place);
            }
        }
        None
    }

    /// Returns the place of the first entry of `bucket`, or `None`.
    pub(crate) fn first_in(&self, bucket: usize) -> Option<Place>
        requires { bucket < bucket_count self.now }
        ensures { MatchOption result (list_of self.now bucket ≡ [])
            (StandsAt self.now (spots.index_of_spot self.now (record { bucket = bucket; slot = 0 }))) }
    {
        if self.is_waiting(bucket) {
            return self.first_old(bucket);
        }
        if self.current.list_len(bucket) == 0 {
            return None;
        }
        Some(Place { bucket, slot: 0 })
    }

    /// Returns the place of the first entry of the waiting bucket `target`, or `None`.
    fn first_old(&self, target: usize) -> Option<Place>
        requires { IsWaiting self.now target }
        ensures { MatchOption result (list_of self.now target ≡ [])
            (StandsAt self.now (spots.index_of_spot self.now (record { bucket = target; slot = 0 }))) }
    {
        let count = self.current.bucket_count();
        match self
            .draining
            .first_spot(self.current.router(), target, count)
        {
            Some((old, number)) => Some(Place {
                bucket: count + old,
                slot: number,
            }),
            None => None,
        }
    }

    /// Returns the place of the first entry of the waiting bucket `target` from `slot` of the old bucket `source` on,
    /// or `None`.
    fn old_place(&self, target: usize, source: usize, slot: usize) -> Option<Place>
        requires waits { IsWaiting self.now target }
        requires source { source < length (owed_of self.now) }
        ensures { MatchOption result (rank_on self.now target source slot ≡ length (list_of self.now target))
            (StandsAt self.now (spots.index_of_spot self.now
            (record { bucket = target; slot = rank_on self.now target source slot }))) }
    {
        let count = self.current.bucket_count();
        match self
            .draining
            .spot_from(self.current.router(), target, count, source, slot)
        {
            Some((old, number)) => Some(Place {
                bucket: count + old,
                slot: number,
            }),
            None => None,
        }
    }
}
