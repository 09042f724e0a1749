//! Removals without a resize. They relocate nothing: the waiting buckets stay.
ghost use Rattle.scc_buckets.specs.OneList.{IsTakenFrom};
ghost use Rattle.scc_common.specs.Contents.{entries, bucket_count, waiting_of, owed_of, IsUniqueBy};
ghost use Rattle.scc_table.specs.Places.{IsPlace, index_of, spot_of};
ghost use Rattle.scc_table.specs.Removals.{SwapTakesAt, TakesWithNext, TakesIn};
ghost use Rattle.scc_table.specs.Takes.{owed_taken};
ghost use Rattle.std.specs.Prelude.{◌≡◌, ◌≤◌, Some, slice_get};

use crate::Table;
use scc_buckets::Place;
use scc_common::{Hashes, Keyed};

impl<E: Keyed, H: Hashes<E::Key>> Table<E, H>
where
    E::Key: Eq,
{
    /// Takes the entry at `place` out, and returns it, without a resize. The other entries keep their order. The
    /// contract speaks of all entries and of the list of the bucket.
    pub fn take_in(&mut self, place: Place) -> E
        requires { IsPlace self.old place }
        ensures { TakesIn E.Key.eq E.key_of self.old place result self.new }
    {
        self.take_exactly(place)
    }

    /// As `take_in`, but the contract speaks of the list of the bucket alone.
    #[inline(always)]
    fn take_exactly(&mut self, place: Place) -> E
        requires { IsPlace self.old place }
        ensures entry { slice_get (entries self.old) (index_of self.old place) ≡ Some result }
        ensures waiting { waiting_of self.new ≡ waiting_of self.old }
        ensures owed { owed_of self.new ≡ owed_taken (bucket_count self.old) (owed_of self.old) place }
        ensures exact { IsTakenFrom self.old (spot_of self.old place) self.new }
        ensures unique { IsUniqueBy E.Key.eq E.key_of self.old }
    {
        if place.bucket < self.bucket_count() {
            return self.current.take_in(place);
        }
        self.take_old(place)
    }

    /// As `take_exactly`, for a place in the old array.
    #[inline(always)]
    fn take_old(&mut self, place: Place) -> E
        requires place { IsPlace self.old place }
        requires old { bucket_count self.old ≤ place.bucket }
        ensures entry { slice_get (entries self.old) (index_of self.old place) ≡ Some result }
        ensures waiting { waiting_of self.new ≡ waiting_of self.old }
        ensures owed { owed_of self.new ≡ owed_taken (bucket_count self.old) (owed_of self.old) place }
        ensures exact { IsTakenFrom self.old (spot_of self.old place) self.new }
        ensures unique { IsUniqueBy E.Key.eq E.key_of self.old }
    {
        let count = self.current.bucket_count();
        self.draining.remove_at(place.bucket - count, place.slot)
    }

    /// Takes the entry at `place` out, without a resize. Returns it with the place of the entry that followed it, or
    /// with `None` if it was the last. The other entries keep their order.
    pub fn take_with_next(&mut self, place: Place) -> (E, Option<Place>)
        requires { IsPlace self.old place }
        ensures { TakesWithNext E.Key.eq E.key_of self.old place result self.new }
    {
        let target = self.target_of(place);
        let entry = self.take_in(place);
        let next = self.place_on(target, place.bucket, place.slot);
        (entry, next)
    }

    /// Takes the entry at `place` out, and returns it, without a resize. The last entry of the slots of its bucket, or
    /// of the overflow list, may move into its slot.
    #[inline(always)]
    pub fn swap_take_at(&mut self, place: Place) -> E
        requires { IsPlace self.old place }
        ensures { SwapTakesAt E.Key.eq E.key_of self.old place result self.new }
    {
        if self.draining.pending == 0 || place.bucket < self.bucket_count() {
            return self.current.swap_take_at(place);
        }
        self.swap_take_old(place)
    }

    /// As `swap_take_at`, for a place in the old array. If the old array has more buckets than the current one, the
    /// entries of an old bucket stand beside each other in one list, and their order may change. Otherwise they stand
    /// in several lists, and keep their order.
    #[inline(always)]
    fn swap_take_old(&mut self, place: Place) -> E
        requires place { IsPlace self.old place }
        requires old { bucket_count self.old ≤ place.bucket }
        ensures { SwapTakesAt E.Key.eq E.key_of self.old place result self.new }
    {
        let count = self.current.bucket_count();
        if self.draining.array.len() <= count {
            return self.take_old(place);
        }
        self.draining
            .swap_remove_at(place.bucket - count, place.slot)
    }
}
