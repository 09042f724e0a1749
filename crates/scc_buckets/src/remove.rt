//! Removals of entries from buckets.
ghost use Rattle.scc_buckets.specs.Places.{IsSpot};
ghost use Rattle.scc_buckets.specs.Removals.{TakesAtSpot, SwapsOutAtSpot};
ghost use Rattle.scc_buckets.specs.Takes.{TakesFirstSpot};
ghost use Rattle.scc_common.specs.Contents.{hash_in};
ghost use Rattle.std.specs.Prelude.{◌≡◌, ◌<◌, ◌+◌, ◌-◌, None};

use crate::Buckets;
use crate::insert::one_if;
use crate::place::{Place, tag};
use scc_common::{Hashes, Keyed};

impl<E: Keyed, H: Hashes<E::Key>> Buckets<E, H>
where
    E::Key: Eq,
{
    /// Takes the entry at `place` out, and returns it. The other entries keep their order, and the number of entries
    /// before `place` stays.
    pub fn take_in(&mut self, place: Place) -> E
        requires { IsSpot self.old place }
        ensures { TakesAtSpot E.Key.eq E.key_of self.old place result self.new }
    {
        let in_overflow = self.buckets.is_overflow(place.bucket, place.slot);
        let entry = self.buckets.remove_at(place.bucket, place.slot);
        self.length -= 1;
        self.overflowing -= one_if(in_overflow);
        entry
    }

    /// Takes the entry at `place` out, and returns it. The last entry of the slots of its bucket, or of the overflow
    /// list, may move into its slot.
    #[inline(always)]
    pub fn swap_take_at(&mut self, place: Place) -> E
        requires { IsSpot self.old place }
        ensures { SwapsOutAtSpot E.Key.eq E.key_of self.old place result self.new }
    {
        let in_overflow = self.buckets.is_overflow(place.bucket, place.slot);
        self.length -= 1;
        let entry = self.buckets.swap_remove_at(place.bucket, place.slot);
        self.overflowing -= one_if(in_overflow);
        entry
    }

    /// Takes out the entry whose key equals `key`, and returns it, or `None` if there is no such entry. The last entry
    /// of the slots of its bucket, or of the overflow list, may move into its slot. `hash` must be the hash of `key`.
    #[inline(always)]
    pub fn take_first(&mut self, hash: u64, key: &E::Key) -> Option<E>
        requires { hash ≡ hash_in H.hash_of self.old key.now }
        ensures { TakesFirstSpot (λ e. E.Key.eq key.now (E.key_of e)) self.old self.new result }
    {
        let count = self.buckets.len();
        if count == 0 {
            return None;
        }
        let bucket = self.router.bucket(hash, count);
        match self.buckets.take_in_slots(bucket, key, tag(hash)) {
            Some(entry) => {
                self.length -= 1;
                Some(entry)
            }
            None => {
                if !self.buckets.may_overflow(bucket) {
                    return None;
                }
                match self.buckets.take_in_overflow(bucket, key) {
                    Some(entry) => {
                        self.length -= 1;
                        self.overflowing -= 1;
                        Some(entry)
                    }
                    None => None,
                }
            }
        }
    }
}
