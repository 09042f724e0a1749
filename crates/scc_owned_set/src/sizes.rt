//! The calls about the size of a set: reservations, the range of the capacity, the bucket of a key.
ghost use Rattle.scc_common.specs.Contents.{minimum_of, pending_of, hash_in, bucket_of};
ghost use Rattle.scc_owned.specs.Sizes.{ReservesByRule, ReleasesByRule};
ghost use Rattle.scc_owned_set.specs.Keys.{IsUnique};
ghost use Rattle.std.specs.Prelude.{◌≡◌, ◌+◌, ◌<◌, ◌^◌};

use crate::Owned;
use scc_common::Hashes;
use scc_table::Reservation;
use std::hash::{BuildHasher, Hash};
use std::ops::RangeInclusive;

impl<K: Eq + Hash, H: BuildHasher> Owned<K, H> {
    /// Raises the minimum by `additional` slots, and returns the token that gives them back. Returns `None` if
    /// `additional` is 0 or the minimum would pass the greatest capacity. An array with fewer slots than the minimum
    /// grows, unless memory is refused; the token is returned in any case.
    pub fn reserve(&mut self, additional: usize) -> Option<Reservation>
        ensures { ReservesByRule (IsUnique K.eq) additional self.old result self.new }
    {
        self.map.reserve(additional)
    }

    /// Gives the slots of `reservation` back, and tries to shrink the array. A token for more slots than are reserved
    /// here comes back, and nothing changes.
    pub fn release(&mut self, reservation: Reservation) -> Result<(), Reservation>
        ensures { ReleasesByRule (IsUnique K.eq) reservation self.old result self.new }
    {
        self.map.release(reservation)
    }

    /// Returns the range of slots that the array may have: from the minimum to the most that it may grow to.
    pub fn capacity_range(&self) -> RangeInclusive<usize>
        ensures low { result.start ≡ minimum_of self.now }
        ensures high { result.end ≡ 2 ^ 63 }
    {
        self.map.capacity_range()
    }

    /// Returns the number of the bucket of `k`, or 0 without an array.
    pub fn bucket_index(&self, k: &K) -> usize
        ensures index { result ≡ bucket_of (hash_in ⟦<H as Hashes<K>>⟧.hash_of self.now) self.now k.now }
    {
        self.map.bucket_index(k)
    }

    /// Returns how many buckets wait for their keys from an old array. Each insertion of a new key relocates up to two
    /// of them.
    pub fn pending(&self) -> usize
        ensures { result ≡ pending_of self.now }
    {
        self.map.pending()
    }
}
