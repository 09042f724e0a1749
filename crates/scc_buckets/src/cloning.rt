//! Copies of buckets, which hold clones of the entries.
ghost use Rattle.scc_array.specs.Shelf.{shelf_entries};
ghost use Rattle.scc_array.specs.Shelves.{shelf_of};
ghost use Rattle.scc_common.specs.Clones.{AddsClones, HasClones};
ghost use Rattle.scc_common.specs.Contents.{entries, bucket_count, notes_of, settings_of, waiting_of};
ghost use Rattle.std.specs.Prelude.{◌≡◌, ◌*◌, ◌^◌, ◌<◌, [], ◌∷◌, false, length, IfOk, OnOk};

use crate::make::fresh_buckets;
use crate::{Buckets, Router};
use scc_array::Array;
use scc_common::{Hashes, Keyed, MakeError};

impl<E: Keyed, H: Hashes<E::Key>> Buckets<E, H>
where
    E::Key: Eq,
{
    /// Makes buckets with clones of all entries, under a clone of the hasher. The copy has the same number of buckets
    /// as `self`, and all its slots count as asked for. Fails if memory is refused, if a clone fails, and if the clones
    /// of two keys are equal.
    pub fn try_clone(&self) -> Result<Buckets<E, H>, MakeError>
    where
        E: Clone,
        H: Clone,
        ensures clones { IfOk result (HasClones E.is_clone H.is_clone self.now) }
        ensures noted { IfOk result (λ t. notes_of t ≡ (false, false)) }
        ensures waiting { IfOk result (λ t. waiting_of t ≡ []) }
    {
        let router = self.router.try_clone()?;
        let mut copy = self.fresh_like(router)?;
        copy.insert_clones_of(self)?;
        Ok(copy)
    }

    /// Makes empty buckets with `router`, in the number of those of `self`.
    pub(crate) fn fresh_like(&self, router: Router<H>) -> Result<Buckets<E, H>, MakeError>
    where
        H: Drop,
        ensures entries { IfOk result (λ t. entries t ≡ []) }
        ensures buckets { IfOk result (λ t. bucket_count t ≡ bucket_count self.now) }
        ensures settings { IfOk result (λ t. settings_of t
            ≡ record {
              hasher = router.hasher;
              skipped = router.skipped;
              asked = 32 * bucket_count self.now;
              reserved = 0;
            }) }
        ensures noted { IfOk result (λ t. notes_of t ≡ (false, false)) }
        ensures waiting { IfOk result (λ t. waiting_of t ≡ []) }
    {
        let alloc = self.buckets.allocator();
        let count = self.buckets.len();
        if count == 0 {
            return Ok(Buckets::bare(alloc, router));
        }
        match fresh_buckets(alloc, count) {
            Ok(buckets) => Ok(Buckets {
                buckets,
                length: 0,
                overflowing: 0,
                asked: 32 * count,
                reserved: 0,
                refused: false,
                marked: false,
                router,
            }),
            Err(_) => Err(MakeError),
        }
    }

    /// Inserts a clone of each entry of `other`, without a resize.
    pub fn insert_clones_of(&mut self, other: &Buckets<E, H>) -> Result<(), MakeError>
    where
        E: Clone,
        ensures { OnOk result (AddsClones E.is_clone (entries other.now) self.old self.new) }
    {
        let array = other.array();
        for bucket in 0..array.len() {
            self.insert_clones(array, bucket)?;
        }
        Ok(())
    }

    /// Inserts a clone of each entry of the bucket `bucket` of `array`, without a resize.
    pub fn insert_clones(&mut self, array: &Array<E>, bucket: usize) -> Result<(), MakeError>
    where
        E: Clone,
        requires within { bucket < length array.now }
        requires few { length (shelf_entries (shelf_of array.now bucket)) < 2 ^ 63 }
        ensures { OnOk result (AddsClones E.is_clone (shelf_entries (shelf_of array.now bucket)) self.old self.new) }
    {
        for place in 0..array.bucket_len(bucket) {
            self.insert_clone(array.entry_at(bucket, place))?;
        }
        Ok(())
    }

    /// Inserts a clone of `source`, without a resize. Fails if memory is refused, if the clone fails, if there is no
    /// array, and if the key of the clone is present.
    fn insert_clone(&mut self, source: &E) -> Result<(), MakeError>
    where
        E: Clone,
        ensures { OnOk result (AddsClones E.is_clone (source.now ∷ []) self.old self.new) }
    {
        let Ok(copy) = source.clone() else {
            return Err(MakeError);
        };
        let count = self.buckets.len();
        let hash = self.hash(copy.key());
        if count == 0 || self.search(hash, copy.key()).is_some() {
            return Err(MakeError);
        }
        let bucket = self.router.bucket(hash, count);
        match self.insert_in(bucket, hash, copy) {
            Ok(_) => Ok(()),
            Err(_back) => Err(MakeError),
        }
    }
}
