//! The first array, and growths for a new key.
ghost use Rattle.scc_buckets.specs.Bounded.{IsListed};
ghost use Rattle.scc_common.specs.Contents.{bucket_count, hash_in, pending_of, settings_of};
ghost use Rattle.scc_common.specs.Routing.{bucket_number};
ghost use Rattle.scc_table.specs.Bounded.{DoublesBelow, GrowsBelow};
ghost use Rattle.scc_table.specs.Growths.{FindsBucketForNew, GrowsHalfFull};
ghost use Rattle.scc_table.specs.Installations.{InstallsFirst};
ghost use Rattle.std.specs.Prelude.{◌≡◌, ◌<◌, ◌≤◌, ◌^◌};
ghost use Rattle.std.specs.Result.{OnOk};

use crate::Table;
use scc_common::{Hashes, Keyed};
use std::alloc::AllocError;

impl<E: Keyed, H: Hashes<E::Key>> Table<E, H>
where
    E::Key: Eq,
{
    /// Returns the bucket of `hash`, for an insertion of a new key. Makes the first array if there is none. Doubles the
    /// array if no bucket waits, the bucket holds 32 entries or more, and the table has at least half as many entries
    /// as slots and fewer slots than `most`; then every bucket of the new array waits. The array stays if memory for
    /// the doubling is refused, or if the growth is marked. Fails only if memory for the first array is refused.
    #[inline(always)]
    pub fn bucket_for_new(&mut self, hash: u64, most: usize) -> Result<usize, AllocError>
        requires most { most ≤ 2 ^ 63 }
        ensures finds { FindsBucketForNew E.Key.eq E.key_of
            (hash_in H.hash_of self.old) most self.old hash result self.new }
        ensures grows { OnOk result (IsListed (λ e. hash_in H.hash_of self.old
            (E.key_of e)) self.old → GrowsBelow (λ e. hash_in H.hash_of self.old
            (E.key_of e)) most (bucket_number (settings_of self.old).skipped (bucket_count self.old) hash) self.old
            self.new) }
        ensures listed { IsListed (λ e. hash_in H.hash_of self.old (E.key_of e)) self.old
            → IsListed (λ e. hash_in H.hash_of self.new (E.key_of e)) self.new }
    {
        if self.bucket_count() == 0 {
            self.install_first()?;
            return Ok(self.bucket_at(hash));
        }
        let bucket = self.bucket_at(hash);
        if self.pending() > 0 {
            return Ok(bucket);
        }
        if self.list_len(bucket) < 32 {
            return Ok(bucket);
        }
        self.grow(most);
        Ok(self.bucket_at(hash))
    }

    /// Doubles the array if the table has at least half as many entries as slots and fewer slots than `most`; then
    /// every bucket of the new array waits. No bucket may wait before. The array stays if memory is refused, or if the
    /// growth is marked. Takes time proportional to the number of buckets.
    #[cold]
    pub(crate) fn grow(&mut self, most: usize)
        requires some { 0 < bucket_count self.old }
        requires not_waiting { pending_of self.old ≡ 0 }
        requires most { most ≤ 2 ^ 63 }
        ensures grows { GrowsHalfFull E.Key.eq E.key_of
            (hash_in H.hash_of self.old) most self.old self.new }
        ensures doubles { IsListed (λ e. hash_in H.hash_of self.old (E.key_of e)) self.old
            → DoublesBelow (λ e. hash_in H.hash_of self.old (E.key_of e)) most self.old
            self.new }
        ensures listed { IsListed (λ e. hash_in H.hash_of self.old (E.key_of e)) self.old
            → IsListed (λ e. hash_in H.hash_of self.new (E.key_of e)) self.new }
    {
        let count = self.bucket_count();
        let length = self.len();
        if length < 16 * count || 32 * count >= most {
            return;
        }
        if self.is_marked() {
            self.note(true);
            return;
        }
        match self.install_fresh(2 * count) {
            Ok(()) => {}
            Err(_) => {}
        }
    }

    /// Makes the first array, with the size of the minimum. None of its buckets waits.
    pub(crate) fn install_first(&mut self) -> Result<(), AllocError>
        requires { bucket_count self.old ≡ 0 }
        ensures { InstallsFirst E.Key.eq E.key_of
            (λ e. hash_in H.hash_of self.old (E.key_of e)) self.old result
            self.new }
    {
        self.current.install_first()?;
        Ok(())
    }
}
