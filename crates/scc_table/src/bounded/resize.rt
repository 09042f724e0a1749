//! Shrinks after which no list holds more than 32 entries.
ghost use Rattle.scc_buckets.specs.Bounded.{IsListed, MayShrinkWithin, ShrinksBounded};
ghost use Rattle.scc_buckets.specs.Pour.{destined_for};
ghost use Rattle.scc_common.specs.Contents.{entries, bucket_count, hash_in, settings_of, IsUniqueBy};
ghost use Rattle.scc_common.specs.Sizes.{IsBucketCount};
ghost use Rattle.scc_table.specs.Relocates.{Spreads};
ghost use Rattle.std.specs.List.Sorted.{IsPermutation};
ghost use Rattle.std.specs.Prelude.{◌≡◌, ◌≤◌, ◌<◌, ◌*◌, ◌^◌, ◌↔◌, ℕ, length, IsTrue};

use crate::Table;
use scc_buckets::sizes::buckets_for;
use scc_common::{Hashes, Keyed};

impl<E: Keyed, H: Hashes<E::Key>> Table<E, H>
where
    E::Key: Eq,
{
    /// Shrinks the array if the table has at most an eighth as many entries as slots, a smaller array has enough slots,
    /// and each of its buckets would hold at most 32 entries; the array stays if memory is refused. First relocates all
    /// waiting buckets; then every bucket of the new array waits. If it tries, takes time proportional to the number of
    /// buckets and of entries that waited; otherwise, takes constant time.
    #[inline(always)]
    pub fn shrink_within(&mut self)
        requires { IsListed (λ e. hash_in H.hash_of self.old (E.key_of e))
            self.old }
        ensures shrinks { ShrinksBounded (λ e. hash_in H.hash_of self.old
            (E.key_of e)) self.old self.new }
        ensures listed { IsListed (λ e. hash_in H.hash_of self.new (E.key_of e))
            self.new }
        ensures same { IsPermutation (entries self.old) (entries self.new) }
        ensures spreads { Spreads ((n : ℕ) × MayShrinkWithin
            (λ e. hash_in H.hash_of self.old (E.key_of e)) self.old n) self.old
            self.new }
        ensures unique { IsUniqueBy E.Key.eq E.key_of self.new }
    {
        let present = self.bucket_count();
        let length = self.len();
        if present <= 2 || length > 4 * present {
            return;
        }
        self.shrink_sparse_within();
    }

    /// As `shrink_within`, if the table has at most an eighth as many entries as slots.
    #[cold]
    fn shrink_sparse_within(&mut self)
        requires listed { IsListed (λ e. hash_in H.hash_of self.old
            (E.key_of e)) self.old }
        requires few { length (entries self.old) ≤ 4 * bucket_count self.old }
        ensures shrinks { ShrinksBounded (λ e. hash_in H.hash_of self.old
            (E.key_of e)) self.old self.new }
        ensures listed { IsListed (λ e. hash_in H.hash_of self.new (E.key_of e))
            self.new }
        ensures same { IsPermutation (entries self.old) (entries self.new) }
        ensures spreads { Spreads ((n : ℕ) × MayShrinkWithin
            (λ e. hash_in H.hash_of self.old (E.key_of e)) self.old n) self.old
            self.new }
        ensures unique { IsUniqueBy E.Key.eq E.key_of self.new }
    {
        let present = self.bucket_count();
        let count = buckets_for(self.minimum()).max(buckets_for(2 * self.len()));
        if count >= present {
            return;
        }
        if !self.is_short_in(count) {
            return;
        }
        match self.resize_to(count) {
            Ok(()) => {}
            Err(_) => {}
        }
    }

    /// Returns whether each of `count` buckets, fewer than there are, would hold at most 32 entries.
    fn is_short_in(&self, count: usize) -> bool
        requires array { IsBucketCount count }
        requires fewer { count < bucket_count self.now }
        requires listed { IsListed (λ e. hash_in H.hash_of self.now
            (E.key_of e)) self.now }
        ensures { IsTrue result ↔ ((i : ℕ) → i < count
            → length (destined_for (λ e. hash_in H.hash_of self.now (E.key_of e))
            (settings_of self.now).skipped count i (entries self.now)) ≤ 32) }
    {
        let spread = self.bucket_count() / count;
        for target in 0..count {
            if self.joined_len(target, count, spread) > 32 {
                return false;
            }
        }
        true
    }

    /// Returns how many entries would belong to the bucket `target` of `count`: the entries of `spread` buckets in a
    /// row. `count * spread` must be the number of buckets.
    fn joined_len(&self, target: usize, count: usize, spread: usize) -> usize
        requires listed { IsListed (λ e. hash_in H.hash_of self.now
            (E.key_of e)) self.now }
        requires spread { count * spread ≡ bucket_count self.now }
        requires some { 0 < spread }
        requires within { target < count }
        ensures { result ≡ length (destined_for
            (λ e. hash_in H.hash_of self.now (E.key_of e))
            (settings_of self.now).skipped count target (entries self.now)) }
    {
        let first = target * spread;
        let mut total = 0;
        for bucket in first..first + spread {
            total += self.list_len(bucket);
        }
        total
    }
}
