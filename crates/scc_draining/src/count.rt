//! Counts of the entries of a bucket that belong to a bucket of another array, and the limit of overflow lists.
ghost use Rattle.scc_buckets.specs.Pour.{destined_for};
ghost use Rattle.scc_common.specs.Contents.{bucket_count, hash_in, list_of, settings_of};
ghost use Rattle.std.specs.Prelude.{◌≡◌, ◌<◌, ◌≤◌, length, take, ◌+◌, ◌-◌, ◌^◌, ◌⊎◌, IsTrue};

use scc_buckets::{Buckets, Place, overflow_room};
use scc_common::{Hashes, Keyed};

/// Returns how many of the first `first` entries of `bucket` belong to the bucket `target` of `count`.
pub fn count_destined<E: Keyed, H: Hashes<E::Key>>(
    table: &Buckets<E, H>,
    bucket: usize,
    first: usize,
    target: usize,
    count: usize,
) -> usize
where
    E::Key: Eq,
    requires within { bucket < bucket_count table.now }
    requires first { first ≤ length (list_of table.now bucket) }
    ensures { result ≡ length (destined_for
        (λ e. hash_in H.hash_of table.now (E.key_of e))
        (settings_of table.now).skipped count target
        (take first (list_of table.now bucket))) }
{
    let mut found = 0;
    for slot in 0..first {
        let hash = table.hash(table.entry_in(Place { bucket, slot }).key());
        if table.router().bucket(hash, count) == target {
            found += 1;
        }
    }
    found
}

/// Returns whether a bucket of `listed` entries can't take one more: its slots are full, and the overflow lists of the
/// two arrays hold the most entries allowed, `spilled` and `aside`.
pub fn has_no_room(listed: usize, spilled: usize, aside: usize) -> bool
    requires { spilled + aside < 2 ^ 62 }
    ensures full { IsTrue result → 32 ≤ listed }
    ensures past { IsTrue result → 2 ^ 62 - 1 ≤ spilled + aside }
    ensures room { (IsTrue result → ⊥) → (listed < 32) ⊎ (spilled + aside < 2 ^ 62 - 1) }
{
    listed >= 32 && overflow_room(spilled + aside) == 0
}
