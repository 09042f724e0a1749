//! Walks over the pairs of versions, which call a closure with a key and a value.
ghost use Rattle.scc_array.specs.Shelf.{shelf_entries};
ghost use Rattle.scc_array.specs.Shelves.{shelf_of};
ghost use Rattle.scc_common.specs.Contents.{entries};
ghost use Rattle.scc_common.specs.Walks.{CalledOn, CallableWhile, Walks};
ghost use Rattle.std.specs.Prelude.{◌≡◌, ◌<◌, ◌^◌, drop, length, true};

use crate::Buckets;
use scc_array::Array;
use scc_common::{Hashes, SharedVersion};

/// Calls `f` on the pairs of the versions in the overflow list of `bucket` in turn, until it returns false. Returns
/// false if it stopped. `slots` must be the `slot_count` of the bucket.
#[inline(always)]
fn walk_list<K, V, F: FnMut(&K, &V) -> bool>(
    array: &Array<SharedVersion<K, V>>,
    bucket: usize,
    slots: usize,
    f: &mut F,
) -> bool
    requires within { bucket < length array.now }
    requires slots { slots ≡ length (shelf_of array.now bucket).slots }
    requires few { length (shelf_entries (shelf_of array.now bucket)) < 2 ^ 63 }
    requires callable { CallableWhile F.FnMut true f.old (drop slots (shelf_entries (shelf_of array.now bucket))) }
    ensures { Walks (CalledOn F.FnMut) f.old (drop slots (shelf_entries (shelf_of array.now bucket))) result f.new }
{
    for place in slots..slots + array.overflow_len(bucket) {
        let version = array.entry_of(bucket, place, slots).version();
        if !f(version.key(), version.value()) {
            return false;
        }
    }
    true
}

/// Calls `f` on the pairs of the versions of `bucket` in turn, until it returns false. Returns false if it stopped. The
/// versions in slots with a tag have a loop of their own, which reads no list.
#[inline(always)]
fn walk_bucket<K, V, F: FnMut(&K, &V) -> bool>(
    array: &Array<SharedVersion<K, V>>,
    bucket: usize,
    f: &mut F,
) -> bool
    requires within { bucket < length array.now }
    requires few { length (shelf_entries (shelf_of array.now bucket)) < 2 ^ 63 }
    requires callable { CallableWhile F.FnMut true f.old (shelf_entries (shelf_of array.now bucket)) }
    ensures { Walks (CalledOn F.FnMut) f.old (shelf_entries (shelf_of array.now bucket)) result f.new }
{
    let slots = array.slot_count(bucket);
    for place in 0..slots {
        let version = array.entry_of(bucket, place, slots).version();
        if !f(version.key(), version.value()) {
            return false;
        }
    }
    walk_list(array, bucket, slots, f)
}

impl<K: Eq, V, H: Hashes<K>> Buckets<SharedVersion<K, V>, H> {
    /// Calls `f` on all pairs in the order of the buckets, until it returns false. Returns false if it stopped.
    pub fn walk<F: FnMut(&K, &V) -> bool>(&self, mut f: F) -> bool
        requires { CallableWhile F.FnMut true f (entries self.now) }
        ensures { (last : F) × Walks (CalledOn F.FnMut) f (entries self.now) result last }
    {
        let array = self.array();
        for bucket in 0..array.len() {
            if !walk_bucket(array, bucket, &mut f) {
                return false;
            }
        }
        true
    }
}
