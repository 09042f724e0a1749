//! Changes of buckets that hold at most 32 entries each, each in the order of its list.
ghost use Rattle.scc_buckets.specs.Bounded.{HasList, IsBounded, IsListed, PutsLast};
ghost use Rattle.scc_buckets.specs.Insertions.{IsNewIn};
ghost use Rattle.scc_common.specs.Contents.{bucket_count, list_of, settings_of, hash_in, IsUniqueBy};
ghost use Rattle.scc_common.specs.Routing.{bucket_number};
ghost use Rattle.std.specs.Prelude.{◌≡◌, ◌<◌, ◌++◌, [], ◌∷◌, length, suc, Some, slice_get, remove};

use crate::Buckets;
use crate::place::Place;
use scc_common::{Hashes, Keyed};

impl<E: Keyed, H: Hashes<E::Key>> Buckets<E, H>
where
    E::Key: Eq,
{
    /// Puts `entry`, whose key is new, at the end of the list of `bucket`. `bucket` must be the bucket of `hash`, and
    /// hold fewer than 32 entries.
    #[inline(always)]
    pub(crate) fn push_last(&mut self, bucket: usize, hash: u64, entry: E)
        requires new { IsNewIn E.Key.eq E.key_of (hash_in H.hash_of self.old) self.old
            bucket hash (E.key_of entry) }
        requires bounded { IsBounded self.old }
        requires short { length (list_of self.old bucket) < 32 }
        ensures list { HasList self.old bucket (list_of self.old bucket ++ entry ∷ []) self.new }
        ensures listed { IsListed (λ e. hash_in H.hash_of self.new (E.key_of e))
            self.new }
        ensures unique { IsUniqueBy E.Key.eq E.key_of self.new }
    {
        let _place = self.insert_with_room(bucket, hash, entry);
    }

    /// Puts `entry`, whose key is new, at the end of the list of `bucket`, and returns its slot. If the bucket holds 32
    /// entries, first takes its first entry out, and returns that entry too. `bucket` must be the bucket of `hash`.
    /// Allocates nothing.
    #[inline(always)]
    pub fn put_last(&mut self, bucket: usize, hash: u64, entry: E) -> (Option<E>, usize)
        requires new { IsNewIn E.Key.eq E.key_of (hash_in H.hash_of self.old) self.old
            bucket hash (E.key_of entry) }
        requires bounded { IsBounded self.old }
        ensures step { PutsLast self.old bucket entry result.0 self.new }
        ensures slot { suc result.1 ≡ length (list_of self.new bucket) }
        ensures listed { IsListed (λ e. hash_in H.hash_of self.new (E.key_of e))
            self.new }
        ensures unique { IsUniqueBy E.Key.eq E.key_of self.new }
    {
        let count = self.list_len(bucket);
        if count < 32 {
            self.push_last(bucket, hash, entry);
            return (None, count);
        }
        let first = self.take_in(Place { bucket, slot: 0 });
        self.push_last(bucket, hash, entry);
        (Some(first), 31)
    }

    /// Moves the entry at `slot` to the end of the list of `bucket`, unless it is the last there. `hash` must be the
    /// hash of its key.
    #[inline(always)]
    pub fn touch(&mut self, bucket: usize, slot: usize, hash: u64)
        requires within { bucket < bucket_count self.old }
        requires slot { slot < length (list_of self.old bucket) }
        requires routed { bucket ≡ bucket_number (settings_of self.old).skipped (bucket_count self.old) hash }
        requires bounded { IsBounded self.old }
        requires hashed { (e : E) → slice_get (list_of self.old bucket) slot ≡ Some e
            → hash ≡ hash_in H.hash_of self.old (E.key_of e) }
        ensures list { (e : E) × (slice_get (list_of self.old bucket) slot ≡ Some e)
            × HasList self.old bucket (remove (list_of self.old bucket) slot ++ e ∷ []) self.new }
        ensures listed { IsListed (λ e. hash_in H.hash_of self.new (E.key_of e))
            self.new }
        ensures unique { IsUniqueBy E.Key.eq E.key_of self.new }
    {
        if self.list_len(bucket) - slot == 1 {
            return;
        }
        let entry = self.take_in(Place { bucket, slot });
        self.push_last(bucket, hash, entry);
    }
}
