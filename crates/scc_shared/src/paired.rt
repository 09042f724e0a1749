//! `Paired`: an entry that is read as a key and a value.
ghost use Rattle.scc_common.specs.Contents.{entries};
ghost use Rattle.scc_common.specs.Walks.{CalledOn, Walks};
ghost use Rattle.scc_table.specs.Places.{IsPlace, index_of};
ghost use Rattle.std.specs.List.Sorted.{IsPermutation};
ghost use Rattle.scc_shared.specs.Copying.{HasEqual};
ghost use Rattle.std.specs.Prelude.{◌≡◌, List, Some, map, slice_get};

use scc_buckets::Place;
use scc_common::{Rule, Ruled, RuledVersion, SharedVersion};
use scc_owned::{Owned, Stored};
use std::hash::{BuildHasher, Hash};

/// An entry that is read as a key and a value: a pair or a version, under a rule or under none.
pub trait Paired: Stored {
    /// Returns the key and the value of the entry at `place`.
    fn pair_at<H: BuildHasher>(owned: &Owned<Self, H>, place: Place) -> (&Self::Key, &Self::Value)
    where
        Self::Key: Hash,
        requires { IsPlace owned.now place }
        ensures pair { slice_get (entries owned.now) (index_of owned.now place)
            ≡ Some (Self.lookups.made result.0.now result.1.now) }
        ensures allowed { Self.allows result.0.now result.1.now };

    /// Calls `f` on the pairs in some order, each at most once, until `f` returns false. Returns false if it did, else
    /// true.
    fn all<H: BuildHasher, F: FnMut(&Self::Key, &Self::Value) -> bool>(
        owned: &Owned<Self, H>,
        f: F,
    ) -> bool
    where
        Self::Key: Hash,
        requires { F.IsAlwaysCallable f }
        ensures { (es : List (Self.Key × Self.Value)) × (last : F)
            × IsPermutation (entries owned.now) (map (λ p. Self.lookups.made p.0 p.1) es)
            × Walks (CalledOn F.FnMut) f es result last };

    /// Returns whether `k` is in `owned` with a value that equals `v`.
    fn has_equal<H: BuildHasher>(owned: &Owned<Self, H>, k: &Self::Key, v: &Self::Value) -> bool
    where
        Self::Key: Hash,
        Self::Value: PartialEq,
        ensures { HasEqual Self.lookups Self.Key.eq Self.Value.eq (entries owned.now) k.now v.now result };
}

impl<K: Eq, V> Paired for (K, V) {
    #[inline(always)]
    fn pair_at<H: BuildHasher>(owned: &Owned<(K, V), H>, place: Place) -> (&K, &V)
    where
        K: Hash,
    {
        owned.pair_at(place)
    }

    #[inline(always)]
    fn all<H: BuildHasher, F: FnMut(&K, &V) -> bool>(owned: &Owned<(K, V), H>, f: F) -> bool
    where
        K: Hash,
    {
        owned.iter_sync(f)
    }

    #[inline(always)]
    fn has_equal<H: BuildHasher>(owned: &Owned<(K, V), H>, k: &K, v: &V) -> bool
    where
        K: Hash,
        V: PartialEq,
    {
        match owned.read_sync(k, |_, w| *w == *v) {
            Some(same) => same,
            None => false,
        }
    }
}

impl<K: Eq, V> Paired for SharedVersion<K, V> {
    #[inline(always)]
    fn pair_at<H: BuildHasher>(owned: &Owned<SharedVersion<K, V>, H>, place: Place) -> (&K, &V)
    where
        K: Hash,
    {
        owned.pair_at(place)
    }

    #[inline(always)]
    fn all<H: BuildHasher, F: FnMut(&K, &V) -> bool>(
        owned: &Owned<SharedVersion<K, V>, H>,
        f: F,
    ) -> bool
    where
        K: Hash,
    {
        owned.iter_sync(f)
    }

    #[inline(always)]
    fn has_equal<H: BuildHasher>(owned: &Owned<SharedVersion<K, V>, H>, k: &K, v: &V) -> bool
    where
        K: Hash,
        V: PartialEq,
    {
        match owned.peek_with(k, |_, w| *w == *v) {
            Some(same) => same,
            None => false,
        }
    }
}

impl<K: Eq, V, R: Rule<K, V>> Paired for Ruled<K, V, R> {
    #[inline(always)]
    fn pair_at<H: BuildHasher>(owned: &Owned<Ruled<K, V, R>, H>, place: Place) -> (&K, &V)
    where
        K: Hash,
    {
        owned.pair_at(place)
    }

    #[inline(always)]
    fn all<H: BuildHasher, F: FnMut(&K, &V) -> bool>(owned: &Owned<Ruled<K, V, R>, H>, f: F) -> bool
    where
        K: Hash,
    {
        owned.iter_sync(f)
    }

    #[inline(always)]
    fn has_equal<H: BuildHasher>(owned: &Owned<Ruled<K, V, R>, H>, k: &K, v: &V) -> bool
    where
        K: Hash,
        V: PartialEq,
    {
        match owned.find_pair(k) {
            Some((_key, w)) => *w == *v,
            None => false,
        }
    }
}

impl<K: Eq, V, R: Rule<K, V>> Paired for RuledVersion<K, V, R> {
    #[inline(always)]
    fn pair_at<H: BuildHasher>(owned: &Owned<RuledVersion<K, V, R>, H>, place: Place) -> (&K, &V)
    where
        K: Hash,
    {
        owned.pair_at(place)
    }

    #[inline(always)]
    fn all<H: BuildHasher, F: FnMut(&K, &V) -> bool>(
        owned: &Owned<RuledVersion<K, V, R>, H>,
        f: F,
    ) -> bool
    where
        K: Hash,
    {
        owned.iter_sync(f)
    }

    #[inline(always)]
    fn has_equal<H: BuildHasher>(owned: &Owned<RuledVersion<K, V, R>, H>, k: &K, v: &V) -> bool
    where
        K: Hash,
        V: PartialEq,
    {
        match owned.find_version(k) {
            Some(version) => *version.value() == *v,
            None => false,
        }
    }
}
