//! `Stored`: an entry of a table that an insertion makes of a key and a value.
ghost use Rattle.scc_common.specs.Contents.{entries, hash_in};
ghost use Rattle.scc_owned.specs.Insertions.{InsertsInto};
ghost use Rattle.scc_owned.specs.Lookups.{Lookups, AreLawful, pair_lookups, pair_lookups-lawful};
ghost use Rattle.std.specs.List.{position};
ghost use Rattle.std.specs.Prelude.{◌≡◌, None, Bool, true, false};

use crate::Owned;
use scc_buckets::Place;
use scc_common::{Hashes, Keyed, Rule, Ruled, RuledVersion, SharedVersion, Valued};
use std::hash::{BuildHasher, Hash};

/// An entry that is made of a key and a value: a pair or a version, under a rule or under none.
pub trait Stored: Keyed + Sized {
    type Value;

    ghost value_of: { Self → Self.Value };

    // The value may stand under the key.
    ghost allows: { Self.Key → Self.Value → Type 0 };

    // How contracts look an entry up, and change it.
    ghost lookups: { Lookups Self Self.Key Self.Value };

    // Whether an entry takes memory of its own, so that an insertion may be refused although there is room.
    ghost taking: { Bool };

    /// Returns the key and the value.
    fn read(&self) -> (&Self::Key, &Self::Value)
        ensures key { result.0.now ≡ Self.key_of self.now }
        ensures value { result.1.now ≡ value_of self.now }
        ensures allowed { allows result.0.now result.1.now };

    /// Inserts the entry of a new key, and returns its place. `hash` must be the hash of the key. If memory is refused,
    /// key and value come back.
    fn insert_into<H: BuildHasher>(
        owned: &mut Owned<Self, H>,
        hash: u64,
        key: Self::Key,
        value: Self::Value,
    ) -> Result<Place, (Self::Key, Self::Value)>
    where
        Self::Key: Hash,
        requires hashed { hash ≡ hash_in ⟦<H as Hashes<Self::Key>>⟧.hash_of owned.old key }
        requires absent { position (λ e. Self.Key.eq key (Self.key_of e)) (entries owned.old) ≡ None }
        requires allowed { allows key value }
        ensures { InsertsInto Self.key_of Self.Key.eq ⟦<H as Hashes<Self::Key>>⟧.hash_of taking owned.old key value
            (lookups.made key value) result owned.new };

    ghost lawful: { AreLawful lookups Self.key_of };

    // What is allowed under a key is allowed under an equal one.
    ghost alike: { (j k : Self.Key) (v : Self.Value) → Self.Key.eq j k ≡ true → allows j v → allows k v };
}

/// An entry that allows every value under every key.
pub trait Unruled: Stored {
    ghost free: { (k : Self.Key) (v : Self.Value) → Self.allows k v };
}

impl<K: Eq, V> Stored for (K, V) {
    type Value = V;

    ghost value_of = { λ e. e.1 };

    ghost allows = { λ _ _. Unit {0} };

    ghost lookups = { pair_lookups };

    ghost taking = { false };

    #[inline(always)]
    fn read(&self) -> (&K, &V) {
        (&self.0, &self.1)
    }

    #[inline(always)]
    fn insert_into<H: BuildHasher>(
        owned: &mut Owned<(K, V), H>,
        hash: u64,
        key: K,
        value: V,
    ) -> Result<Place, (K, V)>
    where
        K: Hash,
    {
        owned.insert_new(hash, key, value)
    }

    ghost lawful = { pair_lookups-lawful };

    ghost alike = { λ j k v same h. tt };
}

impl<K: Eq, V> Unruled for (K, V) {
    ghost free = { λ k v. tt };
}

impl<K: Eq, V> Stored for SharedVersion<K, V> {
    type Value = V;

    ghost value_of = { λ e. e.1 };

    ghost allows = { λ _ _. Unit {0} };

    ghost lookups = { pair_lookups };

    ghost taking = { true };

    #[inline(always)]
    fn read(&self) -> (&K, &V) {
        let version = self.version();
        (version.key(), version.value())
    }

    #[inline(always)]
    fn insert_into<H: BuildHasher>(
        owned: &mut Owned<SharedVersion<K, V>, H>,
        hash: u64,
        key: K,
        value: V,
    ) -> Result<Place, (K, V)>
    where
        K: Hash,
    {
        owned.insert_new(hash, key, value)
    }

    ghost lawful = { pair_lookups-lawful };

    ghost alike = { λ j k v same h. tt };
}

impl<K: Eq, V> Unruled for SharedVersion<K, V> {
    ghost free = { λ k v. tt };
}

impl<K: Eq, V, R: Rule<K, V>> Stored for Ruled<K, V, R> {
    type Value = V;

    ghost value_of = { λ e. e.1 };

    ghost allows = { R.holds };

    ghost lookups = { pair_lookups };

    ghost taking = { false };

    #[inline(always)]
    fn read(&self) -> (&K, &V) {
        self.parts()
    }

    #[inline(always)]
    fn insert_into<H: BuildHasher>(
        owned: &mut Owned<Ruled<K, V, R>, H>,
        hash: u64,
        key: K,
        value: V,
    ) -> Result<Place, (K, V)>
    where
        K: Hash,
    {
        owned.insert_new(hash, key, value)
    }

    ghost lawful = { pair_lookups-lawful };

    ghost alike = { R.alike };
}

impl<K: Eq, V, R: Rule<K, V>> Stored for RuledVersion<K, V, R> {
    type Value = V;

    ghost value_of = { λ e. e.1 };

    ghost allows = { R.holds };

    ghost lookups = { pair_lookups };

    ghost taking = { true };

    #[inline(always)]
    fn read(&self) -> (&K, &V) {
        let version = self.version();
        (version.key(), version.value())
    }

    #[inline(always)]
    fn insert_into<H: BuildHasher>(
        owned: &mut Owned<RuledVersion<K, V, R>, H>,
        hash: u64,
        key: K,
        value: V,
    ) -> Result<Place, (K, V)>
    where
        K: Hash,
    {
        owned.insert_new(hash, key, value)
    }

    ghost lawful = { pair_lookups-lawful };

    ghost alike = { R.alike };
}

/// Takes the pair out of an entry that comes back from an insertion.
#[inline(always)]
pub(crate) fn pair_back<K: Eq, V, R: Rule<K, V>>(
    inserted: Result<Place, Ruled<K, V, R>>,
) -> Result<Place, (K, V)>
    ensures { result ≡ inserted }
{
    match inserted {
        Ok(place) => Ok(place),
        Err(entry) => Err(entry.into_pair()),
    }
}
