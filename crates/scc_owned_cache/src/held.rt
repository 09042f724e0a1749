//! An entry of a cache: what a caller holds of a key after one search. It holds its cache by a guard, which is a
//! `&mut` in the owned form, and is generic in the guard.
ghost use Rattle.scc_owned_cache.specs.CacheSteps.{IsLacking};
ghost use Rattle.scc_common.specs.Contents.{key_hash};
ghost use Rattle.scc_table.specs.Places.{IsPlace};
ghost use Rattle.std.specs.Prelude.{◌≡◌};

mod lent;
mod methods;

use crate::Owned;
use scc_buckets::Place;
use scc_common::{Guard, Rule};
use std::hash::{BuildHasher, Hash};
use std::marker::PhantomData;

/// An occupied entry: the place of a pair of the cache.
#[derive(Drop)]
pub struct HeldOccupied<
    G: Guard<Inner = Owned<K, V, H, R>>,
    N,
    K: Eq + Hash,
    V,
    H: BuildHasher,
    R: Rule<K, V>,
> {
    pub(crate) guard: G,
    pub(crate) place: Place,
    pub(crate) rest: N,
    pub(crate) of: PhantomData<(K, V, H, R)>,
    ghost within: { IsPlace (G.inner guard).contents place },
}

/// A vacant entry: a key that the cache lacks, with its hash.
#[derive(Drop)]
pub struct HeldVacant<
    G: Guard<Inner = Owned<K, V, H, R>>,
    N,
    K: Eq + Hash,
    V,
    H: BuildHasher,
    R: Rule<K, V>,
> {
    pub(crate) guard: G,
    pub(crate) key: K,
    pub(crate) hash: u64,
    pub(crate) rest: N,
    pub(crate) of: PhantomData<(V, H, R)>,
    ghost lacking: { IsLacking (key_hash H.BuildHasher H.Hasher.Hasher K.hash_input (G.inner guard).contents) K.eq
        (G.inner guard).contents key },
    ghost hashed: { hash ≡ key_hash H.BuildHasher H.Hasher.Hasher K.hash_input (G.inner guard).contents key },
}

/// The entry of a key, occupied or vacant.
#[derive(Drop)]
pub enum HeldEntry<
    G: Guard<Inner = Owned<K, V, H, R>>,
    N,
    K: Eq + Hash,
    V,
    H: BuildHasher,
    R: Rule<K, V>,
> {
    Occupied(HeldOccupied<G, N, K, V, H, R>),
    Vacant(HeldVacant<G, N, K, V, H, R>),
}

/// The result of `replace_sync`: the entry with its new key and the old key, or the vacant entry of a key that the
/// cache lacks.
#[derive(Drop)]
pub enum HeldReplace<
    G: Guard<Inner = Owned<K, V, H, R>>,
    N,
    K: Eq + Hash,
    V,
    H: BuildHasher,
    R: Rule<K, V>,
> {
    Replaced(HeldOccupied<G, N, K, V, H, R>, K),
    NotReplaced(HeldVacant<G, N, K, V, H, R>),
}

impl<
    G: Guard<Inner = Owned<K, V, H, R>>,
    N,
    K: Eq + Hash,
    V,
    H: BuildHasher,
    R: Rule<K, V>,
> HeldOccupied<G, N, K, V, H, R> {
    /// Makes the entry at a place of the cache of `guard`.
    #[inline(always)]
    pub(crate) fn at(guard: G, place: Place, rest: N) -> Self
        requires { IsPlace (G.inner guard).contents place }
        ensures guard { result.guard ≡ guard }
        ensures place { result.place ≡ place }
        ensures rest { result.rest ≡ rest }
    {
        HeldOccupied {
            guard,
            place,
            rest,
            of: PhantomData,
        }
    }
}

impl<
    G: Guard<Inner = Owned<K, V, H, R>>,
    N,
    K: Eq + Hash,
    V,
    H: BuildHasher,
    R: Rule<K, V>,
> HeldVacant<G, N, K, V, H, R> {
    /// Makes the entry of a key that the cache of `guard` lacks, and whose hash is `hash`.
    #[inline(always)]
    pub(crate) fn of_key(guard: G, key: K, hash: u64, rest: N) -> Self
        requires lacking { IsLacking (key_hash H.BuildHasher H.Hasher.Hasher K.hash_input (G.inner guard).contents) K.eq
            (G.inner guard).contents key }
        requires hashed { hash ≡ key_hash H.BuildHasher H.Hasher.Hasher K.hash_input (G.inner guard).contents key }
        ensures guard { result.guard ≡ guard }
        ensures key { result.key ≡ key }
        ensures rest { result.rest ≡ rest }
    {
        HeldVacant {
            guard,
            key,
            hash,
            rest,
            of: PhantomData,
        }
    }
}
