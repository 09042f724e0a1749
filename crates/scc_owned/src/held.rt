//! An entry of a container: what a caller holds of a key after one search. It holds its container by a guard, which is a
//! `&mut` in the owned form, and is generic in the guard.
ghost use Rattle.scc_common.specs.Contents.{entries, key_hash, IsUniqueBy};
ghost use Rattle.scc_table.specs.Places.{IsPlace};
ghost use Rattle.std.specs.List.{IsDistinct-prop, position};
ghost use Rattle.std.specs.Prelude.{◌≡◌, None, map};

mod methods;

use crate::Owned;
use scc_buckets::Place;
use scc_common::{Guard, Keyed};
use std::hash::{BuildHasher, Hash};
use std::marker::PhantomData;

/// An occupied entry: the place of a pair of the container.
#[derive(Drop)]
pub struct HeldOccupied<G: Guard<Inner = Owned<E, H>>, N, E: Keyed, H: BuildHasher>
where
    E::Key: Eq + Hash,
{
    pub(crate) guard: G,
    pub(crate) place: Place,
    pub(crate) rest: N,
    pub(crate) of: PhantomData<(E, H)>,
    ghost within: { IsPlace (G.inner guard) place },
    ghost unique: { IsUniqueBy E.Key.eq E.key_of (G.inner guard) } by { IsDistinct-prop E.Key.eq (map E.key_of (entries (G.inner guard))) },
}

/// A vacant entry: a key that the container lacks, with its hash. The key has a type parameter of its own: the borrow
/// checker covers no `match` that takes an entry out of an enum whose variant has a field of an associated type, if that
/// type is `Copy`.
#[derive(Drop)]
pub struct HeldVacant<
    G: Guard<Inner = Owned<E, H>>,
    N,
    E: Keyed<Key = K>,
    H: BuildHasher,
    K: Eq + Hash,
> {
    pub(crate) guard: G,
    pub(crate) key: K,
    pub(crate) hash: u64,
    pub(crate) rest: N,
    pub(crate) of: PhantomData<(E, H)>,
    ghost absent: { position (λ e. K.eq key (E.key_of e)) (entries (G.inner guard)) ≡ None },
    ghost hashed: { hash ≡ key_hash H.BuildHasher H.Hasher.Hasher K.hash_input (G.inner guard) key },
    ghost unique: { IsUniqueBy K.eq E.key_of (G.inner guard) } by { IsDistinct-prop K.eq (map E.key_of (entries (G.inner guard))) },
}

/// The entry of a key, occupied or vacant.
#[derive(Drop)]
pub enum HeldEntry<G: Guard<Inner = Owned<E, H>>, N, E: Keyed, H: BuildHasher>
where
    E::Key: Eq + Hash,
{
    Occupied(HeldOccupied<G, N, E, H>),
    Vacant(HeldVacant<G, N, E, H, E::Key>),
}

/// The result of `replace_sync`: the entry with its new key and the old key, or the vacant entry of a key that the
/// container lacks.
#[derive(Drop)]
pub enum HeldReplace<G: Guard<Inner = Owned<E, H>>, N, E: Keyed, H: BuildHasher>
where
    E::Key: Eq + Hash,
{
    Replaced(HeldOccupied<G, N, E, H>, E::Key),
    NotReplaced(HeldVacant<G, N, E, H, E::Key>),
}

impl<G: Guard<Inner = Owned<E, H>>, N, E: Keyed, H: BuildHasher> HeldOccupied<G, N, E, H>
where
    E::Key: Eq + Hash,
{
    /// Makes the entry at a place of the container of `guard`.
    #[inline(always)]
    pub(crate) fn at(guard: G, place: Place, rest: N) -> Self
        requires within { IsPlace (G.inner guard) place }
        requires unique { IsUniqueBy E.Key.eq E.key_of (G.inner guard) }
        ensures guard { result.guard ≡ guard }
        ensures place { result.place ≡ place }
        ensures rest { result.rest ≡ rest }
    {
        HeldOccupied {
            guard,
            place,
            rest,
            of: PhantomData,
        }
    }
}

impl<G: Guard<Inner = Owned<E, H>>, N, E: Keyed<Key = K>, H: BuildHasher, K: Eq + Hash> HeldVacant<
    G,
    N,
    E,
    H,
    K,
> {
    /// Makes the entry of a key that the container of `guard` lacks, and whose hash is `hash`.
    #[inline(always)]
    pub(crate) fn of_key(guard: G, key: K, hash: u64, rest: N) -> Self
        requires absent { position (λ e. K.eq key (E.key_of e)) (entries (G.inner guard)) ≡ None }
        requires hashed { hash ≡ key_hash H.BuildHasher H.Hasher.Hasher K.hash_input (G.inner guard) key }
        requires unique { IsUniqueBy K.eq E.key_of (G.inner guard) }
        ensures guard { result.guard ≡ guard }
        ensures key { result.key ≡ key }
        ensures rest { result.rest ≡ rest }
    {
        HeldVacant {
            guard,
            key,
            hash,
            rest,
            of: PhantomData,
        }
    }
}
