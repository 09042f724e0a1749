//! The entries of a borrowed cache.

mod insertions;
mod methods;

use crate::Owned;
use crate::held::{HeldEntry, HeldOccupied, HeldReplace, HeldVacant};
use scc_common::Anything;
use std::hash::{BuildHasherDefault, FoldHasher};

/// The entry of a key. It borrows the cache.
pub type Entry<'a, K, V, H = BuildHasherDefault<FoldHasher>, R = Anything> = HeldEntry<
    &'a mut Owned<K, V, H, R>,
    (),
    K,
    V,
    H,
    R,
>;

/// An occupied entry: the place of a pair of the cache.
pub type OccupiedEntry<'a, K, V, H = BuildHasherDefault<FoldHasher>, R = Anything> = HeldOccupied<
    &'a mut Owned<K, V, H, R>,
    (),
    K,
    V,
    H,
    R,
>;

/// A vacant entry: a key that the cache lacks, with its hash.
pub type VacantEntry<'a, K, V, H = BuildHasherDefault<FoldHasher>, R = Anything> = HeldVacant<
    &'a mut Owned<K, V, H, R>,
    (),
    K,
    V,
    H,
    R,
>;

/// The result of `replace_sync`: the entry with its new key and the old key, or the vacant entry of a key that the
/// cache lacks.
pub type ReplaceResult<'a, K, V, H = BuildHasherDefault<FoldHasher>, R = Anything> = HeldReplace<
    &'a mut Owned<K, V, H, R>,
    (),
    K,
    V,
    H,
    R,
>;
