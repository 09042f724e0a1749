//! The entries of a borrowed map.

mod insertions;
mod methods;
mod walk;

use crate::Map;
use crate::held::{HeldEntry, HeldOccupied, HeldReplace, HeldVacant};
use std::hash::{BuildHasherDefault, FoldHasher};

/// The entry of a key. It borrows the map.
pub type Entry<'a, K, V, H = BuildHasherDefault<FoldHasher>> = HeldEntry<
    &'a mut Map<K, V, H>,
    (),
    (K, V),
    H,
>;

/// An occupied entry: the place of a pair of the map.
pub type OccupiedEntry<'a, K, V, H = BuildHasherDefault<FoldHasher>> = HeldOccupied<
    &'a mut Map<K, V, H>,
    (),
    (K, V),
    H,
>;

/// A vacant entry: a key that the map lacks, with its hash.
pub type VacantEntry<'a, K, V, H = BuildHasherDefault<FoldHasher>> = HeldVacant<
    &'a mut Map<K, V, H>,
    (),
    (K, V),
    H,
    K,
>;

/// The result of `replace_sync`: the entry with its new key and the old key, or the vacant entry of a key that the map
/// lacks.
pub type ReplaceResult<'a, K, V, H = BuildHasherDefault<FoldHasher>> = HeldReplace<
    &'a mut Map<K, V, H>,
    (),
    (K, V),
    H,
>;
