//! The entries of a borrowed index.

mod methods;
mod walk;

use crate::Index;
use crate::held::{HeldEntry, HeldOccupied, HeldVacant};
use scc_common::SharedVersion;
pub use scc_common::snapshot::Iter;
use std::hash::{BuildHasherDefault, FoldHasher};

/// The entry of a key. It borrows the index.
pub type Entry<'a, K, V, H = BuildHasherDefault<FoldHasher>> = HeldEntry<
    &'a mut Index<K, V, H>,
    (),
    SharedVersion<K, V>,
    H,
>;

/// An occupied entry: the place of a version of the index.
pub type OccupiedEntry<'a, K, V, H = BuildHasherDefault<FoldHasher>> = HeldOccupied<
    &'a mut Index<K, V, H>,
    (),
    SharedVersion<K, V>,
    H,
>;

/// A vacant entry: a key that the index lacks, with its hash.
pub type VacantEntry<'a, K, V, H = BuildHasherDefault<FoldHasher>> = HeldVacant<
    &'a mut Index<K, V, H>,
    (),
    SharedVersion<K, V>,
    H,
    K,
>;
