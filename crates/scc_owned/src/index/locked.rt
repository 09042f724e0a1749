//! The entries of a locked stripe of an index. An entry holds the lock of its stripe as long as the entry lives.

mod from_guard;
mod methods;
pub mod walk;

use crate::locked as generic;
pub use crate::locked::walk::first_later;
use scc_common::SharedVersion;
use std::hash::{BuildHasherDefault, FoldHasher};

/// The entry of a key. It holds the lock of its stripe.
pub type Entry<'a, K, V, H = BuildHasherDefault<FoldHasher>> = generic::Entry<
    'a,
    SharedVersion<K, V>,
    H,
>;

/// An occupied entry. It holds the lock of its stripe.
pub type OccupiedEntry<'a, K, V, H = BuildHasherDefault<FoldHasher>> = generic::OccupiedEntry<
    'a,
    SharedVersion<K, V>,
    H,
>;

/// A vacant entry: a key that its stripe lacks. It holds the lock of the stripe.
pub type VacantEntry<'a, K, V, H = BuildHasherDefault<FoldHasher>> = generic::VacantEntry<
    'a,
    SharedVersion<K, V>,
    H,
>;
