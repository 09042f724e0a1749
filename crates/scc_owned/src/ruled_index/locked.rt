//! The entries of a locked stripe of an index under a rule. An entry holds the lock of its stripe as long as the entry
//! lives.

mod from_guard;
mod methods;

use crate::locked as generic;
use scc_common::RuledVersion;
use std::hash::{BuildHasherDefault, FoldHasher};

/// The entry of a key. It holds the lock of its stripe.
pub type Entry<'a, K, V, R, H = BuildHasherDefault<FoldHasher>> = generic::Entry<
    'a,
    RuledVersion<K, V, R>,
    H,
>;

/// An occupied entry. It holds the lock of its stripe.
pub type OccupiedEntry<'a, K, V, R, H = BuildHasherDefault<FoldHasher>> = generic::OccupiedEntry<
    'a,
    RuledVersion<K, V, R>,
    H,
>;

/// A vacant entry: a key that its stripe lacks. It holds the lock of the stripe.
pub type VacantEntry<'a, K, V, R, H = BuildHasherDefault<FoldHasher>> = generic::VacantEntry<
    'a,
    RuledVersion<K, V, R>,
    H,
>;
