//! The entries of a locked stripe of a map. An entry holds the lock of its stripe as long as the entry lives.

mod from_guard;
mod insertions;
mod methods;
pub mod walk;

use crate::held::HeldReplace;
use crate::locked as generic;
pub use crate::locked::walk::first_later;
use scc_common::Shared;
use std::hash::{BuildHasherDefault, FoldHasher};

/// The entry of a key. It holds the lock of its stripe.
pub type Entry<'a, K, V, H = BuildHasherDefault<FoldHasher>> = generic::Entry<'a, (K, V), H>;

/// An occupied entry. It holds the lock of its stripe.
pub type OccupiedEntry<'a, K, V, H = BuildHasherDefault<FoldHasher>> = generic::OccupiedEntry<
    'a,
    (K, V),
    H,
>;

/// A vacant entry: a key that its stripe lacks. It holds the lock of the stripe.
pub type VacantEntry<'a, K, V, H = BuildHasherDefault<FoldHasher>> = generic::VacantEntry<
    'a,
    (K, V),
    H,
>;

/// The result of `replace_sync`: the entry with its new key and the old key, or the vacant entry of a key that the
/// stripe lacks.
pub type ReplaceResult<'a, K, V, H = BuildHasherDefault<FoldHasher>> = HeldReplace<
    generic::Lock<'a, (K, V), H>,
    generic::StripeSeat<'a, (K, V), H>,
    (K, V),
    Shared<H>,
>;
