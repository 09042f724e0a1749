//! The entries of a locked stripe of a map under a rule. An entry holds the lock of its stripe as long as the entry
//! lives.

mod from_guard;
mod methods;

use crate::held::HeldReplace;
use crate::locked as generic;
use scc_common::{Ruled, Shared};
use std::hash::{BuildHasherDefault, FoldHasher};

/// The entry of a key. It holds the lock of its stripe.
pub type Entry<'a, K, V, R, H = BuildHasherDefault<FoldHasher>> = generic::Entry<
    'a,
    Ruled<K, V, R>,
    H,
>;

/// An occupied entry. It holds the lock of its stripe.
pub type OccupiedEntry<'a, K, V, R, H = BuildHasherDefault<FoldHasher>> = generic::OccupiedEntry<
    'a,
    Ruled<K, V, R>,
    H,
>;

/// A vacant entry: a key that its stripe lacks. It holds the lock of the stripe.
pub type VacantEntry<'a, K, V, R, H = BuildHasherDefault<FoldHasher>> = generic::VacantEntry<
    'a,
    Ruled<K, V, R>,
    H,
>;

/// The result of `replace_sync`: the entry with its new key and the old key, or the vacant entry of a key that the
/// stripe lacks.
pub type ReplaceResult<'a, K, V, R, H = BuildHasherDefault<FoldHasher>> = HeldReplace<
    generic::Lock<'a, Ruled<K, V, R>, H>,
    generic::StripeSeat<'a, Ruled<K, V, R>, H>,
    Ruled<K, V, R>,
    Shared<H>,
>;
