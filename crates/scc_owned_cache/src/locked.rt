//! The entries of a locked stripe. An entry holds the lock of its stripe as long as the entry lives.

mod from_guard;
mod insertions;
mod methods;

use crate::Owned;
use crate::held::{HeldEntry, HeldOccupied, HeldReplace, HeldVacant};
use scc_common::{Anything, Shared};
use scc_stripes::Seat;
use std::hash::{BuildHasherDefault, FoldHasher};
use std::sync::RwLockWriteGuard;

/// The entry of a key. It holds the lock of its stripe.
pub type Entry<'a, K, V, H = BuildHasherDefault<FoldHasher>, R = Anything> = HeldEntry<
    RwLockWriteGuard<'a, Owned<K, V, Shared<H>, R>>,
    Seat<'a, Owned<K, V, Shared<H>, R>, H>,
    K,
    V,
    Shared<H>,
    R,
>;

/// An occupied entry. It holds the lock of its stripe.
pub type OccupiedEntry<'a, K, V, H = BuildHasherDefault<FoldHasher>, R = Anything> = HeldOccupied<
    RwLockWriteGuard<'a, Owned<K, V, Shared<H>, R>>,
    Seat<'a, Owned<K, V, Shared<H>, R>, H>,
    K,
    V,
    Shared<H>,
    R,
>;

/// A vacant entry: a key that its stripe lacks. It holds the lock of the stripe.
pub type VacantEntry<'a, K, V, H = BuildHasherDefault<FoldHasher>, R = Anything> = HeldVacant<
    RwLockWriteGuard<'a, Owned<K, V, Shared<H>, R>>,
    Seat<'a, Owned<K, V, Shared<H>, R>, H>,
    K,
    V,
    Shared<H>,
    R,
>;

/// The result of `replace_sync`: the entry with its new key and the old key, or the vacant entry of a key that the
/// stripe lacks.
pub type ReplaceResult<'a, K, V, H = BuildHasherDefault<FoldHasher>, R = Anything> = HeldReplace<
    RwLockWriteGuard<'a, Owned<K, V, Shared<H>, R>>,
    Seat<'a, Owned<K, V, Shared<H>, R>, H>,
    K,
    V,
    Shared<H>,
    R,
>;
