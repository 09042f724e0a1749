//! The entries of a cache under a rule. Each holds the lock of its stripe, and lends its value to read alone: what
//! writes to it is a call, which has to keep the rule.
use scc_common::Under;
use scc_owned_cache::locked;
use std::hash::{BuildHasherDefault, FoldHasher};

/// The entry of a key, occupied or vacant.
pub type Entry<'a, K, V, R, H = BuildHasherDefault<FoldHasher>> = locked::Entry<
    'a,
    K,
    V,
    H,
    Under<R>,
>;

/// An occupied entry: the place of a pair.
pub type OccupiedEntry<'a, K, V, R, H = BuildHasherDefault<FoldHasher>> = locked::OccupiedEntry<
    'a,
    K,
    V,
    H,
    Under<R>,
>;

/// A vacant entry: a key that its stripe lacks.
pub type VacantEntry<'a, K, V, R, H = BuildHasherDefault<FoldHasher>> = locked::VacantEntry<
    'a,
    K,
    V,
    H,
    Under<R>,
>;

/// The result of `replace_sync`: the entry with its new key and the old key, or the vacant entry of a key that the
/// stripe lacks.
pub type ReplaceResult<'a, K, V, R, H = BuildHasherDefault<FoldHasher>> = locked::ReplaceResult<
    'a,
    K,
    V,
    H,
    Under<R>,
>;
