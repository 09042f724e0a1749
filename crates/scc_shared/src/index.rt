//! What an index has of its own: the calls whose clauses speak of keys and values, and snapshots.

mod calls;
mod make;
mod walks;

use crate::HashContainer;
use scc_common::SharedVersion;
use std::hash::{BuildHasherDefault, FoldHasher};

/// An index from keys to versions that threads share by reference. A version never changes, and readers may keep it.
pub type HashIndex<K, V, H = BuildHasherDefault<FoldHasher>> = HashContainer<
    SharedVersion<K, V>,
    H,
>;

/// Slots that are reserved in an index until this token is dropped. The drop waits for no lock.
pub type Reserve<'h, K, V, H = BuildHasherDefault<FoldHasher>> = crate::Reserve<
    'h,
    SharedVersion<K, V>,
    H,
>;
