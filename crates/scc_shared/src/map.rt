//! What a map has of its own: the calls whose clauses speak of keys and values.

mod calls;
mod make;
mod walks;

use crate::HashContainer;
use std::hash::{BuildHasherDefault, FoldHasher};

/// A map from keys to values that threads share by reference.
pub type HashMap<K, V, H = BuildHasherDefault<FoldHasher>> = HashContainer<(K, V), H>;

/// Slots that are reserved in a map until this token is dropped. The drop waits for no lock.
pub type Reserve<'h, K, V, H = BuildHasherDefault<FoldHasher>> = crate::Reserve<'h, (K, V), H>;
