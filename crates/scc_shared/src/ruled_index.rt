//! What an index under a rule has of its own: the calls that store, hand out and take out versions, and snapshots. What
//! they store must keep the rule, and what they hand out keeps it.

mod calls;
mod make;
mod snapshots;
mod walks;

use crate::HashContainer;
use scc_common::RuledVersion;
pub use snapshots::RuledIter;
use std::hash::{BuildHasherDefault, FoldHasher};

/// An index from keys to versions that threads share by reference, each of whose versions keeps the rule `R`, also once a
/// reader keeps it and the index no longer has it. A rule is a kind of entry: this is the container of `HashIndex` at
/// another entry.
pub type RuledIndex<K, V, R, H = BuildHasherDefault<FoldHasher>> = HashContainer<
    RuledVersion<K, V, R>,
    H,
>;

/// Slots that are reserved in an index under a rule until this token is dropped. The drop waits for no lock.
pub type Reserve<'h, K, V, R, H = BuildHasherDefault<FoldHasher>> = crate::Reserve<
    'h,
    RuledVersion<K, V, R>,
    H,
>;
