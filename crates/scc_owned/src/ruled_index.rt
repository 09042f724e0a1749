//! What an index under a rule has of its own: the calls that store, hand out and take out versions. The rule is an
//! invariant of each entry, as in `ruled_map`.

mod calls;
mod entry_calls;
pub mod locked;
mod places;
mod snapshots;
mod walk;

use crate::Owned;
use scc_common::RuledVersion;
use std::hash::{BuildHasherDefault, FoldHasher};

/// An index each of whose versions keeps the rule `R`.
pub type RuledIndex<K, V, R, H = BuildHasherDefault<FoldHasher>> = Owned<RuledVersion<K, V, R>, H>;
