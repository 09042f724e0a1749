//! What a map under a rule has of its own: the calls that store, write and take out pairs. The rule is an invariant of
//! each entry. So a call asks of what it stores or writes that it keeps the rule, and says of what it reads or takes out
//! that it does. A contract says it of a pair that the call has read: behind a lock it knows the type of the map alone.

mod calls;
mod entry_calls;
pub mod locked;
mod places;
mod walk;

use crate::Owned;
use scc_common::Ruled;
use std::hash::{BuildHasherDefault, FoldHasher};

/// A map each of whose pairs keeps the rule `R`.
pub type RuledMap<K, V, R, H = BuildHasherDefault<FoldHasher>> = Owned<Ruled<K, V, R>, H>;
