//! The hash set: `HashSet`, which threads share, `Owned`, for one owner, and `RuledSet`, which keeps a rule.

pub mod ruled;

pub use scc_set::{HashSet, OccupiedEntry, Owned, Reserve, RuledSet, owned};
