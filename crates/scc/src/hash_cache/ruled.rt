//! The entries of a cache under a rule.
pub use scc_cache::ruled::{Entry, OccupiedEntry, ReplaceResult, VacantEntry};
