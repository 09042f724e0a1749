//! The entries of a cache under a rule.
pub use scc_shared_cache::ruled::{Entry, OccupiedEntry, ReplaceResult, VacantEntry};
