//! The entries and reservations of a map under a rule.
pub use scc_map::ruled::{Entry, OccupiedEntry, ReplaceResult, Reserve, VacantEntry};
