//! The entries, snapshots and reservations of an index under a rule.
pub use scc_index::ruled::{Entry, OccupiedEntry, Reserve, RuledIter, VacantEntry};
