//! The entries, snapshots and reservations of an index under a rule.
pub use scc_owned::ruled_index::locked::{Entry, OccupiedEntry, VacantEntry};
pub use scc_shared::ruled_index::{Reserve, RuledIter};
