//! The entries and reservations of a map under a rule.
pub use scc_owned::ruled_map::locked::{Entry, OccupiedEntry, ReplaceResult, VacantEntry};
pub use scc_shared::ruled_map::Reserve;
