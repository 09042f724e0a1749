//! The entries and reservations of a set under a rule.
pub use scc_set::ruled::{HeldKey, OccupiedEntry, Reserve};
