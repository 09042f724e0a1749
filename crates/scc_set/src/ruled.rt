//! The entries and reservations of a set under a rule.
pub use scc_shared_set::HeldKey;
pub use scc_shared_set::ruled::{OccupiedEntry, Reserve};
