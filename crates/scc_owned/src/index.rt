//! What an index has of its own: the calls whose clauses speak of keys and values, the entries of an index, and
//! snapshots.

pub mod borrowed;
mod calls;
mod clone_and_eq;
mod entry_calls;
mod hinted;
pub mod locked;
mod make;
mod places;
mod snapshots;
mod walk;

pub use crate::Index as Owned;
pub use crate::held::{HeldEntry, HeldOccupied, HeldVacant};
pub use borrowed::{Entry, OccupiedEntry, VacantEntry};
pub use scc_common::snapshot::Iter;
