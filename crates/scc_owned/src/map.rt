//! What a map has of its own: the calls whose clauses speak of keys and values, and the entries of a map.

pub mod borrowed;
mod calls;
mod clone_and_eq;
mod entry_calls;
mod hinted;
pub mod locked;
mod make;
mod places;
pub mod walk;

pub use crate::Map as Owned;
pub use crate::held::{HeldEntry, HeldOccupied, HeldReplace, HeldVacant};
pub use borrowed::{Entry, OccupiedEntry, ReplaceResult, VacantEntry};
pub use walk::sink::Sink;
