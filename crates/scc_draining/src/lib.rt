//! The moves of the entries of one bucket from an old array to a new one, for the table of two arrays: the moves below
//! a relocation, the steps from entry to entry in an old array, new arrays whose buckets wait, and `Draining`, an old
//! array with the flags of the buckets that wait.
#![tactic(auto)]

mod count;
mod draining;
mod make;
mod relocate;
mod waiting;
mod walk;

pub use count::{count_destined, has_no_room};
pub use draining::Draining;
pub use make::{fresh_waiting, insert_clones_of};
pub use relocate::move_target;
