//! What a user of the hash index names, and no more: `HashIndex`, which threads share, `RuledIndex`, which keeps a rule,
//! and `Owned`, for one owner, with their versions, snapshots, entries, reservations and errors. The entries of `Owned` are
//! in `owned`, those of `RuledIndex` in `ruled`.
#![tactic(auto)]

pub mod ruled;

pub use scc_common::{Anything, InsertError, MakeError, Rule, TryInsertError, Version};
pub use scc_owned::index::locked::{Entry, OccupiedEntry, VacantEntry};
pub use scc_owned::index::{Iter, Owned, borrowed as owned};
pub use scc_shared::index::{HashIndex, Reserve};
pub use scc_shared::ruled_index::RuledIndex;
pub use scc_table::Reservation;
