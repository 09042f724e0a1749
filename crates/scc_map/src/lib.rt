//! What a user of the hash map names, and no more: `HashMap`, which threads share, `RuledMap`, which keeps a rule, and
//! `Owned`, for one owner, with their entries, their reservations and their errors. The entries of `Owned` are in `owned`,
//! those of `RuledMap` in `ruled`.
#![tactic(auto)]

pub mod ruled;

pub use scc_common::{Anything, InsertError, MakeError, Rule, TryInsertError, Verdict, WalkError};
pub use scc_owned::map::locked::{Entry, OccupiedEntry, ReplaceResult, VacantEntry};
pub use scc_owned::map::{Owned, Sink, borrowed as owned};
pub use scc_shared::map::{HashMap, Reserve};
pub use scc_shared::ruled_map::RuledMap;
pub use scc_table::Reservation;
