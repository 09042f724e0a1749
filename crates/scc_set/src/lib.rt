//! What a user of the hash set names, and no more: `HashSet`, which threads share, `RuledSet`, which keeps a rule of its
//! keys, and `Owned`, for one owner, with their entries, their reservations and their errors. The entries of `Owned` are in
//! `owned`, those of `RuledSet` in `ruled`.
#![tactic(auto)]

pub mod ruled;

pub use scc_common::{Anything, KeyError, MakeError, Rule, Verdict, WalkError};
pub use scc_owned_set::{Owned, entry as owned};
pub use scc_shared_set::{HashSet, OccupiedEntry, Reserve, RuledSet};
pub use scc_table::Reservation;
