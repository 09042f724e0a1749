//! What a user of the hash cache names, and no more: `HashCache`, which threads share, `RuledCache`, which keeps a rule,
//! and `Owned`, for one owner, with their entries and their errors. The entries of `Owned` are in `owned`, those of
//! `RuledCache` in `ruled`.
#![tactic(auto)]

pub mod ruled;

pub use scc_common::{Anything, InsertError, MakeError, Rule, TryInsertError, Verdict, WalkError};
pub use scc_owned_cache::locked::{Entry, OccupiedEntry, ReplaceResult, VacantEntry};
pub use scc_owned_cache::{DEFAULT_MAXIMUM_CAPACITY, EvictedEntry, Owned, borrowed as owned};
pub use scc_shared_cache::{HashCache, RuledCache};
