//! The hash cache: `HashCache`, which threads share, `Owned`, for one owner, and `RuledCache`, which keeps a rule.

pub mod ruled;

pub use scc_cache::{
    DEFAULT_MAXIMUM_CAPACITY, Entry, EvictedEntry, HashCache, OccupiedEntry, Owned, ReplaceResult,
    RuledCache, VacantEntry, owned,
};
