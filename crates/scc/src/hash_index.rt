//! The hash index: `HashIndex`, which threads share, `Owned`, for one owner, and `RuledIndex`, which keeps a rule.

pub mod ruled;

pub use scc_index::{
    Entry, HashIndex, Iter, OccupiedEntry, Owned, Reserve, RuledIndex, VacantEntry, Version, owned,
};
