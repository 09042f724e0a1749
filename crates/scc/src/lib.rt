//! Concurrent hash containers, under their public paths: each container's module, with its form under a rule, memos,
//! recorded containers with calls as values, workers on threads, and what they share.
#![tactic(auto)]

pub mod hash_cache;
pub mod hash_index;
pub mod hash_map;
pub mod hash_set;
pub mod hash_table;
pub mod memo;
pub mod recorded;
pub mod stripes;

pub use hash_cache::{HashCache, RuledCache};
pub use hash_index::{HashIndex, RuledIndex};
pub use hash_map::{HashMap, RuledMap};
pub use hash_set::{HashSet, RuledSet};
pub use scc_common::{
    Anything, InsertError, KeyError, MakeError, Rule, TryInsertError, Verdict, WalkError,
};
pub use scc_table::Reservation;
