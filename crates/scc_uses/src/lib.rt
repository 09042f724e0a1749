//! Uses of the owned map, set, index and cache, as a caller writes them. Each contract speaks of what a look-up finds
//! or a run answers. Its proof cites nothing but the contracts of the containers and of runs, and their callers'
//! lemmas.
#![tactic(auto)]

mod alike;
pub mod audits;
pub mod chain;
pub mod configs;
pub mod counts;
pub mod difference;
pub mod distinct;
pub mod evaluator;
pub mod fresh;
pub mod index_counts;
pub mod interner;
pub mod marks;
pub mod memo;
pub mod mirror;
pub mod mirror_indexes;
pub mod mirror_sets;
pub mod named_sessions;
pub mod parts;
pub mod prepared;
pub mod recent_counts;
pub mod request_cache;
pub mod requests;
pub mod routing;
pub mod ruled;
pub mod ruled_cache;
pub mod ruled_index;
pub mod ruled_set;
pub mod session_store;
pub mod sessions;
pub mod shared_interner;
pub mod shared_memo;
pub mod shared_requests;
pub mod shared_routing;
pub mod snapshots;
