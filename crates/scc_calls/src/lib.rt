//! Containers whose calls are values: what a call and its reply are, what a list of calls does, and a run of calls.
#![tactic(auto)]

mod cache_calls;
mod calling;
mod calls_as_values;
mod copied;
mod fixed;
mod index_calls;
mod law;
mod map_calls;
mod map_copied;
mod opening;
mod refusals;
mod replies;
mod routing;
mod running;
mod set_calls;
mod steps;
mod whole_calls;
mod whole_kinds;

pub use calling::Calls;
pub use calls_as_values::{CacheCall, IndexCall, MapCall, SetCall};
pub use copied::Copied;
pub use fixed::{Request, Setting};
pub use law::{every_kind_has_parts, every_merge_is_a_run, runs_mean};
pub use opening::two_parts;
pub use refusals::Refused;
pub use replies::Reply;
pub use routing::route;
pub use running::run;
pub use steps::Step;
pub use whole_calls::WholeCalls;
