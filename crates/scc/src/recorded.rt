//! Calls as values and their runs; containers that threads share and that record their calls, the passes of their
//! callers, and what a finished run was; a hasher with several owners.

pub use scc_calls::{
    CacheCall, Calls, Copied, IndexCall, MapCall, Refused, Reply, Request, SetCall, Setting, Step,
    WholeCalls, every_merge_is_a_run, route, run, runs_mean,
};
pub use scc_common::{CloneOwner, Shared};
pub use scc_history::{CallError, Log, Receipt, Stripe, count_all_calls, count_calls};
pub use scc_recorded::{
    Closed, CountedStripe, FinishError, Finished, Pass, Recorded, Setup, Site, Unfinished,
};
