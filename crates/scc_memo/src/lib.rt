//! Memos: pure functions with caches of their values. `Memo` is for one owner; in `shared` are the memos that threads share.
#![tactic(auto)]

mod owned;
pub mod shared;

pub use owned::{Memo, Pure};
pub use scc_common::MakeError;
