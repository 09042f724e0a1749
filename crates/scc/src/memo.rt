//! A memo: a pure function with a cache of its values, for one owner.

pub mod shared;

pub use scc_memo::{Memo, Pure};
