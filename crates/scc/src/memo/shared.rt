//! A memo that threads share, and that of a function that may fail.

pub use scc_memo::shared::{Memo, Pure, TryMemo, TryPure};
