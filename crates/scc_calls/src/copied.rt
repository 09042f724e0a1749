//! A reply with its copies.

use std::fmt::Debug;

/// The reply of a call, and two copies of it that were made before the call changed an entry.
#[derive(Clone, Copy, Debug, PartialEq)]
pub struct Copied<R> {
    pub reply: R,
    /// The copy for the history.
    pub noted: R,
    /// The copy for the caller's receipts.
    pub kept: R,
}
