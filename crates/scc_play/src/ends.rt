//! How a run of workers ends.

use std::fmt::Debug;

/// Why a run was not finished, by the errors of `finish`.
#[derive(Clone, Copy, Debug, PartialEq)]
pub enum Cause {
    /// A pass is missing.
    Missing,
    /// A call record stands in another stripe than the stripe of its key.
    Misrouted,
    /// A receipt differs from its record, or the receipts are not those of the script.
    Disagrees,
}

/// How a run of workers ended.
#[derive(Drop)]
pub enum End {
    /// All calls were made. This is the output.
    Played(String),
    /// The run was not finished.
    Unfinished(Cause),
    /// The run was finished, but what was recorded isn't what the script has.
    Differs,
}
