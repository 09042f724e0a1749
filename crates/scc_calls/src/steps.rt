//! The steps of a history.

use std::fmt::Debug;

/// One step of a part: a call with its reply, or a resize.
#[derive(Clone, Copy, Debug, PartialEq)]
pub enum Step<A, R> {
    /// A call with its reply. `pass` is the number of the pass that made the call.
    Call {
        stamp: u64,
        pass: usize,
        call: A,
        reply: R,
    },
    /// A resize to `buckets` buckets.
    Resize {
        stamp: u64,
        buckets: usize,
    },
}
