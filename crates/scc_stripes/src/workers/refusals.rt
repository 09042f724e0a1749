//! The error of a run of workers.

use std::fmt::Debug;
use std::io;
use thiserror::Error;

/// Why a run of workers ended early. Every started thread has ended when the error is returned. If there are several
/// causes, the error is the first of them in the order of the variants.
#[derive(Clone, Copy, Debug, PartialEq, Error)]
pub enum RunError {
    /// A thread was not started, because memory was refused or the machine started none.
    #[error("no thread")]
    Start,
    /// The gate gave up.
    #[error("gate gave up")]
    Gate,
    /// A turn returned false.
    #[error("worker stopped")]
    Stopped,
}

impl From<RunError> for io::Error {
    /// Returns an error of the kind `OutOfMemory` for `Start`, and of the kind `Other` for the rest.
    fn from(error: RunError) -> io::Error {
        match error {
            RunError::Start => io::Error::from(io::ErrorKind::OutOfMemory),
            RunError::Gate | RunError::Stopped => io::Error::from(io::ErrorKind::Other),
        }
    }
}
