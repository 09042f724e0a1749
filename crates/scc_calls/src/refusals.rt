//! Why a call as a value was refused.

use std::alloc::AllocError;
use std::fmt::Debug;
use std::io;
use thiserror::Error;

/// Memory for a call or for a clone was refused. The entries are unchanged; one resize may have been made.
#[derive(Clone, Copy, Debug, PartialEq, Error)]
#[error("out of memory")]
pub struct Refused;

impl From<Refused> for io::Error {
    /// Returns an error of the kind `OutOfMemory`.
    fn from(_error: Refused) -> io::Error {
        io::Error::from(io::ErrorKind::OutOfMemory)
    }
}

impl From<AllocError> for Refused {
    /// Returns `Refused`.
    fn from(_error: AllocError) -> Refused {
        Refused
    }
}
