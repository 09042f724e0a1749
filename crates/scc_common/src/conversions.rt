//! The errors of the containers as errors of programs, for `?`.
ghost use Rattle.std.specs.IoError.{error_kind};
ghost use Rattle.scc_common.specs.ErrorKinds.{InsertKind, KeyKind};
ghost use Rattle.std.specs.declared.io.ErrorKind.TheVariants.{OutOfMemory};
ghost use Rattle.std.specs.Prelude.{◌≡◌};

use crate::errors::{InsertError, KeyError, MakeError, WalkError};
use std::alloc::AllocError;
use std::io;

impl From<MakeError> for AllocError {
    fn from(_error: MakeError) -> AllocError {
        AllocError
    }
}

impl From<WalkError> for AllocError {
    fn from(_error: WalkError) -> AllocError {
        AllocError
    }
}

impl From<MakeError> for io::Error {
    ghost from_gives = { λ _ e. error_kind e ≡ OutOfMemory };

    /// Returns an error of the kind `OutOfMemory`.
    fn from(_error: MakeError) -> io::Error {
        io::Error::from(io::ErrorKind::OutOfMemory)
    }
}

impl From<WalkError> for io::Error {
    ghost from_gives = { λ _ e. error_kind e ≡ OutOfMemory };

    /// Returns an error of the kind `OutOfMemory`.
    fn from(_error: WalkError) -> io::Error {
        io::Error::from(io::ErrorKind::OutOfMemory)
    }
}

impl<K: Drop, V: Drop> From<InsertError<K, V>> for io::Error {
    ghost from_gives = { λ refusal e. InsertKind refusal (error_kind e) };

    /// Drops the pair, and returns an error of the kind `AlreadyExists` or `OutOfMemory`.
    fn from(error: InsertError<K, V>) -> io::Error {
        match error {
            InsertError::Exists(_) => io::Error::from(io::ErrorKind::AlreadyExists),
            InsertError::Memory(_) => io::Error::from(io::ErrorKind::OutOfMemory),
        }
    }
}

impl<K: Drop> From<KeyError<K>> for io::Error {
    ghost from_gives = { λ refusal e. KeyKind refusal (error_kind e) };

    /// Drops the key, and returns an error of the kind `AlreadyExists` or `OutOfMemory`.
    fn from(error: KeyError<K>) -> io::Error {
        match error {
            KeyError::Exists(_) => io::Error::from(io::ErrorKind::AlreadyExists),
            KeyError::Memory(_) => io::Error::from(io::ErrorKind::OutOfMemory),
        }
    }
}
