//! The errors of the containers. Keys and values need `Debug` only when an error is printed.

use std::fmt::{Debug, Display};
use thiserror::Error;

/// Why a pair wasn't inserted. The pair is handed back, and the contents stay.
#[derive(Debug, Drop, Eq, Hash, PartialEq, Error)]
#[error_bound(K: Debug + Drop, V: Debug + Drop)]
pub enum InsertError<K, V> {
    /// A key equal to that of the pair is present.
    #[error("key exists")]
    Exists((K, V)),
    /// Memory that the insertion needs was refused.
    #[error("out of memory")]
    Memory((K, V)),
}

/// Why a key wasn't inserted. The key is handed back, and the contents stay.
#[derive(Debug, Drop, Eq, Hash, PartialEq, Error)]
#[error_bound(K: Debug + Drop)]
pub enum KeyError<K> {
    /// An equal key is present.
    #[error("key exists")]
    Exists(K),
    /// Memory that the insertion needs was refused.
    #[error("out of memory")]
    Memory(K),
}

/// Why a value that a closure makes wasn't inserted. The contents stay.
#[derive(Debug, Drop, Eq, Hash, PartialEq, Error)]
#[error_bound(K: Debug + Drop, V: Debug + Drop, E: Debug + Display + Drop)]
pub enum TryInsertError<K, V, E> {
    /// The closure failed with this error, and made no value. The key is dropped.
    #[error("{0}")]
    Failed(E),
    /// Memory that the insertion needs was refused. The pair is handed back.
    #[error("out of memory")]
    Memory((K, V)),
}

/// A container couldn't be made, because memory was refused or clones of two keys are equal. What it was to be made of
/// is unchanged.
#[derive(Clone, Copy, Debug, Eq, Hash, PartialEq, Error)]
#[error("out of memory")]
pub struct MakeError;

/// Memory for the list of taken pairs was refused. What the walk has done stays.
#[derive(Clone, Copy, Debug, Eq, Hash, PartialEq, Error)]
#[error("out of memory")]
pub struct WalkError;
