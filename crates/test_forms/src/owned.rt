//! The owned containers as implementations of `Form`.

pub mod cache;
pub mod index;
pub mod map;
pub mod set;
