//! Walks over the pairs of a map.

mod read;
pub mod sink;
mod take;
mod write;
