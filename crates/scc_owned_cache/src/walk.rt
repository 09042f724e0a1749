//! Walks over the pairs of a cache. No walk makes a pair more recent.

mod free;
mod read;
mod take;
mod write;
