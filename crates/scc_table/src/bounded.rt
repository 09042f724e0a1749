//! The calls of a cache: lists of at most 32 entries, in order.

mod put;
mod resize;
mod search;
