//! Removals from a table of two arrays.

mod at_place;
mod by_key;
