//! Walks from place to place, in the order of the entries.

mod pairs;
mod places;
