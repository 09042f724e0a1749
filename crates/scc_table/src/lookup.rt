//! Look-ups, and reads and writes of the entries that they find. None of them changes a place.

pub(crate) mod hinted;
mod read;
pub(crate) mod search;
mod write;
