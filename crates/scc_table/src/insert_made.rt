//! Insertions of an entry that the insertion makes of its parts.

mod attempts;
mod double;
