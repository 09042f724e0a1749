//! Insertions of new keys into a table of two arrays.

mod attempts;
mod prepare;
