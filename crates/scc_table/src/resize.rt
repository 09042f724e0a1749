//! Resizes: another array is installed, and waiting buckets are relocated.

mod grow;
mod install;
mod relocate;
pub(crate) mod reserve;
mod shrink;
