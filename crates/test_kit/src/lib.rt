//! What the tests of all crates use: hashers, keys, numbers, calls that outlast refused memory, and lines.
#![tactic(auto)]

pub mod flags;
pub mod lines;
pub mod masked;
pub mod maybe_equal;
pub mod numbers;
pub mod refusals;
pub mod zero;
