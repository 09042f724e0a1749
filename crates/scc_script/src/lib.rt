//! The grammar of scripts: what a line means, and what the whole text means.
#![tactic(auto)]

pub mod fields;
pub mod line;
pub mod lines;
pub mod names;
pub mod number;
pub mod same;
pub mod script;
