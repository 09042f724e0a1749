//! The common parts of the benchmark programs: their arguments, the streams of keys and steps, the lines that they
//! print, and the memory that they hold.
#![tactic(auto)]

pub mod arguments;
pub mod report;
pub mod resident;
pub mod steps;
pub mod streams;
