//! `Form` for the shared containers, and cases that are tried in every form.
#![tactic(auto)]

pub mod every;
pub mod with_runtime;
