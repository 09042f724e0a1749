//! `Form` for the containers under a rule, and cases that are tried in every form.
#![tactic(auto)]

pub mod every;
pub mod with_runtime;
