//! Calls of a container of any kind and form, their results by numbers, and the plain list that they are compared
//! with.
#![tactic(auto)]

pub mod agreeing;
pub mod answers;
pub mod calls;
pub mod form;
pub mod list;
pub mod numbered;
pub mod owned;
pub mod token;
