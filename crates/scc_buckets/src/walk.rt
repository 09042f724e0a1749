//! Walks over pairs and versions.

pub mod pairs;
pub mod versions;
