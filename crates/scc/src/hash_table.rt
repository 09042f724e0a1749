//! The table of the containers, the buckets of one array, and what an entry of a table is.

pub mod bucket;

pub use scc_array::tags;
pub use scc_buckets::Place;
pub use scc_common::{Keyed, Made, SharedVersion, Valued, Version};
pub use scc_table::Table;
