//! The buckets of one array. A call names a bucket by its number. A contract sees each bucket as a list of entries
//! with their tags.

pub use scc_array::{Array, tags};
pub use scc_buckets::Buckets;
