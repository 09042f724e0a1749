//! One block of cells for entries, seen as a list of options. A cell doesn't say whether it holds an entry: its owner
//! has to know.
#![tactic(auto)]

mod cells;
mod row;

pub use cells::Cells;
#[doc(hidden)]
pub use row::{Right, Row, Start};
