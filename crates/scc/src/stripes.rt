//! Workers on threads of their own. Each makes its turns and passes a gate before each turn.

pub use scc_stripes::workers::{Gate, Open, RunError, Work, run};
