//! Workers on threads of their own. Each makes its turns and passes a gate before each turn.

mod gate;
mod refusals;
#[cfg(test)]
mod starts;
mod threads;

pub use gate::{Gate, Open, Work};
pub use refusals::RunError;
pub use threads::run;
