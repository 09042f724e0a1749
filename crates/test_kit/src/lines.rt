//! A line for each case, and its status.
ghost use Rattle.std.specs.Prelude.{◌≡◌, true, Ok};

use std::alloc::AllocError;

/// The case held.
pub const HELD: u8 = 0;

/// A result or the contents were wrong.
pub const WRONG: u8 = 1;

/// Memory was refused, or the line could not be written.
pub const REFUSED: u8 = 3;

/// Prints what became of a case. Returns its status, which is `HELD` only if the case held.
pub fn say<R: Print>(rt: &R, what: &str, how: &str, outcome: Result<bool, AllocError>) -> u8
    ensures { result ≡ 0 → outcome ≡ Ok true }
{
    let (text, status) = match outcome {
        Ok(true) => ("holds", HELD),
        Ok(false) => ("WRONG", WRONG),
        Err(_) => ("no memory", REFUSED),
    };
    match println!(rt; "{what}, {how}: {text}") {
        Ok(()) => status,
        Err(_) => REFUSED,
    }
}
