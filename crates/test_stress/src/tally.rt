//! What threads were told, added up.

use test_kit::numbers::next;

/// The number of keys that went in less those that came out, the sum of these keys, and whether memory was refused.
#[derive(Clone, Copy, Drop)]
pub struct Tally {
    number: u64,
    keys: u64,
    refused: bool,
}

/// The number of different keys in the calls.
const KEYS: u64 = 1000;

impl Tally {
    /// Returns a tally of nothing.
    pub(crate) fn new() -> Tally {
        Tally {
            number: 0,
            keys: 0,
            refused: false,
        }
    }

    /// Notes that `key` went in.
    pub(crate) fn add(&mut self, key: u64) {
        self.number = self.number.wrapping_add(1);
        self.keys = self.keys.wrapping_add(key);
    }

    /// Notes that `key` came out.
    pub(crate) fn subtract(&mut self, key: u64) {
        self.number = self.number.wrapping_sub(1);
        self.keys = self.keys.wrapping_sub(key);
    }

    /// Notes that a call failed because memory was refused.
    pub(crate) fn refuse(&mut self) {
        self.refused = true;
    }

    /// Adds the tally of another thread.
    pub(crate) fn join(&mut self, other: &Tally) {
        self.number = self.number.wrapping_add(other.number);
        self.keys = self.keys.wrapping_add(other.keys);
        self.refused = self.refused || other.refused;
    }

    /// Returns whether nothing is left over, and no memory was refused.
    pub(crate) fn is_even(&self) -> bool {
        self.number == 0 && self.keys == 0 && !self.refused
    }
}

/// A call: its kind, one of eight, and its key.
#[derive(Clone, Copy, Drop)]
pub struct Draw {
    pub kind: u64,
    pub key: u64,
}

/// Returns the next call.
pub(crate) fn draw_call(seed: &mut u64) -> Draw {
    let kind = next(seed) % 8;
    Draw {
        kind,
        key: next(seed) % KEYS,
    }
}
