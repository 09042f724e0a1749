//! Random calls, equal in each run. They fill a container for a while, and then empty it.

use test_forms::answers::Kind;
use test_forms::calls::{DRASTIC, GENTLE, LOOKS, What, way_of};
use test_forms::form::Way;
use test_forms::list::List;
use test_forms::token::Token;
use test_kit::numbers::next;

/// A call, with a key and a value that it may need.
#[derive(Clone, Copy)]
pub struct Call {
    /// What it does.
    pub what: What,
    /// The number of its key.
    pub number: u64,
    /// The mark of its key, which no other call has.
    pub mark: u64,
    /// The number of its value.
    pub value: u64,
}

impl Call {
    /// Returns its key.
    pub(crate) fn key(&self) -> Token {
        Token::marked(self.number, self.mark)
    }
}

/// Draws calls. Keys are made from numbers up to a mask, or in turn from greater numbers. Their marks rise.
#[derive(Drop)]
pub struct Draws {
    seed: u64,
    made: u64,
    round: u64,
    mask: u64,
}

/// Returns one of `calls`, the one with the number `number` modulo their count.
fn one_of(calls: &[What], number: u64) -> What {
    let place = (number as usize).checked_rem(calls.len());
    match calls.get(place.unwrap_or(0)) {
        Some(what) => *what,
        None => What::Read,
    }
}

impl Draws {
    /// Returns the draws of a run of `calls` calls, in four rounds, on keys made from numbers up to `mask`.
    pub(crate) fn new(calls: u64, mask: u64) -> Draws {
        Draws {
            seed: mask,
            made: 0,
            round: calls / 4,
            mask,
        }
    }

    /// Returns whether calls fill the container: they do in the first three quarters of a round.
    fn fills(&self) -> bool {
        match self.made.checked_rem(self.round) {
            Some(place) => place < self.round / 4 * 3,
            None => true,
        }
    }

    /// Returns whether the next call is taken from the list of all gentle calls in turn. Every other call is, so that
    /// each gentle call is made.
    fn is_turn(&self) -> bool {
        self.made % 2 == 0
    }

    /// Draws what the next call does. A call that isn't taken in turn fills or empties the container. While buckets
    /// wait, most of these calls only look, so that the buckets go on waiting.
    fn what(&mut self, kind: Kind, fills: bool, waits: bool) -> What {
        let drawn = next(&mut self.seed);
        if self.is_turn() {
            return one_of(&GENTLE, self.made / 2);
        }
        if waits && drawn % 4 > 0 {
            return one_of(&LOOKS, drawn >> 8);
        }
        let way = way_of(drawn >> 8);
        match drawn % 16 {
            _ if fills && way.is_of(kind) => What::Add(way),
            _ if fills => What::Add(Way::Insert),
            _ if self.made % 16 == 1 => one_of(&DRASTIC, self.made / 16),
            0..=9 => What::Remove,
            _ => What::RemoveIf,
        }
    }

    /// Draws a key of the list or another one. Calls in turn get keys of the list for a while, and then keys that were
    /// never there. Other calls get a new key three times of four while the container is filled, then once of four.
    fn number(&mut self, list: &List, fills: bool) -> u64 {
        let drawn = next(&mut self.seed);
        let choice = next(&mut self.seed) % 4;
        let is_turn = self.is_turn();
        let is_new = if is_turn {
            self.made / 2 / 37 % 2 > 0
        } else if fills {
            choice > 0
        } else {
            choice == 0
        };
        let place = if is_turn {
            self.mask.wrapping_add(self.made)
        } else {
            drawn & self.mask
        };
        let other = place.wrapping_mul(0x9E37_79B9_7F4A_7C15);
        if is_new {
            other
        } else {
            list.some_number(drawn, other)
        }
    }

    /// Draws the next call. `list` has the pairs of the container, and `waits` says whether buckets wait.
    pub(crate) fn draw(&mut self, list: &List, waits: bool) -> Call {
        let fills = self.fills();
        let what = self.what(list.kind(), fills, waits);
        let number = self.number(list, fills);
        self.made = self.made.wrapping_add(1);
        Call {
            what,
            number,
            mark: self.made,
            value: next(&mut self.seed) % 1000,
        }
    }
}
