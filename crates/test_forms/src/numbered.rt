//! What tests see of tokens: their numbers and marks.

use crate::token::Token;

/// A pair by its numbers: the key's number, the key's mark and the value's number, which is 0 in a set.
pub type Seen = (u64, u64, u64);

/// Returns the numbers of a pair.
pub fn seen(key: &Token, value: &Token) -> Seen {
    (key.number(), key.mark(), value.number())
}

/// Returns the numbers of a key of a set.
pub fn seen_key(key: &Token) -> Seen {
    (key.number(), key.mark(), 0)
}

/// Returns the numbers of a pair, if there is one.
pub fn seen_pair(pair: Option<(Token, Token)>) -> Option<Seen> {
    match pair {
        Some(pair) => Some(seen(&pair.0, &pair.1)),
        None => None,
    }
}

/// Returns the numbers of a key of a set, if there is one.
pub fn seen_lone(key: Option<Token>) -> Option<Seen> {
    match key {
        Some(key) => Some(seen_key(&key)),
        None => None,
    }
}

/// Returns the number of a value, if there is one.
pub fn number_of(value: Option<Token>) -> Option<u64> {
    match value {
        Some(value) => Some(value.number()),
        None => None,
    }
}

/// Returns the mark of a key, if there is one.
pub fn mark_of(key: Option<Token>) -> Option<u64> {
    match key {
        Some(key) => Some(key.mark()),
        None => None,
    }
}

/// Adds the numbers of `pairs` to `met`. Returns whether there was room.
pub fn note_pairs(pairs: &[(Token, Token)], met: &mut Vec<Seen>) -> bool {
    for pair in pairs {
        if met.push(seen(&pair.0, &pair.1)).is_err() {
            return false;
        }
    }
    true
}

/// Adds the numbers of `keys` to `met`, as `note_pairs` does for pairs.
pub fn note_keys(keys: &[Token], met: &mut Vec<Seen>) -> bool {
    for key in keys {
        if met.push(seen_key(key)).is_err() {
            return false;
        }
    }
    true
}

/// Adds 1 to the number of a value.
pub fn raise(value: &mut Token) {
    value.write(value.number().wrapping_add(1));
}

/// Adds 1 to the number of a value. Returns whether the number is even then.
pub fn raise_to_even(value: &mut Token) -> bool {
    raise(value);
    value.number() % 2 == 0
}

/// Returns the value with the number of `key`.
pub fn value_of(key: &Token, value: Token) -> Token {
    let mut made = value;
    made.write(key.number());
    made
}

/// Returns whether the number of `key` leaves another rest than `rest` when divided by 8.
pub fn keeps(key: &Token, rest: u64) -> bool {
    key.number() % 8 != rest
}
