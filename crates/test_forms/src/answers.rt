//! What calls on a container return, by numbers.

use crate::form::Way;
use crate::numbered::{Seen, keeps, raise, seen, seen_key, value_of};
use crate::token::Token;
use scc_common::{InsertError, KeyError, MakeError, TryInsertError, Verdict};

/// A kind of container.
#[derive(Clone, Copy, Debug, PartialEq)]
pub enum Kind {
    /// Pairs.
    Map,
    /// Keys.
    Set,
    /// Versions.
    Index,
    /// Pairs by recency, at most 32 a bucket.
    Cache,
}

impl Kind {
    /// Returns whether the kind shows values.
    pub fn shows_values(self) -> bool {
        self != Kind::Set
    }

    /// Returns whether closures may write the values of the kind.
    pub fn writes_values(self) -> bool {
        matches!(self, Kind::Map | Kind::Cache)
    }
}

/// What a call returned. Numbers stand for a pair.
#[derive(Clone, Copy, Debug, PartialEq)]
pub enum Answer {
    /// The kind has no such call.
    Absent,
    /// The look-ups that make up the call contradict each other.
    Wrong,
    /// Memory was refused. The pair came back, or the value with the key of its entry.
    Refused(Option<Seen>),
    /// The closure that makes the value failed with this number.
    Failed(u64),
    /// An equal key is there. The supplied pair or key came back.
    Exists(Seen),
    /// The pair was added, and evicted the given pair, if any.
    Added(Option<Seen>),
    /// The number of the key's old value, if the key was there.
    Old(Option<u64>),
    /// The mark of the replaced key, if one was there, and the new pair, if the kind returns its entry.
    Swapped(Option<u64>, Option<Seen>),
    /// The evicted pair, if any, and the pair of the entry.
    Entry(Option<Seen>, Seen),
    /// The pair, if the key was there.
    Found(Option<Seen>),
    /// The entry was vacant, and returned the key with the given number and mark.
    Vacant(u64, u64),
    /// The removed pair, and the pair of the next entry.
    Gone(Seen, Option<Seen>),
    /// The result of a call that returns yes or no.
    Yes(bool),
    /// The bucket of a key, and whether the bucket has room.
    Place(usize, bool),
    /// The number of reserved slots, and the capacity and the minimum with the reservation.
    Reserved(usize, usize, usize),
}

/// Returns the answer for an insertion that failed.
pub fn refused(error: InsertError<Token, Token>) -> Answer {
    match error {
        InsertError::Exists(pair) => Answer::Exists(seen(&pair.0, &pair.1)),
        InsertError::Memory(pair) => Answer::Refused(Some(seen(&pair.0, &pair.1))),
    }
}

/// Returns the answer for an insertion that failed, or whose value wasn't made.
pub fn untried(error: TryInsertError<Token, Token, u64>) -> Answer {
    match error {
        TryInsertError::Failed(number) => Answer::Failed(number),
        TryInsertError::Memory(pair) => Answer::Refused(Some(seen(&pair.0, &pair.1))),
    }
}

/// Returns what a closure returns that gets a key and may fail: the value with the key's number or, by `OrFail`, that
/// number as its error.
pub fn tried(way: Way, key: &Token, value: Token) -> Result<Token, u64> {
    match way {
        Way::OrFail => Err(key.number()),
        _ => Ok(value_of(key, value)),
    }
}

/// Returns the answer for an insertion of a key that failed.
pub fn refused_key(error: KeyError<Token>) -> Answer {
    match error {
        KeyError::Exists(key) => Answer::Exists(seen_key(&key)),
        KeyError::Memory(key) => Answer::Refused(Some(seen_key(&key))),
    }
}

/// Returns the answer for a preparation of an insertion.
pub fn prepared(made: Result<(), MakeError>) -> Answer {
    match made {
        Ok(()) => Answer::Yes(true),
        Err(_) => Answer::Refused(None),
    }
}

/// Returns what a walk returns that adds pairs to a list: `Yes`, or `Refused` if the list had no room.
pub fn walked(had_room: bool) -> Answer {
    if had_room {
        Answer::Yes(true)
    } else {
        Answer::Refused(None)
    }
}

/// What the closure of a walk that may take pairs does.
#[derive(Clone, Copy, Debug, PartialEq)]
pub enum Rule {
    /// Adds 1 to each value, and takes the pairs whose key's number leaves the given rest when divided by 8.
    Rest(u64),
    /// Writes 9 and returns the given verdict, whatever the pair.
    Always(Verdict),
}

/// Writes `value` by `rule`, and returns the verdict on the pair.
pub fn verdict(rule: Rule, key: &Token, value: &mut Token) -> Verdict {
    match rule {
        Rule::Rest(_) => raise(value),
        Rule::Always(_) => value.write(9),
    }
    key_verdict(rule, key)
}

/// Returns the verdict on a key, as `verdict` does for a pair.
pub fn key_verdict(rule: Rule, key: &Token) -> Verdict {
    match rule {
        Rule::Rest(rest) => {
            if keeps(key, rest) {
                Verdict::Keep
            } else {
                Verdict::Take
            }
        }
        Rule::Always(verdict) => verdict,
    }
}

/// Adds 1 to the value. Returns whether the key's number leaves another rest than `rest` when divided by 8.
pub fn raise_and_keep(key: &Token, value: &mut Token, rest: u64) -> bool {
    raise(value);
    keeps(key, rest)
}
