//! `Form` for the index under a rule.

use crate::with_runtime::Held;
use scc_common::{Anything, InsertError, TryInsertError};
use scc_owned::ruled_index::locked::{Entry, OccupiedEntry};
use scc_shared::ruled_index::RuledIndex;
use std::sync::Wait;
use test_forms::answers::{Answer, Kind, refused, tried, untried, walked};
use test_forms::form::{Act, At, Form, Sizes, Way};
use test_forms::numbered::{Seen, keeps, seen, value_of};
use test_forms::token::Token;
use test_kit::masked::Masked;

/// Returns the answer for a way that returns an entry.
fn entered(
    answer: Result<OccupiedEntry<'_, Token, Token, Anything, Masked>, InsertError<Token, Token>>,
) -> Answer {
    match answer {
        Ok(entry) => {
            let here = seen(entry.key(), entry.get());
            Answer::Entry(None, here)
        }
        Err(error) => refused(error),
    }
}

/// Adds the pair through its entry.
fn enter(
    rt: &impl Wait,
    index: &RuledIndex<Token, Token, Anything, Masked>,
    way: Way,
    key: Token,
    value: Token,
) -> Answer {
    let entry = index.entry_sync(rt, key);
    entered(match way {
        Way::OrInsertWith => entry.or_insert_with(|| value),
        Way::OrInsertWithKey => entry.or_insert_with_key(|key| value_of(key, value)),
        Way::OrDefault => entry.or_default(),
        _ => entry.or_insert(value),
    })
}

/// Returns the answer for a way whose closure may fail.
fn entered_or_failed(
    answer: Result<
        OccupiedEntry<'_, Token, Token, Anything, Masked>,
        TryInsertError<Token, Token, u64>,
    >,
) -> Answer {
    match answer {
        Ok(entry) => {
            let here = seen(entry.key(), entry.get());
            Answer::Entry(None, here)
        }
        Err(error) => untried(error),
    }
}

/// Adds the pair through its entry, with a closure that makes the value or fails.
fn enter_or_fail(
    rt: &impl Wait,
    index: &RuledIndex<Token, Token, Anything, Masked>,
    way: Way,
    key: Token,
    value: Token,
) -> Answer {
    let entry = index.entry_sync(rt, key);
    entered_or_failed(match way {
        Way::OrTryInsertWith => entry.or_try_insert_with(|| Ok(value)),
        _ => entry.or_try_insert_with_key(|key| tried(way, key, value)),
    })
}

/// Adds the pair through its vacant entry.
fn fill(
    rt: &impl Wait,
    index: &RuledIndex<Token, Token, Anything, Masked>,
    key: Token,
    value: Token,
) -> Answer {
    match index.entry_sync(rt, key) {
        Entry::Vacant(entry) => entered(entry.insert_entry(value)),
        Entry::Occupied(entry) => {
            let here = seen(entry.key(), entry.get());
            Answer::Found(Some(here))
        }
    }
}

/// Sets the value of the key's entry, if the key is there.
fn modify_in(
    rt: &impl Wait,
    index: &RuledIndex<Token, Token, Anything, Masked>,
    key: Token,
    value: Token,
) -> Answer {
    match index.entry_sync(rt, key).and_modify(|_| value) {
        Ok(Entry::Occupied(entry)) => {
            let here = seen(entry.key(), entry.get());
            Answer::Found(Some(here))
        }
        Ok(Entry::Vacant(entry)) => {
            let number = entry.key().number();
            Answer::Vacant(number, entry.into_key().mark())
        }
        Err((entry, back)) => {
            let here = seen(entry.key(), &back);
            Answer::Refused(Some(here))
        }
    }
}

/// Returns the pair of an entry, if there is one.
fn shown(entry: Option<OccupiedEntry<'_, Token, Token, Anything, Masked>>) -> Option<Seen> {
    match entry {
        Some(entry) => {
            let here = seen(entry.key(), entry.get());
            Some(here)
        }
        None => None,
    }
}

/// Reads an entry.
fn look(entry: OccupiedEntry<'_, Token, Token, Anything, Masked>) -> Answer {
    let here = seen(entry.key(), entry.get());
    Answer::Found(Some(here))
}

/// Makes a new version at an entry.
fn set(entry: OccupiedEntry<'_, Token, Token, Anything, Masked>, value: Token) -> Answer {
    let mut entry = entry;
    match entry.update(value) {
        Ok(()) => Answer::Yes(true),
        Err(back) => {
            let kept = seen(entry.key(), &back);
            Answer::Refused(Some(kept))
        }
    }
}

/// Removes the pair of an entry, and steps to the next entry.
fn go_on(rt: &impl Wait, entry: OccupiedEntry<'_, Token, Token, Anything, Masked>) -> Answer {
    let gone = seen(entry.key(), entry.get());
    Answer::Gone(gone, shown(entry.remove_and_sync(rt)))
}

/// Does `act` with an entry.
fn act_on(
    rt: &impl Wait,
    entry: OccupiedEntry<'_, Token, Token, Anything, Masked>,
    act: Act,
) -> Answer {
    match act {
        Act::Look => look(entry),
        Act::RemoveEntry => {
            entry.remove_entry();
            Answer::Yes(true)
        }
        Act::Next => Answer::Found(shown(entry.next_sync(rt))),
        Act::RemoveNext => go_on(rt, entry),
        _ => Answer::Absent,
    }
}

/// Does `act` with the entry that `at` names.
fn act_in(
    rt: &impl Wait,
    index: &RuledIndex<Token, Token, Anything, Masked>,
    at: At,
    act: Act,
    key: &Token,
    value: Token,
) -> Answer {
    let number = key.number();
    let entry = match at {
        At::Key => index.get_sync(rt, key),
        At::Any => index.any_sync(rt, |other, _| other.number() == number),
        At::First => index.begin_sync(rt),
    };
    match entry {
        Some(entry) => match act {
            Act::Set => set(entry, value),
            _ => act_on(rt, entry, act),
        },
        None => Answer::Found(None),
    }
}

/// Steps from entry to entry.
fn step_in(
    rt: &impl Wait,
    index: &RuledIndex<Token, Token, Anything, Masked>,
    most: usize,
    met: &mut Vec<Seen>,
) -> Answer {
    let mut had_room = true;
    let mut place = index.begin_sync(rt);
    for _ in 0..most {
        let Some(entry) = place else {
            break;
        };
        had_room = met.push(seen(entry.key(), entry.get())).is_ok() && had_room;
        place = entry.next_sync(rt);
    }
    walked(had_room)
}

/// Removes pairs by steps from entry to entry.
fn drain_in(
    rt: &impl Wait,
    index: &RuledIndex<Token, Token, Anything, Masked>,
    most: usize,
    met: &mut Vec<Seen>,
) -> Answer {
    let mut had_room = true;
    let mut place = index.begin_sync(rt);
    for _ in 0..most {
        let Some(entry) = place else {
            break;
        };
        had_room = met.push(seen(entry.key(), entry.get())).is_ok() && had_room;
        place = entry.remove_and_sync(rt);
    }
    walked(had_room)
}

/// Reserves `slots` slots and releases them.
fn reserve_in(
    rt: &impl Wait,
    index: &RuledIndex<Token, Token, Anything, Masked>,
    slots: usize,
) -> Answer {
    match index.reserve(rt, slots) {
        Some(held) => {
            let minimum = *index.capacity_range().start();
            Answer::Reserved(
                held.additional_capacity(),
                held.as_ref().capacity(rt),
                minimum,
            )
        }
        None => Answer::Refused(None),
    }
}

impl<R: Wait> Form for Held<'_, R, RuledIndex<Token, Token, Anything, Masked>> {
    fn kind(&self) -> Kind {
        Kind::Index
    }

    fn add(&mut self, way: Way, key: Token, value: Token) -> Answer {
        match way {
            Way::Insert => match self.ruled.insert_sync(self.rt, key, value) {
                Ok(()) => Answer::Added(None),
                Err(error) => refused(error),
            },
            Way::Vacant => fill(self.rt, &self.ruled, key, value),
            Way::OrTryInsertWith | Way::OrTryInsertWithKey | Way::OrFail => {
                enter_or_fail(self.rt, &self.ruled, way, key, value)
            }
            Way::Upsert | Way::Replace | Way::InsertEntry => Answer::Absent,
            _ => enter(self.rt, &self.ruled, way, key, value),
        }
    }

    fn modify(&mut self, key: Token, value: Token) -> Answer {
        modify_in(self.rt, &self.ruled, key, value)
    }

    fn act(&mut self, at: At, act: Act, key: &Token, value: Token) -> Answer {
        act_in(self.rt, &self.ruled, at, act, key, value)
    }

    fn remove(&mut self, key: &Token) -> Answer {
        Answer::Yes(self.ruled.remove_sync(self.rt, key))
    }

    fn remove_if(&mut self, key: &Token) -> Answer {
        let removed = self
            .ruled
            .remove_if_sync(self.rt, key, |value| value.number() % 2 == 0);
        Answer::Yes(removed)
    }

    fn read(&self, key: &Token) -> Answer {
        let found = self.ruled.peek_with(self.rt, key, seen);
        let read = self.ruled.read_sync(self.rt, key, seen);
        let peeked = match self.ruled.peek(self.rt, key) {
            Ok(Some(version)) => Some(seen(version.key(), version.value())),
            Ok(None) => None,
            Err(_) => return Answer::Refused(None),
        };
        let is_there = self.ruled.contains(self.rt, key);
        if read == found && peeked == found && is_there == found.is_some() {
            Answer::Found(found)
        } else {
            Answer::Wrong
        }
    }

    fn place(&self, key: &Token) -> Answer {
        Answer::Place(self.ruled.bucket_index(self.rt, key), true)
    }

    fn retain(&mut self, rest: u64) {
        self.ruled.retain_sync(self.rt, |key, _| keeps(key, rest));
    }

    fn collect(&self, met: &mut Vec<Seen>) -> bool {
        self.ruled
            .iter_sync(self.rt, |key, value| met.push(seen(key, value)).is_ok())
    }

    fn passes(&self, number: u64) -> bool {
        self.ruled
            .iter_sync(self.rt, |key, _| key.number() != number)
    }

    fn step(&mut self, most: usize, met: &mut Vec<Seen>) -> Answer {
        step_in(self.rt, &self.ruled, most, met)
    }

    fn drain(&mut self, most: usize, met: &mut Vec<Seen>) -> Answer {
        drain_in(self.rt, &self.ruled, most, met)
    }

    fn snapshot(&self, met: &mut Vec<Seen>) -> Answer {
        let Ok(versions) = self.ruled.iter(self.rt) else {
            return Answer::Refused(None);
        };
        for version in versions {
            if met.push(seen(version.key(), version.value())).is_err() {
                return Answer::Refused(None);
            }
        }
        Answer::Yes(true)
    }

    fn copy(&self) -> Answer {
        match self.ruled.try_clone(self.rt) {
            Ok(copy) => Answer::Yes(
                copy.eq_sync(self.rt, &self.ruled) && self.ruled.eq_sync(self.rt, &copy),
            ),
            Err(_) => Answer::Refused(None),
        }
    }

    fn clear(&mut self) {
        self.ruled.clear_sync(self.rt);
    }

    fn reserve(&mut self, slots: usize) -> Answer {
        reserve_in(self.rt, &self.ruled, slots)
    }

    fn sizes(&self) -> Sizes {
        let range = self.ruled.capacity_range();
        Sizes {
            len: self.ruled.len(self.rt),
            is_empty: self.ruled.is_empty(self.rt),
            capacity: self.ruled.capacity(self.rt),
            minimum: *range.start(),
            maximum: *range.end(),
        }
    }

    fn is_one(&self) -> bool {
        self.is_one
    }
}
