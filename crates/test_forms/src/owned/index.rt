//! `Form` for the owned index.

use crate::answers::{Answer, Kind, prepared, refused, tried, untried};
use crate::form::{Act, At, Form, Sizes, Way};
use crate::numbered::{Seen, keeps, seen, value_of};
use crate::token::Token;
use scc_common::{InsertError, TryInsertError};
use scc_owned::index::Owned;
use scc_owned::index::borrowed::{Entry, OccupiedEntry};
use scc_table::Reservation;
use test_kit::masked::Masked;

/// Adds the pair through its entry.
fn enter<'a>(
    index: &'a mut Owned<Token, Token, Masked>,
    way: Way,
    key: Token,
    value: Token,
) -> Result<OccupiedEntry<'a, Token, Token, Masked>, InsertError<Token, Token>> {
    let entry = index.entry_sync(key);
    match way {
        Way::OrInsertWith => entry.or_insert_with(|| value),
        Way::OrInsertWithKey => entry.or_insert_with_key(|key| value_of(key, value)),
        Way::OrDefault => entry.or_default(),
        _ => entry.or_insert(value),
    }
}

/// Returns the answer for a way that returns an entry.
fn entered(index: &mut Owned<Token, Token, Masked>, way: Way, key: Token, value: Token) -> Answer {
    match enter(index, way, key, value) {
        Ok(entry) => Answer::Entry(None, seen(entry.key(), entry.get())),
        Err(error) => refused(error),
    }
}

/// Adds the pair through its entry, with a closure that makes the value or fails.
fn enter_or_fail<'a>(
    index: &'a mut Owned<Token, Token, Masked>,
    way: Way,
    key: Token,
    value: Token,
) -> Result<OccupiedEntry<'a, Token, Token, Masked>, TryInsertError<Token, Token, u64>> {
    let entry = index.entry_sync(key);
    match way {
        Way::OrTryInsertWith => entry.or_try_insert_with(|| Ok(value)),
        _ => entry.or_try_insert_with_key(|key| tried(way, key, value)),
    }
}

/// Returns the answer for a way whose closure may fail.
fn entered_or_failed(
    index: &mut Owned<Token, Token, Masked>,
    way: Way,
    key: Token,
    value: Token,
) -> Answer {
    match enter_or_fail(index, way, key, value) {
        Ok(entry) => Answer::Entry(None, seen(entry.key(), entry.get())),
        Err(error) => untried(error),
    }
}

/// Adds the pair through its vacant entry.
fn fill(index: &mut Owned<Token, Token, Masked>, key: Token, value: Token) -> Answer {
    match index.entry_sync(key) {
        Entry::Vacant(entry) => match entry.insert_entry(value) {
            Ok(entry) => Answer::Entry(None, seen(entry.key(), entry.get())),
            Err(error) => refused(error),
        },
        Entry::Occupied(entry) => Answer::Found(Some(seen(entry.key(), entry.get()))),
    }
}

/// Returns the occupied entry that `at` names.
fn find<'a>(
    index: &'a mut Owned<Token, Token, Masked>,
    at: At,
    key: &Token,
) -> Option<OccupiedEntry<'a, Token, Token, Masked>> {
    let number = key.number();
    match at {
        At::Key => index.get_sync(key),
        At::Any => index.any_sync(|other, _| other.number() == number),
        At::First => index.begin_sync(),
    }
}

/// Reads the entry that `at` names, or removes its pair.
fn act_and_end(index: &mut Owned<Token, Token, Masked>, at: At, act: Act, key: &Token) -> Answer {
    match find(index, at, key) {
        Some(entry) => match act {
            Act::RemoveEntry => {
                entry.remove_entry();
                Answer::Yes(true)
            }
            _ => Answer::Found(Some(seen(entry.key(), entry.get()))),
        },
        None => Answer::Found(None),
    }
}

/// Makes a new version at the entry.
fn act_and_set(
    index: &mut Owned<Token, Token, Masked>,
    at: At,
    key: &Token,
    value: Token,
) -> Answer {
    match find(index, at, key) {
        Some(mut entry) => match entry.update(value) {
            Ok(()) => Answer::Yes(true),
            Err(back) => Answer::Refused(Some(seen(entry.key(), &back))),
        },
        None => Answer::Found(None),
    }
}

/// Steps to the next entry.
fn act_and_step(index: &mut Owned<Token, Token, Masked>, at: At, key: &Token) -> Answer {
    match find(index, at, key) {
        Some(entry) => match entry.next_sync() {
            Some(next) => Answer::Found(Some(seen(next.key(), next.get()))),
            None => Answer::Found(None),
        },
        None => Answer::Found(None),
    }
}

/// Removes the pair of the entry, and steps to the next entry.
fn act_and_go_on(index: &mut Owned<Token, Token, Masked>, at: At, key: &Token) -> Answer {
    match find(index, at, key) {
        Some(entry) => {
            let here = seen(entry.key(), entry.get());
            match entry.remove_and_sync() {
                Some(next) => Answer::Gone(here, Some(seen(next.key(), next.get()))),
                None => Answer::Gone(here, None),
            }
        }
        None => Answer::Found(None),
    }
}

impl Form for Owned<Token, Token, Masked> {
    fn kind(&self) -> Kind {
        Kind::Index
    }

    fn add(&mut self, way: Way, key: Token, value: Token) -> Answer {
        match way {
            Way::Insert => match self.insert_sync(key, value) {
                Ok(()) => Answer::Added(None),
                Err(error) => refused(error),
            },
            Way::Vacant => fill(self, key, value),
            Way::OrTryInsertWith | Way::OrTryInsertWithKey | Way::OrFail => {
                entered_or_failed(self, way, key, value)
            }
            Way::Upsert | Way::Replace | Way::InsertEntry => Answer::Absent,
            _ => entered(self, way, key, value),
        }
    }

    fn modify(&mut self, key: Token, value: Token) -> Answer {
        match self.entry_sync(key).and_modify(|_| value) {
            Ok(Entry::Occupied(entry)) => Answer::Found(Some(seen(entry.key(), entry.get()))),
            Ok(Entry::Vacant(entry)) => {
                let number = entry.key().number();
                Answer::Vacant(number, entry.into_key().mark())
            }
            Err((entry, back)) => Answer::Refused(Some(seen(entry.key(), &back))),
        }
    }

    fn act(&mut self, at: At, act: Act, key: &Token, value: Token) -> Answer {
        match act {
            Act::Look | Act::RemoveEntry => act_and_end(self, at, act, key),
            Act::Set => act_and_set(self, at, key, value),
            Act::Next => act_and_step(self, at, key),
            Act::RemoveNext => act_and_go_on(self, at, key),
            _ => Answer::Absent,
        }
    }

    fn remove(&mut self, key: &Token) -> Answer {
        Answer::Yes(self.remove_sync(key))
    }

    fn remove_if(&mut self, key: &Token) -> Answer {
        Answer::Yes(self.remove_if_sync(key, |value| value.number() % 2 == 0))
    }

    fn read(&self, key: &Token) -> Answer {
        let found = self.peek_with(key, seen);
        let read = self.read_sync(key, seen);
        let peeked = match self.peek(key) {
            Some(version) => Some(seen(version.key(), version.value())),
            None => None,
        };
        let kept = match self.peek_shared(key) {
            Ok(Some(version)) => Some(seen(version.key(), version.value())),
            Ok(None) => None,
            Err(_) => return Answer::Wrong,
        };
        let agree = read == found && peeked == found && kept == found;
        if agree && self.contains(key) == found.is_some() {
            Answer::Found(found)
        } else {
            Answer::Wrong
        }
    }

    fn place(&self, key: &Token) -> Answer {
        Answer::Place(self.bucket_index(key), true)
    }

    fn retain(&mut self, rest: u64) {
        self.retain_sync(|key, _| keeps(key, rest));
    }

    fn collect(&self, met: &mut Vec<Seen>) -> bool {
        self.iter_sync(|key, value| met.push(seen(key, value)).is_ok())
    }

    fn passes(&self, number: u64) -> bool {
        self.iter_sync(|key, _| key.number() != number)
    }

    fn step(&mut self, most: usize, met: &mut Vec<Seen>) -> Answer {
        let mut place = self.begin_sync();
        for _ in 0..most {
            let Some(entry) = place else {
                break;
            };
            if met.push(seen(entry.key(), entry.get())).is_err() {
                return Answer::Refused(None);
            }
            place = entry.next_sync();
        }
        Answer::Yes(true)
    }

    fn drain(&mut self, most: usize, met: &mut Vec<Seen>) -> Answer {
        let mut place = self.begin_sync();
        for _ in 0..most {
            let Some(entry) = place else {
                break;
            };
            if met.push(seen(entry.key(), entry.get())).is_err() {
                return Answer::Refused(None);
            }
            place = entry.remove_and_sync();
        }
        Answer::Yes(true)
    }

    fn snapshot(&self, met: &mut Vec<Seen>) -> Answer {
        let Ok(versions) = self.iter() else {
            return Answer::Refused(None);
        };
        for version in versions {
            if met.push(seen(version.key(), version.value())).is_err() {
                return Answer::Refused(None);
            }
        }
        Answer::Yes(true)
    }

    fn copy(&self) -> Answer {
        match self.try_clone() {
            Ok(copy) => Answer::Yes(copy == *self && *self == copy),
            Err(_) => Answer::Refused(None),
        }
    }

    fn clear(&mut self) {
        self.clear_sync();
    }

    fn reserve(&mut self, slots: usize) -> Answer {
        let Some(token) = Owned::reserve(self, slots) else {
            return Answer::Refused(None);
        };
        let reserved = token.additional_capacity();
        let sizes = (self.capacity(), *self.capacity_range().start());
        match self.release(token) {
            Ok(()) => Answer::Reserved(reserved, sizes.0, sizes.1),
            Err(_) => Answer::Wrong,
        }
    }

    fn reserve_slots(&mut self, additional: usize) -> Option<Reservation> {
        Owned::reserve(self, additional)
    }

    fn release_slots(&mut self, token: Reservation) -> Result<(), Reservation> {
        self.release(token)
    }

    fn make_room(&mut self, key: &Token) -> Answer {
        prepared(Owned::make_room(self, key))
    }

    fn drop_room(&mut self) {
        Owned::drop_room(self);
    }

    fn sizes(&self) -> Sizes {
        let range = self.capacity_range();
        Sizes {
            len: self.len(),
            is_empty: self.is_empty(),
            capacity: self.capacity(),
            minimum: *range.start(),
            maximum: *range.end(),
        }
    }

    fn waiting(&self) -> Option<usize> {
        Some(self.pending())
    }

    fn is_resize_refused(&self) -> bool {
        Owned::is_resize_refused(self)
    }
}
