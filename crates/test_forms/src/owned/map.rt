//! `Form` for the owned map.

use crate::answers::{
    Answer, Kind, Rule, prepared, raise_and_keep, refused, tried, untried, verdict,
};
use crate::form::{Act, At, Form, Sizes, Way};
use crate::numbered::{Seen, note_pairs, number_of, raise_to_even, seen, seen_pair, value_of};
use crate::token::Token;
use scc_common::{InsertError, TryInsertError};
use scc_owned::map::Owned;
use scc_owned::map::borrowed::{Entry, OccupiedEntry, ReplaceResult};
use scc_table::Reservation;
use std::alloc::Global;
use test_kit::masked::Masked;

/// Adds the pair through its entry.
fn enter<'a>(
    map: &'a mut Owned<Token, Token, Masked>,
    way: Way,
    key: Token,
    value: Token,
) -> Result<OccupiedEntry<'a, Token, Token, Masked>, InsertError<Token, Token>> {
    let entry = map.entry_sync(key);
    match way {
        Way::OrInsertWith => entry.or_insert_with(|| value),
        Way::OrInsertWithKey => entry.or_insert_with_key(|key| value_of(key, value)),
        Way::OrDefault => entry.or_default(),
        Way::InsertEntry => entry.insert_entry(value),
        _ => entry.or_insert(value),
    }
}

/// Returns the answer for a way that returns an entry.
fn entered(map: &mut Owned<Token, Token, Masked>, way: Way, key: Token, value: Token) -> Answer {
    match enter(map, way, key, value) {
        Ok(entry) => Answer::Entry(None, seen(entry.key(), entry.get())),
        Err(error) => refused(error),
    }
}

/// Adds the pair through its entry, with a closure that makes the value or fails.
fn enter_or_fail<'a>(
    map: &'a mut Owned<Token, Token, Masked>,
    way: Way,
    key: Token,
    value: Token,
) -> Result<OccupiedEntry<'a, Token, Token, Masked>, TryInsertError<Token, Token, u64>> {
    let entry = map.entry_sync(key);
    match way {
        Way::OrTryInsertWith => entry.or_try_insert_with(|| Ok(value)),
        _ => entry.or_try_insert_with_key(|key| tried(way, key, value)),
    }
}

/// Returns the answer for a way whose closure may fail.
fn entered_or_failed(
    map: &mut Owned<Token, Token, Masked>,
    way: Way,
    key: Token,
    value: Token,
) -> Answer {
    match enter_or_fail(map, way, key, value) {
        Ok(entry) => Answer::Entry(None, seen(entry.key(), entry.get())),
        Err(error) => untried(error),
    }
}

/// Adds the pair through its vacant entry.
fn fill(map: &mut Owned<Token, Token, Masked>, key: Token, value: Token) -> Answer {
    match map.entry_sync(key) {
        Entry::Vacant(entry) => match entry.insert_entry(value) {
            Ok(entry) => Answer::Entry(None, seen(entry.key(), entry.get())),
            Err(error) => refused(error),
        },
        Entry::Occupied(entry) => Answer::Found(Some(seen(entry.key(), entry.get()))),
    }
}

/// Replaces an equal key by `key`, or adds the pair.
fn replace_or_fill(map: &mut Owned<Token, Token, Masked>, key: Token, value: Token) -> Answer {
    match map.replace_sync(key) {
        ReplaceResult::Replaced(entry, old) => {
            let here = seen(entry.key(), entry.get());
            Answer::Swapped(Some(old.mark()), Some(here))
        }
        ReplaceResult::NotReplaced(entry) => match entry.insert_entry(value) {
            Ok(entry) => Answer::Entry(None, seen(entry.key(), entry.get())),
            Err(error) => refused(error),
        },
    }
}

/// Returns the occupied entry that `at` names.
fn find<'a>(
    map: &'a mut Owned<Token, Token, Masked>,
    at: At,
    key: &Token,
) -> Option<OccupiedEntry<'a, Token, Token, Masked>> {
    let number = key.number();
    match at {
        At::Key => map.get_sync(key),
        At::Any => map.any_sync(|other, _| other.number() == number),
        At::First => map.begin_sync(),
    }
}

/// Does `act` with the entry that `at` names, and keeps its pair.
fn act_and_keep(
    map: &mut Owned<Token, Token, Masked>,
    at: At,
    act: Act,
    key: &Token,
    value: Token,
) -> Answer {
    match find(map, at, key) {
        Some(mut entry) => match act {
            Act::Set => Answer::Old(Some(entry.insert(value).number())),
            Act::Write => {
                entry.get_mut().write(value.number());
                Answer::Found(Some(seen(entry.key(), entry.get())))
            }
            _ => Answer::Found(Some(seen(entry.key(), entry.get()))),
        },
        None => Answer::Found(None),
    }
}

/// Removes the pair of the entry.
fn act_and_remove(map: &mut Owned<Token, Token, Masked>, at: At, act: Act, key: &Token) -> Answer {
    match find(map, at, key) {
        Some(entry) => match act {
            Act::Remove => Answer::Old(Some(entry.remove().number())),
            _ => Answer::Found(seen_pair(Some(entry.remove_entry()))),
        },
        None => Answer::Found(None),
    }
}

/// Steps to the next entry.
fn act_and_step(map: &mut Owned<Token, Token, Masked>, at: At, key: &Token) -> Answer {
    match find(map, at, key) {
        Some(entry) => match entry.next_sync() {
            Some(next) => Answer::Found(Some(seen(next.key(), next.get()))),
            None => Answer::Found(None),
        },
        None => Answer::Found(None),
    }
}

/// Removes the pair of the entry, and steps to the next entry.
fn act_and_go_on(map: &mut Owned<Token, Token, Masked>, at: At, key: &Token) -> Answer {
    match find(map, at, key) {
        Some(entry) => match entry.remove_and_sync() {
            Ok(both) => {
                let (pair, next) = both;
                let gone = seen(&pair.0, &pair.1);
                Answer::Gone(gone, Some(seen(next.key(), next.get())))
            }
            Err(pair) => Answer::Gone(seen(&pair.0, &pair.1), None),
        },
        None => Answer::Found(None),
    }
}

impl Form for Owned<Token, Token, Masked> {
    fn kind(&self) -> Kind {
        Kind::Map
    }

    fn add(&mut self, way: Way, key: Token, value: Token) -> Answer {
        match way {
            Way::Insert => match self.insert_sync(key, value) {
                Ok(()) => Answer::Added(None),
                Err(error) => refused(error),
            },
            Way::Upsert => match self.upsert_sync(key, value) {
                Ok(old) => Answer::Old(number_of(old)),
                Err(error) => refused(error),
            },
            Way::Replace => replace_or_fill(self, key, value),
            Way::Vacant => fill(self, key, value),
            Way::OrTryInsertWith | Way::OrTryInsertWithKey | Way::OrFail => {
                entered_or_failed(self, way, key, value)
            }
            _ => entered(self, way, key, value),
        }
    }

    fn replace(&mut self, key: Token) -> Answer {
        match self.replace_sync(key) {
            ReplaceResult::Replaced(entry, old) => {
                Answer::Swapped(Some(old.mark()), Some(seen(entry.key(), entry.get())))
            }
            ReplaceResult::NotReplaced(_entry) => Answer::Swapped(None, None),
        }
    }

    fn update(&mut self, key: &Token, value: Token) -> Answer {
        Answer::Old(self.update_sync(key, |_, old| {
            let number = old.number();
            *old = value;
            number
        }))
    }

    fn modify(&mut self, key: Token, value: Token) -> Answer {
        match self
            .entry_sync(key)
            .and_modify(|old| old.write(value.number()))
        {
            Entry::Occupied(entry) => Answer::Found(Some(seen(entry.key(), entry.get()))),
            Entry::Vacant(entry) => {
                let number = entry.key().number();
                Answer::Vacant(number, entry.into_key().mark())
            }
        }
    }

    fn act(&mut self, at: At, act: Act, key: &Token, value: Token) -> Answer {
        match act {
            Act::Look | Act::Write | Act::Set => act_and_keep(self, at, act, key, value),
            Act::Remove | Act::RemoveEntry => act_and_remove(self, at, act, key),
            Act::Next => act_and_step(self, at, key),
            Act::RemoveNext => act_and_go_on(self, at, key),
        }
    }

    fn remove(&mut self, key: &Token) -> Answer {
        Answer::Found(seen_pair(self.remove_sync(key)))
    }

    fn remove_if(&mut self, key: &Token) -> Answer {
        let taken = self.remove_if_sync(key, raise_to_even);
        Answer::Found(seen_pair(taken))
    }

    fn read(&self, key: &Token) -> Answer {
        let found = self.read_sync(key, seen);
        if self.contains_sync(key) == found.is_some() {
            Answer::Found(found)
        } else {
            Answer::Wrong
        }
    }

    fn place(&self, key: &Token) -> Answer {
        Answer::Place(self.bucket_index(key), self.has_room(key))
    }

    fn retain(&mut self, rest: u64) {
        self.retain_sync(|key, value| raise_and_keep(key, value, rest));
    }

    fn take(&mut self, alloc: Global, rule: Rule, met: &mut Vec<Seen>) -> Answer {
        let mut pairs: Vec<(Token, Token)> = Vec::new(alloc);
        let ended = self.iter_mut_sync(|key, value| verdict(rule, key, value), &mut pairs);
        let noted = note_pairs(pairs.as_slice(), met);
        match ended {
            Ok(ended) if noted => Answer::Yes(ended),
            _ => Answer::Refused(None),
        }
    }

    fn collect(&self, met: &mut Vec<Seen>) -> bool {
        self.iter_sync(|key, value| met.push(seen(key, value)).is_ok())
    }

    fn passes(&self, number: u64) -> bool {
        self.iter_sync(|key, _| key.number() != number)
    }

    fn step(&mut self, most: usize, met: &mut Vec<Seen>) -> Answer {
        let mut place = self.begin_sync();
        for _ in 0..most {
            let Some(entry) = place else {
                break;
            };
            if met.push(seen(entry.key(), entry.get())).is_err() {
                return Answer::Refused(None);
            }
            place = entry.next_sync();
        }
        Answer::Yes(true)
    }

    fn drain(&mut self, most: usize, met: &mut Vec<Seen>) -> Answer {
        for _ in 0..most {
            let gone = match self.begin_sync() {
                Some(entry) => match entry.remove_and_sync() {
                    Ok(both) => {
                        let (pair, _next) = both;
                        seen(&pair.0, &pair.1)
                    }
                    Err(pair) => seen(&pair.0, &pair.1),
                },
                None => break,
            };
            if met.push(gone).is_err() {
                return Answer::Refused(None);
            }
        }
        Answer::Yes(true)
    }

    fn copy(&self) -> Answer {
        match self.try_clone() {
            Ok(copy) => Answer::Yes(copy == *self && *self == copy),
            Err(_) => Answer::Refused(None),
        }
    }

    fn clear(&mut self) {
        self.clear_sync();
    }

    fn reserve(&mut self, slots: usize) -> Answer {
        let Some(token) = Owned::reserve(self, slots) else {
            return Answer::Refused(None);
        };
        let reserved = token.additional_capacity();
        let sizes = (self.capacity(), *self.capacity_range().start());
        match self.release(token) {
            Ok(()) => Answer::Reserved(reserved, sizes.0, sizes.1),
            Err(_) => Answer::Wrong,
        }
    }

    fn reserve_slots(&mut self, additional: usize) -> Option<Reservation> {
        Owned::reserve(self, additional)
    }

    fn release_slots(&mut self, token: Reservation) -> Result<(), Reservation> {
        self.release(token)
    }

    fn make_room(&mut self, key: &Token) -> Answer {
        prepared(Owned::make_room(self, key))
    }

    fn drop_room(&mut self) {
        Owned::drop_room(self);
    }

    fn sizes(&self) -> Sizes {
        let range = self.capacity_range();
        Sizes {
            len: self.len(),
            is_empty: self.is_empty(),
            capacity: self.capacity(),
            minimum: *range.start(),
            maximum: *range.end(),
        }
    }

    fn waiting(&self) -> Option<usize> {
        Some(self.pending())
    }

    fn is_resize_refused(&self) -> bool {
        Owned::is_resize_refused(self)
    }
}
