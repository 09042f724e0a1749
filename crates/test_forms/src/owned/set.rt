//! `Form` for the owned set.

use crate::answers::{Answer, Kind, Rule, key_verdict, prepared, refused_key};
use crate::form::{Act, At, Form, Sizes, Way};
use crate::numbered::{Seen, keeps, mark_of, note_keys, seen_key, seen_lone};
use crate::token::Token;
use scc_owned_set::Owned;
use scc_owned_set::entry::OccupiedEntry;
use scc_table::Reservation;
use std::alloc::Global;
use test_kit::masked::Masked;

/// Returns the occupied entry that `at` names: the first whose key has the key's number, or the first of all.
fn find<'a>(
    set: &'a mut Owned<Token, Masked>,
    at: At,
    key: &Token,
) -> Option<OccupiedEntry<'a, Token, Masked>> {
    let number = key.number();
    match at {
        At::First => set.begin_sync(),
        _ => set.any_sync(|other| other.number() == number),
    }
}

/// Reads the entry that `at` names, or removes its key.
fn act_and_end(set: &mut Owned<Token, Masked>, at: At, act: Act, key: &Token) -> Answer {
    match find(set, at, key) {
        Some(entry) => match act {
            Act::RemoveEntry => Answer::Found(Some(seen_key(&entry.remove_entry()))),
            _ => Answer::Found(Some(seen_key(entry.get()))),
        },
        None => Answer::Found(None),
    }
}

/// Steps to the next entry.
fn act_and_step(set: &mut Owned<Token, Masked>, at: At, key: &Token) -> Answer {
    match find(set, at, key) {
        Some(entry) => match entry.next_sync() {
            Some(next) => Answer::Found(Some(seen_key(next.get()))),
            None => Answer::Found(None),
        },
        None => Answer::Found(None),
    }
}

/// Removes the key of the entry, and steps to the next entry.
fn act_and_go_on(set: &mut Owned<Token, Masked>, at: At, key: &Token) -> Answer {
    match find(set, at, key) {
        Some(entry) => match entry.remove_and_sync() {
            Ok(both) => {
                let (removed, next) = both;
                let gone = seen_key(&removed.key);
                Answer::Gone(gone, Some(seen_key(next.get())))
            }
            Err(key) => Answer::Gone(seen_key(&key), None),
        },
        None => Answer::Found(None),
    }
}

impl Form for Owned<Token, Masked> {
    fn kind(&self) -> Kind {
        Kind::Set
    }

    fn add(&mut self, way: Way, key: Token, _value: Token) -> Answer {
        match way {
            Way::Insert => match self.insert_sync(key) {
                Ok(()) => Answer::Added(None),
                Err(error) => refused_key(error),
            },
            Way::Replace => self.replace(key),
            _ => Answer::Absent,
        }
    }

    fn replace(&mut self, key: Token) -> Answer {
        match self.replace_sync(key) {
            Ok(old) => Answer::Swapped(mark_of(old), None),
            Err(error) => refused_key(error),
        }
    }

    fn act(&mut self, at: At, act: Act, key: &Token, _value: Token) -> Answer {
        if at == At::Key {
            return Answer::Absent;
        }
        match act {
            Act::Look | Act::RemoveEntry => act_and_end(self, at, act, key),
            Act::Next => act_and_step(self, at, key),
            Act::RemoveNext => act_and_go_on(self, at, key),
            _ => Answer::Absent,
        }
    }

    fn remove(&mut self, key: &Token) -> Answer {
        Answer::Found(seen_lone(self.remove_sync(key)))
    }

    fn remove_if(&mut self, key: &Token) -> Answer {
        let is_even = key.number() % 2 == 0;
        let taken = self.remove_if_sync(key, || is_even);
        Answer::Found(seen_lone(taken))
    }

    fn read(&self, key: &Token) -> Answer {
        let found = self.read_sync(key, seen_key);
        if self.contains_sync(key) == found.is_some() {
            Answer::Found(found)
        } else {
            Answer::Wrong
        }
    }

    fn place(&self, key: &Token) -> Answer {
        Answer::Place(self.bucket_index(key), self.has_room(key))
    }

    fn retain(&mut self, rest: u64) {
        self.retain_sync(|key| keeps(key, rest));
    }

    fn take(&mut self, alloc: Global, rule: Rule, met: &mut Vec<Seen>) -> Answer {
        let mut keys: Vec<Token> = Vec::new(alloc);
        let ended = self.iter_mut_sync(|key| key_verdict(rule, key), &mut keys);
        let noted = note_keys(keys.as_slice(), met);
        match ended {
            Ok(ended) if noted => Answer::Yes(ended),
            _ => Answer::Refused(None),
        }
    }

    fn collect(&self, met: &mut Vec<Seen>) -> bool {
        self.iter_sync(|key| met.push(seen_key(key)).is_ok())
    }

    fn passes(&self, number: u64) -> bool {
        self.iter_sync(|key| key.number() != number)
    }

    fn step(&mut self, most: usize, met: &mut Vec<Seen>) -> Answer {
        let mut place = self.begin_sync();
        for _ in 0..most {
            let Some(entry) = place else {
                break;
            };
            if met.push(seen_key(entry.get())).is_err() {
                return Answer::Refused(None);
            }
            place = entry.next_sync();
        }
        Answer::Yes(true)
    }

    fn drain(&mut self, most: usize, met: &mut Vec<Seen>) -> Answer {
        for _ in 0..most {
            let gone = match self.begin_sync() {
                Some(entry) => match entry.remove_and_sync() {
                    Ok(both) => {
                        let (removed, _next) = both;
                        seen_key(&removed.key)
                    }
                    Err(key) => seen_key(&key),
                },
                None => break,
            };
            if met.push(gone).is_err() {
                return Answer::Refused(None);
            }
        }
        Answer::Yes(true)
    }

    fn copy(&self) -> Answer {
        match self.try_clone() {
            Ok(copy) => Answer::Yes(copy == *self && *self == copy),
            Err(_) => Answer::Refused(None),
        }
    }

    fn clear(&mut self) {
        self.clear_sync();
    }

    fn reserve(&mut self, slots: usize) -> Answer {
        let Some(token) = Owned::reserve(self, slots) else {
            return Answer::Refused(None);
        };
        let reserved = token.additional_capacity();
        let sizes = (self.capacity(), *self.capacity_range().start());
        match self.release(token) {
            Ok(()) => Answer::Reserved(reserved, sizes.0, sizes.1),
            Err(_) => Answer::Wrong,
        }
    }

    fn reserve_slots(&mut self, additional: usize) -> Option<Reservation> {
        Owned::reserve(self, additional)
    }

    fn release_slots(&mut self, token: Reservation) -> Result<(), Reservation> {
        self.release(token)
    }

    fn make_room(&mut self, key: &Token) -> Answer {
        prepared(Owned::make_room(self, key))
    }

    fn drop_room(&mut self) {
        Owned::drop_room(self);
    }

    fn sizes(&self) -> Sizes {
        let range = self.capacity_range();
        Sizes {
            len: self.len(),
            is_empty: self.is_empty(),
            capacity: self.capacity(),
            minimum: *range.start(),
            maximum: *range.end(),
        }
    }

    fn waiting(&self) -> Option<usize> {
        Some(self.pending())
    }

    fn is_resize_refused(&self) -> bool {
        Owned::is_resize_refused(self)
    }
}
