//! `Form` for the shared set.

use crate::with_runtime::Held;
use scc_shared_set::{HashSet, OccupiedEntry};
use std::alloc::Global;
use std::sync::Wait;
use test_forms::answers::{Answer, Kind, Rule, key_verdict, refused_key, walked};
use test_forms::form::{Act, At, Form, Sizes, Way};
use test_forms::numbered::{Seen, keeps, mark_of, note_keys, seen_key, seen_lone};
use test_forms::token::Token;
use test_kit::masked::Masked;

/// Returns the key of an entry, if there is one.
fn shown(entry: Option<OccupiedEntry<'_, Token, Masked>>) -> Option<Seen> {
    match entry {
        Some(entry) => {
            let here = seen_key(entry.get());
            Some(here)
        }
        None => None,
    }
}

/// Does `act` with an entry.
fn act_on(rt: &impl Wait, entry: OccupiedEntry<'_, Token, Masked>, act: Act) -> Answer {
    match act {
        Act::Look => {
            let here = seen_key(entry.get());
            Answer::Found(Some(here))
        }
        Act::RemoveEntry => Answer::Found(Some(seen_key(&entry.remove_entry()))),
        Act::Next => Answer::Found(shown(entry.next_sync(rt))),
        Act::RemoveNext => {
            let (key, next) = entry.remove_and_sync(rt);
            Answer::Gone(seen_key(&key), shown(next))
        }
        _ => Answer::Absent,
    }
}

/// Does `act` with the entry that `at` names.
fn act_in(rt: &impl Wait, set: &HashSet<Token, Masked>, at: At, act: Act, key: &Token) -> Answer {
    let number = key.number();
    let entry = match at {
        At::Key => return Answer::Absent,
        At::Any => set.any_sync(rt, |other| other.number() == number),
        At::First => set.begin_sync(rt),
    };
    match entry {
        Some(entry) => act_on(rt, entry, act),
        None => Answer::Found(None),
    }
}

/// Steps from entry to entry.
fn step_in(
    rt: &impl Wait,
    set: &HashSet<Token, Masked>,
    most: usize,
    met: &mut Vec<Seen>,
) -> Answer {
    let mut had_room = true;
    let mut place = set.begin_sync(rt);
    for _ in 0..most {
        let Some(entry) = place else {
            break;
        };
        had_room = met.push(seen_key(entry.get())).is_ok() && had_room;
        place = entry.next_sync(rt);
    }
    walked(had_room)
}

/// Removes keys by steps from entry to entry.
fn drain_in(
    rt: &impl Wait,
    set: &HashSet<Token, Masked>,
    most: usize,
    met: &mut Vec<Seen>,
) -> Answer {
    let mut had_room = true;
    let mut place = set.begin_sync(rt);
    for _ in 0..most {
        let Some(entry) = place else {
            break;
        };
        let (key, next) = entry.remove_and_sync(rt);
        had_room = met.push(seen_key(&key)).is_ok() && had_room;
        place = next;
    }
    walked(had_room)
}

/// Reserves `slots` slots and releases them.
fn reserve_in(rt: &impl Wait, set: &HashSet<Token, Masked>, slots: usize) -> Answer {
    match set.reserve(rt, slots) {
        Some(held) => {
            let minimum = *set.capacity_range().start();
            Answer::Reserved(held.additional_capacity(), set.capacity(rt), minimum)
        }
        None => Answer::Refused(None),
    }
}

impl<R: Wait> Form for Held<'_, R, HashSet<Token, Masked>> {
    fn kind(&self) -> Kind {
        Kind::Set
    }

    fn add(&mut self, way: Way, key: Token, _value: Token) -> Answer {
        match way {
            Way::Insert => match self.shared.insert_sync(self.rt, key) {
                Ok(()) => Answer::Added(None),
                Err(error) => refused_key(error),
            },
            Way::Replace => match self.shared.replace_sync(self.rt, key) {
                Ok(old) => Answer::Swapped(mark_of(old), None),
                Err(error) => refused_key(error),
            },
            _ => Answer::Absent,
        }
    }

    fn replace(&mut self, key: Token) -> Answer {
        match self.shared.replace_sync(self.rt, key) {
            Ok(old) => Answer::Swapped(mark_of(old), None),
            Err(error) => refused_key(error),
        }
    }

    fn act(&mut self, at: At, act: Act, key: &Token, _value: Token) -> Answer {
        act_in(self.rt, &self.shared, at, act, key)
    }

    fn remove(&mut self, key: &Token) -> Answer {
        let taken = self.shared.remove_sync(self.rt, key);
        Answer::Found(seen_lone(taken))
    }

    fn remove_if(&mut self, key: &Token) -> Answer {
        let is_even = key.number() % 2 == 0;
        let taken = self.shared.remove_if_sync(self.rt, key, || is_even);
        Answer::Found(seen_lone(taken))
    }

    fn read(&self, key: &Token) -> Answer {
        let found = self.shared.read_sync(self.rt, key, seen_key);
        if self.shared.contains_sync(self.rt, key) == found.is_some() {
            Answer::Found(found)
        } else {
            Answer::Wrong
        }
    }

    fn place(&self, key: &Token) -> Answer {
        Answer::Place(
            self.shared.bucket_index(self.rt, key),
            self.shared.has_room(self.rt, key),
        )
    }

    fn retain(&mut self, rest: u64) {
        self.shared.retain_sync(self.rt, |key| keeps(key, rest));
    }

    fn take(&mut self, alloc: Global, rule: Rule, met: &mut Vec<Seen>) -> Answer {
        let mut keys: Vec<Token> = Vec::new(alloc);
        let ended = self
            .shared
            .iter_mut_sync(self.rt, |key| key_verdict(rule, key), &mut keys);
        let noted = note_keys(keys.as_slice(), met);
        match ended {
            Ok(ended) if noted => Answer::Yes(ended),
            _ => Answer::Refused(None),
        }
    }

    fn collect(&self, met: &mut Vec<Seen>) -> bool {
        self.shared
            .iter_sync(self.rt, |key| met.push(seen_key(key)).is_ok())
    }

    fn passes(&self, number: u64) -> bool {
        self.shared.iter_sync(self.rt, |key| key.number() != number)
    }

    fn step(&mut self, most: usize, met: &mut Vec<Seen>) -> Answer {
        step_in(self.rt, &self.shared, most, met)
    }

    fn drain(&mut self, most: usize, met: &mut Vec<Seen>) -> Answer {
        drain_in(self.rt, &self.shared, most, met)
    }

    fn copy(&self) -> Answer {
        match self.shared.try_clone(self.rt) {
            Ok(copy) => Answer::Yes(
                copy.eq_sync(self.rt, &self.shared) && self.shared.eq_sync(self.rt, &copy),
            ),
            Err(_) => Answer::Refused(None),
        }
    }

    fn clear(&mut self) {
        self.shared.clear_sync(self.rt);
    }

    fn reserve(&mut self, slots: usize) -> Answer {
        reserve_in(self.rt, &self.shared, slots)
    }

    fn sizes(&self) -> Sizes {
        let range = self.shared.capacity_range();
        Sizes {
            len: self.shared.len(self.rt),
            is_empty: self.shared.is_empty(self.rt),
            capacity: self.shared.capacity(self.rt),
            minimum: *range.start(),
            maximum: *range.end(),
        }
    }

    fn is_one(&self) -> bool {
        self.is_one
    }
}
