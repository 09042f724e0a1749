//! `Form` for the map under a rule.

use crate::with_runtime::Held;
use scc_common::{Anything, InsertError, TryInsertError};
use scc_owned::ruled_map::locked::{Entry, OccupiedEntry, ReplaceResult};
use scc_shared::ruled_map::RuledMap;
use std::alloc::Global;
use std::sync::Wait;
use test_forms::answers::{
    Answer, Kind, Rule, raise_and_keep, refused, tried, untried, verdict, walked,
};
use test_forms::form::{Act, At, Form, Sizes, Way};
use test_forms::numbered::{Seen, note_pairs, number_of, raise_to_even, seen, seen_pair, value_of};
use test_forms::token::Token;
use test_kit::masked::Masked;

/// Returns the answer for a way that returns an entry.
fn entered(
    answer: Result<OccupiedEntry<'_, Token, Token, Anything, Masked>, InsertError<Token, Token>>,
) -> Answer {
    match answer {
        Ok(entry) => {
            let here = seen(entry.key(), entry.get());
            Answer::Entry(None, here)
        }
        Err(error) => refused(error),
    }
}

/// Adds the pair through its entry.
fn enter(
    rt: &impl Wait,
    map: &RuledMap<Token, Token, Anything, Masked>,
    way: Way,
    key: Token,
    value: Token,
) -> Answer {
    let entry = map.entry_sync(rt, key);
    entered(match way {
        Way::OrInsertWith => entry.or_insert_with(|| value),
        Way::OrInsertWithKey => entry.or_insert_with_key(|key| value_of(key, value)),
        Way::OrDefault => entry.or_default(),
        Way::InsertEntry => entry.insert_entry(value),
        _ => entry.or_insert(value),
    })
}

/// Returns the answer for a way whose closure may fail.
fn entered_or_failed(
    answer: Result<
        OccupiedEntry<'_, Token, Token, Anything, Masked>,
        TryInsertError<Token, Token, u64>,
    >,
) -> Answer {
    match answer {
        Ok(entry) => {
            let here = seen(entry.key(), entry.get());
            Answer::Entry(None, here)
        }
        Err(error) => untried(error),
    }
}

/// Adds the pair through its entry, with a closure that makes the value or fails.
fn enter_or_fail(
    rt: &impl Wait,
    map: &RuledMap<Token, Token, Anything, Masked>,
    way: Way,
    key: Token,
    value: Token,
) -> Answer {
    let entry = map.entry_sync(rt, key);
    entered_or_failed(match way {
        Way::OrTryInsertWith => entry.or_try_insert_with(|| Ok(value)),
        _ => entry.or_try_insert_with_key(|key| tried(way, key, value)),
    })
}

/// Adds the pair through its vacant entry.
fn fill(
    rt: &impl Wait,
    map: &RuledMap<Token, Token, Anything, Masked>,
    key: Token,
    value: Token,
) -> Answer {
    match map.entry_sync(rt, key) {
        Entry::Vacant(entry) => entered(entry.insert_entry(value)),
        Entry::Occupied(entry) => {
            let here = seen(entry.key(), entry.get());
            Answer::Found(Some(here))
        }
    }
}

/// Replaces an equal key by `key`. A missing key gets `value`, if there is one.
fn swap(
    rt: &impl Wait,
    map: &RuledMap<Token, Token, Anything, Masked>,
    key: Token,
    value: Option<Token>,
) -> Answer {
    match map.replace_sync(rt, key) {
        ReplaceResult::Replaced(entry, old) => {
            let here = seen(entry.key(), entry.get());
            Answer::Swapped(Some(old.mark()), Some(here))
        }
        ReplaceResult::NotReplaced(entry) => match value {
            Some(value) => entered(entry.insert_entry(value)),
            None => Answer::Swapped(None, None),
        },
    }
}

/// Sets the value of the key's entry, if the key is there.
fn modify_in(
    rt: &impl Wait,
    map: &RuledMap<Token, Token, Anything, Masked>,
    key: Token,
    number: u64,
) -> Answer {
    match map.entry_sync(rt, key).and_modify(|old| old.write(number)) {
        Entry::Occupied(entry) => {
            let here = seen(entry.key(), entry.get());
            Answer::Found(Some(here))
        }
        Entry::Vacant(entry) => {
            let kept = entry.key().number();
            Answer::Vacant(kept, entry.into_key().mark())
        }
    }
}

/// Returns the pair of an entry, if there is one.
fn shown(entry: Option<OccupiedEntry<'_, Token, Token, Anything, Masked>>) -> Option<Seen> {
    match entry {
        Some(entry) => {
            let here = seen(entry.key(), entry.get());
            Some(here)
        }
        None => None,
    }
}

/// Writes the value of an entry if `written` is a number, and reads the entry.
fn look(entry: OccupiedEntry<'_, Token, Token, Anything, Masked>, written: Option<u64>) -> Answer {
    let mut entry = entry;
    if let Some(number) = written {
        entry.update(|_, value| value.write(number));
    }
    let here = seen(entry.key(), entry.get());
    Answer::Found(Some(here))
}

/// Sets the value of an entry.
fn set(entry: OccupiedEntry<'_, Token, Token, Anything, Masked>, value: Token) -> Answer {
    let mut entry = entry;
    Answer::Old(Some(entry.insert(value).number()))
}

/// Removes the pair of an entry, and steps to the next entry.
fn go_on(rt: &impl Wait, entry: OccupiedEntry<'_, Token, Token, Anything, Masked>) -> Answer {
    let (pair, next) = entry.remove_and_sync(rt);
    let gone = seen(&pair.0, &pair.1);
    Answer::Gone(gone, shown(next))
}

/// Does `act` with an entry.
fn act_on(
    rt: &impl Wait,
    entry: OccupiedEntry<'_, Token, Token, Anything, Masked>,
    act: Act,
    number: u64,
) -> Answer {
    match act {
        Act::Write => look(entry, Some(number)),
        Act::Remove => Answer::Old(Some(entry.remove().number())),
        Act::RemoveEntry => Answer::Found(seen_pair(Some(entry.remove_entry()))),
        Act::Next => Answer::Found(shown(entry.next_sync(rt))),
        Act::RemoveNext => go_on(rt, entry),
        _ => look(entry, None),
    }
}

/// Does `act` with the entry that `at` names.
fn act_in(
    rt: &impl Wait,
    map: &RuledMap<Token, Token, Anything, Masked>,
    at: At,
    act: Act,
    key: &Token,
    value: Token,
) -> Answer {
    let number = key.number();
    let entry = match at {
        At::Key => map.get_sync(rt, key),
        At::Any => map.any_sync(rt, |other, _| other.number() == number),
        At::First => map.begin_sync(rt),
    };
    match entry {
        Some(entry) => match act {
            Act::Set => set(entry, value),
            _ => act_on(rt, entry, act, value.number()),
        },
        None => Answer::Found(None),
    }
}

/// Steps from entry to entry.
fn step_in(
    rt: &impl Wait,
    map: &RuledMap<Token, Token, Anything, Masked>,
    most: usize,
    met: &mut Vec<Seen>,
) -> Answer {
    let mut had_room = true;
    let mut place = map.begin_sync(rt);
    for _ in 0..most {
        let Some(entry) = place else {
            break;
        };
        had_room = met.push(seen(entry.key(), entry.get())).is_ok() && had_room;
        place = entry.next_sync(rt);
    }
    walked(had_room)
}

/// Removes pairs by steps from entry to entry.
fn drain_in(
    rt: &impl Wait,
    map: &RuledMap<Token, Token, Anything, Masked>,
    most: usize,
    met: &mut Vec<Seen>,
) -> Answer {
    let mut had_room = true;
    let mut place = map.begin_sync(rt);
    for _ in 0..most {
        let Some(entry) = place else {
            break;
        };
        let (pair, next) = entry.remove_and_sync(rt);
        had_room = met.push(seen(&pair.0, &pair.1)).is_ok() && had_room;
        place = next;
    }
    walked(had_room)
}

/// Reserves `slots` slots and releases them.
fn reserve_in(
    rt: &impl Wait,
    map: &RuledMap<Token, Token, Anything, Masked>,
    slots: usize,
) -> Answer {
    match map.reserve(rt, slots) {
        Some(held) => {
            let minimum = *map.capacity_range().start();
            Answer::Reserved(
                held.additional_capacity(),
                held.as_ref().capacity(rt),
                minimum,
            )
        }
        None => Answer::Refused(None),
    }
}

impl<R: Wait> Form for Held<'_, R, RuledMap<Token, Token, Anything, Masked>> {
    fn kind(&self) -> Kind {
        Kind::Map
    }

    fn add(&mut self, way: Way, key: Token, value: Token) -> Answer {
        match way {
            Way::Insert => match self.ruled.insert_sync(self.rt, key, value) {
                Ok(()) => Answer::Added(None),
                Err(error) => refused(error),
            },
            Way::Upsert => match self.ruled.upsert_sync(self.rt, key, value) {
                Ok(old) => Answer::Old(number_of(old)),
                Err(error) => refused(error),
            },
            Way::Replace => swap(self.rt, &self.ruled, key, Some(value)),
            Way::Vacant => fill(self.rt, &self.ruled, key, value),
            Way::OrTryInsertWith | Way::OrTryInsertWithKey | Way::OrFail => {
                enter_or_fail(self.rt, &self.ruled, way, key, value)
            }
            _ => enter(self.rt, &self.ruled, way, key, value),
        }
    }

    fn replace(&mut self, key: Token) -> Answer {
        swap(self.rt, &self.ruled, key, None)
    }

    fn update(&mut self, key: &Token, value: Token) -> Answer {
        Answer::Old(
            self.ruled.update_sync(self.rt, key, |_, old| {
                let number = old.number();
                *old = value;
                number
            }),
        )
    }

    fn modify(&mut self, key: Token, value: Token) -> Answer {
        modify_in(self.rt, &self.ruled, key, value.number())
    }

    fn act(&mut self, at: At, act: Act, key: &Token, value: Token) -> Answer {
        act_in(self.rt, &self.ruled, at, act, key, value)
    }

    fn remove(&mut self, key: &Token) -> Answer {
        Answer::Found(seen_pair(self.ruled.remove_sync(self.rt, key)))
    }

    fn remove_if(&mut self, key: &Token) -> Answer {
        let taken = self.ruled.remove_if_sync(self.rt, key, raise_to_even);
        Answer::Found(seen_pair(taken))
    }

    fn read(&self, key: &Token) -> Answer {
        let found = self.ruled.read_sync(self.rt, key, seen);
        if self.ruled.contains_sync(self.rt, key) == found.is_some() {
            Answer::Found(found)
        } else {
            Answer::Wrong
        }
    }

    fn place(&self, key: &Token) -> Answer {
        Answer::Place(
            self.ruled.bucket_index(self.rt, key),
            self.ruled.has_room(self.rt, key),
        )
    }

    fn retain(&mut self, rest: u64) {
        self.ruled
            .retain_sync(self.rt, |key, value| raise_and_keep(key, value, rest));
    }

    fn take(&mut self, alloc: Global, rule: Rule, met: &mut Vec<Seen>) -> Answer {
        let mut pairs: Vec<(Token, Token)> = Vec::new(alloc);
        let ended = self.ruled.iter_mut_sync(
            self.rt,
            |key, value| verdict(rule, key, value),
            &mut pairs,
        );
        let noted = note_pairs(pairs.as_slice(), met);
        match ended {
            Ok(ended) if noted => Answer::Yes(ended),
            _ => Answer::Refused(None),
        }
    }

    fn collect(&self, met: &mut Vec<Seen>) -> bool {
        self.ruled
            .iter_sync(self.rt, |key, value| met.push(seen(key, value)).is_ok())
    }

    fn passes(&self, number: u64) -> bool {
        self.ruled
            .iter_sync(self.rt, |key, _| key.number() != number)
    }

    fn step(&mut self, most: usize, met: &mut Vec<Seen>) -> Answer {
        step_in(self.rt, &self.ruled, most, met)
    }

    fn drain(&mut self, most: usize, met: &mut Vec<Seen>) -> Answer {
        drain_in(self.rt, &self.ruled, most, met)
    }

    fn copy(&self) -> Answer {
        match self.ruled.try_clone(self.rt) {
            Ok(copy) => Answer::Yes(
                copy.eq_sync(self.rt, &self.ruled) && self.ruled.eq_sync(self.rt, &copy),
            ),
            Err(_) => Answer::Refused(None),
        }
    }

    fn clear(&mut self) {
        self.ruled.clear_sync(self.rt);
    }

    fn reserve(&mut self, slots: usize) -> Answer {
        reserve_in(self.rt, &self.ruled, slots)
    }

    fn sizes(&self) -> Sizes {
        let range = self.ruled.capacity_range();
        Sizes {
            len: self.ruled.len(self.rt),
            is_empty: self.ruled.is_empty(self.rt),
            capacity: self.ruled.capacity(self.rt),
            minimum: *range.start(),
            maximum: *range.end(),
        }
    }

    fn is_one(&self) -> bool {
        self.is_one
    }
}
