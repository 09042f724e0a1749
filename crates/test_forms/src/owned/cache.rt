//! `Form` for the owned cache.

use crate::answers::{
    Answer, Kind, Rule, prepared, raise_and_keep, refused, tried, untried, verdict,
};
use crate::form::{Act, At, Form, Sizes, Way};
use crate::numbered::{Seen, note_pairs, raise_to_even, seen, seen_pair, value_of};
use crate::token::Token;
use scc_common::{InsertError, TryInsertError};
use scc_owned_cache::borrowed::{Entry, OccupiedEntry, ReplaceResult};
use scc_owned_cache::{EvictedEntry, Owned};
use std::alloc::Global;
use test_kit::masked::Masked;

/// The result of a put through an entry: the evicted pair, if any, and the entry of the new pair.
type Placed<'a> = Result<
    (
        EvictedEntry<Token, Token>,
        OccupiedEntry<'a, Token, Token, Masked>,
    ),
    InsertError<Token, Token>,
>;

/// Puts the pair through its entry.
fn enter<'a>(
    cache: &'a mut Owned<Token, Token, Masked>,
    way: Way,
    key: Token,
    value: Token,
) -> Placed<'a> {
    let entry = cache.entry_sync(key);
    match way {
        Way::OrInsertWith => entry.or_put_with(|| value),
        Way::OrInsertWithKey => entry.or_put_with_key(|key| value_of(key, value)),
        Way::OrDefault => entry.or_default(),
        Way::InsertEntry => entry.put_entry(value),
        _ => entry.or_put(value),
    }
}

/// Returns the answer for a way that returns an entry.
fn entered(cache: &mut Owned<Token, Token, Masked>, way: Way, key: Token, value: Token) -> Answer {
    match enter(cache, way, key, value) {
        Ok(placed) => {
            let (evicted, entry) = placed;
            let here = seen(entry.key(), entry.get());
            Answer::Entry(seen_pair(evicted), here)
        }
        Err(error) => refused(error),
    }
}

/// Puts the pair through its entry, with a closure that makes the value or fails.
fn enter_or_fail<'a>(
    cache: &'a mut Owned<Token, Token, Masked>,
    way: Way,
    key: Token,
    value: Token,
) -> Result<
    (
        EvictedEntry<Token, Token>,
        OccupiedEntry<'a, Token, Token, Masked>,
    ),
    TryInsertError<Token, Token, u64>,
> {
    let entry = cache.entry_sync(key);
    match way {
        Way::OrTryInsertWith => entry.or_try_put_with(|| Ok(value)),
        _ => entry.or_try_put_with_key(|key| tried(way, key, value)),
    }
}

/// Returns the answer for a way whose closure may fail.
fn entered_or_failed(
    cache: &mut Owned<Token, Token, Masked>,
    way: Way,
    key: Token,
    value: Token,
) -> Answer {
    match enter_or_fail(cache, way, key, value) {
        Ok(placed) => {
            let (evicted, entry) = placed;
            let here = seen(entry.key(), entry.get());
            Answer::Entry(seen_pair(evicted), here)
        }
        Err(error) => untried(error),
    }
}

/// Puts the pair through its vacant entry.
fn fill(cache: &mut Owned<Token, Token, Masked>, key: Token, value: Token) -> Answer {
    match cache.entry_sync(key) {
        Entry::Vacant(entry) => match entry.put_entry(value) {
            Ok(placed) => {
                let (evicted, entry) = placed;
                let here = seen(entry.key(), entry.get());
                Answer::Entry(seen_pair(evicted), here)
            }
            Err(error) => refused(error),
        },
        Entry::Occupied(entry) => Answer::Found(Some(seen(entry.key(), entry.get()))),
    }
}

/// Replaces an equal key by `key`, or puts the pair.
fn replace_or_fill(cache: &mut Owned<Token, Token, Masked>, key: Token, value: Token) -> Answer {
    match cache.replace_sync(key) {
        ReplaceResult::Replaced(entry, old) => {
            let here = seen(entry.key(), entry.get());
            Answer::Swapped(Some(old.mark()), Some(here))
        }
        ReplaceResult::NotReplaced(entry) => match entry.put_entry(value) {
            Ok(placed) => {
                let (evicted, entry) = placed;
                let here = seen(entry.key(), entry.get());
                Answer::Entry(seen_pair(evicted), here)
            }
            Err(error) => refused(error),
        },
    }
}

/// Does `act` with the entry of the key, and keeps its pair.
fn act_and_keep(
    cache: &mut Owned<Token, Token, Masked>,
    act: Act,
    key: &Token,
    value: Token,
) -> Answer {
    match cache.get_sync(key) {
        Some(mut entry) => match act {
            Act::Set => Answer::Old(Some(entry.put(value).number())),
            Act::Write => {
                entry.get_mut().write(value.number());
                Answer::Found(Some(seen(entry.key(), entry.get())))
            }
            _ => Answer::Found(Some(seen(entry.key(), entry.get()))),
        },
        None => Answer::Found(None),
    }
}

/// Removes the pair of the entry.
fn act_and_remove(cache: &mut Owned<Token, Token, Masked>, act: Act, key: &Token) -> Answer {
    match cache.get_sync(key) {
        Some(entry) => match act {
            Act::Remove => Answer::Old(Some(entry.remove().number())),
            _ => Answer::Found(seen_pair(Some(entry.remove_entry()))),
        },
        None => Answer::Found(None),
    }
}

impl Form for Owned<Token, Token, Masked> {
    fn kind(&self) -> Kind {
        Kind::Cache
    }

    fn add(&mut self, way: Way, key: Token, value: Token) -> Answer {
        match way {
            Way::Insert => match self.put_sync(key, value) {
                Ok(evicted) => Answer::Added(seen_pair(evicted)),
                Err(error) => refused(error),
            },
            Way::Upsert => Answer::Absent,
            Way::Replace => replace_or_fill(self, key, value),
            Way::Vacant => fill(self, key, value),
            Way::OrTryInsertWith | Way::OrTryInsertWithKey | Way::OrFail => {
                entered_or_failed(self, way, key, value)
            }
            _ => entered(self, way, key, value),
        }
    }

    fn replace(&mut self, key: Token) -> Answer {
        match self.replace_sync(key) {
            ReplaceResult::Replaced(entry, old) => {
                Answer::Swapped(Some(old.mark()), Some(seen(entry.key(), entry.get())))
            }
            ReplaceResult::NotReplaced(_) => Answer::Swapped(None, None),
        }
    }

    fn modify(&mut self, key: Token, value: Token) -> Answer {
        match self
            .entry_sync(key)
            .and_modify(|old| old.write(value.number()))
        {
            Entry::Occupied(entry) => Answer::Found(Some(seen(entry.key(), entry.get()))),
            Entry::Vacant(entry) => {
                let number = entry.key().number();
                Answer::Vacant(number, entry.into_key().mark())
            }
        }
    }

    fn act(&mut self, at: At, act: Act, key: &Token, value: Token) -> Answer {
        if at != At::Key {
            return Answer::Absent;
        }
        match act {
            Act::Look | Act::Write | Act::Set => act_and_keep(self, act, key, value),
            Act::Remove | Act::RemoveEntry => act_and_remove(self, act, key),
            Act::Next | Act::RemoveNext => Answer::Absent,
        }
    }

    fn remove(&mut self, key: &Token) -> Answer {
        Answer::Found(seen_pair(self.remove_sync(key)))
    }

    fn remove_if(&mut self, key: &Token) -> Answer {
        let taken = self.remove_if_sync(key, raise_to_even);
        Answer::Found(seen_pair(taken))
    }

    fn read(&self, key: &Token) -> Answer {
        let found = self.read_sync(key, seen);
        if self.contains_sync(key) == found.is_some() {
            Answer::Found(found)
        } else {
            Answer::Wrong
        }
    }

    fn retain(&mut self, rest: u64) {
        self.retain_sync(|key, value| raise_and_keep(key, value, rest));
    }

    fn take(&mut self, alloc: Global, rule: Rule, met: &mut Vec<Seen>) -> Answer {
        let mut pairs: Vec<(Token, Token)> = Vec::new(alloc);
        let ended = self.iter_mut_sync(|key, value| verdict(rule, key, value), &mut pairs);
        let noted = note_pairs(pairs.as_slice(), met);
        match ended {
            Ok(ended) if noted => Answer::Yes(ended),
            _ => Answer::Refused(None),
        }
    }

    fn collect(&self, met: &mut Vec<Seen>) -> bool {
        self.iter_sync(|key, value| met.push(seen(key, value)).is_ok())
    }

    fn passes(&self, number: u64) -> bool {
        self.iter_sync(|key, _| key.number() != number)
    }

    fn clear(&mut self) {
        self.clear_sync();
    }

    fn make_room(&mut self, key: &Token) -> Answer {
        prepared(Owned::make_room(self, key))
    }

    fn drop_room(&mut self) {
        Owned::drop_room(self);
    }

    fn sizes(&self) -> Sizes {
        let range = self.capacity_range();
        Sizes {
            len: self.len(),
            is_empty: self.is_empty(),
            capacity: self.capacity(),
            minimum: *range.start(),
            maximum: *range.end(),
        }
    }

    fn waiting(&self) -> Option<usize> {
        Some(self.pending())
    }

    fn is_resize_refused(&self) -> bool {
        Owned::is_resize_refused(self)
    }
}
