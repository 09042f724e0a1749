//! `Form` for the cache under a rule.

use crate::with_runtime::Held;
use scc_common::{Anything, InsertError, TryInsertError};
use scc_owned_cache::EvictedEntry;
use scc_shared_cache::RuledCache;
use scc_shared_cache::ruled::{Entry, OccupiedEntry, ReplaceResult};
use std::alloc::Global;
use std::sync::Wait;
use test_forms::answers::{Answer, Kind, Rule, raise_and_keep, refused, tried, untried, verdict};
use test_forms::form::{Act, At, Form, Sizes, Way};
use test_forms::numbered::{Seen, note_pairs, raise_to_even, seen, seen_pair, value_of};
use test_forms::token::Token;
use test_kit::masked::Masked;

/// Returns the answer for a way that returns an entry.
fn entered(
    answer: Result<
        (
            EvictedEntry<Token, Token>,
            OccupiedEntry<'_, Token, Token, Anything, Masked>,
        ),
        InsertError<Token, Token>,
    >,
) -> Answer {
    match answer {
        Ok((evicted, entry)) => {
            let here = seen(entry.key(), entry.get());
            Answer::Entry(seen_pair(evicted), here)
        }
        Err(error) => refused(error),
    }
}

/// Puts the pair through its entry.
fn enter(
    rt: &impl Wait,
    cache: &RuledCache<Token, Token, Anything, Masked>,
    way: Way,
    key: Token,
    value: Token,
) -> Answer {
    let entry = cache.entry_sync(rt, key);
    entered(match way {
        Way::OrInsertWith => entry.or_put_with(|| value),
        Way::OrInsertWithKey => entry.or_put_with_key(|key| value_of(key, value)),
        Way::OrDefault => entry.or_default(),
        Way::InsertEntry => entry.put_entry(value),
        _ => entry.or_put(value),
    })
}

/// Returns the answer for a way whose closure may fail.
fn entered_or_failed(
    answer: Result<
        (
            EvictedEntry<Token, Token>,
            OccupiedEntry<'_, Token, Token, Anything, Masked>,
        ),
        TryInsertError<Token, Token, u64>,
    >,
) -> Answer {
    match answer {
        Ok((evicted, entry)) => {
            let here = seen(entry.key(), entry.get());
            Answer::Entry(seen_pair(evicted), here)
        }
        Err(error) => untried(error),
    }
}

/// Puts the pair through its entry, with a closure that makes the value or fails.
fn enter_or_fail(
    rt: &impl Wait,
    cache: &RuledCache<Token, Token, Anything, Masked>,
    way: Way,
    key: Token,
    value: Token,
) -> Answer {
    let entry = cache.entry_sync(rt, key);
    entered_or_failed(match way {
        Way::OrTryInsertWith => entry.or_try_put_with(|| Ok(value)),
        _ => entry.or_try_put_with_key(|key| tried(way, key, value)),
    })
}

/// Puts the pair through its vacant entry.
fn fill(
    rt: &impl Wait,
    cache: &RuledCache<Token, Token, Anything, Masked>,
    key: Token,
    value: Token,
) -> Answer {
    match cache.entry_sync(rt, key) {
        Entry::Vacant(entry) => entered(entry.put_entry(value)),
        Entry::Occupied(entry) => {
            let here = seen(entry.key(), entry.get());
            Answer::Found(Some(here))
        }
    }
}

/// Replaces an equal key by `key`. A missing key gets `value`, if there is one.
fn swap(
    rt: &impl Wait,
    cache: &RuledCache<Token, Token, Anything, Masked>,
    key: Token,
    value: Option<Token>,
) -> Answer {
    match cache.replace_sync(rt, key) {
        ReplaceResult::Replaced(entry, old) => {
            let here = seen(entry.key(), entry.get());
            Answer::Swapped(Some(old.mark()), Some(here))
        }
        ReplaceResult::NotReplaced(entry) => match value {
            Some(value) => entered(entry.put_entry(value)),
            None => Answer::Swapped(None, None),
        },
    }
}

/// Sets the value of the key's entry, if the key is there.
fn modify_in(
    rt: &impl Wait,
    cache: &RuledCache<Token, Token, Anything, Masked>,
    key: Token,
    number: u64,
) -> Answer {
    match cache
        .entry_sync(rt, key)
        .and_modify(|old| old.write(number))
    {
        Entry::Occupied(entry) => {
            let here = seen(entry.key(), entry.get());
            Answer::Found(Some(here))
        }
        Entry::Vacant(entry) => {
            let kept = entry.key().number();
            Answer::Vacant(kept, entry.into_key().mark())
        }
    }
}

/// Writes the value of an entry if `written` is a number, and reads the entry.
fn look(entry: OccupiedEntry<'_, Token, Token, Anything, Masked>, written: Option<u64>) -> Answer {
    let mut entry = entry;
    if let Some(number) = written {
        entry.update(|_, value| value.write(number));
    }
    let here = seen(entry.key(), entry.get());
    Answer::Found(Some(here))
}

/// Sets the value of an entry.
fn set(entry: OccupiedEntry<'_, Token, Token, Anything, Masked>, value: Token) -> Answer {
    let mut entry = entry;
    Answer::Old(Some(entry.put(value).number()))
}

/// Does `act` with an entry.
fn act_on(
    entry: OccupiedEntry<'_, Token, Token, Anything, Masked>,
    act: Act,
    number: u64,
) -> Answer {
    match act {
        Act::Look => look(entry, None),
        Act::Write => look(entry, Some(number)),
        Act::Remove => Answer::Old(Some(entry.remove().number())),
        Act::RemoveEntry => Answer::Found(seen_pair(Some(entry.remove_entry()))),
        _ => Answer::Absent,
    }
}

/// Does `act` with the entry of the key.
fn act_in(
    rt: &impl Wait,
    cache: &RuledCache<Token, Token, Anything, Masked>,
    act: Act,
    key: &Token,
    value: Token,
) -> Answer {
    match cache.get_sync(rt, key) {
        Some(entry) => match act {
            Act::Set => set(entry, value),
            _ => act_on(entry, act, value.number()),
        },
        None => Answer::Found(None),
    }
}

impl<R: Wait> Form for Held<'_, R, RuledCache<Token, Token, Anything, Masked>> {
    fn kind(&self) -> Kind {
        Kind::Cache
    }

    fn add(&mut self, way: Way, key: Token, value: Token) -> Answer {
        match way {
            Way::Insert => match self.ruled.put_sync(self.rt, key, value) {
                Ok(evicted) => Answer::Added(seen_pair(evicted)),
                Err(error) => refused(error),
            },
            Way::Upsert => Answer::Absent,
            Way::Replace => swap(self.rt, &self.ruled, key, Some(value)),
            Way::Vacant => fill(self.rt, &self.ruled, key, value),
            Way::OrTryInsertWith | Way::OrTryInsertWithKey | Way::OrFail => {
                enter_or_fail(self.rt, &self.ruled, way, key, value)
            }
            _ => enter(self.rt, &self.ruled, way, key, value),
        }
    }

    fn replace(&mut self, key: Token) -> Answer {
        swap(self.rt, &self.ruled, key, None)
    }

    fn modify(&mut self, key: Token, value: Token) -> Answer {
        modify_in(self.rt, &self.ruled, key, value.number())
    }

    fn act(&mut self, at: At, act: Act, key: &Token, value: Token) -> Answer {
        if at != At::Key || !act.is_of(Kind::Cache) {
            return Answer::Absent;
        }
        act_in(self.rt, &self.ruled, act, key, value)
    }

    fn remove(&mut self, key: &Token) -> Answer {
        Answer::Found(seen_pair(self.ruled.remove_sync(self.rt, key)))
    }

    fn remove_if(&mut self, key: &Token) -> Answer {
        let taken = self.ruled.remove_if_sync(self.rt, key, raise_to_even);
        Answer::Found(seen_pair(taken))
    }

    fn read(&self, key: &Token) -> Answer {
        let found = self.ruled.read_sync(self.rt, key, seen);
        if self.ruled.contains_sync(self.rt, key) == found.is_some() {
            Answer::Found(found)
        } else {
            Answer::Wrong
        }
    }

    fn retain(&mut self, rest: u64) {
        self.ruled
            .retain_sync(self.rt, |key, value| raise_and_keep(key, value, rest));
    }

    fn take(&mut self, alloc: Global, rule: Rule, met: &mut Vec<Seen>) -> Answer {
        let mut pairs: Vec<(Token, Token)> = Vec::new(alloc);
        let ended = self.ruled.iter_mut_sync(
            self.rt,
            |key, value| verdict(rule, key, value),
            &mut pairs,
        );
        let noted = note_pairs(pairs.as_slice(), met);
        match ended {
            Ok(ended) if noted => Answer::Yes(ended),
            _ => Answer::Refused(None),
        }
    }

    fn collect(&self, met: &mut Vec<Seen>) -> bool {
        self.ruled
            .iter_sync(self.rt, |key, value| met.push(seen(key, value)).is_ok())
    }

    fn passes(&self, number: u64) -> bool {
        self.ruled
            .iter_sync(self.rt, |key, _| key.number() != number)
    }

    fn clear(&mut self) {
        self.ruled.clear_sync(self.rt);
    }

    fn sizes(&self) -> Sizes {
        let range = self.ruled.capacity_range();
        Sizes {
            len: self.ruled.len(self.rt),
            is_empty: self.ruled.is_empty(self.rt),
            capacity: self.ruled.capacity(self.rt),
            minimum: *range.start(),
            maximum: *range.end(),
        }
    }

    fn is_one(&self) -> bool {
        self.is_one
    }
}
