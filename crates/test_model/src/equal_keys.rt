//! Equal keys that a mark tells apart, many under one hash: which of two is stored, and which comes back.

use std::alloc::{AllocError, Global};
use std::sync::Wait;
use test_forms::answers::{Answer, Kind};
use test_forms::form::{Act, At, Form, Way};
use test_forms::numbered::Seen;
use test_forms::token::Token;
use test_forms_ruled::every::in_every_form;
use test_forms_shared::every::Case;
use test_kit::masked::{ALIKE, ZERO};

/// Returns the number of keys: a full bucket of a cache, or more than a bucket of another kind has slots for.
fn keys_of(kind: Kind) -> u64 {
    if kind == Kind::Cache { 32 } else { 40 }
}

/// Returns the key of number `i`, far from the other keys. `i` is added to its mark.
fn key_of(i: u64, mark: u64) -> Token {
    Token::marked(i.wrapping_mul(0x9E37_79B9_7F4A_7C15), mark.wrapping_add(i))
}

/// Returns the numbers of the pair of key `i`.
fn pair_of(i: u64, mark: u64, value: u64) -> Seen {
    let key = key_of(i, mark);
    (key.number(), key.mark(), value)
}

/// Returns the value as the kind shows it.
fn shown(kind: Kind, value: u64) -> u64 {
    if kind.shows_values() { value } else { 0 }
}

/// Adds the keys (i, 100 + i) with the values i. Returns whether each was added, and an equal key then comes back.
fn fills<F: Form>(form: &mut F) -> bool {
    let kind = form.kind();
    let mut added = true;
    for i in 0..keys_of(kind) {
        added &= form.add(Way::Insert, key_of(i, 100), Token::of(i)) == Answer::Added(None);
    }
    for i in 0..keys_of(kind) {
        let back = Answer::Exists(pair_of(i, 300, shown(kind, 7)));
        added &= form.add(Way::Insert, key_of(i, 300), Token::of(7)) == back;
    }
    added
}

/// Returns whether key i has the mark `mark` + i and the value `value` + i, and is removed with them.
fn goes<F: Form>(form: &mut F, mark: u64, value: u64) -> bool {
    let kind = form.kind();
    let mut gone = true;
    for i in 0..keys_of(kind) {
        let there = Answer::Found(Some(pair_of(i, mark, shown(kind, value.wrapping_add(i)))));
        gone &= form.read(&key_of(i, 500)) == there;
        let wanted = if kind == Kind::Index {
            Answer::Yes(true)
        } else {
            there
        };
        gone &= form.remove(&key_of(i, 600)) == wanted;
    }
    gone && form.sizes().len == 0
}

/// Replaces each key (i, 100 + i) by (i, 200 + i). Values stay. An index replaces no key.
#[derive(Clone, Copy)]
pub struct Replaces;

/// Returns whether each replacement returns the replaced key.
fn all_replaced<F: Form>(form: &mut F) -> bool {
    let kind = form.kind();
    let mut replaced = true;
    for i in 0..keys_of(kind) {
        let after = if kind == Kind::Set {
            None
        } else {
            Some(pair_of(i, 200, i))
        };
        let wanted = if kind == Kind::Index {
            Answer::Absent
        } else {
            Answer::Swapped(Some(i.wrapping_add(100)), after)
        };
        replaced &= form.replace(key_of(i, 200)) == wanted;
    }
    replaced
}

impl Case for Replaces {
    fn check<F: Form>(&self, _alloc: Global, form: &mut F) -> Result<bool, AllocError> {
        let mark = if form.kind() == Kind::Index { 100 } else { 200 };
        Ok(fills(form) && all_replaced(form) && goes(form, mark, 0))
    }

    fn has_ended(&self) -> bool {
        true
    }
}

/// Writes the value of each key under an equal key. The stored key stays. A set has no values.
#[derive(Clone, Copy)]
pub struct Updates;

/// Writes the value of key `i` as its kind does.
fn write<F: Form>(form: &mut F, i: u64) -> Answer {
    let (key, value) = (key_of(i, 200), Token::of(i.wrapping_add(400)));
    match form.kind() {
        Kind::Index => form.act(At::Key, Act::Set, &key, value),
        Kind::Cache => form.add(Way::InsertEntry, key, value),
        _ => form.add(Way::Upsert, key, value),
    }
}

/// Returns whether each write returns what its kind says.
fn all_updated<F: Form>(form: &mut F) -> bool {
    let kind = form.kind();
    let mut updated = true;
    for i in 0..keys_of(kind) {
        let wanted = match kind {
            Kind::Map => Answer::Old(Some(i)),
            Kind::Set => Answer::Absent,
            Kind::Index => Answer::Yes(true),
            Kind::Cache => Answer::Entry(None, pair_of(i, 100, i.wrapping_add(400))),
        };
        updated &= write(form, i) == wanted;
    }
    updated
}

impl Case for Updates {
    fn check<F: Form>(&self, _alloc: Global, form: &mut F) -> Result<bool, AllocError> {
        Ok(fills(form) && all_updated(form) && goes(form, 100, 400))
    }

    fn has_ended(&self) -> bool {
        true
    }
}

/// Prints a line for each case. Returns the worst status.
pub(crate) fn run_equal_keys<R: Wait + AllocGlobal + Print>(rt: &R) -> u8 {
    let one = in_every_form(rt, &Replaces, "keys replaced, all hashes 0", ZERO);
    let two = in_every_form(rt, &Replaces, "keys replaced, one tag", ALIKE);
    let three = in_every_form(rt, &Updates, "values written, all hashes 0", ZERO);
    let four = in_every_form(rt, &Updates, "values written, one tag", ALIKE);
    one.max(two).max(three).max(four)
}
