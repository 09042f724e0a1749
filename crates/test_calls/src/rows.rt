// Calls as rows of data, and functions that make them on a container of any kind.
use crate::expect::{expect, expect_eq};
use std::alloc::Global;
use std::process::Abort;
use test_forms::answers::{Answer, Rule};
use test_forms::form::{Act, At, Form, Way};
use test_forms::token::Token;

// A call. A key has a number, by which keys are compared, and a mark, which tells equal keys apart.
#[derive(Clone, Copy)]
pub(crate) enum Call {
    // Adds the keys from the first number on and before the second, each with itself as value: `Yes`.
    Fill(u64, u64),
    // Removes the keys from the first number on and before the second: `Yes`.
    Empty(u64, u64),
    // Removes the keys from the first number on and before the second, each through its entry: `Yes`.
    EmptyByEntry(u64, u64),
    // Adds so many keys, which stand in all buckets alike if keys are their own hashes, and reads each: `Yes`.
    Spread(u64),
    // Adds a key with the number, the mark and the value.
    Add(Way, u64, u64, u64),
    // Replaces the key with the number by an equal key with the mark.
    Replace(u64, u64),
    // Sets the value of a key by its entry. The key in the call has the mark 1.
    Modify(u64, u64),
    // Does the act with an occupied entry, and the value.
    On(At, Act, u64, u64),
    Remove(u64),
    // Adds 1 to the value, and removes the pair if the value is even then.
    RemoveIf(u64),
    Read(u64),
    Place(u64),
    // Adds 1 to each value, and removes the keys that leave the given rest when divided by 8: `Yes`.
    Retain(u64),
    Take(Rule),
    // Walks until the key, and tells whether the walk comes to its end: `Yes`.
    Passes(u64),
    Copy,
    Clear,
}

/// Adds the keys from `first` on and before `end`. Returns whether each was added.
fn fill<F: Form>(form: &mut F, first: u64, end: u64) -> bool {
    for key in first..end {
        if form.add(Way::Insert, Token::of(key), Token::of(key)) != Answer::Added(None) {
            return false;
        }
    }
    true
}

/// Removes the keys from `first` on and before `end`. Returns whether each is gone.
fn empty<F: Form>(form: &mut F, first: u64, end: u64) -> bool {
    for key in first..end {
        form.remove(&Token::of(key));
        if form.read(&Token::of(key)) != Answer::Found(None) {
            return false;
        }
    }
    true
}

/// Removes the keys from `first` on and before `end`, each through its entry. Returns whether each is gone.
fn empty_by_entry<F: Form>(form: &mut F, first: u64, end: u64) -> bool {
    for key in first..end {
        form.act(At::Any, Act::RemoveEntry, &Token::of(key), Token::of(0));
        if form.read(&Token::of(key)) != Answer::Found(None) {
            return false;
        }
    }
    true
}

/// Adds `keys` keys, whose numbers are 0, 1 and so on with their bits reversed. Returns whether each was added and is
/// read.
fn spread<F: Form>(form: &mut F, keys: u64) -> bool {
    for i in 0..keys {
        let key = Token::marked(i.reverse_bits(), i);
        if form.add(Way::Insert, key, Token::of(0)) != Answer::Added(None) {
            return false;
        }
    }
    for i in 0..keys {
        let number = i.reverse_bits();
        if form.read(&Token::of(number)) != Answer::Found(Some((number, i, 0))) {
            return false;
        }
    }
    true
}

/// Makes a call on many keys or on all.
fn answer_of_many<F: Form>(alloc: Global, form: &mut F, call: Call) -> Answer {
    match call {
        Call::Fill(first, end) => Answer::Yes(fill(form, first, end)),
        Call::Empty(first, end) => Answer::Yes(empty(form, first, end)),
        Call::EmptyByEntry(first, end) => Answer::Yes(empty_by_entry(form, first, end)),
        Call::Spread(keys) => Answer::Yes(spread(form, keys)),
        Call::Retain(rest) => {
            form.retain(rest);
            Answer::Yes(true)
        }
        Call::Take(rule) => {
            let mut taken = Vec::new(alloc);
            form.take(alloc, rule, &mut taken)
        }
        Call::Passes(number) => Answer::Yes(form.passes(number)),
        Call::Copy => form.copy(),
        _ => {
            form.clear();
            Answer::Yes(true)
        }
    }
}

/// Makes a call.
fn answer<F: Form>(alloc: Global, form: &mut F, call: Call) -> Answer {
    match call {
        Call::Add(way, number, mark, value) => form.add(
            way,
            Token::marked(number, mark),
            Token::of(value),
        ),
        Call::Replace(number, mark) => form.replace(Token::marked(number, mark)),
        Call::Modify(number, value) => form.modify(Token::marked(number, 1), Token::of(value)),
        Call::On(at, act, number, value) => form.act(at, act, &Token::of(number), Token::of(value)),
        Call::Remove(number) => form.remove(&Token::of(number)),
        Call::RemoveIf(number) => form.remove_if(&Token::of(number)),
        Call::Read(number) => form.read(&Token::of(number)),
        Call::Place(number) => form.place(&Token::of(number)),
        call => answer_of_many(alloc, form, call),
    }
}

/// Returns the number of pairs, the capacity, and the number of waiting buckets.
fn sizes<F: Form>(form: &F) -> (usize, usize, usize) {
    let sizes = form.sizes();
    (sizes.len, sizes.capacity, form.waiting().unwrap_or(0))
}

/// Returns the number of the first row with a wrong answer, and what the call returned.
fn first_other<F: Form>(
    alloc: Global,
    form: &mut F,
    rows: &[(Call, Answer)],
) -> Option<(usize, Answer)> {
    for (number, row) in rows.iter().enumerate() {
        let found = answer(alloc, form, row.0);
        if found != row.1 {
            return Some((number, found));
        }
    }
    None
}

/// Makes the calls in turn. Each must return the answer of its row.
pub(crate) fn expect_answers<R: AllocGlobal + Abort, F: Form>(
    rt: &R,
    form: &mut F,
    rows: &[(Call, Answer)],
) {
    expect_eq(rt, first_other(rt.alloc(), form, rows), None);
}

/// Makes calls on many keys in turn. Each must return true, and leave the number of pairs, the capacity and the number
/// of waiting buckets of its row.
pub(crate) fn expect_sizes<R: AllocGlobal + Abort, F: Form>(
    rt: &R,
    form: &mut F,
    rows: &[(Call, (usize, usize, usize))],
) {
    for (call, wanted) in rows {
        expect(rt, answer(rt.alloc(), form, *call) == Answer::Yes(true));
        expect_eq(rt, sizes(form), *wanted);
    }
}
