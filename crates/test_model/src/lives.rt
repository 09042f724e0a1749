//! Calls of all sorts on tokens. After each run of calls the tokens in the container live and no others. Each token
//! is dropped once.

use std::alloc::{AllocError, Global};
use std::rc::Rc;
use std::sync::Wait;
use test_forms::answers::{Kind, Rule};
use test_forms::calls::{What, make};
use test_forms::form::{Act, At, Form, Way};
use test_forms::token::{Book, Token};
use test_forms_ruled::every::in_every_form;
use test_forms_shared::every::Case;
use test_kit::lines::REFUSED;
use test_kit::masked::{SAME, ZERO};

// More tokens than a case makes in all kinds and forms.
const ROOM: usize = 80_000;

/// Calls, each made on the keys from the first number on and before the second. A kind that lacks a call only makes
/// and drops its tokens.
const RUNS: [(What, u64, u64); 22] = [
    (What::Add(Way::Insert), 0, 60),
    (What::Add(Way::OrInsert), 50, 80),
    (What::Add(Way::OrInsertWith), 70, 90),
    (What::Add(Way::Vacant), 80, 100),
    (What::Add(Way::Insert), 50, 110),
    (What::Add(Way::Upsert), 80, 120),
    (What::Add(Way::Replace), 90, 130),
    (What::Add(Way::InsertEntry), 90, 140),
    (What::Replace, 90, 150),
    (What::Update, 90, 150),
    (What::Modify, 90, 150),
    (What::Read, 0, 150),
    (What::Act(At::Key, Act::Set), 90, 150),
    (What::Act(At::Key, Act::Remove), 90, 95),
    (What::Act(At::Key, Act::RemoveEntry), 95, 100),
    (What::Act(At::Key, Act::RemoveNext), 80, 85),
    (What::Act(At::Any, Act::RemoveEntry), 85, 90),
    (What::Remove, 100, 110),
    (What::RemoveIf, 110, 150),
    (What::Remove, 100, 150),
    (What::Copy, 0, 1),
    (What::Drain, 0, 8),
];

/// The tokens of one container after another. The last run inserts `last` keys, and the container is dropped full.
#[derive(Drop)]
pub struct Lives {
    /// The book that counts the drops.
    pub book: Rc<Book>,
    /// The number of keys in the end.
    pub last: u64,
}

impl Lives {
    /// Returns whether as many tokens live as a container with `pairs` pairs holds.
    fn has_just(&self, kind: Kind, pairs: usize) -> bool {
        let tokens = if kind.shows_values() { 2 } else { 1 };
        self.book.alive() == Some(pairs.wrapping_mul(tokens))
    }

    /// Makes the call on each key of a range. Returns whether only the held tokens live then.
    fn run<F: Form>(
        &self,
        alloc: Global,
        form: &mut F,
        what: What,
        keys: (u64, u64),
    ) -> Result<bool, AllocError> {
        let mut met = Vec::new(alloc);
        for number in keys.0..keys.1 {
            let key = Token::new(&self.book, number.wrapping_mul(0x9E37_79B9_7F4A_7C15))?;
            let value = Token::new(&self.book, number)?;
            let _ = make(alloc, form, what, key, value, &mut met);
        }
        Ok(self.has_just(form.kind(), form.sizes().len))
    }

    /// Makes the runs of calls on single keys: calls that add, that fail, that write and that remove.
    fn run_calls<F: Form>(&self, alloc: Global, form: &mut F) -> Result<bool, AllocError> {
        let mut right = true;
        for (what, from, to) in RUNS {
            right = self.run(alloc, form, what, (from, to))? && right;
        }
        Ok(right)
    }

    /// Makes walks that remove a part of the pairs, and clears the container.
    fn run_walks<F: Form>(&self, alloc: Global, form: &mut F) -> bool {
        let kind = form.kind();
        let mut taken = Vec::new(alloc);
        let _ = form.take(alloc, Rule::Rest(3), &mut taken);
        let after_taking = self.has_just(kind, form.sizes().len);
        form.retain(5);
        let after_keeping = self.has_just(kind, form.sizes().len);
        form.clear();
        after_taking && after_keeping && self.has_just(kind, 0) && form.sizes().len == 0
    }
}

impl Case for Lives {
    fn check<F: Form>(&self, alloc: Global, form: &mut F) -> Result<bool, AllocError> {
        let called = self.run_calls(alloc, form)?;
        let walked = self.run_walks(alloc, form);
        let refilled = self.run(alloc, form, What::Add(Way::Insert), (0, self.last))?;
        Ok(called && walked && refilled && form.sizes().len > 30)
    }

    fn has_ended(&self) -> bool {
        self.book.alive() == Some(0)
    }
}

/// Tries the case with `last` keys in the end, under the hash 0 for all keys and under keys as hashes.
fn run_to<R: Wait + AllocGlobal + Print>(rt: &R, last: u64, what: &str, good: &str) -> u8 {
    let (Ok(crowded), Ok(spread)) = (Book::new(rt.alloc(), ROOM), Book::new(rt.alloc(), ROOM))
    else {
        return REFUSED;
    };
    let one = Lives {
        book: crowded,
        last,
    };
    let other = Lives { book: spread, last };
    let zero = in_every_form(rt, &one, what, ZERO);
    zero.max(in_every_form(rt, &other, good, SAME))
}

/// Prints a line for each case. Returns the worst status.
pub(crate) fn run_lives<R: Wait + AllocGlobal + Print>(rt: &R) -> u8 {
    let full = run_to(
        rt,
        100,
        "tokens of a full one, all hashes 0",
        "tokens of a full one, keys as hashes",
    );
    full.max(run_to(
        rt,
        66,
        "tokens while buckets wait, all hashes 0",
        "tokens of a small one, keys as hashes",
    ))
}
