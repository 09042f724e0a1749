// Every removal that may shrink the array. If the shrink is refused, the pair is removed all the same, the array
// stays, and a later removal shrinks it.
use crate::expect::expect_eq;
use crate::looks::{Look, fill_to_growth, pair_of, value_of};
use crate::makers::{Job, NO_INDEXES, Of, with};
use crate::meetings;
use scc_common::Verdict;
use std::io::Print;
use std::process::Abort;
use std::sync::Wait;
use test_forms::answers::{Answer, Kind, Rule};
use test_forms::form::{Act, At, Form, Way};
use test_forms::token::Token;
use test_kit::refusals::{Refusal, TRIES};

// The calls that may remove a pair and then shrink the array.
#[derive(Clone, Copy, Debug, PartialEq)]
enum Removal {
    Key,
    Condition,
    Entry,
    Value,
    Retain,
    Walk,
    Clear,
}

const REMOVALS: [Removal; 7] = [
    Removal::Key,
    Removal::Condition,
    Removal::Entry,
    Removal::Value,
    Removal::Retain,
    Removal::Walk,
    Removal::Clear,
];

impl Removal {
    /// Returns whether the kind has this removal.
    fn is_of(self, kind: Kind) -> bool {
        match self {
            Removal::Value => kind.writes_values(),
            Removal::Walk => kind != Kind::Index,
            _ => true,
        }
    }

    /// Returns whether the removal of `key` takes out `other`.
    fn takes(self, key: u64, other: u64) -> bool {
        match self {
            Removal::Walk | Removal::Clear => true,
            Removal::Retain => other % 8 == 0,
            _ => other == key,
        }
    }

    /// Returns the value that the other keys have after the removal.
    fn leaves(self, kind: Kind, key: u64) -> u64 {
        let value = value_of(Way::Insert, key);
        if self == Removal::Retain && kind.writes_values() {
            value.wrapping_add(1)
        } else {
            value
        }
    }
}

/// Returns the answer of a removal of a pair.
fn removed(kind: Kind, key: u64, value: u64) -> Answer {
    if kind == Kind::Index {
        Answer::Yes(true)
    } else {
        Answer::Found(Some(pair_of(kind, key, value)))
    }
}

/// Takes all pairs, until the list has had room for each.
fn take_all<F: Form, R: AllocGlobal + Abort + Print>(
    rt: &R,
    refusal: &mut Refusal,
    of: Of,
    look: &mut Look,
    form: &mut F,
) {
    look.pairs.clear();
    for _ in 0..TRIES {
        let answer = form.take(rt.alloc(), Rule::Always(Verdict::Take), &mut look.pairs);
        if answer == Answer::Yes(true) {
            break;
        }
        expect_eq(rt, answer, Answer::Refused(None));
        meetings::walk(rt, refusal, of);
    }
    expect_eq(rt, look.pairs.len(), 17);
}

/// Removes the pair of `key`, or more pairs with it.
fn remove<F: Form, R: AllocGlobal + Abort + Print>(
    rt: &R,
    refusal: &mut Refusal,
    of: Of,
    look: &mut Look,
    form: &mut F,
    removal: Removal,
    key: u64,
) {
    let kind = form.kind();
    let at = if kind == Kind::Set { At::Any } else { At::Key };
    match removal {
        Removal::Key => expect_eq(rt, form.remove(&Token::of(key)), removed(kind, key, !key)),
        Removal::Condition => {
            let value = (!key).wrapping_add(1);
            expect_eq(
                rt,
                form.remove_if(&Token::of(key)),
                removed(kind, key, value),
            );
        }
        Removal::Entry => {
            let answer = form.act(at, Act::RemoveEntry, &Token::of(key), Token::of(0));
            expect_eq(rt, answer, removed(kind, key, !key));
        }
        Removal::Value => {
            let answer = form.act(at, Act::Remove, &Token::of(key), Token::of(0));
            expect_eq(rt, answer, Answer::Old(Some(!key)));
        }
        Removal::Retain => form.retain(0),
        Removal::Walk => take_all(rt, refusal, of, look, form),
        Removal::Clear => form.clear(),
    }
}

/// Fills a bucket of an array of 64 slots until the array has doubled, and removes all keys but the last 17, one more
/// than an eighth of the slots. Returns the number of keys that were added, from 0 on.
fn thin_out<F: Form, R: Abort + Print>(rt: &R, refusal: &mut Refusal, form: &mut F) -> u64 {
    let count = fill_to_growth(rt, refusal, form);
    for key in 0..count {
        if form.sizes().len > 17 {
            form.remove(&Token::of(key));
        }
    }
    expect_eq(rt, (form.sizes().len, form.sizes().capacity), (17, 128));
    count
}

/// Removes the first key from `first` on that is present. Returns the key after it.
fn remove_next<F: Form>(form: &mut F, first: u64) -> u64 {
    let mut key = first;
    let before = form.sizes().len;
    for _ in 0..TRIES {
        form.remove(&Token::of(key));
        key = key.saturating_add(1);
        if form.sizes().len != before {
            break;
        }
    }
    key
}

/// Shrinks the array by one removal after another, and by clearing, until the shrink isn't refused.
pub(crate) fn expect_shrunk<F: Form, R: Abort + Print>(
    rt: &R,
    refusal: &mut Refusal,
    of: Of,
    form: &mut F,
    first: u64,
) {
    let mut key = first;
    for _ in 0..TRIES {
        if form.sizes().capacity == 64 {
            return;
        }
        meetings::shrink(rt, refusal, of);
        if form.sizes().is_empty {
            form.clear();
        } else {
            key = remove_next(form, key);
        }
    }
    expect_eq(rt, form.sizes().capacity, 64);
}

#[derive(Drop)]
struct Shrink {
    removal: Removal,
}

impl Job for Shrink {
    fn run<F: Form, R: AllocGlobal + Abort + Print + Wait>(
        &self,
        rt: &R,
        refusal: &mut Refusal,
        of: Of,
        form: &mut F,
    ) {
        let kind = form.kind();
        let mut look = Look::new(rt, refusal);
        let count = thin_out(rt, refusal, form);
        let last = count.saturating_sub(1);
        // The condition wants an even value or key.
        let is_odd = kind == Kind::Index;
        let key = if (last % 2 == 1) == is_odd {
            last
        } else {
            last.saturating_sub(1)
        };
        remove(rt, refusal, of, &mut look, form, self.removal, key);
        let first = count.saturating_sub(17);
        for other in first..count {
            let pair = pair_of(kind, other, self.removal.leaves(kind, other));
            let wanted = if self.removal.takes(key, other) {
                None
            } else {
                Some(pair)
            };
            expect_eq(rt, form.read(&Token::of(other)), Answer::Found(wanted));
        }
        expect_shrunk(rt, refusal, of, form, first);
    }
}

/// Tries each removal that the kind has.
pub(crate) fn expect_shrinks<R: AllocGlobal + Abort + Print + Wait>(rt: &R, of: Of) {
    let mut refusal = Refusal::new();
    for removal in REMOVALS {
        if removal.is_of(of.kind()) {
            with(rt, &mut refusal, of, 64, &Shrink { removal });
        }
    }
}

#[test]
fn removals_refused_their_shrink(rt: HostRuntime) {
    for of in NO_INDEXES {
        expect_shrinks(&rt, of);
    }
}

#[test]
fn index_refused_its_shrink(rt: HostRuntime) {
    expect_shrinks(&rt, Of::Index);
}

#[test]
fn shared_index_refused_its_shrink(rt: HostRuntime) {
    expect_shrinks(&rt, Of::SharedIndex);
}
