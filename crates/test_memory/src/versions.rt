// New versions of present keys. If a version is refused, what was supplied comes back, the stored version stays, and
// the entry publishes the supplied version by the next call.
use crate::expect::{expect, expect_eq};
use crate::looks::{Look, fill, pair_of};
use crate::makers::{Job, Of, with};
use scc_owned::index::Owned;
use scc_owned::index::borrowed::{Entry, Iter};
use std::io::Print;
use std::process::Abort;
use std::sync::Wait;
use test_forms::answers::{Answer, Kind};
use test_forms::form::{Act, At, Form, Way};
use test_forms::token::Token;
use test_kit::refusals::{Refusal, TRIES};
use test_kit::zero::Zero;

type Index = Owned<u64, u64, Zero>;

// The two calls that set the value of a present key.
#[derive(Clone, Copy, Debug, PartialEq)]
pub(crate) enum Change {
    Update,
    Modify,
}

// Sets the value of key 1 to 7 until the call isn't refused, each time through a new entry.
#[derive(Drop)]
pub(crate) struct Changing {
    pub(crate) change: Change,
}

impl Job for Changing {
    fn run<F: Form, R: AllocGlobal + Abort + Print + Wait>(
        &self,
        rt: &R,
        refusal: &mut Refusal,
        of: Of,
        form: &mut F,
    ) {
        let mut before = Look::new(rt, refusal);
        let mut after = Look::new(rt, refusal);
        fill(rt, refusal, form, Way::Insert, 2);
        before.see(rt, form);
        let pair = pair_of(Kind::Index, 1, 7);
        for _ in 0..TRIES {
            let (answer, wanted) = match self.change {
                Change::Update => (
                    form.act(At::Key, Act::Set, &Token::of(1), Token::of(7)),
                    Answer::Yes(true),
                ),
                Change::Modify => (
                    form.modify(Token::of(1), Token::of(7)),
                    Answer::Found(Some(pair)),
                ),
            };
            if answer == wanted {
                break;
            }
            match self.change {
                Change::Update => refusal.meet(rt, "an update"),
                Change::Modify => refusal.meet(rt, "a modification"),
            }
            expect_eq(rt, answer, Answer::Refused(Some(pair)));
            after.see(rt, form);
            before.expect_same(rt, &after, false);
        }
        expect_eq(rt, form.read(&Token::of(1)), Answer::Found(Some(pair)));
        expect_eq(
            rt,
            form.read(&Token::of(0)),
            Answer::Found(Some((0, 0, !0))),
        );
    }
}

#[test]
fn a_refused_change_leaves_the_version(rt: HostRuntime) {
    let mut refusal = Refusal::new();
    for of in [Of::Index, Of::SharedIndex] {
        for change in [Change::Update, Change::Modify] {
            with(&rt, &mut refusal, of, 64, &Changing { change });
        }
    }
}

/// Returns an index of the keys 0 and 1, each with its complement as value.
fn of_two<R: AllocGlobal + Abort + Print>(rt: &R, refusal: &mut Refusal) -> Index {
    for _ in 0..TRIES {
        match Owned::try_from_iter(rt.alloc(), [(0, !0), (1, !1)]) {
            Ok(index) => return index,
            Err(_) => refusal.meet(rt, "an index for two keys"),
        }
    }
    panic!(rt; "it is refused each time")
}

/// Sets the value of key 1 by its entry until the call isn't refused. While it is refused, the entry shows the old
/// value.
fn expect_updated<R: Abort + Print>(
    rt: &R,
    refusal: &mut Refusal,
    index: &mut Index,
    old: u64,
    value: u64,
) {
    let Some(mut entry) = index.get_sync(&1) else {
        expect(rt, false);
        return;
    };
    for _ in 0..TRIES {
        match entry.update(value) {
            Ok(()) => break,
            Err(back) => {
                refusal.meet(rt, "an update of one entry");
                expect_eq(rt, (back, *entry.key(), *entry.get()), (value, 1, old));
            }
        }
    }
    expect_eq(rt, (*entry.key(), *entry.get()), (1, value));
}

/// Publishes the value of key 1 with its lowest bit flipped. If it is refused, the entry comes back as it was with the
/// value that the closure returned, and publishes that value by its next calls.
fn expect_modified<R: Abort + Print>(rt: &R, refusal: &mut Refusal, index: &mut Index) {
    match index.entry_sync(1).and_modify(|value| *value ^ 1) {
        Ok(entry) => expect_eq(rt, *entry.key(), 1),
        Err(back) => {
            refusal.meet(rt, "a modification of one entry");
            let value = back.1;
            let back = back.0;
            match back {
                Entry::Occupied(mut entry) => {
                    expect_eq(rt, (*entry.key(), *entry.get(), value), (1, !1, !1 ^ 1));
                    for _ in 0..TRIES {
                        if entry.update(value).is_ok() {
                            break;
                        }
                        refusal.meet(rt, "an update after a refused modification");
                        expect_eq(rt, *entry.get(), !1);
                    }
                }
                Entry::Vacant(_) => expect(rt, false),
            }
        }
    }
    let after = index.peek_with(&1, |_, value| *value);
    expect_eq(rt, after, Some(!1 ^ 1));
}

#[test]
fn a_refused_entry_publishes_by_its_next_call(rt: HostRuntime) {
    let mut refusal = Refusal::new();
    let mut index = of_two(&rt, &mut refusal);
    expect_modified(&rt, &mut refusal, &mut index);
    expect_updated(&rt, &mut refusal, &mut index, !1 ^ 1, 7);
    let values = (
        index.peek_with(&0, |_, value| *value),
        index.peek_with(&1, |_, value| *value),
    );
    expect_eq(&rt, values, (Some(!0), Some(7)));
}

/// Checks that there are two versions, each with the complement of its key as value, and none after them.
pub(crate) fn expect_versions<R: Abort>(rt: &R, versions: Iter<u64, u64>) {
    let mut left = versions;
    let mut seen = 0usize;
    let mut are_right = true;
    for version in &mut left {
        are_right = are_right && *version.value() == !*version.key();
        seen = seen.saturating_add(1);
    }
    expect_eq(
        rt,
        (seen, are_right, left.next().is_none()),
        (2, true, true),
    );
}

/// Checks a clone of the versions, and then the versions themselves, once the index is empty.
fn expect_cloned<R: Abort + Print>(
    rt: &R,
    refusal: &mut Refusal,
    index: &mut Index,
    versions: Iter<u64, u64>,
) {
    for _ in 0..TRIES {
        match versions.try_clone() {
            Ok(again) => {
                index.clear_sync();
                expect_versions(rt, again);
                return expect_versions(rt, versions);
            }
            Err(_) => refusal.meet(rt, "a clone of a snapshot of an index"),
        }
        expect_eq(rt, index.len(), 2);
    }
    expect(rt, false);
}

/// A snapshot and its clone keep their versions, whatever happens to the index.
#[test]
fn a_refused_clone_of_a_snapshot_leaves_the_snapshot(rt: HostRuntime) {
    let mut refusal = Refusal::new();
    let mut index = of_two(&rt, &mut refusal);
    for _ in 0..TRIES {
        match index.iter() {
            Ok(versions) => return expect_cloned(&rt, &mut refusal, &mut index, versions),
            Err(_) => refusal.meet(&rt, "a snapshot of an index"),
        }
        expect_eq(&rt, index.len(), 2);
    }
    expect(&rt, false);
}
