// Every way to add a pair, in each state in which it asks for memory. A refused insertion hands the pair back and
// changes nothing. It is made again until it adds the pair.
use crate::expect::{expect, expect_eq};
use crate::looks::{Look, expect_keys, fill, pair_of, value_of};
use crate::makers::{EVERY, Job, NO_INDEXES, Of, with};
use crate::meetings;
use std::io::Print;
use std::process::Abort;
use std::sync::Wait;
use test_forms::answers::{Answer, Kind};
use test_forms::form::{Form, WAYS, Way};
use test_forms::numbered::Seen;
use test_forms::token::Token;
use test_kit::refusals::{Refusal, TRIES};

// The state of a container before the insertion.
#[derive(Clone, Copy, Debug, PartialEq)]
pub(crate) enum State {
    // The container has no array. The insertion asks for one.
    Bare,
    // The container has 64 slots, half of them in use, and the key's bucket is full. The insertion asks for a growth,
    // and then, but in a cache, for the overflow list.
    Full,
    // The container has an array of 128 slots, less than half of them in use, and the key's bucket is full. The
    // insertion asks for the overflow list alone.
    Wide,
}

/// Returns the pair that an insertion of `key` evicts from a bucket of 32, if any.
fn driven_out(kind: Kind, way: Way, key: u64) -> Option<Seen> {
    if kind == Kind::Cache && key >= 32 {
        let oldest = key.saturating_sub(32);
        Some(pair_of(kind, oldest, value_of(way, oldest)))
    } else {
        None
    }
}

/// Returns the answer of `way` if the key is missing and memory is given.
pub(crate) fn wanted(kind: Kind, way: Way, key: u64) -> Answer {
    let evicted = driven_out(kind, way, key);
    if way.lends(kind) {
        return Answer::Entry(evicted, pair_of(kind, key, value_of(way, key)));
    }
    match way {
        Way::Upsert => Answer::Old(None),
        Way::Replace => Answer::Swapped(None, None),
        _ => Answer::Added(evicted),
    }
}

/// Returns the first key that is present once `count` keys were added, from 0 on.
pub(crate) fn first_kept(kind: Kind, count: u64) -> u64 {
    if kind == Kind::Cache {
        count.saturating_sub(32)
    } else {
        0
    }
}

// Two looks, one before a call and one after it.
#[derive(Drop)]
pub(crate) struct Looks {
    before: Look,
    after: Look,
}

impl Looks {
    pub(crate) fn new<R: AllocGlobal + Abort + Print>(rt: &R, refusal: &mut Refusal) -> Looks {
        let before = Look::new(rt, refusal);
        let after = Look::new(rt, refusal);
        Looks { before, after }
    }
}

/// Returns whether the next insertion has to double the array, in which all keys share a bucket.
fn is_growth_due<F: Form>(form: &F) -> bool {
    let sizes = form.sizes();
    sizes.len >= 32 && sizes.len >= sizes.capacity / 2 && form.waiting().unwrap_or(0) == 0
}

/// Reports that an insertion was refused, and the growth that was due before it, if there was one and the array still
/// has `before` slots. An insertion without its growth is refused only if its overflow list is refused too, so it had
/// two requests refused. An index keeps its array if it gets no version, so one refused request may stand for both.
fn report<F: Form, R: Print>(
    rt: &R,
    refusal: &mut Refusal,
    of: Of,
    form: &F,
    was_due: bool,
    before: usize,
) {
    meetings::insertion(rt, refusal, of);
    if was_due && form.kind() != Kind::Index && form.sizes().capacity == before {
        meetings::growth(rt, refusal, of);
    }
}

/// Adds `key` by `way`, after the keys below it, until the insertion succeeds. A refused insertion must change nothing.
pub(crate) fn expect_added<F: Form, R: Abort + Print>(
    rt: &R,
    refusal: &mut Refusal,
    of: Of,
    looks: &mut Looks,
    form: &mut F,
    way: Way,
    key: u64,
) {
    let kind = form.kind();
    let pair = pair_of(kind, key, value_of(way, key));
    for _ in 0..TRIES {
        looks.before.see(rt, form);
        let was_due = is_growth_due(form);
        let before = form.sizes().capacity;
        let answer = form.add(way, Token::of(key), Token::of(!key));
        if !matches!(answer, Answer::Refused(_)) {
            expect_eq(rt, answer, wanted(kind, way, key));
            break;
        }
        report(rt, refusal, of, form, was_due, before);
        expect_eq(rt, answer, Answer::Refused(Some(pair)));
        looks.after.see(rt, form);
        let may_grow = kind != Kind::Index && key >= 32;
        looks.before.expect_same(rt, &looks.after, may_grow);
    }
    let end = key.saturating_add(1);
    expect_keys(rt, form, way, first_kept(kind, end), end);
}

// An insertion by one way in one state.
#[derive(Drop)]
struct Insertion {
    way: Way,
    state: State,
}

impl Job for Insertion {
    fn run<F: Form, R: AllocGlobal + Abort + Print + Wait>(
        &self,
        rt: &R,
        refusal: &mut Refusal,
        of: Of,
        form: &mut F,
    ) {
        let mut looks = Looks::new(rt, refusal);
        let before = form.sizes().capacity;
        match self.state {
            State::Bare => {
                expect_added(rt, refusal, of, &mut looks, form, self.way, 0);
                expect_eq(rt, (before, form.sizes().capacity), (0, 64));
            }
            State::Full => {
                fill(rt, refusal, form, self.way, 32);
                expect_growth(rt, refusal, of, &mut looks, form, self.way);
            }
            State::Wide => {
                fill(rt, refusal, form, self.way, 32);
                for key in 32..34u64 {
                    expect_added(rt, refusal, of, &mut looks, form, self.way, key);
                }
                expect_eq(rt, form.sizes().capacity, before);
            }
        }
    }
}

/// Adds keys to a full bucket until the array has doubled. The first key doubles it. If the growth is refused, the key
/// is added all the same, and the next key tries again.
fn expect_growth<F: Form, R: Abort + Print>(
    rt: &R,
    refusal: &mut Refusal,
    of: Of,
    looks: &mut Looks,
    form: &mut F,
    way: Way,
) {
    let mut key = 32u64;
    for _ in 0..TRIES {
        expect_eq(rt, form.sizes().capacity, 64);
        expect_added(rt, refusal, of, looks, form, way, key);
        if form.sizes().capacity != 64 {
            break;
        }
        meetings::growth(rt, refusal, of);
        key = key.saturating_add(1);
    }
    expect_eq(rt, form.sizes().capacity, 128);
}

// The ways that are tried if the keys before take much memory.
pub(crate) const SOME: [Way; 4] = [Way::Insert, Way::Replace, Way::OrInsert, Way::Vacant];

/// Tries each of `ways` that the kind has.
pub(crate) fn expect_insertions<R: AllocGlobal + Abort + Print + Wait>(
    rt: &R,
    of: Of,
    state: State,
    slots: usize,
    ways: &[Way],
) {
    let mut refusal = Refusal::new();
    let mut tried = 0usize;
    for way in ways {
        let way = *way;
        if way.is_of(of.kind()) {
            with(rt, &mut refusal, of, slots, &Insertion { way, state });
            tried = tried.saturating_add(1);
        }
    }
    expect(rt, tried >= 2);
}

// Two insertions whose closure fails, of a missing key and of a present one, around one that makes the value.
#[derive(Drop)]
pub(crate) struct Failing;

impl Job for Failing {
    fn run<F: Form, R: AllocGlobal + Abort + Print + Wait>(
        &self,
        rt: &R,
        refusal: &mut Refusal,
        of: Of,
        form: &mut F,
    ) {
        let mut looks = Looks::new(rt, refusal);
        looks.before.see(rt, form);
        expect_eq(
            rt,
            form.add(Way::OrFail, Token::of(7), Token::of(1)),
            Answer::Failed(7),
        );
        looks.after.see(rt, form);
        looks.before.expect_same(rt, &looks.after, false);
        expect_added(rt, refusal, of, &mut looks, form, Way::OrTryInsertWith, 0);
        let pair = pair_of(form.kind(), 0, value_of(Way::OrTryInsertWith, 0));
        expect_eq(
            rt,
            form.add(Way::OrFail, Token::of(0), Token::of(1)),
            Answer::Entry(None, pair),
        );
        expect_keys(rt, form, Way::OrTryInsertWith, 0, 1);
    }
}

#[test]
fn failed_closures_insert_nothing(rt: HostRuntime) {
    let every = [
        Of::Map,
        Of::Index,
        Of::Cache,
        Of::SharedMap,
        Of::SharedIndex,
        Of::SharedCache,
    ];
    for of in every {
        with(&rt, &mut Refusal::new(), of, 0, &Failing);
    }
}

#[test]
fn insertions_refused_their_first_array(rt: HostRuntime) {
    for of in EVERY {
        expect_insertions(&rt, of, State::Bare, 0, &WAYS);
    }
}

#[test]
fn insertions_refused_their_full_bucket(rt: HostRuntime) {
    for of in NO_INDEXES {
        expect_insertions(&rt, of, State::Full, 64, &WAYS);
    }
}

#[test]
fn index_insertions_refused_their_full_bucket(rt: HostRuntime) {
    expect_insertions(&rt, Of::Index, State::Full, 64, &SOME);
}

#[test]
fn shared_index_insertions_refused_their_full_bucket(rt: HostRuntime) {
    expect_insertions(&rt, Of::SharedIndex, State::Full, 64, &SOME);
}

#[test]
fn owned_insertions_refused_their_overflow_list(rt: HostRuntime) {
    for of in [Of::Map, Of::Set] {
        expect_insertions(&rt, of, State::Wide, of.wide(), &WAYS);
    }
}

#[test]
fn shared_insertions_refused_their_overflow_list(rt: HostRuntime) {
    for of in [Of::SharedMap, Of::SharedSet] {
        expect_insertions(&rt, of, State::Wide, of.wide(), &SOME);
    }
}

#[test]
fn index_insertions_refused_their_overflow_list(rt: HostRuntime) {
    expect_insertions(&rt, Of::Index, State::Wide, Of::Index.wide(), &SOME);
}

#[test]
fn shared_index_insertions_refused_their_overflow_list(rt: HostRuntime) {
    expect_insertions(
        &rt,
        Of::SharedIndex,
        State::Wide,
        Of::SharedIndex.wide(),
        &SOME,
    );
}
