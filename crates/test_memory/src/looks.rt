// Looks at the contents of a container, which ask for no memory.
use crate::expect::{expect, expect_eq};
use std::io::Print;
use std::process::Abort;
use test_forms::answers::{Answer, Kind};
use test_forms::form::{Form, Sizes, Way};
use test_forms::numbered::Seen;
use test_forms::token::Token;
use test_kit::refusals::{Refusal, TRIES};

/// Returns the value of a key that was added by `way`: its complement, unless the way gives it another value.
pub(crate) fn value_of(way: Way, key: u64) -> u64 {
    way.value(key, !key)
}

/// Returns the numbers of a pair. A set shows no value.
pub(crate) fn pair_of(kind: Kind, key: u64, value: u64) -> Seen {
    if kind.shows_values() {
        (key, 0, value)
    } else {
        (key, 0, 0)
    }
}

/// Fails if a key from `first` up to, but without, `end` is missing or hasn't the value of `way`, or if another key is
/// present.
pub(crate) fn expect_keys<F: Form, R: Abort>(rt: &R, form: &F, way: Way, first: u64, end: u64) {
    let kind = form.kind();
    expect_eq(rt, form.sizes().len as u64, end.saturating_sub(first));
    for key in first..end {
        let pair = pair_of(kind, key, value_of(way, key));
        expect_eq(rt, form.read(&Token::of(key)), Answer::Found(Some(pair)));
    }
    expect_eq(rt, form.read(&Token::of(end)), Answer::Found(None));
}

/// Adds a key until the insertion isn't refused.
pub(crate) fn put<F: Form, R: Print>(
    rt: &R,
    refusal: &mut Refusal,
    form: &mut F,
    key: u64,
    value: u64,
) {
    for _ in 0..TRIES {
        if !matches!(
            form.add(Way::Insert, Token::of(key), Token::of(value)),
            Answer::Refused(_)
        ) {
            return;
        }
        refusal.meet(rt, "an insertion that fills a container");
    }
}

/// Adds the keys below `count`, with the values of `way`.
pub(crate) fn fill<F: Form, R: Abort + Print>(
    rt: &R,
    refusal: &mut Refusal,
    form: &mut F,
    way: Way,
    count: u64,
) {
    for key in 0..count {
        put(rt, refusal, form, key, value_of(way, key));
    }
    expect_keys(rt, form, way, 0, count);
}

/// Adds keys, each with its complement as value, to a container of 64 slots until it has 128. The 33rd key makes it
/// grow if the growth isn't refused. Returns the number of added keys; a cache has lost all but the last 32.
pub(crate) fn fill_to_growth<F: Form, R: Abort + Print>(
    rt: &R,
    refusal: &mut Refusal,
    form: &mut F,
) -> u64 {
    let mut count = 0u64;
    for _ in 0..80 {
        if form.sizes().capacity == 128 {
            break;
        }
        if count >= 33 {
            refusal.meet(rt, "a growth that fills a container");
        }
        put(rt, refusal, form, count, !count);
        count = count.saturating_add(1);
    }
    expect_eq(rt, (form.sizes().capacity, count >= 33), (128, true));
    count
}

// The pairs in the order of a walk, the sizes of the container, and the number of waiting buckets.
#[derive(Drop)]
pub(crate) struct Look {
    pub(crate) pairs: Vec<Seen>,
    sizes: Option<Sizes>,
    waiting: Option<usize>,
}

impl Look {
    /// Returns an empty look with room for all pairs of a case.
    pub(crate) fn new<R: AllocGlobal + Abort + Print>(rt: &R, refusal: &mut Refusal) -> Look {
        for _ in 0..TRIES {
            match Vec::with_capacity(rt.alloc(), 96) {
                Ok(pairs) => {
                    return Look {
                        pairs,
                        sizes: None,
                        waiting: None,
                    };
                }
                Err(_) => refusal.meet(rt, "a list of the test"),
            }
        }
        panic!(rt; "a list is refused each time")
    }

    /// Looks at `form`.
    pub(crate) fn see<F: Form, R: Abort>(&mut self, rt: &R, form: &F) {
        self.pairs.clear();
        expect(rt, form.collect(&mut self.pairs));
        self.sizes = Some(form.sizes());
        self.waiting = form.waiting();
    }

    /// Fails if the look `after` a refused call shows other pairs, another order or other sizes than this look before
    /// the call. If `may_grow`, the array may have doubled before the refusal. An index makes no such growth.
    pub(crate) fn expect_same<R: Abort>(&self, rt: &R, after: &Look, may_grow: bool) {
        expect_eq(rt, after.pairs.as_slice(), self.pairs.as_slice());
        match (self.sizes, after.sizes) {
            (Some(old), Some(new)) if may_grow && new.capacity == old.capacity.wrapping_mul(2) => {
                expect_eq(rt, (new.minimum, new.maximum), (old.minimum, old.maximum));
            }
            (old, new) => {
                expect_eq(rt, new, old);
                expect(rt, after.waiting.unwrap_or(0) <= self.waiting.unwrap_or(0));
            }
        }
    }
}
