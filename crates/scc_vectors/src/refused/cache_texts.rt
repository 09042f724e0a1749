// A recorded cache of numbers and texts. A put copies the pair that it evicts before it changes anything, so a put
// whose copy is refused evicts nothing.
use crate::expect::{expect, expect_eq};
use crate::refused::opened::{Lends, LentTrial, outlast};
use crate::refused::texts::text;
use scc::hash_cache::Owned;
use scc::recorded::{CacheCall, CallError, Pass, Recorded, Reply, Shared, Site};
use std::io::Print;
use std::process::Abort;
use std::sync::Wait;
use std::sync::ledger::Ledger;
use test_kit::refusals::{Refusal, TRIES};
use test_kit::zero::Zero;

type Names = Owned<u64, String, Shared<Zero>>;

/// Returns whether `reply` is the reply of the put of `key`: the put of key 32 evicts key 0 with its text, and no other
/// put evicts.
fn is_answer(key: u64, reply: &Reply<u64, String>) -> bool {
    match reply {
        Reply::Evicted(None) => key < 32,
        Reply::Evicted(Some(pair)) => key == 32 && pair.0 == 0 && pair.1.as_str() == "x",
        _ => false,
    }
}

/// Returns the number of pairs in the cache, asking again until the call succeeds.
fn length<L: Ledger, M: Site<Shared<Zero>>, R: AllocGlobal + Print + Wait>(
    rt: &R,
    refusal: &mut Refusal,
    recorded: &Recorded<Names, L, M>,
    pass: &mut Pass<Names, L>,
) -> Option<usize> {
    for _ in 0..TRIES {
        match recorded.len(rt, pass) {
            Ok(length) => return Some(length),
            Err(_) => refusal.meet(rt, "room for a recorded length"),
        }
    }
    None
}

/// Returns the clock of `pass`, and the number of its receipts.
fn said<L: Ledger>(pass: &Pass<Names, L>) -> (u64, usize) {
    (pass.clock(), pass.receipts().len())
}

/// Puts a key once, and returns whether its reply is right, or `None` if its text or the put was refused. Key 0 has the
/// text "x", and every other key an empty text, which allocates nothing. The container may refuse only the put of key
/// 32: any other refusal by it is wrong.
fn put<L: Ledger, M: Site<Shared<Zero>>, R: AllocGlobal + Print + Wait>(
    rt: &R,
    refusal: &mut Refusal,
    recorded: &Recorded<Names, L, M>,
    pass: &mut Pass<Names, L>,
    key: u64,
) -> Option<bool> {
    let Some(value) = text(rt, refusal, if key == 0 { "x" } else { "" }) else {
        return None;
    };
    match recorded.call(rt, pass, CacheCall::Put(key, value)) {
        Ok(reply) => Some(is_answer(key, &reply)),
        Err(CallError::Room) => {
            refusal.meet(rt, "room for a recorded put of a text");
            None
        }
        Err(CallError::Container) => {
            refusal.meet(rt, "a copy of an evicted pair");
            if key == 32 { None } else { Some(false) }
        }
    }
}

/// Puts a key until it goes in. A refused put leaves the pass as it was, and the pairs of the keys below.
fn expect_put<L: Ledger, M: Site<Shared<Zero>>, R: AllocGlobal + Abort + Print + Wait>(
    rt: &R,
    refusal: &mut Refusal,
    recorded: &Recorded<Names, L, M>,
    pass: &mut Pass<Names, L>,
    key: u64,
) {
    for _ in 0..TRIES {
        let before = said(pass);
        if let Some(is_right) = put(rt, refusal, recorded, pass, key) {
            return expect(rt, is_right);
        }
        let after = said(pass);
        let count = length(rt, refusal, recorded, pass);
        expect_eq(rt, (after, count), (before, Some(key as usize)));
        expect_first(rt, refusal, recorded, pass, key);
    }
    expect(rt, false);
}

/// Looks for key 0 once, and returns whether it has its text if there are keys, or is missing if there are none.
/// Returns `None` if the look was refused.
fn look<L: Ledger, M: Site<Shared<Zero>>, R: Print + Wait>(
    rt: &R,
    refusal: &mut Refusal,
    recorded: &Recorded<Names, L, M>,
    pass: &mut Pass<Names, L>,
    keys: u64,
) -> Option<bool> {
    match recorded.call(rt, pass, CacheCall::Read(0)) {
        Ok(Reply::Value(Some(value))) => Some(keys > 0 && value.as_str() == "x"),
        Ok(_) => Some(keys == 0),
        Err(_) => {
            refusal.meet(rt, "a look after a refused put");
            None
        }
    }
}

/// Looks for key 0 until the look succeeds.
fn expect_first<L: Ledger, M: Site<Shared<Zero>>, R: Abort + Print + Wait>(
    rt: &R,
    refusal: &mut Refusal,
    recorded: &Recorded<Names, L, M>,
    pass: &mut Pass<Names, L>,
    keys: u64,
) {
    for _ in 0..TRIES {
        if let Some(is_right) = look(rt, refusal, recorded, pass, keys) {
            return expect(rt, is_right);
        }
    }
    expect(rt, false);
}

// Puts of the keys 0 to 32, in a bucket of 32 slots.
#[derive(Drop)]
struct Puts;

impl LentTrial<Names> for Puts {
    fn hasher(hasher: Shared<Zero>) -> Shared<Zero> {
        hasher
    }

    fn run<L: Ledger, M: Site<Shared<Zero>>, R: AllocGlobal + Abort + Print + Wait>(
        rt: &R,
        refusal: &mut Refusal,
        recorded: &Recorded<Names, L, M>,
        pass: &mut Pass<Names, L>,
    ) {
        for key in 0..33 {
            expect_put(rt, refusal, recorded, pass, key);
        }
        expect_eq(rt, length(rt, refusal, recorded, pass), Some(32));
    }
}

#[test]
fn recorded_strings_on_a_cache_refused_copy(rt: HostRuntime) {
    outlast::<Names, Lends<Puts>, _>(&rt, "a recorded cache of texts", (64, 64), 1);
}
