//! Buckets with more pairs than slots, which wait, relocate and wait again.

use std::alloc::Global;
use test_forms::answers::{Answer, Kind};
use test_forms::form::{Form, Way};
use test_forms::numbered::Seen;
use test_forms::token::Token;
use test_kit::lines::say;
use test_kit::masked::{Masked, ZERO};

// Numbers of pairs that one bucket of 32 slots waits for.
const CROWDS: [u64; 2] = [40, 2000];

/// Returns the pair of `number`, as its kind shows it.
fn pair_of(kind: Kind, number: u64) -> Seen {
    let value = if kind.shows_values() { number } else { 0 };
    (number, 0, value)
}

/// Adds the pairs of the numbers from `from` on and before `to`. Returns whether each was added.
fn fills<F: Form>(form: &mut F, from: u64, to: u64) -> bool {
    let mut added = true;
    for number in from..to {
        added &= form.add(Way::Insert, Token::of(number), Token::of(number)) == Answer::Added(None);
    }
    added
}

/// Returns whether the pairs below number `to` are there, and no others.
fn finds<F: Form>(form: &F, kind: Kind, to: u64) -> bool {
    let mut found = form.read(&Token::of(to)) == Answer::Found(None);
    for number in 0..to {
        found &= form.read(&Token::of(number)) == Answer::Found(Some(pair_of(kind, number)));
    }
    found && form.sizes().len as u64 == to
}

/// Returns whether `pairs` pairs of one bucket are found while all buckets of an array of `slots` slots wait, are
/// relocated by one insertion, and are found again.
fn relocates<F: Form>(form: &mut F, kind: Kind, pairs: u64, slots: usize) -> bool {
    let waits = form.sizes().capacity == slots && form.waiting() == Some(slots / 32);
    let found = finds(form, kind, pairs);
    let added = fills(form, pairs, pairs.saturating_add(1));
    let relocated = form.waiting() == Some((slots / 32).saturating_sub(2));
    waits && found && added && relocated && finds(form, kind, pairs.saturating_add(1))
}

/// Returns whether a bucket of `pairs` pairs waits and is relocated three times: the array grows by a reservation and
/// by a second one, and shrinks when the second one is released.
fn crowds<F: Form>(form: &mut F, kind: Kind, pairs: u64) -> bool {
    let filled = fills(form, 0, pairs);
    let Some(_first) = form.reserve_slots(10_000) else {
        return false;
    };
    let once = relocates(form, kind, pairs, 1 << 14);
    let Some(second) = form.reserve_slots(20_000) else {
        return false;
    };
    let twice = relocates(form, kind, pairs.saturating_add(1), 1 << 15);
    let released = form.release_slots(second).is_ok();
    let again = relocates(form, kind, pairs.saturating_add(2), 1 << 14);
    filled && once && twice && released && again
}

fn of_maps(alloc: Global) -> bool {
    let mut holds = true;
    for pairs in CROWDS {
        let mut map: scc_owned::map::Owned<Token, Token, Masked> =
            scc_owned::map::Owned::with_hasher(alloc, ZERO);
        holds &= crowds(&mut map, Kind::Map, pairs);
    }
    holds
}

fn of_sets(alloc: Global) -> bool {
    let mut holds = true;
    for pairs in CROWDS {
        let mut set: scc_owned_set::Owned<Token, Masked> = scc_owned_set::Owned::with_hasher(
            alloc, ZERO,
        );
        holds &= crowds(&mut set, Kind::Set, pairs);
    }
    holds
}

fn of_indexes(alloc: Global) -> bool {
    let mut holds = true;
    for pairs in CROWDS {
        let mut index: scc_owned::index::Owned<Token, Token, Masked> =
            scc_owned::index::Owned::with_hasher(alloc, ZERO);
        holds &= crowds(&mut index, Kind::Index, pairs);
    }
    holds
}

/// Prints a line for each kind that has crowded buckets. Returns the worst status.
pub(crate) fn run_crowded<R: AllocGlobal + Print>(rt: &R) -> u8 {
    let alloc = rt.alloc();
    let what = "a crowded bucket waits three times";
    let map = say(rt, "owned map", what, Ok(of_maps(alloc)));
    let set = say(rt, "owned set", what, Ok(of_sets(alloc)));
    let index = say(rt, "owned index", what, Ok(of_indexes(alloc)));
    map.max(set).max(index)
}
