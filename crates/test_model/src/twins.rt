//! A shared container of one stripe, under a rule or none, beside an owned container: both return the same from random
//! calls, and then hold the same pairs.

use crate::draws::{Call, Draws};
use crate::tally::Tally;
use scc_common::Anything;
use scc_shared::index::HashIndex;
use scc_shared::map::HashMap;
use scc_shared::ruled_index::RuledIndex;
use scc_shared::ruled_map::RuledMap;
use scc_shared_cache::{HashCache, RuledCache};
use scc_shared_set::{HashSet, RuledSet};
use std::alloc::{AllocError, Global};
use std::sync::Wait;
use test_forms::calls::{is_of, make};
use test_forms::form::Form;
use test_forms::list::List;
use test_forms::numbered::Seen;
use test_forms::token::Token;
use test_forms_ruled::with_runtime::Held as RuledHeld;
use test_forms_shared::with_runtime::Held;
use test_kit::lines::say;
use test_kit::masked::{Masked, SAME};

/// The number of calls that both get.
const CALLS: u64 = 1000;

/// The number of slots that both have at first, in one stripe.
const SLOTS: usize = 64;

/// The most slots of a cache of one stripe.
const MAXIMUM: usize = 256;

/// Returns whether two lists have the same pairs, in any order.
fn are_same(pairs: &[Seen], others: &[Seen]) -> bool {
    pairs.len() == others.len()
        && pairs
            .iter()
            .all(|pair| others.iter().any(|other| other == pair))
}

/// Returns whether both hold the same pairs and have the same sizes.
fn are_alike<A: Form, B: Form>(alloc: Global, one: &A, other: &B) -> bool {
    let mut pairs = Vec::new(alloc);
    let mut others = Vec::new(alloc);
    let collected = one.collect(&mut pairs) && other.collect(&mut others);
    collected && one.sizes() == other.sizes() && are_same(pairs.as_slice(), others.as_slice())
}

/// Makes a call on both. Returns whether both meet the same pairs, and return the same if the kind has the call.
fn answer_alike<A: Form, B: Form>(alloc: Global, one: &mut A, other: &mut B, call: &Call) -> bool {
    let mut pairs = Vec::new(alloc);
    let mut others = Vec::new(alloc);
    let answer = make(
        alloc,
        one,
        call.what,
        call.key(),
        Token::of(call.value),
        &mut pairs,
    );
    let wanted = make(
        alloc,
        other,
        call.what,
        call.key(),
        Token::of(call.value),
        &mut others,
    );
    let is_answered = answer == wanted || !is_of(call.what, one.kind());
    is_answered && are_same(pairs.as_slice(), others.as_slice())
}

/// Returns the pairs of a container as a list, from which keys are drawn.
fn listed<F: Form>(alloc: Global, form: &F) -> Result<List, AllocError> {
    let mut pairs = Vec::new(alloc);
    let mut list = List::new(alloc, form.kind(), false);
    if !form.collect(&mut pairs) {
        return Err(AllocError);
    }
    for pair in pairs.iter() {
        let _ = list.add(0, *pair, None)?;
    }
    Ok(list)
}

/// Makes random calls on both. Returns whether both do the same, each call comes, and the number of slots grows.
fn agree<A: Form, B: Form>(
    alloc: Global,
    shared: &mut A,
    owned: &mut B,
) -> Result<bool, AllocError> {
    let mut draws = Draws::new(CALLS, 255);
    let mut tally = Tally::new(alloc);
    let mut are_equal = true;
    let mut most = 0usize;
    for _ in 0..CALLS {
        let list = listed(alloc, owned)?;
        let call = draws.draw(&list, false);
        tally.note(call.what, list.find(call.number).is_some(), false)?;
        let answered = answer_alike(alloc, shared, owned, &call);
        are_equal = are_equal && answered && are_alike(alloc, shared, owned);
        most = most.max(owned.sizes().capacity);
    }
    Ok(are_equal && tally.is_whole() && most > SLOTS)
}

fn of_maps<R: Wait + AllocGlobal>(rt: &R) -> Result<bool, AllocError> {
    let alloc = rt.alloc();
    let (Ok(shared), Ok(mut owned)) = (
        HashMap::<Token, Token, Masked>::with_capacity_and_hasher(alloc, SLOTS, SAME),
        scc_owned::map::Owned::<Token, Token, Masked>::with_capacity_and_hasher(alloc, SLOTS, SAME),
    ) else {
        return Err(AllocError);
    };
    agree(alloc, &mut Held::of_stripes(rt, shared, true), &mut owned)
}

fn of_sets<R: Wait + AllocGlobal>(rt: &R) -> Result<bool, AllocError> {
    let alloc = rt.alloc();
    let (Ok(shared), Ok(mut owned)) = (
        HashSet::<Token, Masked>::with_capacity_and_hasher(alloc, SLOTS, SAME),
        scc_owned_set::Owned::<Token, Masked>::with_capacity_and_hasher(alloc, SLOTS, SAME),
    ) else {
        return Err(AllocError);
    };
    agree(alloc, &mut Held::of_stripes(rt, shared, true), &mut owned)
}

fn of_indexes<R: Wait + AllocGlobal>(rt: &R) -> Result<bool, AllocError> {
    let alloc = rt.alloc();
    let (Ok(shared), Ok(mut owned)) = (
        HashIndex::<Token, Token, Masked>::with_capacity_and_hasher(alloc, SLOTS, SAME),
        scc_owned::index::Owned::<Token, Token, Masked>::with_capacity_and_hasher(
            alloc, SLOTS, SAME,
        ),
    ) else {
        return Err(AllocError);
    };
    agree(alloc, &mut Held::of_stripes(rt, shared, true), &mut owned)
}

fn of_caches<R: Wait + AllocGlobal>(rt: &R) -> Result<bool, AllocError> {
    let alloc = rt.alloc();
    let (Ok(shared), Ok(mut owned)) = (
        HashCache::<Token, Token, Masked>::with_capacity_and_hasher(alloc, SLOTS, MAXIMUM, SAME),
        scc_owned_cache::Owned::<Token, Token, Masked>::with_capacity_and_hasher(
            alloc, SLOTS, MAXIMUM, SAME,
        ),
    ) else {
        return Err(AllocError);
    };
    agree(alloc, &mut Held::of_stripes(rt, shared, true), &mut owned)
}

fn of_ruled_maps<R: Wait + AllocGlobal>(rt: &R) -> Result<bool, AllocError> {
    let alloc = rt.alloc();
    let (Ok(ruled), Ok(mut owned)) = (
        RuledMap::<Token, Token, Anything, Masked>::with_capacity_and_hasher(alloc, SLOTS, SAME),
        scc_owned::map::Owned::<Token, Token, Masked>::with_capacity_and_hasher(alloc, SLOTS, SAME),
    ) else {
        return Err(AllocError);
    };
    agree(
        alloc,
        &mut RuledHeld::of_stripes(rt, ruled, true),
        &mut owned,
    )
}

fn of_ruled_sets<R: Wait + AllocGlobal>(rt: &R) -> Result<bool, AllocError> {
    let alloc = rt.alloc();
    let (Ok(ruled), Ok(mut owned)) = (
        RuledSet::<Token, Anything, Masked>::with_capacity_and_hasher(alloc, SLOTS, SAME),
        scc_owned_set::Owned::<Token, Masked>::with_capacity_and_hasher(alloc, SLOTS, SAME),
    ) else {
        return Err(AllocError);
    };
    agree(
        alloc,
        &mut RuledHeld::of_stripes(rt, ruled, true),
        &mut owned,
    )
}

fn of_ruled_indexes<R: Wait + AllocGlobal>(rt: &R) -> Result<bool, AllocError> {
    let alloc = rt.alloc();
    let (Ok(ruled), Ok(mut owned)) = (
        RuledIndex::<Token, Token, Anything, Masked>::with_capacity_and_hasher(alloc, SLOTS, SAME),
        scc_owned::index::Owned::<Token, Token, Masked>::with_capacity_and_hasher(
            alloc, SLOTS, SAME,
        ),
    ) else {
        return Err(AllocError);
    };
    agree(
        alloc,
        &mut RuledHeld::of_stripes(rt, ruled, true),
        &mut owned,
    )
}

fn of_ruled_caches<R: Wait + AllocGlobal>(rt: &R) -> Result<bool, AllocError> {
    let alloc = rt.alloc();
    let (Ok(ruled), Ok(mut owned)) = (
        RuledCache::<Token, Token, Anything, Masked>::with_capacity_and_hasher(
            alloc, SLOTS, MAXIMUM, SAME,
        ),
        scc_owned_cache::Owned::<Token, Token, Masked>::with_capacity_and_hasher(
            alloc, SLOTS, MAXIMUM, SAME,
        ),
    ) else {
        return Err(AllocError);
    };
    agree(
        alloc,
        &mut RuledHeld::of_stripes(rt, ruled, true),
        &mut owned,
    )
}

/// Prints a line for each kind. Returns the worst status.
pub(crate) fn run_twins<R: Wait + AllocGlobal + Print>(rt: &R) -> u8 {
    let what = "shared as owned";
    let mut worst = say(rt, "map of one stripe", what, of_maps(rt));
    worst = worst.max(say(rt, "set of one stripe", what, of_sets(rt)));
    worst = worst.max(say(rt, "index of one stripe", what, of_indexes(rt)));
    worst = worst.max(say(rt, "cache of one stripe", what, of_caches(rt)));
    worst = worst.max(say(rt, "ruled map of one stripe", what, of_ruled_maps(rt)));
    worst = worst.max(say(rt, "ruled set of one stripe", what, of_ruled_sets(rt)));
    worst = worst.max(say(rt, "ruled index of one stripe", what, of_ruled_indexes(rt)));
    worst.max(say(rt, "ruled cache of one stripe", what, of_ruled_caches(rt)))
}
