//! A case, tried in every kind and form of container.

use crate::with_runtime::Held;
use scc_common::Anything;
use scc_shared::ruled_index::RuledIndex;
use scc_shared::ruled_map::RuledMap;
use scc_shared_cache::RuledCache;
use scc_shared_set::RuledSet;
use std::alloc::AllocError;
use std::sync::Wait;
use test_forms::token::Token;
use test_forms_shared::every::{Case, ONE_STRIPE, STRIPES, Size, in_plain_forms, tell};
use test_kit::lines::{HELD, say};
use test_kit::masked::Masked;

fn in_map<R: Wait + AllocGlobal, C: Case>(
    rt: &R,
    case: &C,
    hasher: Masked,
    size: Size,
) -> Result<bool, AllocError> {
    let alloc = rt.alloc();
    let Ok(map) = RuledMap::<Token, Token, Anything, Masked>::with_capacity_and_hasher(
        alloc, size.slots, hasher,
    ) else {
        return Err(AllocError);
    };
    case.check(alloc, &mut Held::of_stripes(rt, map, size.is_one))
}

fn in_set<R: Wait + AllocGlobal, C: Case>(
    rt: &R,
    case: &C,
    hasher: Masked,
    size: Size,
) -> Result<bool, AllocError> {
    let alloc = rt.alloc();
    let Ok(set) = RuledSet::<Token, Anything, Masked>::with_capacity_and_hasher(
        alloc, size.slots, hasher,
    ) else {
        return Err(AllocError);
    };
    case.check(alloc, &mut Held::of_stripes(rt, set, size.is_one))
}

fn in_index<R: Wait + AllocGlobal, C: Case>(
    rt: &R,
    case: &C,
    hasher: Masked,
    size: Size,
) -> Result<bool, AllocError> {
    let alloc = rt.alloc();
    let Ok(index) = RuledIndex::<Token, Token, Anything, Masked>::with_capacity_and_hasher(
        alloc, size.slots, hasher,
    ) else {
        return Err(AllocError);
    };
    case.check(alloc, &mut Held::of_stripes(rt, index, size.is_one))
}

fn in_cache<R: Wait + AllocGlobal, C: Case>(
    rt: &R,
    case: &C,
    hasher: Masked,
    size: Size,
) -> Result<bool, AllocError> {
    let alloc = rt.alloc();
    let Ok(cache) = RuledCache::<Token, Token, Anything, Masked>::with_capacity_and_hasher(
        alloc,
        size.slots,
        size.maximum,
        hasher,
    ) else {
        return Err(AllocError);
    };
    case.check(alloc, &mut Held::of_stripes(rt, cache, size.is_one))
}

/// Tries a case in each kind under a rule, of the given size. Prints a line for each kind in which the case doesn't
/// hold. Returns the worst status.
pub fn in_ruled_forms<R: Wait + AllocGlobal + Print, C: Case>(
    rt: &R,
    case: &C,
    what: &str,
    hasher: Masked,
    size: Size,
) -> u8 {
    let map = in_map(rt, case, hasher, size);
    let form = size.name("ruled map of one stripe", "ruled map of stripes");
    let worst = tell(rt, case, form, what, map);
    let set = in_set(rt, case, hasher, size);
    let form = size.name("ruled set of one stripe", "ruled set of stripes");
    let worst = worst.max(tell(rt, case, form, what, set));
    let index = in_index(rt, case, hasher, size);
    let form = size.name("ruled index of one stripe", "ruled index of stripes");
    let worst = worst.max(tell(rt, case, form, what, index));
    let cache = in_cache(rt, case, hasher, size);
    let form = size.name("ruled cache of one stripe", "ruled cache of stripes");
    worst.max(tell(rt, case, form, what, cache))
}

/// Tries a case in each kind: owned, and shared under no rule and under one, each on one stripe and on several. Prints
/// a line for the case, and one for each form in which it doesn't hold. Returns the worst status.
pub fn in_every_form<R: Wait + AllocGlobal + Print, C: Case>(
    rt: &R,
    case: &C,
    what: &str,
    hasher: Masked,
) -> u8 {
    let plain = in_plain_forms(rt, case, what, hasher);
    let one = in_ruled_forms(rt, case, what, hasher, ONE_STRIPE);
    let several = in_ruled_forms(rt, case, what, hasher, STRIPES);
    let worst = plain.max(one).max(several);
    worst.max(say(rt, "every form", what, Ok(worst == HELD)))
}
