//! A case, tried in every kind and form of container.

use crate::with_runtime::Held;
use scc_shared::index::HashIndex;
use scc_shared::map::HashMap;
use scc_shared_cache::HashCache;
use scc_shared_set::HashSet;
use std::alloc::{AllocError, Global};
use std::sync::Wait;
use test_forms::form::Form;
use test_forms::token::Token;
use test_kit::lines::{HELD, say};
use test_kit::masked::Masked;

/// A case.
pub trait Case {
    /// Tries the case on `form`, which is empty. Returns whether the case holds.
    fn check<F: Form>(&self, alloc: Global, form: &mut F) -> Result<bool, AllocError>;

    /// Returns whether the case still holds after the container is dropped.
    fn has_ended(&self) -> bool;
}

/// The size of a shared container.
#[derive(Clone, Copy)]
pub struct Size {
    /// The number of slots that are asked for.
    pub slots: usize,
    /// The most slots of a cache.
    pub maximum: usize,
    /// Whether a container of the size has one stripe.
    pub is_one: bool,
}

impl Size {
    /// Returns `of_one` if the size has one stripe, else `of_several`.
    pub fn name(self, of_one: &'static str, of_several: &'static str) -> &'static str {
        if self.is_one { of_one } else { of_several }
    }
}

/// The size of a container of one stripe.
pub const ONE_STRIPE: Size = Size {
    slots: 64,
    maximum: 64,
    is_one: true,
};

/// The size of a container of several stripes.
pub const STRIPES: Size = Size {
    slots: 0,
    maximum: 256,
    is_one: false,
};

fn in_owned_map<C: Case>(alloc: Global, case: &C, hasher: Masked) -> Result<bool, AllocError> {
    let mut map: scc_owned::map::Owned<Token, Token, Masked> = scc_owned::map::Owned::with_hasher(
        alloc, hasher,
    );
    case.check(alloc, &mut map)
}

fn in_owned_set<C: Case>(alloc: Global, case: &C, hasher: Masked) -> Result<bool, AllocError> {
    let mut set: scc_owned_set::Owned<Token, Masked> = scc_owned_set::Owned::with_hasher(
        alloc, hasher,
    );
    case.check(alloc, &mut set)
}

fn in_owned_index<C: Case>(alloc: Global, case: &C, hasher: Masked) -> Result<bool, AllocError> {
    let mut index: scc_owned::index::Owned<Token, Token, Masked> =
        scc_owned::index::Owned::with_hasher(alloc, hasher);
    case.check(alloc, &mut index)
}

fn in_owned_cache<C: Case>(alloc: Global, case: &C, hasher: Masked) -> Result<bool, AllocError> {
    let mut cache: scc_owned_cache::Owned<Token, Token, Masked> =
        scc_owned_cache::Owned::with_hasher(alloc, hasher);
    case.check(alloc, &mut cache)
}

fn in_map<R: Wait + AllocGlobal, C: Case>(
    rt: &R,
    case: &C,
    hasher: Masked,
    size: Size,
) -> Result<bool, AllocError> {
    let alloc = rt.alloc();
    let Ok(map) = HashMap::<Token, Token, Masked>::with_capacity_and_hasher(
        alloc, size.slots, hasher,
    ) else {
        return Err(AllocError);
    };
    case.check(alloc, &mut Held::of_stripes(rt, map, size.is_one))
}

fn in_set<R: Wait + AllocGlobal, C: Case>(
    rt: &R,
    case: &C,
    hasher: Masked,
    size: Size,
) -> Result<bool, AllocError> {
    let alloc = rt.alloc();
    let Ok(set) = HashSet::<Token, Masked>::with_capacity_and_hasher(alloc, size.slots, hasher)
    else {
        return Err(AllocError);
    };
    case.check(alloc, &mut Held::of_stripes(rt, set, size.is_one))
}

fn in_index<R: Wait + AllocGlobal, C: Case>(
    rt: &R,
    case: &C,
    hasher: Masked,
    size: Size,
) -> Result<bool, AllocError> {
    let alloc = rt.alloc();
    let Ok(index) = HashIndex::<Token, Token, Masked>::with_capacity_and_hasher(
        alloc, size.slots, hasher,
    ) else {
        return Err(AllocError);
    };
    case.check(alloc, &mut Held::of_stripes(rt, index, size.is_one))
}

fn in_cache<R: Wait + AllocGlobal, C: Case>(
    rt: &R,
    case: &C,
    hasher: Masked,
    size: Size,
) -> Result<bool, AllocError> {
    let alloc = rt.alloc();
    let Ok(cache) = HashCache::<Token, Token, Masked>::with_capacity_and_hasher(
        alloc,
        size.slots,
        size.maximum,
        hasher,
    ) else {
        return Err(AllocError);
    };
    case.check(alloc, &mut Held::of_stripes(rt, cache, size.is_one))
}

/// Prints `what` and `form` if the case didn't hold. Returns the status of the case, whose container is gone.
pub fn tell<R: Print, C: Case>(
    rt: &R,
    case: &C,
    form: &str,
    what: &str,
    outcome: Result<bool, AllocError>,
) -> u8 {
    match outcome {
        Ok(held) if held && case.has_ended() => HELD,
        Ok(_) => say(rt, form, what, Ok(false)),
        Err(refused) => say(rt, form, what, Err(refused)),
    }
}

/// Tries a case in each owned kind. Returns the worst status.
fn in_owned_forms<R: AllocGlobal + Print, C: Case>(
    rt: &R,
    case: &C,
    what: &str,
    hasher: Masked,
) -> u8 {
    let alloc = rt.alloc();
    let map = in_owned_map(alloc, case, hasher);
    let worst = tell(rt, case, "owned map", what, map);
    let set = in_owned_set(alloc, case, hasher);
    let worst = worst.max(tell(rt, case, "owned set", what, set));
    let index = in_owned_index(alloc, case, hasher);
    let worst = worst.max(tell(rt, case, "owned index", what, index));
    let cache = in_owned_cache(alloc, case, hasher);
    worst.max(tell(rt, case, "owned cache", what, cache))
}

/// Tries a case in each shared kind of the given size. Returns the worst status.
fn in_shared_forms<R: Wait + AllocGlobal + Print, C: Case>(
    rt: &R,
    case: &C,
    what: &str,
    hasher: Masked,
    size: Size,
) -> u8 {
    let map = in_map(rt, case, hasher, size);
    let form = size.name("map of one stripe", "map of stripes");
    let worst = tell(rt, case, form, what, map);
    let set = in_set(rt, case, hasher, size);
    let form = size.name("set of one stripe", "set of stripes");
    let worst = worst.max(tell(rt, case, form, what, set));
    let index = in_index(rt, case, hasher, size);
    let form = size.name("index of one stripe", "index of stripes");
    let worst = worst.max(tell(rt, case, form, what, index));
    let cache = in_cache(rt, case, hasher, size);
    let form = size.name("cache of one stripe", "cache of stripes");
    worst.max(tell(rt, case, form, what, cache))
}

/// Tries a case in each kind: owned, shared on one stripe, and shared on several. Prints a line for each form in which
/// the case doesn't hold. Returns the worst status.
pub fn in_plain_forms<R: Wait + AllocGlobal + Print, C: Case>(
    rt: &R,
    case: &C,
    what: &str,
    hasher: Masked,
) -> u8 {
    let owned = in_owned_forms(rt, case, what, hasher);
    let one = in_shared_forms(rt, case, what, hasher, ONE_STRIPE);
    let several = in_shared_forms(rt, case, what, hasher, STRIPES);
    owned.max(one).max(several)
}
