// Constructors and collections of items: a call makes the whole or nothing. Slots for which no memory is enough are
// refused in each run.
use crate::expect::{expect, expect_eq};
use crate::looks::expect_keys;
use crate::makers::{EVERY, Job, Of, of_items, with};
use crate::meetings;
use scc_shared::index::HashIndex;
use scc_shared::map::HashMap;
use scc_shared_cache::HashCache;
use scc_shared_set::HashSet;
use std::alloc::Global;
use std::io::Print;
use std::process::Abort;
use std::sync::Wait;
use test_forms::answers::Kind;
use test_forms::form::{Form, Way};
use test_kit::refusals::{Refusal, TRIES};

// The slots that are asked for, and the slots that are made.
const SIZES: [(usize, usize); 3] = [(0, 0), (1, 64), (65, 128)];

// Checks that the container is empty and has `capacity` slots.
#[derive(Drop)]
struct Empty {
    capacity: usize,
}

impl Job for Empty {
    fn run<F: Form, R: AllocGlobal + Abort + Print + Wait>(
        &self,
        rt: &R,
        _refusal: &mut Refusal,
        of: Of,
        form: &mut F,
    ) {
        let sizes = form.sizes();
        expect_eq(rt, (sizes.len, sizes.capacity), (0, self.capacity));
    }
}

// Checks that the container has the keys below 34 and 128 slots, or 64 if the growth was refused both for the 33rd key
// and for the 34th. A cache has at most as many slots as it was given items, 64, and only the last 32 keys.
#[derive(Drop)]
struct Collected;

impl Job for Collected {
    fn run<F: Form, R: AllocGlobal + Abort + Print + Wait>(
        &self,
        rt: &R,
        refusal: &mut Refusal,
        of: Of,
        form: &mut F,
    ) {
        let is_bounded = of.kind() == Kind::Cache;
        let first = if is_bounded { 2 } else { 0 };
        expect_keys(rt, form, Way::Insert, first, 34);
        let capacity = form.sizes().capacity;
        if is_bounded {
            expect_eq(rt, capacity, 64);
        } else if capacity == 64 {
            meetings::growth(rt, refusal, of);
            meetings::growth(rt, refusal, of);
        } else {
            expect_eq(rt, capacity, 128);
        }
    }
}

pub(crate) fn expect_made<R: AllocGlobal + Abort + Print + Wait>(rt: &R, of: Of) {
    let mut refusal = Refusal::new();
    for (asked, capacity) in SIZES {
        with(rt, &mut refusal, of, asked, &Empty { capacity });
    }
    of_items(rt, &mut refusal, of, &Collected);
}

#[test]
fn each_form_is_made_whole_or_not(rt: HostRuntime) {
    for of in EVERY {
        expect_made(&rt, of);
    }
}

// A container with the common hasher, made for a number of slots.
trait Sizing: Sized {
    /// Makes an empty container for `asked` slots, or returns `None` if memory is refused.
    fn make(alloc: Global, asked: usize) -> Option<Self>;

    /// Returns the number of keys and the number of slots.
    fn sizes<R: Wait>(&self, rt: &R) -> (usize, usize);
}

/// Returns the sizes of a container for `asked` slots, or `None` if it is refused each time.
fn sizes_of<C: Sizing + Drop, R: AllocGlobal + Print + Wait>(
    rt: &R,
    refusal: &mut Refusal,
    what: &str,
    asked: usize,
) -> Option<(usize, usize)> {
    for _ in 0..TRIES {
        match C::make(rt.alloc(), asked) {
            Some(made) => return Some(made.sizes(rt)),
            None => refusal.meet(rt, what),
        }
    }
    None
}

/// Makes containers of each size until none is refused, and one for whose slots no memory is enough. A refusal is told
/// as that of `what`.
fn outlast<C: Sizing + Drop, R: AllocGlobal + Abort + Print + Wait>(rt: &R, what: &str) {
    let mut refusal = Refusal::new();
    expect(rt, C::make(rt.alloc(), usize::MAX).is_none());
    for (asked, capacity) in SIZES {
        let sizes = sizes_of::<C, R>(rt, &mut refusal, what, asked);
        expect_eq(rt, sizes, Some((0, capacity)));
    }
}

impl Sizing for scc_owned::map::Owned<u64, u64> {
    fn make(alloc: Global, asked: usize) -> Option<Self> {
        scc_owned::map::Owned::with_capacity(alloc, asked).ok()
    }

    fn sizes<R: Wait>(&self, _rt: &R) -> (usize, usize) {
        (self.len(), self.capacity())
    }
}

#[test]
fn map_with_capacity_is_made_whole_or_not(rt: HostRuntime) {
    outlast::<scc_owned::map::Owned<u64, u64>, _>(&rt, "a map of the common hasher");
}

impl Sizing for scc_owned_set::Owned<u64> {
    fn make(alloc: Global, asked: usize) -> Option<Self> {
        scc_owned_set::Owned::with_capacity(alloc, asked).ok()
    }

    fn sizes<R: Wait>(&self, _rt: &R) -> (usize, usize) {
        (self.len(), self.capacity())
    }
}

#[test]
fn set_with_capacity_is_made_whole_or_not(rt: HostRuntime) {
    outlast::<scc_owned_set::Owned<u64>, _>(&rt, "a set of the common hasher");
}

impl Sizing for scc_owned::index::Owned<u64, u64> {
    fn make(alloc: Global, asked: usize) -> Option<Self> {
        scc_owned::index::Owned::with_capacity(alloc, asked).ok()
    }

    fn sizes<R: Wait>(&self, _rt: &R) -> (usize, usize) {
        (self.len(), self.capacity())
    }
}

#[test]
fn index_with_capacity_is_made_whole_or_not(rt: HostRuntime) {
    outlast::<scc_owned::index::Owned<u64, u64>, _>(&rt, "an index of the common hasher");
}

impl Sizing for scc_owned_cache::Owned<u64, u64> {
    fn make(alloc: Global, asked: usize) -> Option<Self> {
        scc_owned_cache::Owned::with_capacity(alloc, asked, asked.max(128)).ok()
    }

    fn sizes<R: Wait>(&self, _rt: &R) -> (usize, usize) {
        (self.len(), self.capacity())
    }
}

#[test]
fn cache_with_capacity_is_made_whole_or_not(rt: HostRuntime) {
    outlast::<scc_owned_cache::Owned<u64, u64>, _>(&rt, "a cache of the common hasher");
}

impl Sizing for HashMap<u64, u64> {
    fn make(alloc: Global, asked: usize) -> Option<Self> {
        HashMap::with_capacity(alloc, asked).ok()
    }

    fn sizes<R: Wait>(&self, rt: &R) -> (usize, usize) {
        (self.len(rt), self.capacity(rt))
    }
}

#[test]
fn shared_map_with_capacity_is_made_whole_or_not(rt: HostRuntime) {
    outlast::<HashMap<u64, u64>, _>(&rt, "a shared map of the common hasher");
}

impl Sizing for HashSet<u64> {
    fn make(alloc: Global, asked: usize) -> Option<Self> {
        HashSet::with_capacity(alloc, asked).ok()
    }

    fn sizes<R: Wait>(&self, rt: &R) -> (usize, usize) {
        (self.len(rt), self.capacity(rt))
    }
}

#[test]
fn shared_set_with_capacity_is_made_whole_or_not(rt: HostRuntime) {
    outlast::<HashSet<u64>, _>(&rt, "a shared set of the common hasher");
}

impl Sizing for HashIndex<u64, u64> {
    fn make(alloc: Global, asked: usize) -> Option<Self> {
        HashIndex::with_capacity(alloc, asked).ok()
    }

    fn sizes<R: Wait>(&self, rt: &R) -> (usize, usize) {
        (self.len(rt), self.capacity(rt))
    }
}

#[test]
fn shared_index_with_capacity_is_made_whole_or_not(rt: HostRuntime) {
    outlast::<HashIndex<u64, u64>, _>(&rt, "a shared index of the common hasher");
}

impl Sizing for HashCache<u64, u64> {
    fn make(alloc: Global, asked: usize) -> Option<Self> {
        HashCache::with_capacity(alloc, asked, asked.max(128)).ok()
    }

    fn sizes<R: Wait>(&self, rt: &R) -> (usize, usize) {
        (self.len(rt), self.capacity(rt))
    }
}

#[test]
fn shared_cache_with_capacity_is_made_whole_or_not(rt: HostRuntime) {
    outlast::<HashCache<u64, u64>, _>(&rt, "a shared cache of the common hasher");
}
