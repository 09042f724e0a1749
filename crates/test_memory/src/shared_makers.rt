// The shared kinds, made for a job.
use crate::makers::{Job, Made, Of, item, until_made};
use scc_shared::index::HashIndex;
use scc_shared::map::HashMap;
use scc_shared_cache::HashCache;
use scc_shared_set::HashSet;
use std::alloc::Global;
use std::io::Print;
use std::process::Abort;
use std::sync::Wait;
use test_forms::token::Token;
use test_forms_shared::with_runtime::Held;
use test_kit::masked::{Masked, ZERO};
use test_kit::refusals::Refusal;

pub(crate) type Map = HashMap<Token, Token, Masked>;

pub(crate) type Set = HashSet<Token, Masked>;

pub(crate) type Index = HashIndex<Token, Token, Masked>;

pub(crate) type Cache = HashCache<Token, Token, Masked>;

impl Made for Map {
    fn make<R: Wait>(rt: &R, alloc: Global, slots: Option<usize>) -> Option<Self> {
        match slots {
            Some(slots) => HashMap::with_capacity_and_hasher(alloc, slots, ZERO).ok(),
            None => HashMap::try_from_iter(rt, alloc, (0..34).map(item)).ok(),
        }
    }
}

impl Made for Set {
    fn make<R: Wait>(rt: &R, alloc: Global, slots: Option<usize>) -> Option<Self> {
        match slots {
            Some(slots) => HashSet::with_capacity_and_hasher(alloc, slots, ZERO).ok(),
            None => HashSet::try_from_iter(rt, alloc, (0..34).map(Token::of)).ok(),
        }
    }
}

impl Made for Index {
    fn make<R: Wait>(rt: &R, alloc: Global, slots: Option<usize>) -> Option<Self> {
        match slots {
            Some(slots) => HashIndex::with_capacity_and_hasher(alloc, slots, ZERO).ok(),
            None => HashIndex::try_from_iter(rt, alloc, (0..34).map(item)).ok(),
        }
    }
}

impl Made for Cache {
    fn make<R: Wait>(rt: &R, alloc: Global, slots: Option<usize>) -> Option<Self> {
        match slots {
            Some(slots) => HashCache::with_capacity_and_hasher(alloc, slots, 128, ZERO).ok(),
            None => HashCache::try_from_iter(rt, alloc, (0..34).map(item)).ok(),
        }
    }
}

/// Makes a map until it isn't refused, and does the job with it.
pub(crate) fn work_on_map<J: Job, R: AllocGlobal + Abort + Print + Wait>(
    rt: &R,
    refusal: &mut Refusal,
    slots: Option<usize>,
    job: &J,
) {
    match until_made::<Map, R>(rt, refusal, Of::SharedMap, slots) {
        Some(map) => job.run(rt, refusal, Of::SharedMap, &mut Held::new(rt, map)),
        None => panic!(rt; "it is refused each time"),
    }
}

/// Makes a set until it isn't refused, and does the job with it.
pub(crate) fn work_on_set<J: Job, R: AllocGlobal + Abort + Print + Wait>(
    rt: &R,
    refusal: &mut Refusal,
    slots: Option<usize>,
    job: &J,
) {
    match until_made::<Set, R>(rt, refusal, Of::SharedSet, slots) {
        Some(set) => job.run(rt, refusal, Of::SharedSet, &mut Held::new(rt, set)),
        None => panic!(rt; "it is refused each time"),
    }
}

/// Makes an index until it isn't refused, and does the job with it.
pub(crate) fn work_on_index<J: Job, R: AllocGlobal + Abort + Print + Wait>(
    rt: &R,
    refusal: &mut Refusal,
    slots: Option<usize>,
    job: &J,
) {
    match until_made::<Index, R>(rt, refusal, Of::SharedIndex, slots) {
        Some(index) => job.run(rt, refusal, Of::SharedIndex, &mut Held::new(rt, index)),
        None => panic!(rt; "it is refused each time"),
    }
}

/// Makes a cache until it isn't refused, and does the job with it.
pub(crate) fn work_on_cache<J: Job, R: AllocGlobal + Abort + Print + Wait>(
    rt: &R,
    refusal: &mut Refusal,
    slots: Option<usize>,
    job: &J,
) {
    match until_made::<Cache, R>(rt, refusal, Of::SharedCache, slots) {
        Some(cache) => job.run(rt, refusal, Of::SharedCache, &mut Held::new(rt, cache)),
        None => panic!(rt; "it is refused each time"),
    }
}
