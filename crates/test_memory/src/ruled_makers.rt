// The kinds under a rule, made for a job.
use crate::makers::{Job, Made, Of, item, until_made};
use scc_common::Anything;
use scc_shared::ruled_index::RuledIndex;
use scc_shared::ruled_map::RuledMap;
use scc_shared_cache::RuledCache;
use scc_shared_set::RuledSet;
use std::alloc::Global;
use std::io::Print;
use std::process::Abort;
use std::sync::Wait;
use test_forms::token::Token;
use test_forms_ruled::with_runtime::Held;
use test_kit::masked::{Masked, ZERO};
use test_kit::refusals::Refusal;

pub(crate) type Map = RuledMap<Token, Token, Anything, Masked>;

pub(crate) type Set = RuledSet<Token, Anything, Masked>;

pub(crate) type Index = RuledIndex<Token, Token, Anything, Masked>;

pub(crate) type Cache = RuledCache<Token, Token, Anything, Masked>;

impl Made for Map {
    fn make<R: Wait>(rt: &R, alloc: Global, slots: Option<usize>) -> Option<Self> {
        match slots {
            Some(slots) => RuledMap::with_capacity_and_hasher(alloc, slots, ZERO).ok(),
            None => RuledMap::try_from_iter(rt, alloc, (0..34).map(item)).ok(),
        }
    }
}

impl Made for Set {
    fn make<R: Wait>(rt: &R, alloc: Global, slots: Option<usize>) -> Option<Self> {
        match slots {
            Some(slots) => RuledSet::with_capacity_and_hasher(alloc, slots, ZERO).ok(),
            None => RuledSet::try_from_iter(rt, alloc, (0..34).map(Token::of)).ok(),
        }
    }
}

impl Made for Index {
    fn make<R: Wait>(rt: &R, alloc: Global, slots: Option<usize>) -> Option<Self> {
        match slots {
            Some(slots) => RuledIndex::with_capacity_and_hasher(alloc, slots, ZERO).ok(),
            None => RuledIndex::try_from_iter(rt, alloc, (0..34).map(item)).ok(),
        }
    }
}

impl Made for Cache {
    fn make<R: Wait>(rt: &R, alloc: Global, slots: Option<usize>) -> Option<Self> {
        match slots {
            Some(slots) => RuledCache::with_capacity_and_hasher(alloc, slots, 128, ZERO).ok(),
            None => RuledCache::try_from_iter(rt, alloc, (0..34).map(item)).ok(),
        }
    }
}

/// Makes a map until it isn't refused, and does the job with it.
pub(crate) fn work_on_map<J: Job, R: AllocGlobal + Abort + Print + Wait>(
    rt: &R,
    refusal: &mut Refusal,
    slots: Option<usize>,
    job: &J,
) {
    match until_made::<Map, R>(rt, refusal, Of::RuledMap, slots) {
        Some(map) => job.run(rt, refusal, Of::RuledMap, &mut Held::new(rt, map)),
        None => panic!(rt; "it is refused each time"),
    }
}

/// Makes a set until it isn't refused, and does the job with it.
pub(crate) fn work_on_set<J: Job, R: AllocGlobal + Abort + Print + Wait>(
    rt: &R,
    refusal: &mut Refusal,
    slots: Option<usize>,
    job: &J,
) {
    match until_made::<Set, R>(rt, refusal, Of::RuledSet, slots) {
        Some(set) => job.run(rt, refusal, Of::RuledSet, &mut Held::new(rt, set)),
        None => panic!(rt; "it is refused each time"),
    }
}

/// Makes an index until it isn't refused, and does the job with it.
pub(crate) fn work_on_index<J: Job, R: AllocGlobal + Abort + Print + Wait>(
    rt: &R,
    refusal: &mut Refusal,
    slots: Option<usize>,
    job: &J,
) {
    match until_made::<Index, R>(rt, refusal, Of::RuledIndex, slots) {
        Some(index) => job.run(rt, refusal, Of::RuledIndex, &mut Held::new(rt, index)),
        None => panic!(rt; "it is refused each time"),
    }
}

/// Makes a cache until it isn't refused, and does the job with it.
pub(crate) fn work_on_cache<J: Job, R: AllocGlobal + Abort + Print + Wait>(
    rt: &R,
    refusal: &mut Refusal,
    slots: Option<usize>,
    job: &J,
) {
    match until_made::<Cache, R>(rt, refusal, Of::RuledCache, slots) {
        Some(cache) => job.run(rt, refusal, Of::RuledCache, &mut Held::new(rt, cache)),
        None => panic!(rt; "it is refused each time"),
    }
}
