// The owned kinds, made for a job.
use crate::makers::{Job, Made, Of, item, until_made};
use std::alloc::Global;
use std::io::Print;
use std::process::Abort;
use std::sync::Wait;
use test_forms::form::Form;
use test_forms::token::Token;
use test_kit::masked::{Masked, ZERO};
use test_kit::refusals::Refusal;

pub(crate) type Map = scc_owned::map::Owned<Token, Token, Masked>;

pub(crate) type Set = scc_owned_set::Owned<Token, Masked>;

pub(crate) type Index = scc_owned::index::Owned<Token, Token, Masked>;

pub(crate) type Cache = scc_owned_cache::Owned<Token, Token, Masked>;

impl Made for Map {
    fn make<R: Wait>(_rt: &R, alloc: Global, slots: Option<usize>) -> Option<Self> {
        match slots {
            Some(slots) => scc_owned::map::Owned::with_capacity_and_hasher(alloc, slots, ZERO).ok(),
            None => scc_owned::map::Owned::try_from_iter(alloc, (0..34).map(item)).ok(),
        }
    }
}

impl Made for Set {
    fn make<R: Wait>(_rt: &R, alloc: Global, slots: Option<usize>) -> Option<Self> {
        match slots {
            Some(slots) => scc_owned_set::Owned::with_capacity_and_hasher(alloc, slots, ZERO).ok(),
            None => scc_owned_set::Owned::try_from_iter(alloc, (0..34).map(Token::of)).ok(),
        }
    }
}

impl Made for Index {
    fn make<R: Wait>(_rt: &R, alloc: Global, slots: Option<usize>) -> Option<Self> {
        match slots {
            Some(slots) => scc_owned::index::Owned::with_capacity_and_hasher(
                alloc, slots, ZERO,
            ).ok(),
            None => scc_owned::index::Owned::try_from_iter(alloc, (0..34).map(item)).ok(),
        }
    }
}

impl Made for Cache {
    fn make<R: Wait>(_rt: &R, alloc: Global, slots: Option<usize>) -> Option<Self> {
        match slots {
            Some(slots) => scc_owned_cache::Owned::with_capacity_and_hasher(
                alloc, slots, 128, ZERO,
            ).ok(),
            None => scc_owned_cache::Owned::try_from_iter(alloc, (0..34).map(item)).ok(),
        }
    }
}

/// Makes an owned container until it isn't refused, and does the job with it.
pub(crate) fn work<C: Made + Form + Drop, J: Job, R: AllocGlobal + Abort + Print + Wait>(
    rt: &R,
    refusal: &mut Refusal,
    of: Of,
    slots: Option<usize>,
    job: &J,
) {
    match until_made::<C, R>(rt, refusal, of, slots) {
        Some(mut container) => job.run(rt, refusal, of, &mut container),
        None => panic!(rt; "it is refused each time"),
    }
}
